//! A connection to a server that changes between calls.

ghost use Rattle.std.specs.Prelude.{◌≡◌};
ghost use Rattle.kube_server.specs.History.{IsLater};

use super::plan::{OBJECTS, is_removal, place};
use kube_api::{ApiError, ApiMode, ListParams, Page, WatchEvent, WatchParams};
use kube_meta::{
    ApiResource, DynamicObject, Moment, NoMemory, ObjectMeta, ObjectRef, Polled, Text,
};
use kube_server::{Conn, Server};
use std::alloc::Global;
use std::marker::Model;
use std::panic::Expect;
use std::process::Abort;
use std::sync::Arc;

/// A turn, by its second: how many exchanges it may make, how many changes are made by its end, up to which revision they then
/// count as gone, and at which revision the store is after it (0: it is empty).
#[derive(Clone, Copy)]
pub struct Row {
    pub at: u64,
    pub budget: u32,
    pub changes: u64,
    pub compacted: u64,
    pub wanted: u64,
}

/// A server, and a connection to it that copies what is new there before each call. One change is made before each call,
/// as many as its turn has. It has what it stops by for want of memory.
#[derive(Drop)]
pub struct Live<R> {
    rt: R,
    server: Server,
    conn: Conn,
    rows: &'static [Row],
    made: u64,
}

impl<R> Model for Live<R> {
    ghost use Rattle.kube_meta.specs.declared.dynamic.DynamicObject.{DynamicObject};
    ghost use Rattle.kube_server.specs.Connections.{Connection};

    ghost Value = { Connection DynamicObject };

    ghost use Rattle.serde_json.specs.contracts.value.Value as json;
    ghost use Rattle.std.specs.Coded.{codes};

    ghost coded = { Prim.hlevel (codes, json.the_row.coded) };

    ghost view = { λ l. l.conn };

    ghost use Rattle.kube_server.specs.History.{IsLater};

    ghost invariant = { λ l. IsLater l.conn.changes l.server.changes l.conn.compacted l.server.compacted };
}

/// The type of the objects.
pub fn kind(rt: &impl Abort, alloc: Global) -> Arc<ApiResource> {
    let resource = ApiResource::new(alloc, "", "v1", "ConfigMap", "configmaps");
    Arc::new(alloc, resource.expect(rt, "memory")).expect(rt, "memory")
}

/// Makes the change of this number. Where it is refused something else is stored than what is to be.
fn change(rt: &impl Abort, alloc: Global, server: &mut Server, number: u64)
    ensures { IsLater server.old.changes server.new.changes server.old.compacted server.new.compacted }
{
    let name = format!(in alloc; "{}", place(number)).expect(rt, "memory");
    if is_removal(number) {
        let kind = kind(rt, alloc);
        let reference = ObjectRef::new_with(alloc, name.as_str(), kind).expect(rt, "memory");
        let _revision = server.remove(alloc, &reference);
    } else {
        let metadata = ObjectMeta {
            name: Some(Text::from(name)),
            ..ObjectMeta::empty()
        };
        let _revision = server.put(alloc, DynamicObject::bare(metadata));
    }
}

/// The row of a moment.
fn row_at(rows: &[Row], now: Moment) -> Option<Row> {
    for row in rows {
        if row.at == now.0 / 1_000_000_000 {
            return Some(*row);
        }
    }
    None
}

/// What the row of a moment has done before a call, after so many changes; how many there then are.
fn serve(rt: &impl Abort, alloc: Global, server: &mut Server, row: Option<Row>, made: u64) -> u64
    ensures { IsLater server.old.changes server.new.changes server.old.compacted server.new.compacted }
{
    let Some(row) = row else {
        return made;
    };
    let is_due = made < row.changes;
    if is_due {
        change(rt, alloc, server, made);
    }
    server.compact(row.compacted);
    made.saturating_add(is_due as u64)
}

impl<R: Abort + Copy> Live<R> {
    /// A connection to a server with all objects, which changes as these rows say.
    pub fn new(rt: &R, alloc: Global, rows: &'static [Row]) -> Live<R> {
        let mut server = Server::new(alloc, kind(rt, alloc));
        for number in 0..OBJECTS {
            change(rt, alloc, &mut server, number);
        }
        let conn = Conn::new(alloc, &server).expect(rt, "memory");
        Live {
            rt: *rt,
            server,
            conn,
            rows,
            made: OBJECTS,
        }
    }

    /// Makes the next change of this moment's turn, and copies what is new.
    fn go_on(&mut self, alloc: Global, now: Moment) -> Result<(), NoMemory>
        ensures talk { self.new.talk ≡ self.old.talk }
        ensures failures { self.new.failures ≡ self.old.failures }
    {
        let row = row_at(self.rows, now);
        self.made = serve(&self.rt, alloc, &mut self.server, row, self.made);
        self.conn.feed(alloc, &self.server)
    }
}

impl<R: Abort + Copy> ApiMode for Live<R> {
    ghost use Rattle.std.specs.Prelude.{Some};

    type Value = DynamicObject;

    ghost talk = { λ c. Some c.talk };

    ghost faults = { λ c. c.failures };

    fn list(
        &mut self,
        alloc: Global,
        params: &ListParams,
        now: Moment,
    ) -> Result<Polled<Result<Page<DynamicObject>, ApiError>>, NoMemory> {
        self.go_on(alloc, now)?;
        self.conn.list(alloc, params, now)
    }

    fn watch(
        &mut self,
        alloc: Global,
        params: &WatchParams,
        version: &str,
        now: Moment,
    ) -> Result<Polled<Result<(), ApiError>>, NoMemory> {
        self.go_on(alloc, now)?;
        self.conn.watch(alloc, params, version, now)
    }

    fn next(
        &mut self,
        alloc: Global,
        now: Moment,
    ) -> Result<Polled<Option<Result<WatchEvent<DynamicObject>, ApiError>>>, NoMemory> {
        self.go_on(alloc, now)?;
        self.conn.next(alloc, now)
    }
}
