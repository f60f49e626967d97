//! A copy of a server's log, with the states that were asked for.

ghost use Rattle.std.specs.Prelude.{◌≡◌, ◌≤◌, ◌++◌, [], IfOk, OnOk, OnErr, length, map, take};
ghost use Rattle.std.specs.Arc.{arc_value};
ghost use Rattle.kube_server.specs.History.{state_of, state_at, objects_of};
ghost use Rattle.kube_server.specs.Servers.{meta_of};
ghost use Rattle.kube_server.specs.Stored.{change_of};

use crate::entry::Entry;
use crate::objects::Objects;
use kube_meta::{DynamicObject, NoMemory};
use std::alloc::Global;
use std::marker::Model;
use std::sync::Arc;

/// The changes of a server, from the first on.
///
/// It keeps the newest state that was asked for as a map, and the objects of the revision that was asked for last, so
/// that the pages of one list take no longer than what they give.
#[derive(Drop)]
pub(crate) struct Log {
    entries: Vec<Entry>,
    /// What the first `applied` entries made.
    newest: Objects,
    applied: usize,
    /// The objects of a revision.
    shown: Vec<Arc<DynamicObject>>,
    revision: usize,
}

impl Model for Log {
    ghost use Rattle.kube_server.specs.Logs.{LogState};

    ghost Value = { LogState };

    ghost use Rattle.serde_json.specs.contracts.value.Value as json;
    ghost use Rattle.std.specs.Coded.{codes};

    ghost coded = { Prim.hlevel (codes, json.the_row.coded) };

    ghost use Rattle.std.specs.Prelude.{map};
    ghost use Rattle.kube_server.specs.Stored.{change_of};

    ghost view = { λ l. record { changes = map change_of l.entries.items; shown = l.revision } };

    ghost use Rattle.kube_server.specs.Kept.{IsKept};

    ghost invariant = { λ l. IsKept (map change_of l.entries.items) l.newest l.applied l.shown.items l.revision };
}

/// The objects after these entries.
fn replayed(alloc: Global, entries: &[Entry]) -> Result<Objects, NoMemory>
    ensures { IfOk result (λ o. o ≡ state_of meta_of (map change_of entries.now)) }
{
    let mut objects = Objects::new(alloc);
    for entry in entries {
        objects.apply(alloc, entry)?;
    }
    Ok(objects)
}

/// Applies the entries from a number on to what those before it made, and counts them.
fn catch_up(
    alloc: Global,
    entries: &[Entry],
    objects: &mut Objects,
    applied: &mut usize,
) -> Result<(), NoMemory>
    requires count { applied.old ≤ length entries.now }
    requires made { objects.old ≡ state_at meta_of (map change_of entries.now) applied.old }
    ensures count { applied.new ≤ length entries.now }
    ensures made { objects.new ≡ state_at meta_of (map change_of entries.now) applied.new }
    ensures all { OnOk result (applied.new ≡ length entries.now) }
{
    while *applied < entries.len() {
        objects.apply(alloc, &entries[*applied])?;
        *applied += 1;
    }
    Ok(())
}

/// The objects of a revision. Of the newest they come from those that the first entries made, brought up to date.
///
/// Errors: `NoMemory`.
fn laid(
    alloc: Global,
    entries: &[Entry],
    newest: &mut Objects,
    applied: &mut usize,
    revision: usize,
) -> Result<Vec<Arc<DynamicObject>>, NoMemory>
    requires count { applied.old ≤ length entries.now }
    requires made { newest.old ≡ state_at meta_of (map change_of entries.now) applied.old }
    requires known { revision ≤ length entries.now }
    ensures count { applied.new ≤ length entries.now }
    ensures made { newest.new ≡ state_at meta_of (map change_of entries.now) applied.new }
    ensures laid { IfOk result (λ v. map arc_value v.items ≡ objects_of (state_at meta_of (map change_of entries.now) revision)) }
{
    if revision < entries.len() {
        let objects = replayed(alloc, &entries[..revision])?;
        return objects.all(alloc);
    }
    catch_up(alloc, entries, newest, applied)?;
    newest.all(alloc)
}

/// Equal entries, whose objects are shared.
fn share_all(alloc: Global, entries: &[Entry]) -> Result<Vec<Entry>, NoMemory>
    ensures { IfOk result (λ v. map change_of v.items ≡ map change_of entries.now) }
{
    let mut all = Vec::with_capacity(alloc, entries.len())?;
    for entry in entries {
        all.push(entry.share()?)?;
    }
    Ok(all)
}

impl Log {
    /// No change yet.
    pub(crate) fn new(alloc: Global) -> Log
        ensures { result ≡ record { changes = []; shown = 0 } }
    {
        Log {
            entries: Vec::new(alloc),
            newest: Objects::new(alloc),
            applied: 0,
            shown: Vec::new(alloc),
            revision: 0,
        }
    }

    /// The entries from the first on.
    pub(crate) fn entries(&self) -> &[Entry]
        ensures { map change_of result.now ≡ self.now.changes }
    {
        self.entries.as_slice()
    }

    /// Further entries; their objects are shared.
    ///
    /// Errors: `NoMemory`, and all is as it was.
    pub(crate) fn extend(&mut self, alloc: Global, more: &[Entry]) -> Result<(), NoMemory>
        ensures ok { OnOk result (self.new ≡ record self.old { changes = self.old.changes ++ map change_of more.now }) }
        ensures err { OnErr result (self.new ≡ self.old) }
    {
        let mut added = share_all(alloc, more)?;
        self.entries.append(&mut added)?;
        Ok(())
    }

    /// Lays the objects of a revision ready.
    ///
    /// Errors: `NoMemory`, and those that lay ready still do.
    pub(crate) fn show(&mut self, alloc: Global, revision: usize) -> Result<(), NoMemory>
        requires { revision ≤ length self.old.changes }
        ensures ok { OnOk result (self.new ≡ record self.old { shown = revision }) }
        ensures err { OnErr result (self.new ≡ self.old) }
    {
        if revision == self.revision {
            return Ok(());
        }
        let entries = self.entries.as_slice();
        let shown = laid(
            alloc,
            entries,
            &mut self.newest,
            &mut self.applied,
            revision,
        )?;
        self.shown = shown;
        self.revision = revision;
        Ok(())
    }

    /// The objects that lie ready, in the order of their references.
    pub(crate) fn shown(&self) -> &[Arc<DynamicObject>]
        ensures { map arc_value result.now ≡ objects_of (state_at meta_of self.now.changes self.now.shown) }
    {
        self.shown.as_slice()
    }
}
