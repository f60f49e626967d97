//! What a connection told.

ghost use Rattle.std.specs.Prelude.{◌≡◌, ◌≤◌, ◌++◌, ◌∷◌, [], OnOk, OnErr};
ghost use Rattle.kube_model.specs.Raw.{FaultRose, is_fault};
ghost use Rattle.kube_server.specs.Connections.{failures_after};
ghost use Rattle.kube_server.specs.Stored.{raw_of};

use kube_api::{ApiError, ListParams, Page, WatchEvent, WatchParams};
use kube_meta::{DynamicObject, NoMemory, Polled, Text};
use std::alloc::Global;
use std::marker::Model;

/// A call with its answer.
#[derive(Drop)]
pub(crate) enum Told {
    List(ListParams, Result<Page<DynamicObject>, ApiError>),
    /// With the version from which is watched.
    Watch(WatchParams, Text, Result<(), ApiError>),
    /// A look at the open watch.
    Next(Polled<Option<Result<WatchEvent<DynamicObject>, ApiError>>>),
}

impl Told {
    /// Whether the call failed.
    fn is_fault(&self) -> bool
        ensures { result ≡ is_fault (raw_of self.now).answer }
    {
        match self {
            Told::List(_, page) => page.is_err(),
            Told::Watch(_, _, opened) => opened.is_err(),
            Told::Next(Polled::Ready(Some(event))) => event.is_err(),
            Told::Next(_) => false,
        }
    }
}

/// The calls so far with their answers, and how many of them failed.
#[derive(Drop)]
pub(crate) struct Talk {
    told: Vec<Told>,
    faults: u64,
}

impl Model for Talk {
    ghost use Rattle.std.specs.Prelude.{map};
    ghost use Rattle.kube_server.specs.Talks.{TalkState};

    ghost Value = { TalkState };

    ghost use Rattle.serde_json.specs.contracts.value.Value as json;
    ghost use Rattle.std.specs.Coded.{codes};

    ghost coded = { Prim.hlevel (codes, json.the_row.coded) };

    ghost use Rattle.kube_server.specs.Stored.{raw_of};

    ghost view = { λ t. record { raws = map raw_of t.told.items; failures = t.faults } };
}

impl Talk {
    /// No call yet.
    pub(crate) fn new(alloc: Global) -> Talk
        ensures { result ≡ record { raws = []; failures = 0 } }
    {
        Talk {
            told: Vec::new(alloc),
            faults: 0,
        }
    }

    /// One more call with its answer, which is counted where it failed.
    ///
    /// Errors: `NoMemory`, and all is as it was.
    pub(crate) fn tell(&mut self, told: Told) -> Result<(), NoMemory>
        ensures raws { OnOk result (self.new.raws ≡ self.old.raws ++ raw_of told ∷ []) }
        ensures failures { OnOk result (self.new.failures ≡ failures_after (raw_of told).answer self.old.failures) }
        ensures err { OnErr result (self.new ≡ self.old) }
        ensures faults { OnOk result (FaultRose (is_fault (raw_of told).answer) self.old.failures self.new.failures) }
        ensures rises { self.old.failures ≤ self.new.failures }
    {
        let failed = told.is_fault();
        self.told.push(told)?;
        if failed {
            self.faults = self.faults.saturating_add(1);
        }
        Ok(())
    }
}
