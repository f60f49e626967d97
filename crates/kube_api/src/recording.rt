//! The calls to a scripted API, with their answers.

ghost use Rattle.std.specs.Prelude.{◌≡◌, [], ◌∷◌, ◌++◌, map, OnOk, OnErr};
ghost use Rattle.kube_model.specs.Raw.{is_fault};
ghost use Rattle.kube_api.specs.Recordings.{call_of, answer_of};

use crate::event::{Page, WatchEvent};
use kube_meta::{NoMemory, Polled, Text};
use kube_model::error::ApiError;
use kube_model::params::{ListParams, WatchParams};
use std::alloc::Global;
use std::marker::Model;

/// A call to a scripted API (kube-runtime's `Recording`).
#[derive(Debug, Drop)]
pub enum Recording {
    List(ListParams),
    /// With the version from which is watched.
    Watch(WatchParams, Text),
    /// A look at the open watch.
    Next,
}

/// What a call was answered.
#[derive(Drop)]
pub enum Answered<K: Drop> {
    List(Result<Page<K>, ApiError>),
    Watch(Result<(), ApiError>),
    Next(Polled<Option<Result<WatchEvent<K>, ApiError>>>),
}

impl<K: Drop> Answered<K> {
    /// Whether the call failed.
    pub fn is_fault(&self) -> bool
        ensures { result ≡ is_fault (answer_of self.now) }
    {
        match self {
            Answered::List(page) => page.is_err(),
            Answered::Watch(opened) => opened.is_err(),
            Answered::Next(Polled::Ready(Some(event))) => event.is_err(),
            Answered::Next(_) => false,
        }
    }
}

/// The calls so far with their answers.
#[derive(Drop)]
pub struct Talk<K: Drop> {
    calls: Vec<Recording>,
    answers: Vec<Answered<K>>,
}

impl<K: Drop> Model for Talk<K> {
    ghost use Rattle.std.specs.Prelude.{List, ◌≡◌, length};
    ghost use Rattle.kube_model.specs.Raw.{Raw};

    ghost Value = { List (Raw K) };

    ghost use Rattle.kube_api.specs.Recordings.{talk_of};

    ghost view = { λ t. talk_of t.calls.items t.answers.items };

    ghost invariant = { λ t. length t.calls.items ≡ length t.answers.items };
}

impl<K: Drop> Talk<K> {
    /// No call yet.
    pub fn new(alloc: Global) -> Talk<K>
        ensures { result ≡ [] }
    {
        Talk {
            calls: Vec::new(alloc),
            answers: Vec::new(alloc),
        }
    }

    /// The calls so far, in order.
    pub fn calls(&self) -> &[Recording]
        ensures { map call_of result.now ≡ map (λ raw. raw.call) self.now }
    {
        self.calls.as_slice()
    }

    /// One more call with its answer.
    pub fn push(&mut self, call: Recording, answer: Answered<K>) -> Result<(), NoMemory>
        ensures ok { OnOk result (self.new ≡ self.old ++ record { call = call_of call; answer = answer_of answer } ∷ []) }
        ensures err { OnErr result (self.new ≡ self.old) }
    {
        self.calls.reserve(1)?;
        self.answers.reserve(1)?;
        self.calls.push_reserved(call);
        self.answers.push_reserved(answer);
        Ok(())
    }
}
