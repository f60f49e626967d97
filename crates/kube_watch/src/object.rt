//! Watching one object.

ghost use Rattle.std.specs.Prelude.{◌≡◌, ◌++◌, List, [], true, Some, None, IfOk, IfSome, OnErr, IsErr, codes};
ghost use Rattle.std.specs.Option.{option_map};
ghost use Rattle.kube_model.specs.World.{default_settings};
ghost use Rattle.kube_watch.specs.Polls.{LostAfter, api_in};
ghost use Rattle.kube_watch.specs.Objects.{GiveNothing, IsOpened, LostObject, PolledObject, TakesAnswer, answer_to, found_of, held_after, is_held, next_found};
ghost use Rattle.kube_watch.specs.Stands.{is_spent, settings_in};
ghost use Rattle.kube_watch.specs.Watching.{told_of};

use crate::config::Config;
use crate::event::Event;
use crate::watcher::watcher;
use crate::watching::Watcher;
use kube_api::ApiMode;
use kube_meta::{Moment, Next, NoMemory};
use kube_model::error::Error;
use std::alloc::Global;
use std::marker::Model;
use std::sync::Arc;

/// Watches one object, by its name (what kube-runtime's `watch_object` gives).
#[derive(Drop)]
pub struct WatchObject<A: ApiMode> {
    watcher: Watcher<A>,
    /// Whether the list that began last held the object, by what was taken of the watcher.
    held: bool,
}

impl<A: ApiMode> Model for WatchObject<A> {
    ghost use Rattle.kube_watch.specs.Objects.{Observing};

    ghost Value = { Observing A A.Value };

    ghost view = { λ w. record { watcher = w.watcher; held = w.held } };
}

/// Watches the object of a name (`watch_object`). It lists and watches by the field selector `metadata.name=<name>`.
///
/// Where the API is of all namespaces, objects of that name in several of them come as if they were one: take an API of
/// one namespace, or a watcher.
///
/// Errors: `NoMemory`.
pub fn watch_object<A: ApiMode>(
    alloc: Global,
    api: A,
    name: &str,
) -> Result<WatchObject<A>, NoMemory>
    ensures { IfOk result (λ w. IsOpened api name.now w) }
{
    let fields = format!(in alloc; "metadata.name={name}")?;
    let config = Config::default().fields(alloc, fields.as_str())?;
    Ok(WatchObject {
        watcher: watcher(alloc, api, config),
        held: false,
    })
}

/// What is answered of one thing that a watcher told.
fn answer_to<K: Drop>(
    held: &mut bool,
    told: Result<Event<Arc<K>>, Error>,
) -> Option<Result<Option<Arc<K>>, Error>>
    ensures answer { option_map found_of result ≡ answer_to held.old (told_of told) }
    ensures held { held.new ≡ held_after held.old (told_of told) }
{
    match told {
        Ok(Event::Apply(object)) => Some(Ok(Some(object))),
        Ok(Event::Delete(_)) => Some(Ok(None)),
        Ok(Event::Init) => {
            *held = false;
            None
        }
        Ok(Event::InitApply(object)) => {
            *held = true;
            Some(Ok(Some(object)))
        }
        Ok(Event::InitDone) => if *held { None } else { Some(Ok(None)) },
        Err(error) => Some(Err(error)),
    }
}

impl<A: ApiMode> WatchObject<A> {
    ghost use Rattle.std.specs.Borrow.{sem};
    ghost use Rattle.kube_model.specs.History.{Dated};
    ghost use Rattle.kube_watch.specs.Lending.{LendsObservedApi, with_observed_api};
    ghost use Rattle.kube_watch.specs.Stands.{StandsFor, api_of};

    // Takes the first answer to what waits.
    fn take_answer(&mut self) -> Option<Result<Option<Arc<A::Value>>, Error>>
        ensures { TakesAnswer self.old result self.new }
    {
        while let Some(told) = self.watcher.take_told() {
            if let Some(answer) = answer_to(&mut self.held, told) {
                return Some(answer);
            }
        }
        None
    }

    // Makes calls until one is to be answered or is not ready, at most so many.
    fn ask(
        &mut self,
        alloc: Global,
        now: Moment,
        fuel: u32,
    ) -> Result<Next<Result<Option<Arc<A::Value>>, Error>>, NoMemory>
        ensures asked { self.old.watcher.waiting ≡ [] → IfOk result (λ a. PolledObject (api_in A.ApiMode A.Value.meta_of) now.0 fuel self.old (next_found a) self.new) }
        ensures err { OnErr result (is_spent self.new.watcher ≡ true) }
        ensures lost { self.old.watcher.waiting ≡ [] → OnErr result (LostAfter (api_in A.ApiMode A.Value.meta_of) now.0 fuel (GiveNothing (settings_in self.old.watcher) (is_held self.old)) self.old.watcher self.new.watcher) }
    {
        for _asked in 0..fuel {
            let ready = self.watcher.fill(alloc, now)?;
            if let Some(answer) = self.take_answer() {
                return Ok(Next::Item(answer));
            }
            if !ready {
                return Ok(Next::NotReady);
            }
        }
        Ok(Next::Spent)
    }

    /// The object where it is there or changed, none where it was deleted or a list did not hold it, or an error.
    ///
    /// `NotReady` where a call was not ready, and its window is not over; `Spent` after `fuel` calls that gave nothing to
    /// answer. It never ends.
    ///
    /// Errors: `NoMemory`, and only that from then on.
    pub fn poll_next(
        &mut self,
        alloc: Global,
        now: Moment,
        fuel: u32,
    ) -> Result<Next<Result<Option<Arc<A::Value>>, Error>>, NoMemory>
        ensures polled { IfOk result (λ a. PolledObject (api_in A.ApiMode A.Value.meta_of) now.0 fuel self.old (next_found a) self.new) }
        ensures err { OnErr result (is_spent self.new.watcher ≡ true) }
        ensures lost { OnErr result (LostObject (api_in A.ApiMode A.Value.meta_of) now.0 fuel self.old self.new) }
        ensures spent { is_spent self.old.watcher ≡ true → IsErr result × (self.new ≡ self.old) }
    {
        if self.watcher.is_spent() {
            return Err(NoMemory);
        }
        match self.take_answer() {
            Some(answer) => Ok(Next::Item(answer)),
            None => self.ask(alloc, now, fuel),
        }
    }

    /// The API. All else is as before, and so is what the watch stands for.
    pub fn api_mut(&mut self) -> &mut A
        ensures* lends { sem 𝓛 (LendsObservedApi A.row A.Value.row A.Value.DynamicType.row A.ApiMode A.Value.Resource A.Value.DynamicType.Hash self.entry result) }
        ensures value { result.now ≡ api_of self.old.watcher }
        ensures stands { (ds : List (Dated A.Value)) (api : A) → StandsFor ds self.old.watcher → StandsFor ds (with_observed_api self.old api).watcher }
    {
        self.watcher.api_mut()
    }
}
