//! The three calls to an API, with their answers as they are recorded.

ghost use Rattle.std.specs.Prelude.{◌≡◌, ◌≤◌, [], ◌∷◌, true, false, ◌⊎◌, IfOk, OnErr, map};
ghost use Rattle.kube_model.specs.Recorded.{ends_initial_events};
ghost use Rattle.std.specs.Arc.{arc_value};
ghost use Rattle.kube_model.specs.Raw.{Raw, grown, FaultRose, ListAsked, WatchAsked, NextAsked};
ghost use Rattle.kube_model.specs.World.{list_params, watch_params};
ghost use Rattle.kube_model.specs.Fits.{nonempty, answers};
ghost use Rattle.kube_api.specs.Answers.{event_answer};
ghost use Rattle.kube_watch.specs.Configs.{settings_of};
ghost use Rattle.kube_watch.specs.Calls.{IsCame, brings_raw, is_fault_answer};

use crate::config::{Config, ListSemantic};
use kube_api::{ApiMode, Bookmark, ListParams, Page, VersionMatch, WatchEvent, WatchParams};
use kube_meta::text::copy_option;
use kube_meta::{List, Moment, NoMemory, Polled, Resource, Text};
use kube_model::call::{Answer, Call};
use std::alloc::Global;
use std::sync::Arc;

/// The annotation that ends the initial events of a watch (Kubernetes API concept "streaming lists").
const INITIAL_EVENTS_END: &str = "k8s.io/initial-events-end";

/// What came.
#[derive(Drop)]
pub struct Came<K: Drop> {
    pub answer: Answer,
    pub items: List<Arc<K>>,
}

/// The text, where it is there and not empty.
fn present(text: Option<Text>) -> Option<Text>
    ensures { result ≡ nonempty text }
{
    match text {
        Some(text) => { if text.is_empty() { None } else { Some(text) } }
        None => None,
    }
}

/// The version of an object, where it has one that is not empty.
fn version_of<K: Resource>(alloc: Global, object: &K) -> Result<Option<Text>, NoMemory>
    ensures { IfOk result (λ v. v ≡ nonempty (K.meta_of object.now).resource_version) }
{
    let version = copy_option(alloc, &object.meta().resource_version)?;
    Ok(present(version))
}

/// The parameters of a list call: the same on every page but for the token.
fn list_params(alloc: Global, config: &Config, token: &Option<Text>) -> Result<ListParams, NoMemory>
    ensures { IfOk result (λ p. p ≡ list_params (settings_of config.now) token.now) }
{
    let label_selector = copy_option(alloc, &config.label_selector)?;
    let field_selector = copy_option(alloc, &config.field_selector)?;
    let continue_token = copy_option(alloc, token)?;
    let (resource_version, version_match) = match config.list_semantic {
        ListSemantic::MostRecent => (None, None),
        ListSemantic::Any => {
            let version = Text::new(alloc, "0")?;
            (Some(version), Some(VersionMatch::NotOlderThan))
        }
    };
    Ok(ListParams {
        label_selector,
        field_selector,
        limit: config.page_size,
        continue_token,
        resource_version,
        version_match,
    })
}

/// The parameters of a watch call.
fn watch_params(
    alloc: Global,
    config: &Config,
    send_initial_events: bool,
) -> Result<WatchParams, NoMemory>
    ensures { IfOk result (λ p. p ≡ watch_params (settings_of config.now) send_initial_events) }
{
    Ok(WatchParams {
        label_selector: copy_option(alloc, &config.label_selector)?,
        field_selector: copy_option(alloc, &config.field_selector)?,
        timeout: config.timeout,
        bookmarks: config.bookmarks,
        send_initial_events,
    })
}

/// An answer without objects.
fn bare<K: Drop>(alloc: Global, answer: Answer) -> Came<K>
    ensures answer { result.answer ≡ answer }
    ensures items { result.items ≡ [] }
{
    Came {
        answer,
        items: List::new(alloc),
    }
}

/// A page of a list.
pub fn list_page<A: ApiMode>(
    api: &mut A,
    alloc: Global,
    config: &Config,
    token: &Option<Text>,
    now: Moment,
) -> Result<Came<A::Value>, NoMemory>
    ensures talk { IfOk result (λ c. (raw : Raw A.Value) × (raw.call ≡ ListAsked (list_params (settings_of config.now) token.now))
        × IsCame A.Value.meta_of raw.answer c × (A.talk api.new ≡ grown (A.talk api.old) raw) × A.moves api.old now.0 raw api.new) }
    ensures unchanged { OnErr result (A.talk api.new ≡ A.talk api.old) }
    ensures answered { IfOk result (λ c. answers (Call.List token.now) c.answer ≡ true) }
    ensures faults { IfOk result (λ c. FaultRose (is_fault_answer c.answer) (A.faults api.old) (A.faults api.new)) }
    ensures rises { A.faults api.old ≤ A.faults api.new }
{
    let params = list_params(alloc, config, token)?;
    match api.list(alloc, &params, now)? {
        Polled::Ready(Ok(page)) => {
            let Page {
                items,
                token,
                version,
            } = page;
            let answer = Answer::Page {
                token: present(token),
                version: present(version),
            };
            Ok(Came { answer, items })
        }
        Polled::Ready(Err(error)) => Ok(bare(alloc, Answer::Fault(error))),
        Polled::NotReady => Ok(bare(alloc, Answer::NotReady)),
    }
}

/// A watch from a version; an initial one sends the objects that are there first.
pub fn open_watch<A: ApiMode>(
    api: &mut A,
    alloc: Global,
    config: &Config,
    version: &str,
    initial: bool,
    now: Moment,
) -> Result<Came<A::Value>, NoMemory>
    ensures talk { IfOk result (λ c. (raw : Raw A.Value) × (raw.call ≡ WatchAsked (watch_params (settings_of config.now) initial) version.now)
        × IsCame A.Value.meta_of raw.answer c × (A.talk api.new ≡ grown (A.talk api.old) raw) × A.moves api.old now.0 raw api.new) }
    ensures unchanged { OnErr result (A.talk api.new ≡ A.talk api.old) }
    ensures answered { IfOk result (λ c. answers (Call.Watch version.now initial) c.answer ≡ true) }
    ensures faults { IfOk result (λ c. FaultRose (is_fault_answer c.answer) (A.faults api.old) (A.faults api.new)) }
    ensures rises { A.faults api.old ≤ A.faults api.new }
{
    let params = watch_params(alloc, config, initial)?;
    match api.watch(alloc, &params, version, now)? {
        Polled::Ready(Ok(())) => Ok(bare(alloc, Answer::Opened)),
        Polled::Ready(Err(error)) => Ok(bare(alloc, Answer::Fault(error))),
        Polled::NotReady => Ok(bare(alloc, Answer::NotReady)),
    }
}

/// An item of a watch with its object.
fn one<K: Drop>(alloc: Global, answer: Answer, object: Arc<K>) -> Result<Came<K>, NoMemory>
    ensures answer { IfOk result (λ c. c.answer ≡ answer) }
    ensures items { IfOk result (λ c. map arc_value c.items ≡ arc_value object ∷ []) }
{
    let mut items = List::new(alloc);
    items.push(object)?;
    Ok(Came { answer, items })
}

/// A bookmark, which ends the initial events where it has the annotation.
fn bookmark(bookmark: Bookmark) -> Answer
    ensures { result ≡ Answer.Bookmark bookmark.version (ends_initial_events bookmark.annotations) }
{
    let Bookmark {
        version,
        annotations,
    } = bookmark;
    let ending = annotations.get(INITIAL_EVENTS_END).is_some();
    Answer::Bookmark { version, ending }
}

/// An event of a watch.
fn event<K: Resource>(alloc: Global, event: WatchEvent<K>) -> Result<Came<K>, NoMemory>
    ensures came { IfOk result (λ c. IsCame K.meta_of (event_answer event) c) }
    ensures answered { IfOk result (λ c. answers Call.Next c.answer ≡ true) }
    ensures sound { IfOk result (λ c. is_fault_answer c.answer ≡ false) }
    ensures brings { OnErr result (brings_raw (event_answer event) Call.Next ≡ true) }
{
    match event {
        WatchEvent::Added(object) => {
            let version = version_of(alloc, &*object)?;
            one(alloc, Answer::Added { version }, object)
        }
        WatchEvent::Modified(object) => {
            let version = version_of(alloc, &*object)?;
            one(alloc, Answer::Modified { version }, object)
        }
        WatchEvent::Deleted(object) => {
            let version = version_of(alloc, &*object)?;
            one(alloc, Answer::Deleted { version }, object)
        }
        WatchEvent::Bookmark(marked) => Ok(bare(alloc, bookmark(marked))),
        WatchEvent::Error(status) => Ok(bare(alloc, Answer::ErrorItem(status))),
    }
}

/// The next event of the open watch.
pub fn poll_watch<A: ApiMode>(
    api: &mut A,
    alloc: Global,
    now: Moment,
) -> Result<Came<A::Value>, NoMemory>
    ensures talk { IfOk result (λ c. (raw : Raw A.Value) × (raw.call ≡ NextAsked)
        × IsCame A.Value.meta_of raw.answer c × (A.talk api.new ≡ grown (A.talk api.old) raw) × A.moves api.old now.0 raw api.new) }
    ensures lost { OnErr result ((A.talk api.new ≡ A.talk api.old) ⊎ ((raw : Raw A.Value) × (raw.call ≡ NextAsked) × (brings_raw raw.answer Call.Next ≡ true) × (A.talk api.new ≡ grown (A.talk api.old) raw))) }
    ensures answered { IfOk result (λ c. answers Call.Next c.answer ≡ true) }
    ensures faults { IfOk result (λ c. FaultRose (is_fault_answer c.answer) (A.faults api.old) (A.faults api.new)) }
    ensures rises { A.faults api.old ≤ A.faults api.new }
{
    match api.next(alloc, now)? {
        Polled::Ready(Some(Ok(came))) => event(alloc, came),
        Polled::Ready(Some(Err(error))) => Ok(bare(alloc, Answer::Fault(error))),
        Polled::Ready(None) => Ok(bare(alloc, Answer::End)),
        Polled::NotReady => Ok(bare(alloc, Answer::NotReady)),
    }
}
