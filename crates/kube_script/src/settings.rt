//! The kind of objects, and how messages are held, errors paused for and sources watched.

ghost use Rattle.std.specs.Prelude.{◌≡◌, ◌≤◌, ◌==◌, Some, None, if◌then◌else◌};
ghost use Rattle.kube_meta.specs.declared.dynamic.ApiResource.{ApiResource as resource_record};
ghost use Rattle.kube_meta.specs.Places.{Gives};
ghost use Rattle.kube_model.specs.World.{Settings as settings_record};
ghost use Rattle.kube_script.specs.Script.{kind_at, config_at, Config as config_record, Backoff as backoff_data, backoff_at, exponential_at, divisor_at, watcher_at};
ghost use Rattle.kube_watch.specs.Configs.{is_any, is_streaming};
ghost use Rattle.kube_script.specs.Seen.{seen_config, seen_backoff, seen_watcher};
ghost use Rattle.serde_json.specs.View.{view};

use crate::row::{Row, default_member, is_object, maybe_member, member};
use kube_meta::{ApiResource, ObjectFault, Text, api_version};
use kube_turn::Config;
use kube_watch::{Config as WatcherConfig, InitialListStrategy, ListSemantic};
use serde_json::Value;
use std::alloc::Global;
use std::marker::Model;

impl Row for ApiResource {
    ghost Seen = { resource_record };

    ghost seen = { λ r. r };

    ghost reads = { kind_at };

    #[tactic(auto, unfolding(crate::specs::Script::kind_at))]
    fn read(alloc: Global, value: &Value) -> Result<ApiResource, ObjectFault> {
        is_object(alloc, value)?;
        let group: Text = member(alloc, value, "group")?;
        let version: Text = member(alloc, value, "version")?;
        let kind = member(alloc, value, "kind")?;
        let plural = member(alloc, value, "plural")?;
        let api_version = api_version(alloc, group.as_str(), version.as_str())?;
        Ok(ApiResource {
            group,
            version,
            api_version,
            kind,
            plural,
        })
    }
}

impl Row for Config {
    ghost Seen = { config_record };

    ghost seen = { seen_config };

    ghost reads = { config_at };

    #[tactic(auto, unfolding(crate::specs::Script::config_at))]
    fn read(alloc: Global, value: &Value) -> Result<Config, ObjectFault> {
        is_object(alloc, value)?;
        let debounce = default_member(alloc, value, "debounce", 0)?;
        let concurrency = default_member(alloc, value, "concurrency", 0)?;
        Ok(Config {
            debounce,
            concurrency,
        })
    }
}

/// How errors are paused for.
#[derive(Debug, Drop)]
pub enum BackoffRow {
    /// As kube-runtime's `DefaultBackoff` does.
    ByDefault,
    /// Not at all: the first error ends the asking.
    Stopping,
    /// By delays in nanoseconds from the least to the greatest, each the last times `num` divided by `den`.
    Exponential {
        min: u64,
        num: u64,
        den: Divisor,
        cap: u64,
    },
}

impl Row for BackoffRow {
    ghost Seen = { backoff_data };

    ghost seen = { seen_backoff };

    ghost reads = { backoff_at };

    #[tactic(auto, unfolding(crate::specs::Script::backoff_at))]
    fn read(alloc: Global, value: &Value) -> Result<BackoffRow, ObjectFault> {
        match value.as_str() {
            Some("default") => Ok(BackoffRow::ByDefault),
            Some("stop") => Ok(BackoffRow::Stopping),
            Some(_) => Err(ObjectFault::shape(alloc)),
            None => exponential(alloc, value),
        }
    }
}

#[tactic(auto, unfolding(crate::specs::Script::exponential_at))]
fn exponential(alloc: Global, value: &Value) -> Result<BackoffRow, ObjectFault>
    ensures { Gives seen_backoff result (exponential_at (view value.now)) }
{
    is_object(alloc, value)?;
    let min = member(alloc, value, "min")?;
    let num = member(alloc, value, "num")?;
    let den = member(alloc, value, "den")?;
    let cap = member(alloc, value, "cap")?;
    Ok(BackoffRow::Exponential { min, num, den, cap })
}

/// A number that is at least 1, which contracts see as that number.
#[derive(Debug, Drop)]
pub struct Divisor {
    number: u64,
}

impl Model for Divisor {
    ghost use Rattle.std.specs.Prelude.{ℕ, ◌≤◌};

    ghost Value = { ℕ };

    ghost view = { λ d. d.number };

    ghost invariant = { λ d. 1 ≤ d.number };
}

impl Divisor {
    /// The number; none where it is 0.
    pub fn new(number: u64) -> Option<Divisor>
        ensures { result ≡ (if number == 0 then None else Some number) }
    {
        if number == 0 {
            return None;
        }
        Some(Divisor { number })
    }

    /// The number.
    pub fn get(&self) -> u64
        ensures value { result ≡ self.now }
        ensures least { 1 ≤ result }
    {
        self.number
    }
}

impl Row for Divisor {
    ghost use Rattle.std.specs.Prelude.{ℕ};

    ghost Seen = { ℕ };

    ghost seen = { λ d. d };

    ghost reads = { divisor_at };

    #[tactic(auto, unfolding(crate::specs::Script::divisor_at))]
    fn read(alloc: Global, value: &Value) -> Result<Divisor, ObjectFault> {
        let number: u64 = Row::read(alloc, value)?;
        match Divisor::new(number) {
            Some(divisor) => Ok(divisor),
            None => Err(ObjectFault::shape(alloc)),
        }
    }
}

impl Row for WatcherConfig {
    ghost Seen = { settings_record };

    ghost seen = { seen_watcher };

    ghost reads = { watcher_at };

    #[tactic(auto, unfolding(crate::specs::Script::watcher_at))]
    fn read(alloc: Global, value: &Value) -> Result<WatcherConfig, ObjectFault> {
        is_object(alloc, value)?;
        let label_selector = maybe_member(alloc, value, "labels")?;
        let field_selector = maybe_member(alloc, value, "fields")?;
        let timeout = maybe_member(alloc, value, "timeout")?;
        let any = default_member(alloc, value, "any", false)?;
        let streaming = default_member(alloc, value, "streaming", false)?;
        let page_size = default_member(alloc, value, "page_size", 500)?;
        let bookmarks = default_member(alloc, value, "bookmarks", true)?;
        Ok(WatcherConfig {
            label_selector,
            field_selector,
            timeout,
            list_semantic: semantic(any),
            initial_list_strategy: strategy(streaming),
            page_size: Some(page_size),
            bookmarks,
        })
    }
}

/// Which version a list may be of.
fn semantic(any: bool) -> ListSemantic
    ensures { is_any result ≡ any }
{
    if any {
        ListSemantic::Any
    } else {
        ListSemantic::MostRecent
    }
}

/// How a watcher comes by the objects that are there.
fn strategy(streaming: bool) -> InitialListStrategy
    ensures { is_streaming result ≡ streaming }
{
    if streaming {
        InitialListStrategy::StreamingList
    } else {
        InitialListStrategy::ListWatch
    }
}
