//! What an exchange of the root leaves in a writer.

ghost use Rattle.std.specs.Prelude.{◌≡◌, ◌≢◌, ◌++◌, ◌∷◌, [], true, List, ℕ, map, OnOk, OnErr};
ghost use Rattle.std.specs.Arc.{arc_value};
ghost use Rattle.std.specs.List.{fold, list_all};
ghost use Rattle.kube_meta.specs.Keys.{key_of};
ghost use Rattle.kube_model.specs.World.{Settings};
ghost use Rattle.kube_model.specs.SecondForms.{initial_after};
ghost use Rattle.kube_watch.specs.Calls.{brings};
ghost use Rattle.kube_watch.specs.Events.{event_map};
ghost use Rattle.kube_watch.specs.Table.{table};
ghost use Rattle.kube_reflect.specs.Cached.{applied, has_name};
ghost use Rattle.kube_reflect.specs.Writers.{with_event};
ghost use Rattle.kube_turn.specs.Views.{exchange_of};
ghost use Rattle.kube_core.specs.Cores.{HasSameHandles};

use kube_meta::{NoMemory, Resource};
use kube_model::call::{Answer, Call};
use kube_reflect::{WriteError, Writer};
use kube_turn::SourceExchange;
use kube_watch::{Event, events_of};
use std::alloc::Global;
use std::sync::Arc;

/// Whether a look at the root belongs to a watch that sends what is there first, after one more exchange.
pub fn initial_after<K: Resource>(initial: bool, exchange: &SourceExchange<K>) -> bool
    ensures { result ≡ initial_after initial (exchange_of K.type_of exchange.now) }
{
    match &exchange.answer {
        Answer::Opened => matches!(&exchange.call, Call::Watch { initial: true, .. }),
        Answer::Bookmark { ending, .. } => initial && !*ending,
        _ => initial,
    }
}

/// Applies these events, or none. One alone is applied where the others are stored; more are applied beside them, by a copy.
///
/// # Errors
///
/// `NoMemory` where there is none for it; `Unnamed` where an object of them has no name.
fn apply_told<K: Resource>(
    alloc: Global,
    writer: &mut Writer<K>,
    events: &[Event<Arc<K>>],
) -> Result<(), WriteError>
    ensures applied { OnOk result (writer.new ≡ fold (with_event arc_value K.meta_of) writer.old events.now) }
    ensures named { OnOk result (list_all (λ e. has_name K.meta_of (event_map arc_value e)) events.now ≡ true) }
    ensures err { OnErr result (writer.new ≡ writer.old) }
    ensures some { OnErr result (events.now ≢ []) }
{
    match events {
        [] => Ok(()),
        [event] => writer.apply_watcher_event(alloc, event),
        _ => writer.apply_watcher_events(alloc, events),
    }
}

/// Applies what an exchange tells: all of it, or nothing. It needs no memory where the answer brings nothing.
///
/// # Errors
///
/// `NoMemory` where there is none for it, and where an object of which it tells has no name; nothing was applied then.
pub fn store_told<K: Resource>(
    alloc: Global,
    writer: &mut Writer<K>,
    initial: bool,
    exchange: &SourceExchange<K>,
) -> Result<(), NoMemory>
    ensures kept { OnOk result ((settings : Settings) (version : List ℕ)
        → writer.new.kept ≡ fold (applied (λ o. key_of writer.old.kind (K.meta_of o))) writer.old.kept (table settings version initial exchange.now.call exchange.now.answer (map arc_value exchange.now.items)).events) }
    ensures named { OnOk result ((settings : Settings) (version : List ℕ)
        → list_all (has_name K.meta_of) (table settings version initial exchange.now.call exchange.now.answer (map arc_value exchange.now.items)).events ≡ true) }
    ensures kind { writer.new.kind ≡ writer.old.kind }
    ensures handles { HasSameHandles writer.old writer.new }
    ensures err { OnErr result (writer.new ≡ writer.old) }
    ensures brings { OnErr result (brings exchange.now.answer exchange.now.call ≡ true) }
{
    let events = events_of(
        alloc,
        initial,
        &exchange.call,
        &exchange.answer,
        exchange.items.as_slice(),
    )?;
    let Ok(()) = apply_told(alloc, writer, events.as_slice()) else {
        return Err(NoMemory);
    };
    Ok(())
}
