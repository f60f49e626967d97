//! The events that a writer has applied, for contracts. They take no bytes, and can't be read.

ghost use Rattle.std.specs.Prelude.{◌≡◌, ◌<◌, ◌≤◌, ◌^◌, ◌++◌, ◌∷◌, [], length, IfSome};
ghost use Rattle.std.specs.Arc.{arc_value};
ghost use Rattle.kube_watch.specs.Events.{event_map};
ghost use Rattle.kube_reflect.specs.declared.copies.law.Entry.TheVariants.{End};
ghost use Rattle.kube_reflect.specs.Entries.{told_in, with_publish};

use crate::copies::law::Entry;
use crate::copies::mark::Mark;
use kube_watch::Event;
use logbook::{Opening, Rule, Seen, Start};
use std::sync::Arc;

/// The rule of a list that nothing is told of.
pub(crate) struct Told;

impl<E> Rule<E, ()> for Told {
    ghost use Rattle.std.specs.Prelude.{[]};
    ghost use base.Fml.{ftrue};

    ghost holds = { λ cells log. Unit {0} };

    ghost first = { [] };

    ghost hinted = { λ n log. Unit {0} };

    ghost shows = { λ log. [] };

    ghost keeps = { λ names log. ftrue };

    ghost moves = { λ ask before after answer. Unit {0} };
}

/// A list of events. Contracts see it as its `log`.
pub(crate) type History<K> = Seen<Event<K>, (), Told>;

/// A list of entries. Contracts see it as its `log`.
pub(crate) type Entries<K> = Seen<Entry<K>, (), Told>;

/// A list with one event more.
#[derive(Drop)]
struct Longer<'a, K> {
    seen: History<K>,
    event: &'a Event<Arc<K>>,
}

/// The event stands behind the others.
struct OneMore;

impl<K> Opening<Longer<'_, K>, Event<K>> for OneMore {
    ghost use Rattle.std.specs.Prelude.{◌++◌, ◌∷◌, []};
    ghost use Rattle.std.specs.Arc.{arc_value};
    ghost use Rattle.kube_watch.specs.Events.{event_map};

    ghost log = { λ count longer. longer.seen.log ++ event_map arc_value longer.event.now ∷ [] };
}

/// No event.
pub(crate) fn no_events<K>() -> History<K>
    ensures { result.log ≡ [] }
{
    let (seen, _first, _second) = Seen::open(Start::alone(), 0, 0);
    seen
}

/// The same events, and one more.
pub(crate) fn one_more<K>(history: &History<K>, event: &Event<Arc<K>>) -> History<K>
    ensures { result.log ≡ history.now.log ++ event_map arc_value event.now ∷ [] }
{
    let longer = Longer {
        seen: history.again(),
        event,
    };
    let (seen, _pens) = Seen::open_row::<Longer<'_, K>, OneMore>(&longer, Start::alone(), 0);
    seen
}

/// A list of entries, with its length.
#[derive(Drop)]
pub(crate) struct Listed<K> {
    pub(crate) len: u64,
    pub(crate) seen: Entries<K>,
    ghost fits: { len ≡ length seen.log },
    ghost room: { len ≤ 2 ^ 62 },
}

/// The list that a book has, and the events of its writer.
#[derive(Drop)]
struct Publish<'a, K> {
    mark: &'a Mark<K>,
    history: &'a History<K>,
}

/// The events that the book lacks stand behind the list, and then that they are shown.
struct AsShown;

impl<K> Opening<Publish<'_, K>, Entry<K>> for AsShown {
    ghost use Rattle.kube_reflect.specs.Entries.{with_publish};

    ghost log = { λ count publish. with_publish publish.mark.now.seen.log publish.history.now.log };
}

/// The end stands behind the list.
struct AsEnded;

impl<K> Opening<Mark<K>, Entry<K>> for AsEnded {
    ghost use Rattle.std.specs.Prelude.{◌++◌, ◌∷◌, []};
    ghost use Rattle.kube_reflect.specs.declared.copies.law.Entry.TheVariants.{End};

    ghost log = { λ count mark. mark.seen.log ++ End ∷ [] };
}

/// The list that a publish of these events makes readable, where the book's list has so many of them. None where it is too
/// long.
#[tactic(auto, using(crate::proofs::Publishing::publish_length))]
pub(crate) fn list_shown<K>(
    mark: &Mark<K>,
    told: u64,
    history: &History<K>,
    count: u64,
) -> Option<Listed<K>>
    requires told { told ≡ length (told_in mark.now.seen.log) }
    requires count { count ≡ length history.now.log }
    requires room { count < 2 ^ 62 }
    requires begun { told ≤ count }
    ensures list { IfSome result (λ l. l.seen.log ≡ with_publish mark.now.seen.log history.now.log) }
    ensures room { IfSome result (λ l. l.len < 2 ^ 62) }
{
    if mark.len >= 1 << 62 {
        return None;
    }
    let len = mark.len + (count - told) + 1;
    if len >= 1 << 62 {
        return None;
    }
    let publish = Publish { mark, history };
    let (seen, _pens) = Seen::open_row::<Publish<'_, K>, AsShown>(&publish, Start::alone(), 0);
    Some(Listed { len, seen })
}

/// The list of a book, and the end behind it.
pub(crate) fn list_ended<K>(mark: &Mark<K>) -> Listed<K>
    requires { mark.now.len < 2 ^ 62 }
    ensures { result.seen.log ≡ mark.now.seen.log ++ End ∷ [] }
{
    let (seen, _pens) = Seen::open_row::<Mark<K>, AsEnded>(mark, Start::alone(), 0);
    Listed {
        len: mark.len + 1,
        seen,
    }
}
