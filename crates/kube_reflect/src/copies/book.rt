//! How entries are added to the list of a writer.

ghost use Rattle.std.specs.Prelude.{◌≡◌, ◌<◌, ◌^◌, ◌++◌, ◌∷◌, [], IfSome};
ghost use mathlib.Core.List.{IsPrefix};
ghost use Rattle.kube_reflect.specs.Once.{head_of};
ghost use Rattle.kube_reflect.specs.Entries.{entry_at};

use crate::copies::law::{Add, Entry, Law, Next, Nothing};
use crate::copies::mark::Mark;
use crate::history::Listed;
use logbook::{Offer, Seen, Start, Word};
use std::sync::Wait;

/// The first entry of a book and what follows it.
pub type Head<K> = Word<Entry<K>, u64, Law>;

/// A new book, with the list that it begins with, which is empty.
pub fn open_book<K>() -> (Head<K>, Mark<K>)
    ensures { (result.0 ≡ head_of result.1.seen.book) × (result.1.seen.log ≡ []) }
{
    let (seen, mut first, _second) = Seen::open(Start::alone(), 0, 0);
    (Word::tracked(0, &mut first), Mark { len: 0, seen })
}

/// Adds the entry at a place of a list, where the book's list is still the whole one.
fn try_add<K>(head: &Head<K>, mark: &Mark<K>, next: &Next<K>) -> Option<Mark<K>>
    requires head { head.now ≡ head_of mark.now.seen.book }
    requires room { mark.now.len < 2 ^ 62 }
    ensures added { IfSome result (λ m. (m.seen.book ≡ mark.now.seen.book) × (m.seen.log ≡ mark.now.seen.log ++ entry_at next.now.all.log next.now.at ∷ [])) }
{
    let len = mark.len;
    let mut seen = mark.seen.again();
    let mut offer: Offer<Entry<K>, u64, Law, Nothing> = seen.plain::<Nothing, Next<K>, Add>(next);
    let mut pen = seen.no_pen();
    let found = head.compare_exchange::<Add, Nothing>(
        len,
        len + 1,
        &mut seen,
        &mut offer,
        &mut pen,
    );
    if found == len {
        Some(Mark { len: len + 1, seen })
    } else {
        None
    }
}

/// Adds the next entry of a list. There is one writer, so the first try does it.
fn add_next<K, R: Wait>(rt: &R, head: &Head<K>, mark: &Mark<K>, all: &Listed<K>) -> Mark<K>
    requires head { head.now ≡ head_of mark.now.seen.book }
    requires room { mark.now.len < 2 ^ 62 }
    ensures { (result.seen.book ≡ mark.now.seen.book) × (result.seen.log ≡ mark.now.seen.log ++ entry_at all.now.seen.log mark.now.len ∷ []) }
{
    let next = Next {
        all: all.seen.again(),
        at: mark.len,
    };
    for _turn in rt.forever() {
        if let Some(longer) = try_add(head, mark, &next) {
            return longer;
        }
    }
    unreachable!()
}

/// Adds what is left of a list.
pub fn add_all<K, R: Wait>(rt: &R, head: &Head<K>, mark: &mut Mark<K>, all: &Listed<K>)
    requires head { head.now ≡ head_of mark.old.seen.book }
    requires begun { IsPrefix mark.old.seen.log all.now.seen.log }
    ensures { (mark.new.seen.book ≡ mark.old.seen.book) × (mark.new.seen.log ≡ all.now.seen.log) }
{
    while mark.len < all.len {
        *mark = add_next(rt, head, mark, all);
    }
}
