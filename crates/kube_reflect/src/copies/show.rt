//! What a publish does to the two copies.

ghost use Rattle.std.specs.Prelude.{◌≡◌, ◌<◌, ◌^◌, ◌++◌, [], true, false, drop, IfOk, OnOk, All};
ghost use Rattle.std.specs.Arc.{arc_value};
ghost use Rattle.left_right.specs.Sides.{view};
ghost use Rattle.rtrb.specs.Ring.{sent, known_free};
ghost use Rattle.kube_reflect.specs.Entries.{is_readable};
ghost use Rattle.kube_reflect.specs.Ruled.{IsMadeOf};
ghost use Rattle.kube_reflect.specs.Ties.{IsTied, home_of};
ghost use Rattle.kube_reflect.specs.Hands.{IsNamed};
ghost use Rattle.kube_reflect.specs.Behind.{IsBehind, IsLastName};

use crate::copies::copied::{Copied, Op};
use crate::copies::hand::{Giver, Hand};
use crate::copies::mark::Origin;
use crate::copies::rule::{Brings, Notes, Sees, TwoReader, TwoWriter};
use crate::made::Made;
use kube_meta::{NoMemory, Resource};
use std::alloc::{AllocError, Global};
use std::collections::VecDeque;
use std::sync::{Arc, Wait};

/// Each operation that waits is pending.
pub(crate) fn load<K: Resource>(
    inner: &mut TwoWriter<K>,
    queue: &mut VecDeque<Op<K>>,
) -> Result<(), NoMemory>
    ensures desk { inner.new.desk ≡ inner.old.desk }
    ensures all { drop inner.new.behind inner.new.log.items ++ queue.new.items ≡ drop inner.old.behind inner.old.log.items ++ queue.old.items }
    ensures done { OnOk result (queue.new.items ≡ []) }
{
    while let Some(op) = queue.pop_front() {
        if let Err(op) = inner.append(op) {
            queue.push_front_reserved(op);
            return Err(NoMemory);
        }
    }
    Ok(())
}

// Shows the list so far, by its name.
pub(crate) fn show<K: Resource, R: Wait>(
    rt: &R,
    inner: TwoWriter<K>,
    origin: &Origin<K>,
) -> (TwoWriter<K>, Result<(), AllocError>)
    requires behind { IsBehind inner.desk.shown.value (drop inner.behind inner.log.items) origin.now }
    requires readable { is_readable origin.now.mark.seen.log ≡ true }
    ensures behind { IsBehind result.0.desk.shown.value (drop result.0.behind result.0.log.items) origin.now }
    ensures shown { OnOk result.1 (result.0.desk.shown.value.mark.seen ≡ origin.now.mark.seen) }
    ensures tied { OnOk result.1 (IsTied (view result.0.desk.place).at (home_of origin.now)) }
{
    let mut inner = inner;
    match inner.append(Op::Name(origin.mark.again())) {
        Ok(()) => show_pending(rt, inner, origin),
        Err(_) => (inner, Err(AllocError)),
    }
}

// The same where the name is the last that is pending.
fn show_pending<K: Resource, R: Wait>(
    rt: &R,
    inner: TwoWriter<K>,
    origin: &Origin<K>,
) -> (TwoWriter<K>, Result<(), AllocError>)
    requires behind { IsBehind inner.desk.shown.value (drop inner.behind inner.log.items) origin.now }
    requires named { IsLastName (drop inner.behind inner.log.items) origin.now.mark }
    requires readable { is_readable origin.now.mark.seen.log ≡ true }
    ensures behind { IsBehind result.0.desk.shown.value (drop result.0.behind result.0.log.items) origin.now }
    ensures shown { OnOk result.1 (result.0.desk.shown.value.mark.seen ≡ origin.now.mark.seen) }
    ensures tied { OnOk result.1 (IsTied (view result.0.desk.place).at (home_of origin.now)) }
{
    inner.publish_as::<Sees, R>(rt)
}

// A reader that knows what the writer knows.
fn tie<K: Resource>(inner: &mut TwoWriter<K>) -> Result<TwoReader<K>, AllocError>
    ensures reader { IfOk result (λ r. view r.place ≡ view inner.old.desk.place) }
    ensures place { view inner.new.desk.place ≡ view inner.old.desk.place }
    ensures shown { inner.new.desk.shown ≡ inner.old.desk.shown }
    ensures pending { (inner.new.log ≡ inner.old.log) × (inner.new.behind ≡ inner.old.behind) }
{
    let mut reader = inner.factory().reader()?;
    reader.learn::<Brings>(inner.tell::<Notes>());
    Ok(reader)
}

// Hands a tied reader to each handle.
pub(crate) fn hand_over<K: Resource>(
    inner: &mut TwoWriter<K>,
    origin: &Origin<K>,
    lanes: &mut Vec<Giver<K>>,
) -> Result<(), AllocError>
    requires tied { IsTied (view inner.old.desk.place).at (home_of origin.now) }
    requires lanes { All (λ p. IsNamed (sent p) (home_of origin.now) × (0 < known_free p)) lanes.old.items }
    ensures lanes { All (λ p. IsNamed (sent p) (home_of origin.now) × (0 < known_free p)) lanes.new.items }
    ensures shown { inner.new.desk.shown ≡ inner.old.desk.shown }
    ensures pending { (inner.new.log ≡ inner.old.log) × (inner.new.behind ≡ inner.old.behind) }
{
    for _lane in 0..lanes.len() {
        let reader = tie(inner)?;
        if let Some(mut lane) = lanes.pop() {
            lane.push_reserved(Hand::Tied(reader));
        }
    }
    Ok(())
}

// Each operation that waits is pending. It is tried again where memory could not be had.
pub(crate) fn load_at_last<K: Resource, R: Wait>(
    rt: &R,
    inner: &mut TwoWriter<K>,
    queue: &mut VecDeque<Op<K>>,
)
    ensures desk { inner.new.desk ≡ inner.old.desk }
    ensures all { drop inner.new.behind inner.new.log.items ≡ drop inner.old.behind inner.old.log.items ++ queue.old.items }
{
    for _turn in rt.forever() {
        if load(inner, queue).is_ok() {
            return;
        }
    }
    unreachable!()
}

// Shows the list so far. It is tried again where memory could not be had.
pub(crate) fn show_at_last<K: Resource, R: Wait>(
    rt: &R,
    inner: TwoWriter<K>,
    origin: &Origin<K>,
) -> TwoWriter<K>
    requires behind { IsBehind inner.desk.shown.value (drop inner.behind inner.log.items) origin.now }
    requires readable { is_readable origin.now.mark.seen.log ≡ true }
    ensures shown { result.desk.shown.value.mark.seen ≡ origin.now.mark.seen }
{
    let mut inner = inner;
    for _turn in rt.forever() {
        let (next, done) = show(rt, inner, origin);
        if done.is_ok() {
            return next;
        }
        inner = next;
    }
    unreachable!()
}

// So many reader places, and one at least.
fn places_for(lanes: usize) -> usize
    ensures { (0 < result) × (result < 2 ^ 32) }
{
    if lanes == 0 {
        1
    } else if lanes < 1 << 32 {
        lanes
    } else {
        (1 << 32) - 1
    }
}

// One copy of what was made, with its list.
fn make_copy<K: Resource>(
    alloc: Global,
    made: &Made<K>,
    origin: &Origin<K>,
) -> Result<Copied<K>, NoMemory>
    ensures { IfOk result (λ c. (arc_value c.dyntype ≡ arc_value origin.now.dyntype) × (c.made ≡ made.now) × (c.mark.seen ≡ origin.now.mark.seen) × (c.has_ended ≡ false)) }
{
    Ok(Copied {
        alloc,
        dyntype: Arc::try_clone(&origin.dyntype)?,
        made: made.copy(alloc)?,
        has_ended: false,
        mark: origin.mark.again(),
    })
}

// The two copies of what was made, with its list.
pub(crate) fn make_copies<K: Resource>(
    alloc: Global,
    made: &Made<K>,
    origin: &Origin<K>,
    readers: usize,
) -> Result<TwoWriter<K>, NoMemory>
    requires made { IsMadeOf K.type_of K.meta_of origin.now made.now }
    ensures { IfOk result (λ w. IsBehind w.desk.shown.value (drop w.behind w.log.items) origin.now) }
{
    let first = make_copy(alloc, made, origin)?;
    let second = make_copy(alloc, made, origin)?;
    Ok(TwoWriter::new(alloc, first, second, places_for(readers))?)
}
