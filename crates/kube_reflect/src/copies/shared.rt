//! What a writer has for its readers.

ghost use Rattle.std.specs.Prelude.{◌≡◌, ◌↔◌, ◌⊎◌, ◌<◌, ◌≤◌, ◌^◌, ◌-◌, ◌++◌, ◌∷◌, [], length, drop, true, false, Some, None, IfOk, IfSome, IsNone, OnOk, OnErr, All, map, is_some};
ghost use Rattle.std.specs.Option.{option_map};
ghost use Rattle.std.specs.VecDeque.{deque_len, deque_capacity};
ghost use Rattle.std.specs.Arc.{arc_value};
ghost use Rattle.left_right.specs.Sides.{view};
ghost use Rattle.rtrb.specs.Ring.{sent, received, known_free};
ghost use mathlib.Core.List.{IsPrefix};
ghost use Rattle.kube_watch.specs.Events.{event_map};
ghost use Rattle.kube_reflect.specs.declared.copies.law.Entry.TheVariants.{End};
ghost use Rattle.kube_reflect.specs.Entries.{entries_of, has_end, told_in, is_readable, with_publish};
ghost use Rattle.kube_reflect.specs.Copies.{added};
ghost use Rattle.kube_reflect.specs.Ties.{home_of, IsTied};
ghost use Rattle.kube_reflect.specs.Ruled.{IsMadeOf, kept_for};
ghost use Rattle.kube_reflect.specs.Hands.{IsNamed};
ghost use Rattle.kube_reflect.specs.Behind.{IsBehind};
ghost use Rattle.kube_reflect.specs.Shareds.{Stands, HasShown, told_of};

use crate::copies::book::{Head, add_all, open_book};
use crate::copies::copied::{Copied, Op};
use crate::copies::hand::{Giver, Hand, Taker};
use crate::copies::handle::{Handle, Place};
use crate::copies::mark::{Mark, Origin};
use crate::copies::rule::{Keeps, TwoWriter, View};
use crate::copies::shelf::Shelf;
use crate::copies::show::{hand_over, load, load_at_last, make_copies, show, show_at_last};
use crate::history::{History, Listed, list_ended, list_shown};
use crate::made::Made;
use kube_meta::{NoMemory, Resource};
use kube_watch::Event;
use rtrb::RingBuffer;
use std::alloc::Global;
use std::collections::VecDeque;
use std::marker::Model;
use std::sync::{Arc, Wait};

/// The two copies with their writer, and the operations that wait for a publish.
#[derive(Drop)]
pub struct Stage<K: Resource> {
    pub(crate) shelf: Shelf<Copied<K>, Op<K>, View<K>, Keeps<K>>,
    pub(crate) queue: VecDeque<Op<K>>,
}

/// What a writer has for its readers. The copies are made by the first publish.
///
/// Contracts see it as the home of its writer, the list that the book has, what the copies tell together with what waits for
/// them, where there are any, room for what may wait without memory, and how many reader places are left.
#[derive(Drop)]
pub(crate) struct Shared<K: Resource> {
    head: Head<K>,
    origin: Origin<K>,
    // How many events the list of the book has.
    count: u64,
    stage: Option<Stage<K>>,
    lanes: Vec<Giver<K>>,
    places: Vec<Place<K>>,
}

impl<K: Resource> Model for Shared<K> {
    ghost use Rattle.std.specs.Prelude.{◌≡◌, ◌<◌, length, All, IfSome};
    ghost use Rattle.rtrb.specs.Ring.{sent, known_free};
    ghost use Rattle.kube_reflect.specs.Once.{head_of};
    ghost use Rattle.kube_reflect.specs.Ties.{home_of, home_at};
    ghost use Rattle.kube_reflect.specs.Hands.{IsNamed};
    ghost use Rattle.kube_reflect.specs.Entries.{told_in};
    ghost use Rattle.kube_reflect.specs.Shareds.{SharedList, told_by, room_by};

    ghost Value = { SharedList K K.DynamicType };

    ghost view = { λ s. record { home = home_of s.origin; named = s.origin.mark.seen.log; told = told_by s.stage; room = room_by s.stage; readers = length s.places.items } };

    ghost invariant = { λ s. (s.head ≡ head_of s.origin.mark.seen.book) × (s.count ≡ length (told_in s.origin.mark.seen.log)) × IfSome s.stage (λ t. home_at t.shelf.shown ≡ home_of s.origin) × All (λ p. IsNamed (sent p) (home_of s.origin) × (0 < known_free p)) s.lanes.items × All (λ p. p.home ≡ home_of s.origin) s.places.items };
}

// A ring through which the name of the writer went, and the place at its end.
fn make_lane<K: Resource>(
    alloc: Global,
    origin: &Origin<K>,
) -> Result<(Giver<K>, Place<K>), NoMemory>
    requires { origin.now.mark.seen.log ≡ [] }
    ensures giver { IfOk result (λ t. IsNamed (sent t.0) (home_of origin.now) × (0 < known_free t.0)) }
    ensures place { IfOk result (λ t. t.1.home ≡ home_of origin.now) }
{
    let (mut giver, mut taker): (Giver<K>, Taker<K>) = RingBuffer::with_protocol(alloc, 2)?;
    giver.push_reserved(Hand::Name(origin.again()?));
    taker.slots_beside(&mut giver);
    drop(taker.pop_known());
    Ok((giver, Place::new(alloc, taker, origin.again()?)))
}

// So many rings.
fn make_lanes<K: Resource>(
    alloc: Global,
    origin: &Origin<K>,
    readers: u32,
) -> Result<(Vec<Giver<K>>, Vec<Place<K>>), NoMemory>
    requires { origin.now.mark.seen.log ≡ [] }
    ensures givers { IfOk result (λ t. All (λ p. IsNamed (sent p) (home_of origin.now) × (0 < known_free p)) t.0.items) }
    ensures places { IfOk result (λ t. All (λ p. p.home ≡ home_of origin.now) t.1.items) }
    ensures number { IfOk result (λ t. length t.1.items ≡ readers) }
{
    let mut givers = Vec::new(alloc);
    let mut places = Vec::new(alloc);
    for _reader in 0..readers {
        let (giver, place) = make_lane(alloc, origin)?;
        givers.push(giver)?;
        places.push(place)?;
    }
    Ok((givers, places))
}

// The same events once more, of the same objects, as operations.
fn copy_all<K: Drop>(alloc: Global, events: &[Event<Arc<K>>]) -> Result<VecDeque<Op<K>>, NoMemory>
    ensures { IfOk result (λ q. added q.items ≡ entries_of (map (event_map arc_value) events.now)) }
{
    let mut ops = VecDeque::new(alloc);
    for event in events {
        ops.push_back(Op::Add(event.copy()?))?;
    }
    Ok(ops)
}

// These operations wait behind the others.
#[tactic(auto, using(crate::proofs::Telling::told_wait))]
fn wait<K: Resource>(stage: Stage<K>, ops: VecDeque<Op<K>>) -> Stage<K>
    requires room { deque_len ops ≤ deque_capacity stage.queue - deque_len stage.queue }
    ensures told { told_of result ≡ told_of stage ++ added ops.items }
    ensures shelf { result.shelf ≡ stage.shelf }
{
    let Stage { shelf, mut queue } = stage;
    let mut ops = ops;
    match queue.append(&mut ops) {
        Ok(()) => Stage { shelf, queue },
        Err(_) => unreachable!(),
    }
}

// The end waits behind the others.
#[tactic(auto, using(crate::proofs::Telling::told_wait_end))]
fn wait_end<K: Resource>(stage: Stage<K>) -> (Stage<K>, Result<(), NoMemory>)
    ensures ok { OnOk result.1 (told_of result.0 ≡ told_of stage ++ End ∷ []) }
    ensures err { OnErr result.1 (told_of result.0 ≡ told_of stage) }
    ensures shelf { result.0.shelf ≡ stage.shelf }
{
    let Stage { shelf, mut queue } = stage;
    match queue.push_back(Op::End) {
        Ok(()) => (Stage { shelf, queue }, Ok(())),
        Err(_) => (Stage { shelf, queue }, Err(NoMemory)),
    }
}

// Shows what waits, and hands readers over.
fn publish_all<K: Resource, R: Wait>(
    rt: &R,
    inner: TwoWriter<K>,
    queue: &mut VecDeque<Op<K>>,
    origin: &Origin<K>,
    lanes: &mut Vec<Giver<K>>,
) -> (TwoWriter<K>, Result<(), NoMemory>)
    requires behind { IsBehind inner.desk.shown.value (drop inner.behind inner.log.items ++ queue.old.items) origin.now }
    requires readable { is_readable origin.now.mark.seen.log ≡ true }
    requires lanes { All (λ p. IsNamed (sent p) (home_of origin.now) × (0 < known_free p)) lanes.old.items }
    ensures behind { IsBehind result.0.desk.shown.value (drop result.0.behind result.0.log.items ++ queue.new.items) origin.now }
    ensures lanes { All (λ p. IsNamed (sent p) (home_of origin.now) × (0 < known_free p)) lanes.new.items }
{
    let mut inner = inner;
    if load(&mut inner, queue).is_err() {
        return (inner, Err(NoMemory));
    }
    let (mut inner, done) = show(rt, inner, origin);
    if done.is_err() {
        return (inner, Err(NoMemory));
    }
    if hand_over(&mut inner, origin, lanes).is_err() {
        return (inner, Err(NoMemory));
    }
    (inner, Ok(()))
}

// Shows what waits in a stage, and hands readers over.
fn publish_stage<K: Resource, R: Wait>(
    rt: &R,
    stage: Stage<K>,
    origin: &Origin<K>,
    lanes: &mut Vec<Giver<K>>,
) -> (Stage<K>, Result<(), NoMemory>)
    requires stands { Stands stage origin.now }
    requires readable { is_readable origin.now.mark.seen.log ≡ true }
    requires lanes { All (λ p. IsNamed (sent p) (home_of origin.now) × (0 < known_free p)) lanes.old.items }
    ensures stands { Stands result.0 origin.now }
    ensures lanes { All (λ p. IsNamed (sent p) (home_of origin.now) × (0 < known_free p)) lanes.new.items }
{
    let Stage { shelf, mut queue } = stage;
    let (inner, done) = publish_all(rt, shelf.open(), &mut queue, origin, lanes);
    let stage = Stage {
        shelf: Shelf::new(inner),
        queue,
    };
    (stage, done)
}

// The copies of what a list made.
fn open_stage<K: Resource>(
    alloc: Global,
    made: &Made<K>,
    origin: &Origin<K>,
    readers: usize,
) -> Result<Stage<K>, NoMemory>
    requires made { IsMadeOf K.type_of K.meta_of origin.now made.now }
    ensures { IfOk result (λ s. Stands s origin.now) }
{
    let inner = make_copies(alloc, made, origin, readers)?;
    Ok(Stage {
        shelf: Shelf::new(inner),
        queue: VecDeque::new(alloc),
    })
}

impl<K: Resource> Shared<K> {
    // Nothing is told, and there are so many reader places.
    pub(crate) fn new(
        alloc: Global,
        dyntype: Arc<K::DynamicType>,
        readers: u32,
    ) -> Result<Shared<K>, NoMemory>
        ensures home { IfOk result (λ s. s.home.dyntype ≡ arc_value dyntype) }
        ensures empty { IfOk result (λ s. (s.named ≡ []) × (s.told ≡ None) × (s.readers ≡ readers)) }
    {
        let (head, mark) = open_book();
        let origin = Origin { dyntype, mark };
        let (lanes, places) = make_lanes(alloc, &origin, readers)?;
        Ok(Shared {
            head,
            origin,
            count: 0,
            stage: None,
            lanes,
            places,
        })
    }

    // A handle that has read nothing.
    pub(crate) fn as_reader(&mut self) -> Option<Handle<K>>
        ensures none { IsNone result ↔ (self.old.readers ≡ 0) }
        ensures shared { self.new ≡ record self.old { readers = self.old.readers - 1 } }
        ensures handle { IfSome result (λ h. (h.home ≡ self.old.home) × (h.seen ≡ [])) }
    {
        let place = self.places.pop()?;
        Some(Handle::new(place))
    }

    // The list that the book has.
    pub(crate) fn mark(&self) -> Mark<K>
        ensures { (result.seen.book ≡ self.now.home.book) × (result.seen.log ≡ self.now.named) }
    {
        self.origin.mark.again()
    }

    // The operations of these events, and room for them where there are copies.
    pub(crate) fn prepare(
        &mut self,
        alloc: Global,
        events: &[Event<Arc<K>>],
    ) -> Result<VecDeque<Op<K>>, NoMemory>
        ensures same { self.new ≡ record self.old { room = self.new.room } }
        ensures ops { IfOk result (λ q. IfSome self.old.told (λ _. (added q.items ≡ entries_of (map (event_map arc_value) events.now)) × (deque_len q ≤ self.new.room))) }
    {
        match &mut self.stage {
            Some(stage) => {
                let ops = copy_all(alloc, events)?;
                stage.queue.reserve(ops.len())?;
                Ok(ops)
            }
            None => Ok(VecDeque::new(alloc)),
        }
    }

    // These operations wait, where there are copies.
    pub(crate) fn add(&mut self, ops: VecDeque<Op<K>>)
        requires { IfSome self.old.told (λ _. deque_len ops ≤ self.old.room) }
        ensures { self.new ≡ record self.old { told = option_map (λ es. es ++ added ops.items) self.old.told; room = self.new.room } }
    {
        if let Some(stage) = self.stage.take() {
            self.stage = Some(wait(stage, ops));
        }
    }

    // Makes these events readable, which made what is given. The copies are made where there are none.
    #[tactic(auto, using(crate::proofs::Publishing::told_within, crate::proofs::Publishing::told_publish, crate::proofs::Publishing::publish_readable, crate::proofs::Publishing::publish_lasts, crate::proofs::Publishing::publish_begun, crate::proofs::Publishing::publish_counted, crate::proofs::Publishing::kept_publish, crate::proofs::Publishing::publish_within))]
    pub(crate) fn publish<R: Wait>(
        &mut self,
        rt: &R,
        alloc: Global,
        made: &Made<K>,
        history: &History<K>,
        count: u64,
    ) -> Result<(), NoMemory>
        requires count { (count ≡ length history.now.log) × (count < 2 ^ 62) }
        requires begun { IsPrefix (told_in self.old.named) (entries_of history.now.log) }
        requires told { IfSome self.old.told (λ es. es ≡ entries_of history.now.log) }
        requires made { made.now ≡ kept_for K.type_of K.meta_of self.old.home.dyntype (entries_of history.now.log) }
        ensures home { self.new.home ≡ self.old.home }
        ensures readers { self.new.readers ≡ self.old.readers }
        ensures named { (self.new.named ≡ self.old.named) ⊎ (self.new.named ≡ with_publish self.old.named history.now.log) }
        ensures begun { IsPrefix (told_in self.new.named) (entries_of history.now.log) }
        ensures told { IfSome self.new.told (λ es. es ≡ entries_of history.now.log) }
        ensures shown { OnOk result (HasShown self.old self.new history.now.log) }
    {
        match list_shown(&self.origin.mark, self.count, history, count) {
            Some(all) => self.show_list(rt, alloc, made, &all, count),
            None => Err(NoMemory),
        }
    }

    // Makes this list readable, which made what is given, and tells so many events. The copies are made where there are none.
    fn show_list<R: Wait>(
        &mut self,
        rt: &R,
        alloc: Global,
        made: &Made<K>,
        all: &Listed<K>,
        count: u64,
    ) -> Result<(), NoMemory>
        requires begun { IsPrefix self.old.named all.now.seen.log }
        requires count { count ≡ length (told_in all.now.seen.log) }
        requires told { IfSome self.old.told (λ es. es ≡ told_in all.now.seen.log) }
        requires made { made.now ≡ kept_for K.type_of K.meta_of self.old.home.dyntype all.now.seen.log }
        requires lasts { has_end all.now.seen.log ≡ false }
        requires readable { is_readable all.now.seen.log ≡ true }
        ensures home { self.new.home ≡ self.old.home }
        ensures readers { self.new.readers ≡ self.old.readers }
        ensures named { self.new.named ≡ all.now.seen.log }
        ensures told { IfSome self.new.told (λ es. es ≡ told_in all.now.seen.log) }
        ensures shown { OnOk result (self.new.told ≡ Some (told_in all.now.seen.log)) }
    {
        add_all(rt, &self.head, &mut self.origin.mark, all);
        self.count = count;
        let stage = match self.stage.take() {
            Some(stage) => stage,
            None => open_stage(alloc, made, &self.origin, self.lanes.len())?,
        };
        let (stage, done) = publish_stage(rt, stage, &self.origin, &mut self.lanes);
        self.stage = Some(stage);
        done
    }

    // The end waits for the copies.
    pub(crate) fn add_end(&mut self) -> Result<(), NoMemory>
        requires { is_some self.old.told ≡ true }
        ensures ok { OnOk result (self.new ≡ record self.old { told = option_map (λ es. es ++ End ∷ []) self.old.told; room = self.new.room }) }
        ensures err { OnErr result (self.new ≡ record self.old { room = self.new.room }) }
    {
        let Some(stage) = self.stage.take() else {
            unreachable!();
        };
        let (stage, done) = wait_end(stage);
        self.stage = Some(stage);
        done
    }

    // Makes the end readable, which waits. It is tried again where memory could not be had.
    #[tactic(auto, using(crate::proofs::Publishing::told_end, crate::proofs::Publishing::end_readable))]
    pub(crate) fn finish<R: Wait>(self, rt: &R) -> Shelf<Copied<K>, Op<K>, View<K>, Keeps<K>>
        requires told { self.told ≡ Some (told_in self.named ++ End ∷ []) }
        requires room { length self.named < 2 ^ 62 }
        ensures book { result.shown.mark.seen.book ≡ self.home.book }
        ensures list { result.shown.mark.seen.log ≡ self.named ++ End ∷ [] }
    {
        let Shared {
            head,
            mut origin,
            stage,
            ..
        } = self;
        let Some(stage) = stage else {
            unreachable!();
        };
        let all = list_ended(&origin.mark);
        add_all(rt, &head, &mut origin.mark, &all);
        let Stage { shelf, mut queue } = stage;
        let mut inner = shelf.open();
        load_at_last(rt, &mut inner, &mut queue);
        Shelf::new(show_at_last(rt, inner, &origin))
    }
}
