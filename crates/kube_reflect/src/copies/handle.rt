//! What a store handle has to read with.

ghost use Rattle.std.specs.Prelude.{◌≡◌, ◌≤◌, [], true, false, IfOk, IfErr, IfSome, IsNone};
ghost use mathlib.Core.List.{IsPrefix};
ghost use Rattle.left_right.specs.Sides.{view};
ghost use Rattle.rtrb.specs.Ring.{received};
ghost use Rattle.kube_reflect.specs.Entries.{has_end, is_readable};
ghost use Rattle.kube_reflect.specs.Ties.{home_of, home_at, IsTied};
ghost use Rattle.kube_reflect.specs.Ruled.{IsTrue, kept_for};
ghost use Rattle.kube_reflect.specs.Hands.{IsNamed};
ghost use Rattle.kube_reflect.specs.Looks.{Gives, made_in, ended_in};

use crate::copies::hand::{Hand, Taker};
use crate::copies::mark::{Mark, Origin};
use crate::copies::rule::{Sees, TwoReader, TwoReading};
use crate::made::Made;
use kube_meta::Resource;
use std::alloc::Global;
use std::marker::Model;
use std::sync::Wait;

/// A place for a reader of a writer.
///
/// Contracts see it as what a handle at this place has: the home of its writer, and the empty list.
#[derive(Drop)]
pub struct Place<K: Resource> {
    ring: Taker<K>,
    origin: Origin<K>,
    empty: Made<K>,
}

impl<K: Resource> Model for Place<K> {
    ghost use Rattle.std.specs.Prelude.{◌≡◌, []};
    ghost use Rattle.rtrb.specs.Ring.{received};
    ghost use Rattle.kube_reflect.specs.Ties.{home_of};
    ghost use Rattle.kube_reflect.specs.Hands.{IsNamed};
    ghost use Rattle.kube_reflect.specs.Looks.{Handled, IsNothing};

    ghost Value = { Handled K K.DynamicType };

    ghost view = { λ p. record { home = home_of p.origin; seen = p.origin.mark.seen.log } };

    ghost invariant = { λ p. IsNamed (received p.ring) (home_of p.origin) × (p.origin.mark.seen.log ≡ []) × IsNothing p.empty };
}

impl<K: Resource> Place<K> {
    // The place at the end of this ring, through which this name of a writer that told nothing went.
    pub(crate) fn new(alloc: Global, ring: Taker<K>, origin: Origin<K>) -> Place<K>
        requires named { IsNamed (received ring) (home_of origin) }
        requires empty { origin.mark.seen.log ≡ [] }
        ensures { result.home ≡ home_of origin }
    {
        Place {
            ring,
            origin,
            empty: Made::new(alloc),
        }
    }
}

/// What a store handle has to read with.
///
/// Contracts see it as the home of its writer, and the list that it read or learnt.
#[derive(Drop)]
pub(crate) struct Handle<K: Resource> {
    ring: Taker<K>,
    reader: Option<TwoReader<K>>,
    origin: Origin<K>,
    empty: Made<K>,
}

impl<K: Resource> Model for Handle<K> {
    ghost use Rattle.std.specs.Prelude.{◌≡◌, IfSome};
    ghost use Rattle.rtrb.specs.Ring.{received};
    ghost use Rattle.kube_reflect.specs.Ties.{home_of, IsTied};
    ghost use Rattle.kube_reflect.specs.Hands.{IsNamed};
    ghost use Rattle.kube_reflect.specs.Looks.{Handled, IsNothing};

    ghost Value = { Handled K K.DynamicType };

    ghost view = { λ h. record { home = home_of h.origin; seen = h.origin.mark.seen.log } };

    ghost invariant = { λ h. IsNamed (received h.ring) (home_of h.origin) × IfSome h.reader (λ r. IsTied r.place.me.0.client.at (home_of h.origin)) × IsNothing h.empty };
}

/// What a look gave.
pub enum Looked<K: Resource> {
    // Nothing was handed over yet.
    Nothing,
    // It has to be tried again.
    Again,
    Read(TwoReading<K>),
}

// Enters with a reader that is tied.
fn enter_tied<K: Resource>(
    reader: TwoReader<K>,
    origin: &Origin<K>,
) -> Result<TwoReading<K>, TwoReader<K>>
    requires { IsTied (view reader.place).at (home_of origin.now) }
    ensures read { IfOk result (λ r. IsTrue K.type_of K.meta_of r.part.value × (home_at r.part.value ≡ home_of origin.now) × IsTied (view r.place).at (home_of origin.now)) }
    ensures back { IfErr result (λ r. IsTied (view r.place).at (home_of origin.now)) }
{
    reader.enter_as::<Sees>()
}

// The list that was found, where it is no shorter than the one that was read or learnt.
pub(crate) fn newer<K>(mark: &Mark<K>, found: &Mark<K>) -> Option<Mark<K>>
    requires { found.now.seen.book ≡ mark.now.seen.book }
    ensures some { IfSome result (λ m. (m.seen ≡ found.now.seen) × IsPrefix mark.now.seen.log found.now.seen.log) }
    ensures none { IsNone result → IsPrefix found.now.seen.log mark.now.seen.log }
{
    let mut both = mark.seen.again();
    both.learn(&found.seen);
    if mark.len <= found.len {
        Some(found.again())
    } else {
        None
    }
}

impl<K: Resource> Handle<K> {
    // The type of its objects.
    pub(crate) fn dyntype(&self) -> &K::DynamicType
        ensures { result.now ≡ self.now.home.dyntype }
    {
        &*self.origin.dyntype
    }

    // A handle that has read nothing.
    pub(crate) fn new(place: Place<K>) -> Handle<K>
        ensures { (result.home ≡ place.home) × (result.seen ≡ []) }
    {
        let Place {
            ring,
            origin,
            empty,
        } = place;
        Handle {
            ring,
            reader: None,
            origin,
            empty,
        }
    }

    // Whether what was read or learnt is a beginning of a list of the same writer; else it begins with it.
    pub(crate) fn is_before(&self, mark: &Mark<K>) -> bool
        requires own { mark.now.seen.book ≡ self.now.home.book }
        ensures before { result ≡ true → IsPrefix self.now.seen mark.now.seen.log }
        ensures behind { result ≡ false → IsPrefix mark.now.seen.log self.now.seen }
    {
        newer(&self.origin.mark, mark).is_some()
    }

    // Takes in a list of the same writer.
    pub(crate) fn learn(&mut self, mark: &Mark<K>)
        requires own { mark.now.seen.book ≡ self.old.home.book }
        ensures own { self.new.home ≡ self.old.home }
        ensures later { IsPrefix self.old.seen self.new.seen }
        ensures learnt { IsPrefix mark.now.seen.log self.new.seen }
    {
        if let Some(newer) = newer(&self.origin.mark, mark) {
            self.origin.mark = newer;
        }
    }

    // The reader, or what the writer handed over.
    fn take_reader(&mut self) -> Option<TwoReader<K>>
        ensures handle { self.new ≡ self.old }
        ensures tied { IfSome result (λ r. IsTied (view r.place).at self.old.home) }
    {
        if let Some(reader) = self.reader.take() {
            return Some(reader);
        }
        match self.ring.pop() {
            Ok(Hand::Tied(reader)) => Some(reader),
            _ => None,
        }
    }

    // One look.
    fn try_enter(&mut self) -> Looked<K>
        ensures { Gives K.type_of K.meta_of self.old self.new result }
    {
        let Some(reader) = self.take_reader() else {
            return if self.origin.mark.len == 0 {
                Looked::Nothing
            } else {
                Looked::Again
            };
        };
        match enter_tied(reader, &self.origin) {
            Ok(reading) => match newer(&self.origin.mark, &reading.get().mark) {
                Some(mark) => {
                    self.origin.mark = mark;
                    Looked::Read(reading)
                }
                None => {
                    self.reader = Some(reading.leave());
                    Looked::Again
                }
            },
            Err(reader) => {
                self.reader = Some(reader);
                Looked::Again
            }
        }
    }

    // Reads until the list that is found begins with the one that was read or learnt. None where nothing was handed over:
    // the list is then the empty one.
    pub(crate) fn enter<R: Wait>(&mut self, rt: &R) -> Option<TwoReading<K>>
        ensures own { self.new.home ≡ self.old.home }
        ensures later { IsPrefix self.old.seen self.new.seen }
        ensures readable { is_readable self.new.seen ≡ true }
        ensures made { made_in result ≡ kept_for K.type_of K.meta_of self.new.home.dyntype self.new.seen }
        ensures ended { ended_in result ≡ has_end self.new.seen }
        ensures tied { IfSome result (λ r. IsTied (view r.place).at self.new.home) }
    {
        for _turn in rt.forever() {
            match self.try_enter() {
                Looked::Nothing => return None,
                Looked::Again => {}
                Looked::Read(reading) => return Some(reading),
            }
        }
        unreachable!()
    }

    // What is read.
    pub(crate) fn made<'a>(&'a self, reading: &'a Option<TwoReading<K>>) -> &'a Made<K>
        ensures { result.now ≡ made_in reading.now }
    {
        match reading {
            Some(reading) => &reading.get().made,
            None => &self.empty,
        }
    }

    // Leaves the copy that was read.
    pub(crate) fn leave(&mut self, reading: Option<TwoReading<K>>)
        requires { IfSome reading (λ r. IsTied (view r.place).at self.old.home) }
        ensures { self.new ≡ self.old }
    {
        if let Some(reading) = reading {
            self.reader = Some(reading.leave());
        }
    }
}

// Whether the end is in what is read.
pub(crate) fn has_ended<K: Resource>(reading: &Option<TwoReading<K>>) -> bool
    ensures { result ≡ ended_in reading.now }
{
    match reading {
        Some(reading) => reading.get().has_ended,
        None => false,
    }
}
