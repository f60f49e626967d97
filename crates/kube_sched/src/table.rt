//! Messages with their entries, by message and by number.

ghost use Rattle.std.specs.Prelude.{◌≡◌, ◌+◌, ◌<◌, ◌≤◌, ◌++◌, ◌∷◌, [], true, is_some, length, None, OnOk};
ghost use Rattle.indexmap.specs.IndexMap.{get, spare};
ghost use Rattle.indexmap.specs.IndexSet.{spare as spare_of};
ghost use Rattle.kube_sched.specs.Tables.{IsIndexed, RowAt, TakenAt, MarkedAt, at};

use indexmap::{IndexMap, IndexSet};
use kube_meta::{Moment, NoMemory};
use std::alloc::Global;
use std::hash::Hash;

/// What is held of a message.
#[derive(Clone, Copy, Debug)]
pub struct Entry {
    /// When it is due.
    pub time: Moment,
    /// The number of the request that set it: later ones have greater numbers.
    pub number: u64,
    /// Whether it waits.
    pub is_waiting: bool,
}

/// Entries by message. At each place of `numbers` stands the number of the entry at that place.
#[derive(Drop)]
pub struct Table<T: Eq + Hash> {
    pub entries: IndexMap<T, Entry>,
    pub numbers: IndexSet<u64>,
}

impl<T: Eq + Hash + Drop> Table<T> {
    /// No entries.
    pub fn new(alloc: Global) -> Table<T>
        ensures entries { result.entries.entries ≡ [] }
        ensures indexed { IsIndexed T.eq result.entries.entries result.numbers.keys }
    {
        Table {
            entries: IndexMap::new(alloc),
            numbers: IndexSet::new(alloc),
        }
    }

    /// Puts a message and its entry last.
    pub fn add(&mut self, message: T, entry: Entry)
        requires indexed { IsIndexed T.eq self.old.entries.entries self.old.numbers.keys }
        requires absent { get T.eq self.old.entries message ≡ None }
        requires number { at self.old.entries.entries entry.number ≡ None }
        requires room { 0 < spare self.old.entries }
        requires numbers_room { 0 < spare_of self.old.numbers }
        ensures entries { self.new.entries.entries ≡ self.old.entries.entries ++ (message, entry) ∷ [] }
        ensures indexed { IsIndexed T.eq self.new.entries.entries self.new.numbers.keys }
        ensures room { spare self.old.entries ≤ spare self.new.entries + 1 }
        ensures numbers_room { spare_of self.old.numbers ≤ spare_of self.new.numbers + 1 }
    {
        if self.entries.insert(message, entry).is_err() {
            unreachable!()
        }
        if self.numbers.insert(entry.number).is_err() {
            unreachable!()
        }
    }

    /// Takes memory for so many more entries.
    ///
    /// # Errors
    ///
    /// `NoMemory` where there is none for so many; the entries are then as before.
    pub fn reserve(&mut self, n: usize) -> Result<(), NoMemory>
        ensures entries { self.new.entries.entries ≡ self.old.entries.entries }
        ensures numbers { self.new.numbers.keys ≡ self.old.numbers.keys }
        ensures room { spare self.old.entries ≤ spare self.new.entries }
        ensures numbers_room { spare_of self.old.numbers ≤ spare_of self.new.numbers }
        ensures ok { OnOk result (n ≤ spare self.new.entries) }
        ensures numbers_ok { OnOk result (n ≤ spare_of self.new.numbers) }
    {
        self.entries.reserve(n)?;
        self.numbers.reserve(n)?;
        Ok(())
    }

    /// The place of the entry with a number.
    pub fn place_of(&self, number: u64) -> usize
        requires indexed { IsIndexed T.eq self.now.entries.entries self.now.numbers.keys }
        requires there { is_some (at self.now.entries.entries number) ≡ true }
        ensures place { RowAt self.now.entries.entries result number }
        ensures within { result < length self.now.entries.entries }
    {
        match self.numbers.get_index_of(&number) {
            Some(place) => place,
            None => unreachable!(),
        }
    }

    /// Takes out the message at a place. The last one comes there.
    pub fn take(&mut self, place: usize) -> T
        requires indexed { IsIndexed T.eq self.old.entries.entries self.old.numbers.keys }
        requires place { place < length self.old.entries.entries }
        ensures taken { TakenAt self.old.entries.entries self.new.entries.entries place result }
        ensures gone { (m : T) → T.eq result m ≡ true → get T.eq self.new.entries m ≡ None }
        ensures indexed { IsIndexed T.eq self.new.entries.entries self.new.numbers.keys }
        ensures room { spare self.old.entries ≤ spare self.new.entries }
        ensures numbers_room { spare_of self.old.numbers ≤ spare_of self.new.numbers }
    {
        self.numbers.swap_remove_index(place);
        match self.entries.swap_remove_index(place) {
            Some((message, _entry)) => message,
            None => unreachable!(),
        }
    }

    /// Lets the entry at a place wait.
    pub fn mark_waiting(&mut self, place: usize)
        requires indexed { IsIndexed T.eq self.old.entries.entries self.old.numbers.keys }
        requires place { place < length self.old.entries.entries }
        ensures marked { MarkedAt self.old.entries.entries self.new.entries.entries place }
        ensures indexed { IsIndexed T.eq self.new.entries.entries self.new.numbers.keys }
        ensures room { spare self.new.entries ≡ spare self.old.entries }
        ensures numbers { self.new.numbers ≡ self.old.numbers }
    {
        let (_message, entry) = self.entries.pair_mut(place);
        entry.is_waiting = true;
    }
}
