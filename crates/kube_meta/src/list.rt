//! A list, which contracts see as its items.

ghost use Rattle.std.specs.Prelude.{◌≡◌, ◌↔◌, [], ◌∷◌, ◌++◌, length, OnOk, OnErr, IsTrue};

use crate::memory::NoMemory;
use std::alloc::Global;
use std::fmt;
use std::marker::Model;

/// A list. Contracts see it as the list of its items.
///
/// It is made from a `Vec` and gives it back without taking memory.
#[derive(Drop)]
pub struct List<T> {
    items: Vec<T>,
}

impl<T> Model for List<T> {
    ghost use Rattle.std.specs.Prelude.{List};

    ghost Value = { List T };

    ghost view = { λ l. l.items.items };
}

impl<T: Drop> List<T> {
    /// The empty list.
    pub fn new(alloc: Global) -> List<T>
        ensures { result ≡ [] }
    {
        List {
            items: Vec::new(alloc),
        }
    }

    /// The items in order.
    pub fn as_slice(&self) -> &[T]
        ensures { result.now ≡ self.now }
    {
        self.items.as_slice()
    }

    /// Adds an item at the end.
    ///
    /// Errors: `NoMemory`, and the list stays as it was; the item is dropped.
    pub fn push(&mut self, item: T) -> Result<(), NoMemory>
        ensures ok { OnOk result (self.new ≡ self.old ++ item ∷ []) }
        ensures err { OnErr result (self.new ≡ self.old) }
    {
        self.items.push(item)?;
        Ok(())
    }

    /// How many items it has.
    pub fn len(&self) -> usize
        ensures { result ≡ length self.now }
    {
        self.items.len()
    }

    /// Whether it has no item.
    pub fn is_empty(&self) -> bool
        ensures { IsTrue result ↔ (self.now ≡ []) }
    {
        self.items.is_empty()
    }
}

/// As its items are shown, in brackets.
impl<T: fmt::Debug> fmt::Debug for List<T> {
    fn fmt<W: fmt::Write>(&self, f: &mut fmt::Formatter<W>) -> fmt::Result {
        fmt::Debug::fmt(&self.items, f)
    }
}

impl<T> From<Vec<T>> for List<T> {
    ghost from_gives = { λ v l. l ≡ v.items };

    fn from(items: Vec<T>) -> List<T> {
        List { items }
    }
}

impl<T> From<List<T>> for Vec<T> {
    ghost from_gives = { λ l v. v.items ≡ l };

    fn from(list: List<T>) -> Vec<T> {
        let List { items } = list;
        items
    }
}
