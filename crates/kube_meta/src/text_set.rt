//! A set of texts, which contracts see as its texts.

ghost use Rattle.std.specs.Prelude.{◌≡◌, IfOk, OnOk, OnErr, []};

use crate::memory::NoMemory;
use std::alloc::Global;
use std::collections::BTreeSet;
use std::fmt;
use std::marker::Model;

/// A set of texts.
///
/// Contracts see it as the list of its texts in the order of their bytes.
#[derive(Drop)]
pub struct TextSet {
    inner: BTreeSet<String>,
}

impl Model for TextSet {
    ghost use Rattle.std.specs.Prelude.{ℕ, List};
    ghost use Rattle.kube_meta.specs.Texts.{texts_of};

    ghost Value = { List (List ℕ) };

    ghost view = { λ s. texts_of s.inner.keys };
}

impl TextSet {
    ghost use Rattle.kube_meta.specs.Texts.{texts_of, is_among, with_text};

    /// The empty set.
    pub fn new(alloc: Global) -> TextSet
        ensures { result ≡ [] }
    {
        TextSet {
            inner: BTreeSet::new(alloc),
        }
    }

    /// The set itself.
    pub fn as_set(&self) -> &BTreeSet<String>
        ensures { texts_of result.now.keys ≡ self.now }
    {
        &self.inner
    }

    /// Whether the text is in the set.
    pub fn contains(&self, text: &str) -> bool
        ensures { result ≡ is_among text.now self.now }
    {
        self.inner.contains(text)
    }

    /// Puts a text into the set.
    ///
    /// Errors: `NoMemory`, and the set stays as it was.
    pub fn insert(&mut self, alloc: Global, text: &str) -> Result<(), NoMemory>
        ensures ok { OnOk result (self.new ≡ with_text text.now self.old) }
        ensures err { OnErr result (self.new ≡ self.old) }
    {
        let text = String::from_str(alloc, text)?;
        self.inner.insert(text)?;
        Ok(())
    }

    /// An equal set in memory of its own.
    ///
    /// Errors: `NoMemory`.
    pub fn copy(&self) -> Result<TextSet, NoMemory>
        ensures { IfOk result (λ s. s ≡ self.now) }
    {
        Ok(TextSet {
            inner: self.inner.clone()?,
        })
    }
}

/// As its texts are shown, in braces.
impl fmt::Debug for TextSet {
    fn fmt<W: fmt::Write>(&self, f: &mut fmt::Formatter<W>) -> fmt::Result {
        fmt::Debug::fmt(&self.inner, f)
    }
}
