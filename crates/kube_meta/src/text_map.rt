//! A map of texts, which contracts see as its pairs.

ghost use Rattle.std.specs.Prelude.{◌≡◌, ◌↔◌, IfOk, OnOk, OnErr, [], length, option_copied, IsTrue};

use crate::memory::NoMemory;
use crate::text::Text;
use std::alloc::Global;
use std::collections::BTreeMap;
use std::fmt;
use std::marker::Model;

/// A map from texts to texts, as Kubernetes has labels and annotations.
///
/// Contracts see it as the list of its pairs in the order of their keys' bytes.
#[derive(Drop)]
pub struct TextMap {
    inner: BTreeMap<String, Text>,
}

impl Model for TextMap {
    ghost use Rattle.std.specs.Prelude.{ℕ, List};
    ghost use Rattle.kube_meta.specs.Pairs.{pairs_of};

    ghost Value = { List (List ℕ × List ℕ) };

    ghost view = { λ m. pairs_of m.inner.entries };
}

impl TextMap {
    ghost use Rattle.kube_meta.specs.Pairs.{text_at, pairs_of, with_pair};

    /// The empty map.
    pub fn new(alloc: Global) -> TextMap
        ensures { result ≡ [] }
    {
        TextMap {
            inner: BTreeMap::new(alloc),
        }
    }

    /// The map itself.
    pub fn as_map(&self) -> &BTreeMap<String, Text>
        ensures { pairs_of result.now.entries ≡ self.now }
    {
        &self.inner
    }

    /// How many texts it has.
    pub fn len(&self) -> usize
        ensures { result ≡ length self.now }
    {
        self.inner.len()
    }

    /// Whether it has no text.
    pub fn is_empty(&self) -> bool
        ensures { IsTrue result ↔ (self.now ≡ []) }
    {
        self.inner.is_empty()
    }

    /// The text under a key.
    pub fn get(&self, key: &str) -> Option<&Text>
        ensures { option_copied result ≡ text_at key.now self.now }
    {
        self.inner.get(key)
    }

    /// Puts a text under a key, in the place of the one that was there.
    ///
    /// Errors: `NoMemory`, and the map stays as it was; the text is dropped.
    pub fn insert(&mut self, alloc: Global, key: &str, text: Text) -> Result<(), NoMemory>
        ensures ok { OnOk result (self.new ≡ with_pair key.now text self.old) }
        ensures err { OnErr result (self.new ≡ self.old) }
    {
        let key = String::from_str(alloc, key)?;
        self.inner.insert(key, text)?;
        Ok(())
    }

    /// An equal map in memory of its own.
    ///
    /// Errors: `NoMemory`.
    pub fn copy(&self) -> Result<TextMap, NoMemory>
        ensures { IfOk result (λ m. m ≡ self.now) }
    {
        Ok(TextMap {
            inner: self.inner.clone()?,
        })
    }
}

/// As its texts are shown under their keys, in braces.
impl fmt::Debug for TextMap {
    fn fmt<W: fmt::Write>(&self, f: &mut fmt::Formatter<W>) -> fmt::Result {
        fmt::Debug::fmt(&self.inner, f)
    }
}
