//! The fold over the bytes of properties.

ghost use Rattle.std.specs.Prelude.{◌≡◌, [], ◌∷◌, ◌++◌, length, map};
ghost use Rattle.kube_streams.specs.Properties.{folded, hashed, list_bytes, map_bytes, number_bytes, text_bytes};
ghost use Rattle.kube_meta.specs.Pairs.{pairs_of};

use kube_meta::{List, Text, TextMap};
use std::hash::Hasher;
use std::marker::Model;

/// FNV-1a of 64 bits, which contracts see as the number that it has come to.
#[derive(Drop)]
pub struct Fold {
    number: u64,
}

impl Model for Fold {
    ghost use Rattle.std.specs.Prelude.{ℕ};

    ghost Value = { ℕ };

    ghost view = { λ f. f.number };
}

impl Hasher for Fold {
    ghost write = { λ h bytes. folded h bytes };

    ghost finish = { λ h. h };

    fn finish(&self) -> u64 {
        self.number
    }

    fn write(&mut self, bytes: &[u8]) {
        for byte in bytes {
            self.number = (self.number ^ (*byte as u64)).wrapping_mul(1_099_511_628_211);
        }
    }
}

impl Fold {
    /// The fold over a tag.
    pub fn new(tag: u8) -> Fold
        ensures { result ≡ hashed tag [] }
    {
        let mut fold = Fold {
            number: 14_695_981_039_346_656_037,
        };
        fold.write_u8(tag);
        fold
    }

    /// With a number of 64 bits.
    pub fn number(&mut self, number: u64)
        ensures { self.new ≡ folded self.old (number_bytes number) }
    {
        self.write_u64(number);
    }

    /// With a text.
    pub fn text(&mut self, text: &str)
        ensures { self.new ≡ folded self.old (text_bytes text.now) }
    {
        self.number(text.len() as u64);
        self.write(text.as_bytes());
    }

    /// With texts.
    pub fn list(&mut self, texts: &[Text])
        ensures { self.new ≡ folded self.old (list_bytes texts.now) }
    {
        self.number(texts.len() as u64);
        for text in texts {
            self.text(text.as_str());
        }
    }

    /// With a map.
    pub fn map(&mut self, map: &TextMap)
        ensures { self.new ≡ folded self.old (map_bytes map.now) }
    {
        self.number(map.len() as u64);
        for (key, text) in map.as_map().iter() {
            self.text(key.as_str());
            self.text(text.as_str());
        }
    }
}
