//! A set of distinct texts (`TextSet`), to which texts and other sets are added.

ghost use Rattle.std.specs.Prelude.{◌≡◌, ◌⊎◌, ◌+◌, ◌<◌, ◌≤◌, [], List, ℕ, length, map, IfOk, OnOk, OnErr, IsTrue, ◌↔◌};
ghost use Rattle.std.specs.List.{Contains};
ghost use Rattle.bsi_kinds.specs.Dictionaries.{AreRising};
ghost use Rattle.bsi_inference.specs.Texts.{HasAddedText};

use crate::NoMemory;
use std::alloc::Global;
use std::collections::BTreeSet;
use std::marker::Model;

/// Distinct texts. A contract sees the list of them, in the order of their bytes.
#[derive(Drop)]
pub(crate) struct TextSet {
    alloc: Global,
    texts: BTreeSet<Vec<u8>>,
}

impl Model for TextSet {
    ghost use Rattle.std.specs.Prelude.{List, ℕ, map};

    ghost Value = { List (List ℕ) };

    ghost view = { λ s. map (λ t. t.items) s.texts.keys };
}

impl TextSet {
    /// Makes a set of no texts.
    pub(crate) fn new(alloc: Global) -> TextSet
        ensures { result ≡ [] }
    {
        TextSet {
            alloc,
            texts: BTreeSet::new(alloc),
        }
    }

    /// Returns how many texts there are.
    pub(crate) fn len(&self) -> usize
        ensures { result ≡ length self.now }
    {
        self.texts.len()
    }

    /// Returns whether this is one of the texts.
    pub(crate) fn contains(&self, text: &[u8]) -> bool
        ensures { IsTrue result ↔ Contains self.now text.now }
    {
        self.texts.contains(text)
    }

    /// Adds a text, unless it is there. If memory runs out, the texts stay as they were.
    pub(crate) fn add(&mut self, text: &[u8]) -> Result<(), NoMemory>
        ensures ok { OnOk result (HasAddedText self.old text.now self.new) }
        ensures err { OnErr result (self.new ≡ self.old) }
    {
        if self.contains(text) {
            return Ok(());
        }
        self.texts.insert(Vec::from_slice(self.alloc, text)?)?;
        Ok(())
    }

    /// Adds the texts of another set. If memory runs out, it may have added some of them.
    pub(crate) fn add_all(&mut self, other: TextSet) -> Result<(), NoMemory>
        ensures preserved { (f : List ℕ) → Contains self.old f → Contains self.new f }
        ensures joined { OnOk result ((f : List ℕ) → Contains other f → Contains self.new f) }
        ensures only { (f : List ℕ) → Contains self.new f → Contains self.old f ⊎ Contains other f }
    {
        let texts = other.into_texts()?;
        'texts: for text in &texts {
            self.add(text.as_slice())?;
        }
        Ok(())
    }

    /// Drops all texts.
    pub(crate) fn clear(&mut self)
        ensures { self.new ≡ [] }
    {
        self.texts.clear();
    }

    /// Returns the texts, in the order of their bytes.
    pub(crate) fn into_texts(self) -> Result<Vec<Vec<u8>>, NoMemory>
        ensures texts { IfOk result (λ texts. map (λ t. t.items) texts.items ≡ self) }
        ensures rising { OnOk result (AreRising self) }
    {
        let TextSet { alloc, texts } = self;
        texts.into_iter().collect(alloc)
    }
}
