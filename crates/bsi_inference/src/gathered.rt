//! The distinct texts of a column (`Gathered`), unless its first fields looked like another kind, or they are too many.

ghost use Rattle.std.specs.Prelude.{◌≡◌, ◌⊎◌, ◌≤◌, ℕ, List, [], length, OnOk};
ghost use Rattle.std.specs.List.{Contains};

use crate::NoMemory;
use crate::text_set::TextSet;
use bsi_kinds::MAX_TEXTS;
use std::alloc::Global;

/// How many of the texts of a column were gathered.
#[derive(Clone, Copy, Debug, PartialEq, Eq)]
pub(crate) enum Gathering {
    /// All of them.
    All,
    /// Not those that were values of another kind at first.
    Missing,
    /// Not those past 65,536.
    TooMany,
}

/// The distinct texts of a column, as long as they are gathered.
#[derive(Drop)]
pub(crate) struct Gathered {
    pub(crate) texts: TextSet,
    pub(crate) state: Gathering,
    ghost few: { length texts ≤ 65536 },
}

impl Gathered {
    ghost use Rattle.bsi_inference.specs.Gatherings.{HasText, IsFullFor};

    /// Gathers no text yet.
    pub(crate) fn new(alloc: Global) -> Gathered
        ensures texts { result.texts ≡ [] }
        ensures state { result.state ≡ Gathering.All }
    {
        Gathered {
            texts: TextSet::new(alloc),
            state: Gathering::All,
        }
    }

    /// Drops the texts, since a field was a value of another kind.
    pub(crate) fn stop_gathering(&mut self)
        ensures texts { self.new.texts ≡ [] }
        ensures state { self.new.state ≡ Gathering.Missing }
    {
        self.drop_texts(Gathering::Missing);
    }

    /// Gathers a text, if texts are gathered.
    pub(crate) fn add(&mut self, text: &[u8]) -> Result<(), NoMemory>
        ensures text { OnOk result (HasText self.new text.now) }
        ensures preserved { (f : List ℕ) → HasText self.old f → HasText self.new f }
        ensures only { (f : List ℕ) → Contains self.new.texts f →
            Contains self.old.texts f ⊎ (f ≡ text.now) }
        ensures state { (self.new.state ≡ self.old.state)
            ⊎ ((self.new.state ≡ Gathering.TooMany) × IsFullFor self.old text.now) }
    {
        let Gathering::All = self.state else {
            return Ok(());
        };
        if self.texts.len() == MAX_TEXTS && !self.texts.contains(text) {
            self.drop_texts(Gathering::TooMany);
            return Ok(());
        }
        self.texts.add(text)
    }

    /// Gathers the texts of another part of the column. If memory runs out, it may have gathered some of them.
    pub(crate) fn join(&mut self, other: Gathered) -> Result<(), NoMemory>
        ensures preserved { (f : List ℕ) → HasText self.old f → HasText self.new f }
        ensures joined { OnOk result ((f : List ℕ) → HasText other f → HasText self.new f) }
        ensures only { (f : List ℕ) → Contains self.new.texts f →
            Contains self.old.texts f ⊎ Contains other.texts f }
        ensures missing { self.new.state ≡ Gathering.Missing →
            (self.old.state ≡ Gathering.Missing) ⊎ (other.state ≡ Gathering.Missing) }
    {
        let Gathered { texts, state } = other;
        match (self.state, state) {
            (_, Gathering::All) => self.add_all(texts),
            (Gathering::TooMany, _) => Ok(()),
            (_, why) => {
                self.drop_texts(why);
                Ok(())
            }
        }
    }

    /// Gathers texts. If memory runs out, it may have gathered some of them.
    fn add_all(&mut self, other: TextSet) -> Result<(), NoMemory>
        ensures preserved { (f : List ℕ) → HasText self.old f → HasText self.new f }
        ensures joined { OnOk result ((f : List ℕ) → Contains other f → HasText self.new f) }
        ensures only { (f : List ℕ) → Contains self.new.texts f →
            Contains self.old.texts f ⊎ Contains other f }
        ensures missing { self.new.state ≡ Gathering.Missing → self.old.state ≡ Gathering.Missing }
    {
        let texts = other.into_texts()?;
        'texts: for text in &texts {
            self.add(text.as_slice())?;
        }
        Ok(())
    }

    /// Drops the texts, and says why.
    fn drop_texts(&mut self, why: Gathering)
        ensures texts { self.new.texts ≡ [] }
        ensures state { self.new.state ≡ why }
    {
        self.texts.clear();
        self.state = why;
    }
}
