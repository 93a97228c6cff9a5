//! Whether two logical schemas are the same.

ghost use Rattle.std.specs.Prelude.{◌≡◌, ◌↔◌, map, IsTrue};

use crate::logical::LogicalSchema;
use bsi_kinds::Kind;

impl LogicalSchema {
    /// Returns whether another schema says the same.
    pub fn is_same(&self, other: &LogicalSchema) -> bool
        ensures { IsTrue result ↔ (self.now ≡ other.now) }
    {
        self.limit == other.limit
            && self.dialect == other.dialect
            && self.schema.is_same(&other.schema)
            && are_same_words(&self.titles, &other.titles)
            && are_same_words(&self.nulls, &other.nulls)
            && are_same_kinds(&self.kinds, &other.kinds)
    }
}

/// Returns whether two lists of words are the same.
fn are_same_words(first: &[Vec<u8>], second: &[Vec<u8>]) -> bool
    ensures { IsTrue result ↔ (map (λ word. word.items) first.now ≡ map (λ word. word.items) second.now) }
{
    if first.len() != second.len() {
        return false;
    }
    'words: for k in 0..first.len() {
        if first[k].as_slice() != second[k].as_slice() {
            return false;
        }
    }
    true
}

/// Returns whether two lists of kinds are the same.
fn are_same_kinds(first: &[Kind], second: &[Kind]) -> bool
    ensures { IsTrue result ↔ (first.now ≡ second.now) }
{
    if first.len() != second.len() {
        return false;
    }
    'kinds: for k in 0..first.len() {
        if !first[k].is_same(&second[k]) {
            return false;
        }
    }
    true
}
