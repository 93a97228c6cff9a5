//! The trait of what the words of questions stand for (`Vocabulary`): columns by their names, and comparisons by their
//! constants; and of which columns may be summed, or compared with each other.

ghost use Rattle.std.specs.Prelude.{◌≡◌};
ghost use Rattle.bsi_syntax.specs.Vocabularies.{schema_vocabulary, NameNoWord, Words};

use crate::numbers::read_whole_number;
use bsi_rows::{Op, Schema};

/// What a reader of questions knows of the columns.
pub trait Vocabulary {
    /// What the words stand for.
    ghost words: { Self → Words };

    /// Returns the column of this name, or none.
    fn find_column(&self, name: &[u8]) -> Option<u32>
        ensures { result ≡ (words self.now).column name.now };

    /// Returns the comparison of column `c`'s numbers that stands for one with this constant, or none if the text is no
    /// constant of the column.
    fn read_comparison(&self, c: u32, op: Op, constant: &[u8]) -> Option<(Op, i128)>
        ensures { result ≡ (words self.now).comparison c op constant.now };

    /// Returns whether the numbers of column `c` may be summed.
    fn may_sum(&self, c: u32) -> bool
        ensures { result ≡ (words self.now).sums c };

    /// Returns whether the numbers of two columns may be compared with each other.
    fn may_compare(&self, first: u32, second: u32) -> bool
        ensures { result ≡ (words self.now).alike first second };

    /// Does nothing when the program runs. Its clause says that no word of a predicate is the name of a column.
    fn know_names(&self)
        ensures { NameNoWord (words self.now) };
}

impl Vocabulary for Schema {
    ghost words = { schema_vocabulary };

    fn find_column(&self, name: &[u8]) -> Option<u32> {
        self.find(name)
    }

    fn read_comparison(&self, _c: u32, op: Op, constant: &[u8]) -> Option<(Op, i128)> {
        Some((op, read_whole_number(self.signed(), constant)?))
    }

    fn may_sum(&self, _c: u32) -> bool {
        true
    }

    fn may_compare(&self, _first: u32, _second: u32) -> bool {
        true
    }

    fn know_names(&self) {
        // The call makes the schema's invariant known to the proof: a column's name is none of the words.
        let _ = self.columns();
    }
}
