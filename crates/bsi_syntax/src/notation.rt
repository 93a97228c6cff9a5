//! The trait of how answers write the numbers of columns (`Notation`): in an index of whole numbers, as these.

ghost use Rattle.std.specs.Prelude.{OnOk};
ghost use Rattle.bsi_syntax.specs.Notations.{whole_texts, AppendsText, NumberTexts};

use crate::NoMemory;
use bsi_rows::Schema;
use itoa::Buffer;

/// How answers write the numbers of columns.
pub trait Notation {
    /// Which texts a number of a column has.
    ghost number_texts: { Self → NumberTexts };

    /// Appends a text of a number of column `c`, or a prefix of it. It allocates memory only for the line.
    fn write_number(&self, c: u32, number: i128, line: &mut Vec<u8>) -> Result<(), NoMemory>
        ensures { OnOk result (AppendsText (number_texts self.now c number) line.old.items line.new.items) };
}

impl Notation for Schema {
    ghost number_texts = { λ schema. whole_texts };

    fn write_number(&self, _c: u32, number: i128, line: &mut Vec<u8>) -> Result<(), NoMemory> {
        line.extend_from_slice(Buffer::new().format(number).as_bytes())
    }
}
