//! Reads booleans, a word for each truth value, as 1 or 0, and writes them.

ghost use Rattle.std.specs.Prelude.{◌≡◌, ◌↔◌, ◌++◌, IsTrue, OnOk};
ghost use Rattle.bsi_kinds.specs.Booleans.{boolean_number, boolean_text};

use crate::NoMemory;
use std::marker::Model;

/// How booleans are written: two words, which differ.
#[derive(Drop)]
pub struct BooleanForm {
    /// The word of what is false.
    pub no: Vec<u8>,
    /// The word of what is true.
    pub yes: Vec<u8>,
}

// Clauses see the bytes of the words.
impl Model for BooleanForm {
    ghost use Rattle.bsi_kinds.specs.BooleanWords.{BooleanWords};

    ghost Value = { BooleanWords };

    ghost view = { λ form. record { no = form.no.items; yes = form.yes.items } };
}

impl BooleanForm {
    /// Returns whether another form has the same words.
    pub fn is_same(&self, other: &BooleanForm) -> bool
        ensures { IsTrue result ↔ (self.now ≡ other.now) }
    {
        self.no.as_slice() == other.no.as_slice() && self.yes.as_slice() == other.yes.as_slice()
    }
}

/// Reads a boolean: 1 if it is true, and 0 if it is false. `None` stands for a text that is neither word. It allocates
/// no memory.
pub fn read_boolean(form: &BooleanForm, text: &[u8]) -> Option<i64>
    ensures { result ≡ boolean_number form.now text.now }
{
    if text == form.yes.as_slice() {
        Some(1)
    } else if text == form.no.as_slice() {
        Some(0)
    } else {
        None
    }
}

/// Appends the word of 1 or 0, or a prefix of it.
pub fn write_boolean(form: &BooleanForm, number: i64, line: &mut Vec<u8>) -> Result<(), NoMemory>
    ensures { OnOk result (line.new.items ≡ line.old.items ++ boolean_text form.now number) }
{
    let word = if number > 0 { &form.yes } else { &form.no };
    line.extend_from_slice(word.as_slice())
}
