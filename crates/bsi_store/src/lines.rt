//! Appends lines of numbers to what `bsi show`, `bsi save` and `bsi add` write: a word and a number, or the bytes of a
//! column.

ghost use Rattle.std.specs.Prelude.{◌≡◌, ◌≤◌, ◌++◌, length, OnErr, OnOk};
ghost use Rattle.bsi_store.specs.Lines.{bytes_line, number_line};

use arrayvec::ArrayString;
use bsi_table::NoMemory;
use itoa::Buffer;

/// The most bytes of a line of a word and a number.
const MAX_COUNT_LINE: usize = 32;

/// Adds a line of a word and a number.
pub fn push_count_line(word: &str, number: u64, text: &mut Vec<u8>) -> Result<(), NoMemory>
    requires { length word.now ≤ 10 }
    ensures ok { OnOk result (text.new.items ≡ text.old.items ++ number_line word.now number) }
    ensures err { OnErr result (text.new.items ≡ text.old.items) }
{
    let mut line = ArrayString::<MAX_COUNT_LINE>::new();
    line.push_str(word);
    line.push_str(" ");
    line.push_str(Buffer::new().format(number));
    line.push_str("\n");
    text.extend_from_slice(line.as_str().as_bytes())
}

/// Adds the line of the bytes of a column of this name.
pub(crate) fn push_bytes_line(name: &str, number: u64, text: &mut Vec<u8>) -> Result<(), NoMemory>
    ensures { OnOk result (text.new.items ≡ text.old.items ++ bytes_line name.now number) }
{
    text.extend_from_slice(b"bytes ")?;
    text.extend_from_slice(name.as_bytes())?;
    push_count_line("", number, text)
}
