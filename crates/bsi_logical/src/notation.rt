//! How answers write the numbers of columns of kinds: as the values that these stand for.

ghost use Rattle.std.specs.Prelude.{◌≡◌, ◌++◌, OnOk};
ghost use Rattle.std.specs.Fmt.{signed_decimal};
ghost use Rattle.std.specs.List.{flat_map, list_any};
ghost use Rattle.bsi_kinds.specs.Kinds.{IsKind, IsNumber};
ghost use Rattle.bsi_syntax.specs.Notations.{AppendsText};
ghost use Rattle.bsi_logical.specs.AnswerTexts.{is_special, logical_texts, needs_quotes, quoted, quoted_byte, IsNumberText, IsValueOrNumber, IsValueText};

use crate::NoMemory;
use crate::logical::LogicalSchema;
use bsi_kinds::{Kind, write_decimal};
use bsi_syntax::Notation;
use itoa::Buffer;

impl Notation for LogicalSchema {
    ghost number_texts = { logical_texts };

    fn write_number(&self, c: u32, number: i128, line: &mut Vec<u8>) -> Result<(), NoMemory> {
        if c >= self.schema().columns() {
            return write_decimal(0, number, line);
        }
        write_by_kind(self.kind(c), number, line)
    }
}

/// Appends the text of a number of a kind, or a prefix of it.
fn write_by_kind(kind: &Kind, number: i128, line: &mut Vec<u8>) -> Result<(), NoMemory>
    requires { IsKind kind.now }
    ensures { OnOk result (AppendsText (IsNumberText kind.now number) line.old.items line.new.items) }
{
    match kind {
        Kind::Decimal(places) | Kind::Rounded(places) => write_decimal(*places, number, line),
        Kind::Date(_) | Kind::Time(_) | Kind::Boolean(_) | Kind::Text(_) => {
            write_value_or_number(kind, number, line)
        }
    }
}

/// Appends the text of the value that a number stands for or, if it stands for none, of the number itself.
fn write_value_or_number(kind: &Kind, number: i128, line: &mut Vec<u8>) -> Result<(), NoMemory>
    requires { IsKind kind.now }
    ensures { OnOk result (AppendsText (IsValueOrNumber kind.now number) line.old.items line.new.items) }
{
    let Ok(small) = i64::try_from(number) else {
        return write_whole(number, line);
    };
    if !kind.has_value(small) {
        return write_whole(number, line);
    }
    write_value(kind, small, line)
}

/// Appends a whole number.
fn write_whole(number: i128, line: &mut Vec<u8>) -> Result<(), NoMemory>
    ensures { OnOk result (line.new.items ≡ line.old.items ++ signed_decimal number) }
{
    line.extend_from_slice(Buffer::new().format(number).as_bytes())
}

/// Appends the text of the value that a number stands for.
fn write_value(kind: &Kind, number: i64, line: &mut Vec<u8>) -> Result<(), NoMemory>
    requires kind { IsKind kind.now }
    requires number { IsNumber kind.now number }
    ensures { OnOk result (AppendsText (IsValueText kind.now number) line.old.items line.new.items) }
{
    match kind {
        Kind::Text(texts) => write_quoted(texts.text(number as usize), line),
        Kind::Decimal(_) | Kind::Rounded(_) | Kind::Date(_) | Kind::Time(_) | Kind::Boolean(_) => {
            kind.write(number, line)
        }
    }
}

/// Appends a text, in double quotes if it needs them.
fn write_quoted(text: &[u8], line: &mut Vec<u8>) -> Result<(), NoMemory>
    ensures { OnOk result (line.new.items ≡ line.old.items ++ quoted text.now) }
{
    if !needs_quotes(text) {
        return line.extend_from_slice(text);
    }
    line.extend_from_slice(b"\"")?;
    write_quoted_bytes(text, line)?;
    line.extend_from_slice(b"\"")
}

/// Returns whether a text needs quotes: it is empty, or has a byte that an answer can have between texts.
fn needs_quotes(text: &[u8]) -> bool
    ensures { result ≡ needs_quotes text.now }
{
    text.is_empty() || has_special(text)
}

/// Returns whether a text has a byte that an answer can have between texts.
fn has_special(text: &[u8]) -> bool
    ensures { result ≡ list_any is_special text.now }
{
    text.iter().any(|byte| *byte < 33 || matches!(*byte, b'"' | b',' | b':' | b'=' | 127))
}

/// Appends the bytes of a text, each quote twice.
fn write_quoted_bytes(text: &[u8], line: &mut Vec<u8>) -> Result<(), NoMemory>
    ensures { OnOk result (line.new.items ≡ line.old.items ++ flat_map quoted_byte text.now) }
{
    'bytes: for byte in text {
        write_quoted_byte(*byte, line)?;
    }
    Ok(())
}

/// Appends a byte, or a quote twice.
fn write_quoted_byte(byte: u8, line: &mut Vec<u8>) -> Result<(), NoMemory>
    ensures { OnOk result (line.new.items ≡ line.old.items ++ quoted_byte byte) }
{
    if byte == b'"' {
        return line.extend_from_slice(b"\"\"");
    }
    line.extend_from_slice(&[byte])
}
