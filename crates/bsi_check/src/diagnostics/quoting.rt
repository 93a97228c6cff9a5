//! Quotes a field or a record in a reason, cut short and on one line, and counts the line ends inside a quoted field.

ghost use Rattle.std.specs.Prelude.{string_bytes, OnOk};
ghost use Rattle.bsi_check.specs.Judges.{Begins};

use crate::NoMemory;
use bsi_syntax::field;
use csv::ByteRecord;
use std::alloc::Global;

/// The most bytes of a field that a reason shows.
const MAX_SHOWN: usize = 40;

/// The most fields of a record that a reason shows.
const MAX_SHOWN_FIELDS: usize = 8;

/// Returns what is shown of a field: its first 40 bytes, with a dot sequence if there are more. Bytes that are no
/// printed text stand as escapes.
pub(crate) fn quote_field(alloc: Global, field: &[u8]) -> Result<String, NoMemory> {
    let mut text = String::new(alloc);
    let end = count_quoted_bytes(field).min(field.len());
    let first = &field[..end];
    match str::from_utf8(first) {
        Ok(plain) if !plain.chars().any(|c| c.is_control()) => text.push_str(plain)?,
        _ => {
            'bytes: for byte in first {
                write!(text, "{}", byte.escape_ascii())?;
            }
        }
    }
    if end < field.len() {
        text.push_str("..")?;
    }
    Ok(text)
}

/// Returns how many bytes of a field are shown: at most 40, of a longer text only whole characters.
fn count_quoted_bytes(field: &[u8]) -> usize {
    let Some(first) = field.get(..MAX_SHOWN) else {
        return field.len();
    };
    match str::from_utf8(first) {
        Err(error) if field.len() > MAX_SHOWN && error.error_len().is_none() => error.valid_up_to(),
        _ => MAX_SHOWN,
    }
}

/// Returns what is shown of a record: its first fields, with commas between them.
pub(crate) fn quote_record(alloc: Global, fields: &ByteRecord) -> Result<String, NoMemory> {
    let mut text = String::new(alloc);
    let shown_fields = fields.len().min(MAX_SHOWN_FIELDS);
    'fields: for index in 0..shown_fields {
        let word = quote_field(alloc, field(fields, index))?;
        let before = if index == 0 { "" } else { "," };
        write!(text, "{before}{word}")?;
    }
    if shown_fields < fields.len() {
        text.push_str(",..")?;
    }
    Ok(text)
}

/// Adds to the reason of a record that begins at a line how many line ends its first field takes in that takes in any.
/// Its closing quote may be missing.
pub(crate) fn add_line_ends(
    fields: &ByteRecord,
    line: u64,
    text: &mut String,
) -> Result<(), NoMemory>
    ensures { OnOk result (Begins (string_bytes text.old) (string_bytes text.new)) }
{
    let inside = count_first_line_ends(fields);
    if inside == 0 {
        return Ok(());
    }
    add_line_end_count(line, inside, text)
}

/// Counts the line ends of the first field that has any.
fn count_first_line_ends(fields: &ByteRecord) -> u64 {
    'fields: for index in 0..fields.len() {
        let inside = count_line_ends(field(fields, index));
        if inside > 0 {
            return inside;
        }
    }
    0
}

/// Adds how many line ends a field takes in of a record that begins at a line.
fn add_line_end_count(line: u64, inside: u64, text: &mut String) -> Result<(), NoMemory>
    ensures { OnOk result (Begins (string_bytes text.old) (string_bytes text.new)) }
{
    let plural = if inside == 1 { "" } else { "s" };
    write!(
        text,
        "; the quoted field that begins at line {line} takes in {inside} line end{plural}"
    )
}

/// Counts the line ends of some bytes: line feeds, and carriage returns that no line feed follows.
fn count_line_ends(bytes: &[u8]) -> u64 {
    count_line_feeds(bytes).saturating_add(count_lone_returns(bytes))
}

/// Counts the line feeds of some bytes.
pub fn count_line_feeds(bytes: &[u8]) -> u64 {
    let mut count = 0u64;
    'bytes: for byte in bytes {
        if *byte == b'\n' {
            count = count.saturating_add(1);
        }
    }
    count
}

/// Counts the carriage returns of some bytes that no line feed follows.
pub fn count_lone_returns(bytes: &[u8]) -> u64 {
    let mut count = 0u64;
    let mut before = b'\n';
    'bytes: for byte in bytes {
        if before == b'\r' && *byte != b'\n' {
            count = count.saturating_add(1);
        }
        before = *byte;
    }
    if before == b'\r' {
        count = count.saturating_add(1);
    }
    count
}
