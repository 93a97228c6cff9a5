//! Why a logical schema does not accept a field: it spells no value of the column's kind, or one out of its range.

ghost use Rattle.std.specs.Prelude.{◌≡◌, ◌<◌, length, position, IfOk, IfSome};
ghost use Rattle.std.specs.List.{position_or_len};
ghost use Rattle.std.specs.Option.{is_none};
ghost use Rattle.std.specs.Str.{bytes_eq};
ghost use Rattle.bsi_kinds.specs.Kinds.{IsKind};
ghost use Rattle.bsi_check.specs.Judges.{logical_judge};

use crate::NoMemory;
use crate::diagnostics::misspelled::why_misspelled;
use crate::diagnostics::quoting::quote_field;
use crate::diagnostics::whole_numbers::{accepts, ends};
use crate::explains::Explains;
use bsi_kinds::Kind;
use bsi_logical::{LogicalFormat, LogicalSchema};
use std::alloc::Global;

// A column is called by its title, and a header may have other fields.
impl Explains for LogicalFormat {
    ghost judge = { logical_judge };

    fn find_column_under(&self, name: &[u8]) -> Option<u32> {
        find_titled(self.logical(), name)
    }

    fn column_title(&self, c: u32) -> &[u8] {
        self.logical().title(c)
    }

    fn why_refused(&self, alloc: Global, c: u32, text: &[u8]) -> Result<Option<String>, NoMemory> {
        why_no_entry(alloc, self.logical(), c, text)
    }

    fn passes_over_others(&self) -> bool {
        true
    }
}

/// Returns the column that has this title, or none.
fn find_titled(logical: &LogicalSchema, name: &[u8]) -> Option<u32>
    ensures column { result ≡ position (λ title. bytes_eq title name.now) logical.now.titles }
    ensures within { IfSome result (λ c. c < length logical.now.schema.columns) }
{
    let c = count_other_titles(logical, name);
    if c < logical.schema().columns() {
        Some(c)
    } else {
        None
    }
}

/// Counts the titles that precede this one, or all if it is none of them.
fn count_other_titles(logical: &LogicalSchema, name: &[u8]) -> u32
    ensures { result ≡ position_or_len (λ title. bytes_eq title name.now) logical.now.titles }
{
    let columns = logical.schema().columns();
    'columns: for c in 0..columns {
        if logical.title(c) == name {
            return c;
        }
    }
    columns
}

/// Returns why a column does not accept a field, or none if it does.
fn why_no_entry(
    alloc: Global,
    logical: &LogicalSchema,
    c: u32,
    text: &[u8],
) -> Result<Option<String>, NoMemory>
    requires { c < length logical.now.schema.columns }
    ensures { IfOk result (λ why. is_none why ≡ (logical_judge logical.now).accepts c text.now) }
{
    let Some(entry) = logical.read_entry(c, text) else {
        return Ok(Some(why_unread(alloc, logical, c, text)?));
    };
    if accepts(logical.schema(), c, entry.map(i128::from)) {
        return Ok(None);
    }
    Ok(Some(why_outside(alloc, logical, c, text)?))
}

/// Returns why no number stands for what a field of column `c` spells.
fn why_unread(
    alloc: Global,
    logical: &LogicalSchema,
    c: u32,
    text: &[u8],
) -> Result<String, NoMemory>
    requires { c < length logical.now.schema.columns }
{
    let point = logical.dialect().point;
    match why_misspelled(alloc, logical.kind(c), point, text)? {
        Some(why) => Ok(why),
        None => why_outside(alloc, logical, c, text),
    }
}

/// Returns that a field spells a value that column `c` does not have: the least and the greatest value, so far as the
/// ends of its numbers stand for some.
fn why_outside(
    alloc: Global,
    logical: &LogicalSchema,
    c: u32,
    text: &[u8],
) -> Result<String, NoMemory>
    requires { c < length logical.now.schema.columns }
{
    let word = quote_field(alloc, text)?;
    let (least, most) = ends(logical.schema(), c);
    let kind = logical.kind(c);
    let first = value_text(alloc, kind, least)?;
    let last = value_text(alloc, kind, most)?;
    match (first, last) {
        (Some(first), Some(last)) => format!(in alloc; "'{word}' is not from {first} to {last}"),
        (Some(first), None) => format!(in alloc; "'{word}' is not from {first} on"),
        (None, Some(last)) => format!(in alloc; "'{word}' is not up to {last}"),
        (None, None) => format!(in alloc; "'{word}' is none of the column's values"),
    }
}

/// Returns the text of the value that a number stands for, or none if it stands for none.
fn value_text(alloc: Global, kind: &Kind, number: i128) -> Result<Option<String>, NoMemory>
    requires { IsKind kind.now }
{
    let Ok(number) = i64::try_from(number) else {
        return Ok(None);
    };
    if !kind.has_value(number) {
        return Ok(None);
    }
    let mut line = Vec::new(alloc);
    kind.write(number, &mut line)?;
    let value = quote_field(alloc, line.as_slice())?;
    match kind {
        Kind::Boolean(_) | Kind::Text(_) => Ok(Some(format!(in alloc; "'{value}'")?)),
        Kind::Decimal(_) | Kind::Rounded(_) | Kind::Date(_) | Kind::Time(_) => Ok(Some(value)),
    }
}
