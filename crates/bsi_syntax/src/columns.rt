//! Reads the record that declares a column: `column,NAME,FORM,SIZES`, with an offset or without.
//!
//! A list of bases is read before the schema looks at the name and the bases, which takes memory. So where memory is
//! refused, that may be the answer to a record that would do nothing: to know sooner, the schema would have to look
//! twice.

ghost use Rattle.std.specs.Prelude.{◌≡◌, ◌≢◌, drop, false, true, option_map, option_and_then, IfOk, IsErr, MatchResult, OnErr};
ghost use Rattle.csv.specs.Records.{fields_of};
ghost use Rattle.bsi_schema.specs.declared.form.Form.TheVariants.{Slices};
ghost use Rattle.bsi_schema.specs.Columns.{max_slices};
ghost use Rattle.bsi_syntax.specs.Numbers.{number_between};
ghost use Rattle.bsi_syntax.specs.Setups.{added_after, checked_form, column_after, form_in, given_offset, IsChange};

use crate::NoMemory;
use crate::numbers::{read_bases, read_between, read_offset};
use crate::records::field;
use bsi_rows::{ColumnSpec, MAX_SLICES, Schema, SchemaError};
use csv::ByteRecord;
use std::alloc::Global;

/// Reads the form of a column, or returns none if the word names no form or the text does not fit the form.
fn read_form(alloc: Global, word: &[u8], text: &[u8]) -> Result<Option<ColumnSpec>, NoMemory>
    ensures { IfOk result (λ read. option_and_then checked_form read ≡ form_in word.now text.now) }
{
    if word == b"slices".as_slice() {
        return Ok(read_slices(text));
    }
    if word == b"equality".as_slice() {
        return Ok(read_bases(alloc, text)?.map(ColumnSpec::Equality));
    }
    if word == b"range".as_slice() {
        return Ok(read_bases(alloc, text)?.map(ColumnSpec::Range));
    }
    Ok(None)
}

/// Reads the number of slices of a column.
fn read_slices(text: &[u8]) -> Option<ColumnSpec>
    ensures { option_and_then checked_form result ≡ option_map Slices (number_between 1 max_slices text.now) }
{
    let width = read_between(1, u64::from(MAX_SLICES), text)?;
    Some(ColumnSpec::Slices(width as u32))
}

/// Adds a column of numbers from `offset` up or, without an offset, from 0 up. It returns false, and changes nothing,
/// if the schema refuses the column.
fn add(
    schema: &mut Schema,
    name: &str,
    spec: ColumnSpec,
    offset: Option<i64>,
) -> Result<bool, NoMemory>
    ensures done { IfOk result
        (IsChange (added_after schema.old name.now spec offset) schema.old schema.new) }
    ensures unchanged { OnErr result (schema.new ≡ schema.old) }
{
    match offset {
        None => check_added(schema.add(name, spec)),
        Some(least) => check_added(schema.add_signed(name, spec, least)),
    }
}

/// Returns whether a column was added. Refused memory stays an error.
fn check_added(added: Result<(), SchemaError>) -> Result<bool, NoMemory>
    ensures exact { IfOk result
        (λ done. MatchResult added (λ _. done ≡ true)
        (λ refused. (done ≡ false) × (refused ≢ SchemaError.NoMemory))) }
    ensures memory { OnErr result (IsErr added) }
{
    match added {
        Ok(()) => Ok(true),
        Err(SchemaError::NoMemory) => Err(NoMemory),
        Err(_) => Ok(false),
    }
}

/// Reads what follows the sizes of a column: an offset, or nothing.
fn read_given_offset(fields: &ByteRecord) -> Option<Option<i64>>
    ensures { result ≡ given_offset (drop 4 (fields_of fields.now)) }
{
    let Some(text) = fields.get(4) else {
        return Some(None);
    };
    if fields.len() > 5 {
        return None;
    }
    let offset = read_offset(text)?;
    Some(Some(offset))
}

/// Declares the column of a record `column,NAME,FORM,SIZES` or `column,NAME,FORM,SIZES,OFFSET`, and returns whether it
/// did.
pub(crate) fn declare_column(
    alloc: Global,
    schema: &mut Schema,
    fields: &ByteRecord,
) -> Result<bool, NoMemory>
    ensures done { IfOk result
        (IsChange (column_after schema.old (drop 1 (fields_of fields.now))) schema.old
        schema.new) }
    ensures unchanged { OnErr result (schema.new ≡ schema.old) }
{
    if fields.len() < 4 {
        return Ok(false);
    }
    let Some(offset) = read_given_offset(fields) else {
        return Ok(false);
    };
    let Ok(name) = str::from_utf8(field(fields, 1)) else {
        return Ok(false);
    };
    let Some(spec) = read_form(alloc, field(fields, 2), field(fields, 3))? else {
        return Ok(false);
    };
    add(schema, name, spec, offset)
}
