//! Says why a record of a schema file is bad: its word, the name or the form of a column, or the limit.

use crate::NoMemory;
use crate::diagnostics::quoting::{add_line_ends, quote_field, quote_record};
use bsi_logical::Refusal;
use bsi_schema::{ColumnSpec, Schema, SchemaError};
use bsi_syntax::{field, read_number, read_signed};
use csv::ByteRecord;
use std::alloc::Global;

/// Which texts are names.
const NAMES: &str =
    "1 to 32 of a to z, 0 to 9 and _, first a letter, and not all, null, and, or, not";

/// Returns why a record that begins at a line declares nothing after those that have made this schema, behind what is
/// shown of the record, and then how many line ends a field takes in. It may add a column to the schema.
pub fn why_bad_setup(
    alloc: Global,
    schema: &mut Schema,
    fields: &ByteRecord,
    line: u64,
) -> Result<String, NoMemory> {
    let record = quote_record(alloc, fields)?;
    let why = why_no_setup(alloc, schema, fields)?;
    let mut text = format!(in alloc; "{record}: {why}")?;
    add_line_ends(fields, line, &mut text)?;
    Ok(text)
}

/// Returns why a record of a schema of kinds that begins at a line says nothing, as `why_bad_setup` does.
pub fn why_refused_setup(
    alloc: Global,
    fields: &ByteRecord,
    line: u64,
    why: Refusal,
) -> Result<String, NoMemory> {
    let record = quote_record(alloc, fields)?;
    let mut text = format!(in alloc; "{record}: {}", why.text())?;
    add_line_ends(fields, line, &mut text)?;
    Ok(text)
}

/// Returns why a record declares nothing.
fn why_no_setup(
    alloc: Global,
    schema: &mut Schema,
    fields: &ByteRecord,
) -> Result<String, NoMemory> {
    let word = field(fields, 0);
    if word == b"column".as_slice() {
        return why_bad_column(alloc, schema, fields);
    }
    if word == b"limit".as_slice() {
        return String::from_str(alloc, "a limit is one number from 1 to 4294967296: limit,N");
    }
    let text = quote_field(alloc, word)?;
    format!(in alloc; "'{text}' is neither 'column' nor 'limit'")
}

/// Returns why a record declares no column.
fn why_bad_column(
    alloc: Global,
    schema: &mut Schema,
    fields: &ByteRecord,
) -> Result<String, NoMemory> {
    let count = fields.len();
    if count < 4 {
        return String::from_str(
            alloc,
            "a column has a name, a form and its sizes: column,NAME,FORM,SIZES",
        );
    }
    if count > 5 {
        return String::from_str(
            alloc,
            "a column has at most 5 fields: bases stand in one field, with a space between two",
        );
    }
    if let Some(offset) = fields.get(4) {
        if !is_offset(offset) {
            let text = quote_field(alloc, offset)?;
            return format!(in alloc; "the offset '{text}' is no whole number of 64 bits");
        }
    }
    if let Some(why) = why_bad_name(alloc, schema, field(fields, 1))? {
        return Ok(why);
    }
    why_bad_form(alloc, field(fields, 2), field(fields, 3))
}

/// Returns whether a text is an offset.
fn is_offset(text: &[u8]) -> bool {
    match read_signed(text) {
        Some(number) => i64::try_from(number).is_ok(),
        None => false,
    }
}

/// Returns why a further column can't have this name, or none if it can. Then the schema has a column of this name.
fn why_bad_name(
    alloc: Global,
    schema: &mut Schema,
    name: &[u8],
) -> Result<Option<String>, NoMemory> {
    let shown_name = quote_field(alloc, name)?;
    let added = match str::from_utf8(name) {
        Ok(name) => schema.add(name, ColumnSpec::Slices(1)),
        Err(_) => Err(SchemaError::BadName),
    };
    match added {
        Ok(()) => Ok(None),
        Err(SchemaError::NoMemory) => Err(NoMemory),
        Err(SchemaError::NameTaken) => {
            Ok(Some(format!(in alloc; "there already is a column '{shown_name}'")?))
        }
        Err(SchemaError::TooManyColumns) => {
            Ok(Some(String::from_str(alloc, "there already are 64 columns")?))
        }
        Err(_) => {
            let why = format!(in alloc; "'{shown_name}' is no name: {NAMES}")?;
            Ok(Some(why))
        }
    }
}

/// Returns why a form and its sizes make no column.
fn why_bad_form(alloc: Global, form: &[u8], sizes: &[u8]) -> Result<String, NoMemory> {
    let text = quote_field(alloc, sizes)?;
    if form == b"slices".as_slice() {
        if !read_number(sizes).is_some_and(|width| width >= 1 && width <= 63) {
            return format!(in alloc; "'{text}' is no number of slices: 1 to 63");
        }
    } else if form == b"equality".as_slice() || form == b"range".as_slice() {
        if !are_bases(sizes) {
            return format!(in alloc;
                "'{text}' are no bases: 1 to 63 numbers of 2 to 1024, with one space between two"
            );
        }
    } else {
        let word = quote_field(alloc, form)?;
        return format!(in alloc; "'{word}' is no form: slices, equality or range");
    }
    String::from_str(
        alloc,
        "the sizes are too great: bases add up to at most 4096, and numbers end at most at 2^63",
    )
}

/// Returns whether each part between spaces is a base.
fn are_bases(text: &[u8]) -> bool {
    let mut count = 0usize;
    'bases: for word in text.split(|byte| *byte == b' ') {
        count = count.saturating_add(1);
        if !read_number(word).is_some_and(|base| base >= 2 && base <= 1024) {
            return false;
        }
    }
    count <= 63
}
