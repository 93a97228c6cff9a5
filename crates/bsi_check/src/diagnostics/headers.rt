//! Says why a record is no header: which columns it does not name once, and which of its fields are no column.

ghost use Rattle.std.specs.Prelude.{◌<◌, length};

use crate::NoMemory;
use crate::diagnostics::closest::{closest_column, unknown_column};
use crate::diagnostics::quoting::{add_line_ends, quote_field};
use crate::explains::Explains;
use bsi_input::count_fields_named;
use bsi_syntax::field;
use csv::ByteRecord;
use std::alloc::Global;

/// Returns why a record that begins at a line is no header: what it names and what it is to name, and then each column
/// that it does not name once, each field that is no column, and how many line ends a field takes in. Where other fields
/// are passed over, it tells only of those that may mean a column that is missing.
pub fn why_no_header<F: Explains>(
    alloc: Global,
    format: &F,
    header: &ByteRecord,
    line: u64,
) -> Result<String, NoMemory> {
    let mut text = header_text(alloc, format, header)?;
    add_columns(alloc, format, header, &mut text)?;
    add_fields(alloc, format, header, &mut text)?;
    add_hint(alloc, format.delimiter(), header, &mut text)?;
    add_line_ends(header, line, &mut text)?;
    Ok(text)
}

/// Returns what the header names, and what it is to name.
fn header_text<F: Explains>(
    alloc: Global,
    format: &F,
    header: &ByteRecord,
) -> Result<String, NoMemory> {
    let mut text = String::from_str(alloc, "the header names ")?;
    'fields: for index in 0..header.len() {
        let name = quote_field(alloc, field(header, index))?;
        let before = if index == 0 { "" } else { ", " };
        write!(text, "{before}'{name}'")?;
    }
    text.push_str("; the columns are ")?;
    let schema = format.row_schema();
    'columns: for c in 0..schema.columns() {
        let title = quote_field(alloc, format.column_title(c))?;
        let before = if c == 0 { "" } else { ", " };
        write!(text, "{before}'{title}'")?;
    }
    Ok(text)
}

/// Adds the columns that the header does not name once.
fn add_columns<F: Explains>(
    alloc: Global,
    format: &F,
    header: &ByteRecord,
    text: &mut String,
) -> Result<(), NoMemory> {
    let schema = format.row_schema();
    'columns: for c in 0..schema.columns() {
        let title = quote_field(alloc, format.column_title(c))?;
        match count_fields_named(header, format.column_title(c)) {
            0 => write!(text, "; '{title}' is missing")?,
            1 => {}
            count => write!(text, "; '{title}' stands {count} times")?,
        }
    }
    Ok(())
}

/// Adds the fields that are no columns.
fn add_fields<F: Explains>(
    alloc: Global,
    format: &F,
    header: &ByteRecord,
    text: &mut String,
) -> Result<(), NoMemory> {
    'fields: for index in 0..header.len() {
        let name = field(header, index);
        if format.find_column_under(name).is_none() && is_told(alloc, format, header, name)? {
            let unknown = unknown_column(alloc, format, name)?;
            write!(text, "; {unknown}")?;
        }
    }
    Ok(())
}

/// Returns whether a field that is no column is told: where other fields are passed over, only if it may mean a column
/// that is missing.
fn is_told<F: Explains>(
    alloc: Global,
    format: &F,
    header: &ByteRecord,
    name: &[u8],
) -> Result<bool, NoMemory> {
    if !format.passes_over_others() {
        return Ok(true);
    }
    let word = quote_field(alloc, name)?;
    match closest_column(alloc, format, word.as_str())? {
        Some(c) => Ok(count_fields_named(header, format.column_title(c)) == 0),
        None => Ok(false),
    }
}

/// Adds what often makes a header none: a text in UTF-16, or another sign between its fields.
fn add_hint(
    alloc: Global,
    delimiter: u8,
    header: &ByteRecord,
    text: &mut String,
) -> Result<(), NoMemory> {
    let first = field(header, 0);
    if first.starts_with(b"\xff\xfe") || first.starts_with(b"\xfe\xff") {
        return text.push_str("; the file is in UTF-16, and bsi reads UTF-8");
    }
    let other = |byte: &u8| *byte != delimiter && matches!(*byte, b',' | b';' | b'\t');
    if header.len() != 1 || !first.iter().any(other) {
        return Ok(());
    }
    if delimiter == b',' {
        return text.push_str("; commas stand between fields");
    }
    let sign = quote_field(alloc, &[delimiter])?;
    write!(text, "; '{sign}' stands between fields")
}
