//! Writes the text of a logical schema (`describe_logical`), which is read as the same schema.

ghost use Rattle.std.specs.Prelude.{◌<◌, IfOk, length};
ghost use Rattle.bsi_logical.specs.LogicalTexts.{IsLogicalText};

use crate::NoMemory;
use crate::logical::LogicalSchema;
use crate::logical_text::read_logical;
use bsi_input::describe_schema;
use bsi_kinds::{DateForm, DateOrder, Dictionary, ISO_DATE, Kind, TimeForm, TimeUnit};
use csv::{Writer, WriterBuilder};
use itoa::Buffer;
use std::alloc::Global;

/// Makes a text that says this schema: its columns and the limit as a schema file has them, then the dialect, if it is
/// not the usual one, the null words and, column by column, the title, the kind and the texts, so far as they are not
/// those that a column has without a record. It reads the text again, so that a text that says anything else is never
/// returned; refused memory is the answer then, as it is for a schema that no text says: one of more than 1,000,000
/// records, of an empty text, or of dates with a digit between two numbers.
pub fn describe_logical(alloc: Global, logical: &LogicalSchema) -> Result<Vec<u8>, NoMemory>
    ensures { IfOk result (λ text. IsLogicalText text.items logical.now) }
{
    let text = make_text(alloc, logical)?;
    match read_logical(alloc, text.as_slice()) {
        Ok(said) if said.is_same(logical) => Ok(text),
        _ => Err(NoMemory),
    }
}

/// Makes the text.
fn make_text(alloc: Global, logical: &LogicalSchema) -> Result<Vec<u8>, NoMemory> {
    let table = describe_schema(alloc, logical.schema(), logical.limit())?;
    let mut out = WriterBuilder::new().flexible(true).from_writer(table);
    match put_all(logical, &mut out) {
        Ok(()) => out.into_inner().map_err(|_| NoMemory),
        Err(_) => Err(NoMemory),
    }
}

/// Appends the records beside those of a schema file.
fn put_all(logical: &LogicalSchema, out: &mut Writer<Vec<u8>>) -> Result<(), csv::Error> {
    let dialect = logical.dialect();
    if !dialect.is_usual() {
        out.write_fields(&[
            b"dialect".as_slice(),
            &[dialect.delimiter],
            &[dialect.point],
        ])?;
    }
    'words: for word in logical.nulls() {
        out.write_fields(&[b"null".as_slice(), word.as_slice()])?;
    }
    put_columns(logical, out)
}

/// Appends the title, the kind and the texts of each column.
fn put_columns(logical: &LogicalSchema, out: &mut Writer<Vec<u8>>) -> Result<(), csv::Error> {
    'columns: for c in 0..logical.schema().columns() {
        let name = logical.schema().name(c).as_bytes();
        let title = logical.title(c);
        if title != name {
            out.write_fields(&[b"title".as_slice(), name, title])?;
        }
        put_kind(name, logical.kind(c), out)?;
    }
    Ok(())
}

/// Appends the kind of a column, unless it is of whole numbers.
fn put_kind(name: &[u8], kind: &Kind, out: &mut Writer<Vec<u8>>) -> Result<(), csv::Error> {
    match kind {
        Kind::Decimal(0) => Ok(()),
        Kind::Decimal(places) => put_decimal(name, *places, out),
        Kind::Rounded(places) => put_rounded(name, *places, out),
        Kind::Date(form) => put_date(name, *form, out),
        Kind::Time(form) => put_time(name, *form, out),
        Kind::Boolean(form) => out.write_fields(&[
            b"kind".as_slice(),
            name,
            b"boolean".as_slice(),
            form.yes.as_slice(),
            form.no.as_slice(),
        ]),
        Kind::Text(texts) => put_texts(name, texts, out),
    }
}

/// Appends a kind of decimals.
fn put_decimal(name: &[u8], places: u32, out: &mut Writer<Vec<u8>>) -> Result<(), csv::Error> {
    let mut digits = Buffer::new();
    let places = digits.format(places).as_bytes();
    out.write_fields(&[b"kind".as_slice(), name, b"decimal".as_slice(), places])
}

/// Appends a kind of rounded decimals.
fn put_rounded(name: &[u8], places: u32, out: &mut Writer<Vec<u8>>) -> Result<(), csv::Error> {
    let mut digits = Buffer::new();
    out.write_fields(&[
        b"kind".as_slice(),
        name,
        b"decimal".as_slice(),
        digits.format(places).as_bytes(),
        b"rounded".as_slice(),
    ])
}

/// Appends a kind of dates.
fn put_date(name: &[u8], form: DateForm, out: &mut Writer<Vec<u8>>) -> Result<(), csv::Error> {
    out.write_field(b"kind")?;
    out.write_field(name)?;
    out.write_field(b"date")?;
    put_date_form(form, out)
}

/// Appends a kind of times.
fn put_time(name: &[u8], form: TimeForm, out: &mut Writer<Vec<u8>>) -> Result<(), csv::Error> {
    out.write_field(b"kind")?;
    out.write_field(name)?;
    out.write_field(b"time")?;
    out.write_field(match form.unit {
        TimeUnit::Seconds => b"s".as_slice(),
        TimeUnit::Milliseconds => b"ms".as_slice(),
        TimeUnit::Microseconds => b"us".as_slice(),
    })?;
    out.write_field(if form.utc {
        b"utc".as_slice()
    } else {
        b"local".as_slice()
    })?;
    if form.date == ISO_DATE {
        return out.end_record();
    }
    put_date_form(form.date, out)
}

/// Appends the order of the numbers of a date and the sign between them, and ends the record.
fn put_date_form(form: DateForm, out: &mut Writer<Vec<u8>>) -> Result<(), csv::Error> {
    out.write_field(match form.order {
        DateOrder::YearFirst => b"ymd".as_slice(),
        DateOrder::DayFirst => b"dmy".as_slice(),
        DateOrder::MonthFirst => b"mdy".as_slice(),
    })?;
    out.write_field(&[form.sign])?;
    out.end_record()
}

/// Appends a kind of texts, and these.
fn put_texts(name: &[u8], texts: &Dictionary, out: &mut Writer<Vec<u8>>) -> Result<(), csv::Error> {
    out.write_fields(&[b"kind".as_slice(), name, b"text".as_slice()])?;
    'texts: for number in 0..texts.len() {
        out.write_fields(&[b"text".as_slice(), name, texts.text(number)])?;
    }
    Ok(())
}
