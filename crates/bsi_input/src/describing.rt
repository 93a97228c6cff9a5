//! Writes a schema as the text of a schema file (`describe_schema`).

ghost use Rattle.std.specs.Prelude.{◌<◌, IfOk, length};
ghost use Rattle.bsi_input.specs.SchemaTexts.{IsSchemaText};

use crate::NoMemory;
use crate::schema_text::read_schema;
use bsi_digits::Bases;
use bsi_rows::{Form, Schema};
use std::alloc::Global;

/// Makes a text that declares these columns and this limit, a record for each. It reads the text again, so that a text
/// that declares anything else is never returned; refused memory is the answer then.
pub fn describe_schema(alloc: Global, schema: &Schema, limit: u64) -> Result<Vec<u8>, NoMemory>
    ensures { IfOk result (λ text. IsSchemaText text.items schema.now limit) }
{
    let mut text = String::new(alloc);
    'columns: for c in 0..schema.columns() {
        put_column(alloc, schema, c, &mut text)?;
    }
    text.push_str(&format!(in alloc; "limit,{limit}\n")?)?;
    let text = text.into_bytes();
    match read_schema(alloc, text.as_slice()) {
        Ok(table) if table.limit == limit && table.schema.is_same(schema) => Ok(text),
        _ => Err(NoMemory),
    }
}

/// Appends the record of column `c`.
fn put_column(alloc: Global, schema: &Schema, c: u32, text: &mut String) -> Result<(), NoMemory>
    requires { c < length schema.now.columns }
{
    let name = schema.name(c);
    match schema.form(c) {
        Form::Slices(width) => {
            text.push_str(&format!(in alloc; "column,{name},slices,{width}")?)?;
        }
        Form::Equality(bases) => {
            text.push_str(&format!(in alloc; "column,{name},equality")?)?;
            put_bases(alloc, bases, text)?;
        }
        Form::Range(bases) => {
            text.push_str(&format!(in alloc; "column,{name},range")?)?;
            put_bases(alloc, bases, text)?;
        }
    }
    if schema.signed() {
        let offset = schema.offset(c);
        text.push_str(&format!(in alloc; ",{offset}")?)?;
    }
    text.push_str("\n")
}

/// Appends a field of bases, the most significant first.
fn put_bases(alloc: Global, bases: &Bases, text: &mut String) -> Result<(), NoMemory> {
    let mut before = ',';
    'bases: for i in (0..bases.len()).rev() {
        let base = bases.base(i);
        text.push_str(&format!(in alloc; "{before}{base}")?)?;
        before = ' ';
    }
    Ok(())
}
