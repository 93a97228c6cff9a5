//! Reads the fields of a record as a row, or as an event of the step machine.

ghost use Rattle.std.specs.Prelude.{◌≡◌, ◌<◌, ◌∷◌, [], Some, drop, get_or, length, codes, IfOk};
ghost use Rattle.csv.specs.Records.{field_at, fields_of};
ghost use Rattle.bsi_syntax.specs.Events.{only_feeder, plain_event, IsEvent};
ghost use Rattle.bsi_syntax.specs.Numbers.{values_in};
ghost use Rattle.bsi_syntax.specs.Reading.{IsReadAs};

use crate::NoMemory;
use crate::numbers::{read_feeder, read_value};
use crate::queries::read_query;
use bsi_rows::{Event, Row, Schema};
use csv::ByteRecord;
use std::alloc::Global;

/// Reads the fields from index `from` on as the entries of a row, or returns none if one of them is not a value. `from`
/// may be past the end, which gives the row of no entries. It allocates memory for the entries once.
pub fn read_row(
    alloc: Global,
    schema: &Schema,
    fields: &ByteRecord,
    from: usize,
) -> Result<Option<Row>, NoMemory>
    ensures { IfOk result (λ read. read
        ≡ values_in schema.now.signed (drop from (fields_of fields.now))) }
{
    let signed = schema.signed();
    let count = fields.len();
    let mut values = Vec::with_capacity(alloc, count.saturating_sub(from))?;
    'values: for index in from..count {
        let Some(value) = read_value(signed, field(fields, index)) else {
            return Ok(None);
        };
        values.push_reserved(value);
    }
    Ok(Some(Row::new(values)))
}

/// Reads a record as the event that it asks for: `submit` with a feeder and the entries of a row, `load` or `close`
/// with a feeder, or a query. `None` stands for a record that asks for no event. It allocates memory for the row or the
/// query.
pub fn read_event(
    alloc: Global,
    schema: &Schema,
    fields: &ByteRecord,
) -> Result<Option<Event>, NoMemory>
    ensures { IfOk result (IsReadAs (IsEvent schema.now (fields_of fields.now))) }
{
    let Some(word) = fields.get(0) else {
        return Ok(None);
    };
    if word == b"submit".as_slice() {
        return read_submission(alloc, schema, fields);
    }
    if word == b"load".as_slice() {
        return Ok(read_only_feeder(fields).map(Event::Load));
    }
    if word == b"close".as_slice() {
        return Ok(read_only_feeder(fields).map(Event::Close));
    }
    Ok(read_query(alloc, schema, fields)?.map(Event::Ask))
}

/// Reads the feeder and the row that a record submits.
fn read_submission(
    alloc: Global,
    schema: &Schema,
    fields: &ByteRecord,
) -> Result<Option<Event>, NoMemory>
    ensures { IfOk result (λ read. read
        ≡ plain_event schema.now (codes "submit" ∷ drop 1 (fields_of fields.now))) }
{
    let Some(feeder) = fields.get(1).and_then(read_feeder) else {
        return Ok(None);
    };
    Ok(read_row(alloc, schema, fields, 2)?.map(|row| Event::Submit(feeder, row)))
}

/// Reads the feeder of a record that consists of a word and a feeder.
fn read_only_feeder(fields: &ByteRecord) -> Option<u32>
    ensures { result ≡ only_feeder (drop 1 (fields_of fields.now)) }
{
    if fields.len() != 2 {
        return None;
    }
    read_feeder(field(fields, 1))
}

/// Lends the field at an index, or no byte past the last field.
pub fn field(fields: &ByteRecord, index: usize) -> &[u8]
    ensures value { result.now ≡ get_or (fields_of fields.now) index [] }
    ensures there { index < length (fields_of fields.now) →
        field_at (fields_of fields.now) index ≡ Some result.now }
{
    fields.get(index).unwrap_or(&[])
}
