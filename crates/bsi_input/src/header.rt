//! The headers of row files of whole numbers, tested as they are defined, once a file: each column has one field, and
//! each field is a column.
//!
//! The loops go over indexes: the clauses of a record's iterator tell of one step, and would take a longer proof than the
//! loop.

ghost use Rattle.std.specs.Prelude.{◌≡◌, count_by, map, IfOk};
ghost use Rattle.std.specs.List.{list_all};
ghost use Rattle.std.specs.Str.{bytes_eq};
ghost use Rattle.csv.specs.Records.{fields_of};
ghost use Rattle.bsi_input.specs.RowFiles.{field_index, is_header, is_known, is_named_once};

use crate::NoMemory;
use bsi_rows::Schema;
use bsi_syntax::field;
use csv::ByteRecord;
use std::alloc::Global;

/// Returns whether a header names each column exactly once, and nothing else.
pub fn is_good_header(schema: &Schema, header: &ByteRecord) -> bool
    ensures { result ≡ is_header schema.now (fields_of header.now) }
{
    names_each_column_once(schema, header) && names_columns_only(schema, header)
}

/// Returns whether each column is named exactly once.
fn names_each_column_once(schema: &Schema, header: &ByteRecord) -> bool
    ensures { result ≡ list_all (is_named_once (fields_of header.now)) schema.now.columns }
{
    'columns: for c in 0..schema.columns() {
        if count_fields_named(header, schema.name(c).as_bytes()) != 1 {
            return false;
        }
    }
    true
}

/// Returns how many fields equal this name.
pub fn count_fields_named(header: &ByteRecord, name: &[u8]) -> usize
    ensures { result ≡ count_by (λ field. bytes_eq field name.now) (fields_of header.now) }
{
    let mut count = 0;
    'fields: for index in 0..header.len() {
        if field(header, index) == name {
            count += 1;
        }
    }
    count
}

/// Returns whether each field is the name of a column.
fn names_columns_only(schema: &Schema, header: &ByteRecord) -> bool
    ensures { result ≡ list_all (is_known schema.now) (fields_of header.now) }
{
    'fields: for index in 0..header.len() {
        if schema.find(field(header, index)).is_none() {
            return false;
        }
    }
    true
}

/// Returns for each column how many fields come before its name.
pub(crate) fn field_indexes(
    alloc: Global,
    schema: &Schema,
    header: &ByteRecord,
) -> Result<Vec<usize>, NoMemory>
    ensures { IfOk result (λ indexes. indexes.items
        ≡ map (λ column. field_index (fields_of header.now) column.name) schema.now.columns) }
{
    let mut indexes = Vec::with_capacity(alloc, schema.columns() as usize)?;
    'columns: for c in 0..schema.columns() {
        indexes.push_reserved(field_index(header, schema.name(c).as_bytes()));
    }
    Ok(indexes)
}

/// Returns how many fields come before the first one that equals this name.
pub fn field_index(header: &ByteRecord, name: &[u8]) -> usize
    ensures { result ≡ field_index (fields_of header.now) name.now }
{
    'fields: for index in 0..header.len() {
        if field(header, index) == name {
            return index;
        }
    }
    header.len()
}
