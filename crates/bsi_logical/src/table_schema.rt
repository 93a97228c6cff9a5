//! The schema of a table that is of whole numbers alone, or of kinds (`TableSchema`): how row files give it rows, what the
//! words of questions over it mean, and how answers write its numbers.

ghost use Rattle.std.specs.Prelude.{◌≡◌, true};
ghost use Rattle.bsi_logical.specs.TableSchemas.{columns_of, format_of, texts_of, words_of};

use crate::NoMemory;
use crate::format::LogicalFormat;
use bsi_input::RowFormat;
use bsi_kinds::Op;
use bsi_rows::Schema;
use bsi_syntax::{Notation, Vocabulary};
use csv::ByteRecord;
use std::alloc::Global;

/// The schema of a table.
#[derive(Drop)]
pub enum TableSchema {
    /// The numbers are whole numbers, and stand for themselves.
    Plain(Schema),
    /// The numbers stand for values of kinds.
    Logical(LogicalFormat),
}

impl TableSchema {
    /// Lends the columns of whole numbers.
    pub fn columns(&self) -> &Schema
        ensures { result.now ≡ columns_of self.now }
    {
        match self {
            TableSchema::Plain(schema) => schema,
            TableSchema::Logical(format) => format.logical().schema(),
        }
    }

    /// Returns whether another schema is the same.
    pub fn is_same(&self, other: &TableSchema) -> bool
        ensures { result ≡ true → other.now ≡ self.now }
    {
        match (self, other) {
            (TableSchema::Plain(own), TableSchema::Plain(others)) => own.is_same(others),
            (TableSchema::Logical(own), TableSchema::Logical(others)) => {
                own.logical().is_same(others.logical())
            }
            (TableSchema::Plain(_), TableSchema::Logical(_))
            | (TableSchema::Logical(_), TableSchema::Plain(_)) => false,
        }
    }
}

impl RowFormat for TableSchema {
    ghost format = { format_of };

    fn copy_format(&self) -> Result<TableSchema, NoMemory> {
        match self {
            TableSchema::Plain(schema) => Ok(TableSchema::Plain(schema.copy_format()?)),
            TableSchema::Logical(format) => Ok(TableSchema::Logical(format.copy_format()?)),
        }
    }

    fn row_schema(&self) -> &Schema {
        match self {
            TableSchema::Plain(schema) => schema.row_schema(),
            TableSchema::Logical(format) => format.row_schema(),
        }
    }

    fn delimiter(&self) -> u8 {
        match self {
            TableSchema::Plain(schema) => schema.delimiter(),
            TableSchema::Logical(format) => format.delimiter(),
        }
    }

    fn accepts_header(&self, header: &ByteRecord) -> bool {
        match self {
            TableSchema::Plain(schema) => schema.accepts_header(header),
            TableSchema::Logical(format) => format.accepts_header(header),
        }
    }

    fn find_fields(&self, alloc: Global, header: &ByteRecord) -> Result<Vec<usize>, NoMemory> {
        match self {
            TableSchema::Plain(schema) => schema.find_fields(alloc, header),
            TableSchema::Logical(format) => format.find_fields(alloc, header),
        }
    }

    fn read_entries(
        &self,
        indexes: &[usize],
        fields: &ByteRecord,
        entries: &mut Vec<Option<i64>>,
    ) -> bool {
        match self {
            TableSchema::Plain(schema) => schema.read_entries(indexes, fields, entries),
            TableSchema::Logical(format) => format.read_entries(indexes, fields, entries),
        }
    }

    fn most_records(&self) -> u64 {
        match self {
            TableSchema::Plain(schema) => schema.most_records(),
            TableSchema::Logical(format) => format.most_records(),
        }
    }
}

impl Vocabulary for TableSchema {
    ghost words = { words_of };

    fn find_column(&self, name: &[u8]) -> Option<u32> {
        match self {
            TableSchema::Plain(schema) => schema.find_column(name),
            TableSchema::Logical(format) => format.logical().find_column(name),
        }
    }

    fn read_comparison(&self, c: u32, op: Op, constant: &[u8]) -> Option<(Op, i128)> {
        match self {
            TableSchema::Plain(schema) => schema.read_comparison(c, op, constant),
            TableSchema::Logical(format) => format.logical().read_comparison(c, op, constant),
        }
    }

    fn may_sum(&self, c: u32) -> bool {
        match self {
            TableSchema::Plain(schema) => schema.may_sum(c),
            TableSchema::Logical(format) => format.logical().may_sum(c),
        }
    }

    fn may_compare(&self, first: u32, second: u32) -> bool {
        match self {
            TableSchema::Plain(schema) => schema.may_compare(first, second),
            TableSchema::Logical(format) => format.logical().may_compare(first, second),
        }
    }

    fn know_names(&self) {
        match self {
            TableSchema::Plain(schema) => schema.know_names(),
            TableSchema::Logical(format) => format.logical().know_names(),
        }
    }
}

impl Notation for TableSchema {
    ghost number_texts = { texts_of };

    fn write_number(&self, c: u32, number: i128, line: &mut Vec<u8>) -> Result<(), NoMemory> {
        match self {
            TableSchema::Plain(schema) => schema.write_number(c, number, line),
            TableSchema::Logical(format) => format.logical().write_number(c, number, line),
        }
    }
}
