//! Reads row files by a logical schema (`LogicalFormat`): a column's field is that under its title, and spells a value
//! of its kind.

ghost use Rattle.std.specs.Prelude.{◌≡◌, ◌<◌, ◌≤◌, length, map, true, vec_capacity, IfOk, IsTrue};
ghost use Rattle.csv.specs.Records.{fields_of};
ghost use Rattle.bsi_schema.specs.Columns.{column_at, fits};
ghost use Rattle.bsi_schema.specs.Limits.{limits_of};
ghost use Rattle.bsi_input.specs.Formats.{fields_at, fitting, given};
ghost use Rattle.bsi_input.specs.RowFiles.{field_index};
ghost use Rattle.bsi_logical.specs.HeaderTitles.{titles_of};
ghost use Rattle.bsi_logical.specs.LogicalRows.{accepted_entry, entries_from, entry_of, has_titles, logical_format};

use crate::NoMemory;
use crate::logical::LogicalSchema;
use crate::titles::{count_titled, title_index};
use bsi_input::RowFormat;
use bsi_rows::Schema;
use bsi_schema::Limits;
use bsi_syntax::field;
use csv::ByteRecord;
use std::alloc::Global;
use std::marker::Model;
use std::sync::Arc;

/// The most records of a row file of kinds. An index takes fewer rows.
const MAX_LOGICAL_RECORDS: u64 = 1 << 63;

/// A logical schema as the format of row files. The sources of files share it. Exactly one field of a header has each
/// title; there may be other fields, which are passed over. A field that stands in a header again has its number behind
/// it in its title: `rain_2`.
#[derive(Drop)]
pub struct LogicalFormat {
    logical: Arc<LogicalSchema, Global>,
}

// Clauses see the logical schema.
impl Model for LogicalFormat {
    ghost use Rattle.bsi_logical.specs.Logical.{Logical};

    ghost Value = { Logical };

    ghost view = { λ f. f.logical.value };
}

impl LogicalFormat {
    /// Makes the format of a logical schema.
    pub fn new(alloc: Global, logical: LogicalSchema) -> Result<LogicalFormat, NoMemory>
        ensures { IfOk result (λ format. format ≡ logical) }
    {
        Ok(LogicalFormat {
            logical: Arc::new(alloc, logical)?,
        })
    }

    /// Lends the logical schema.
    pub fn logical(&self) -> &LogicalSchema
        ensures { result.now ≡ self.now }
    {
        &self.logical
    }
}

impl RowFormat for LogicalFormat {
    ghost format = { logical_format };

    fn copy_format(&self) -> Result<LogicalFormat, NoMemory> {
        Ok(LogicalFormat {
            logical: Arc::try_clone(&self.logical)?,
        })
    }

    fn row_schema(&self) -> &Schema {
        self.logical.schema()
    }

    fn delimiter(&self) -> u8 {
        self.logical.dialect().delimiter
    }

    fn accepts_header(&self, header: &ByteRecord) -> bool {
        has_each_title_once(&self.logical, header)
    }

    fn find_fields(&self, alloc: Global, header: &ByteRecord) -> Result<Vec<usize>, NoMemory> {
        title_indexes(alloc, &self.logical, header)
    }

    fn read_entries(
        &self,
        indexes: &[usize],
        fields: &ByteRecord,
        entries: &mut Vec<Option<i64>>,
    ) -> bool {
        read_fitting(&self.logical, indexes, fields, entries)
    }

    fn most_records(&self) -> u64 {
        MAX_LOGICAL_RECORDS
    }
}

/// Returns whether exactly one field of a header has each title.
fn has_each_title_once(logical: &LogicalSchema, header: &ByteRecord) -> bool
    ensures { result ≡ has_titles logical.now (fields_of header.now) }
{
    'columns: for c in 0..logical.schema().columns() {
        if count_titled(header, logical.title(c)) != 1 {
            return false;
        }
    }
    true
}

/// Returns for each column how many fields come before the one that has its title.
fn title_indexes(
    alloc: Global,
    logical: &LogicalSchema,
    header: &ByteRecord,
) -> Result<Vec<usize>, NoMemory>
    ensures indexes { IfOk result (λ indexes. indexes.items
        ≡ map (field_index (titles_of (fields_of header.now))) logical.now.titles) }
    ensures many { IfOk result (λ indexes. length indexes.items
        ≡ length logical.now.schema.columns) }
{
    let columns = logical.schema().columns();
    let mut indexes = Vec::with_capacity(alloc, columns as usize)?;
    'columns: for c in 0..columns {
        indexes.push_reserved(title_index(header, logical.title(c)));
    }
    Ok(indexes)
}

/// Reads the fields at these indexes as the entries of a row, and returns whether they spell one that fits.
fn read_fitting(
    logical: &LogicalSchema,
    indexes: &[usize],
    fields: &ByteRecord,
    entries: &mut Vec<Option<i64>>,
) -> bool
    requires many { length indexes.now ≡ length logical.now.schema.columns }
    requires wide { length logical.now.schema.columns ≤ vec_capacity entries.old }
    ensures row { given result entries.new.items ≡ fitting logical.now.schema
        (entries_from logical.now 0 (fields_at indexes.now (fields_of fields.now))) }
    ensures fits { result ≡ true → IsTrue (fits logical.now.schema.columns entries.new.items) }
    ensures wide { length logical.now.schema.columns ≤ vec_capacity entries.new }
{
    entries.clear();
    'columns: for c in 0..logical.schema().columns() {
        let text = field(fields, indexes[c as usize]);
        let Some(entry) = read_accepted(logical, c, text) else {
            return false;
        };
        entries.push_reserved(entry);
    }
    true
}

/// Reads a field of column `c` as an entry that the column accepts. It allocates no memory.
fn read_accepted(logical: &LogicalSchema, c: u32, text: &[u8]) -> Option<Option<i64>>
    requires { c < length logical.now.schema.columns }
    ensures { result ≡ accepted_entry (column_at logical.now.schema.columns c)
        (entry_of logical.now c text.now) }
{
    let entry = logical.read_entry(c, text)?;
    if !limits_at(logical, c).accepts(entry.map(i128::from)) {
        return None;
    }
    Some(entry)
}

/// Returns the numbers that column `c` accepts.
fn limits_at(logical: &LogicalSchema, c: u32) -> Limits
    requires { c < length logical.now.schema.columns }
    ensures { result ≡ limits_of (column_at logical.now.schema.columns c) }
{
    logical.schema().limits()[c as usize]
}
