//! The trait of what turns the records of a row file into rows (`RowFormat`), and how a schema of whole numbers does.

ghost use Rattle.std.specs.Prelude.{◌≡◌, ◌≤◌, length, true, vec_capacity, IfOk, IsTrue};
ghost use Rattle.csv.specs.Records.{fields_of};
ghost use Rattle.bsi_schema.specs.Columns.{fits};
ghost use Rattle.bsi_input.specs.Formats.{config_of, fields_at, fitting, given, Format};
ghost use Rattle.bsi_input.specs.RowFiles.{plain_format};

use crate::NoMemory;
use crate::header::{field_indexes, is_good_header};
use crate::reading::MAX_RECORDS;
use bsi_rows::Schema;
use bsi_syntax::{field, read_entry};
use csv::ByteRecord;
use std::alloc::Global;

/// What reads the header of a row file, and turns its records into rows.
pub trait RowFormat {
    /// How it reads them.
    ghost format: { Self → Format };

    /// Makes a copy.
    fn copy_format(&self) -> Result<Self, NoMemory>
        ensures { IfOk result (λ copy. copy ≡ self.now) };

    /// Lends the schema that each row fits.
    fn row_schema(&self) -> &Schema
        ensures { result.now ≡ (format self.now).schema };

    /// Returns the byte between two fields.
    fn delimiter(&self) -> u8
        ensures { (format self.now).config ≡ config_of result };

    /// Returns whether a record is a header. It allocates no memory.
    fn accepts_header(&self, header: &ByteRecord) -> bool
        ensures { result ≡ (format self.now).is_header (fields_of header.now) };

    /// Returns for each column the index of its field under a header. An index past the last field stands for an empty
    /// field.
    fn find_fields(&self, alloc: Global, header: &ByteRecord) -> Result<Vec<usize>, NoMemory>
        ensures indexes { IfOk result (λ indexes. indexes.items
            ≡ (format self.now).indexes (fields_of header.now)) }
        ensures many { IfOk result (λ indexes. length indexes.items
            ≡ length (format self.now).schema.columns) };

    /// Reads the fields of the columns, which stand at these indexes, as the entries of a row, and returns whether they
    /// spell one that fits. The list is scratch: it may have any entries before, and after `false`. It allocates no
    /// memory.
    fn read_entries(
        &self,
        indexes: &[usize],
        fields: &ByteRecord,
        entries: &mut Vec<Option<i64>>,
    ) -> bool
        requires many { length indexes.now ≡ length (format self.now).schema.columns }
        requires wide { length (format self.now).schema.columns ≤ vec_capacity entries.old }
        ensures row { given result entries.new.items ≡ fitting (format self.now).schema
            ((format self.now).entries (fields_at indexes.now (fields_of fields.now))) }
        ensures fits { result ≡ true →
            IsTrue (fits (format self.now).schema.columns entries.new.items) }
        ensures wide { length (format self.now).schema.columns ≤ vec_capacity entries.new };

    /// Returns the most records that are read after a header.
    fn most_records(&self) -> u64
        ensures { result ≡ (format self.now).most };
}

// The format of whole numbers: fields have commas between them, and a header names each column once, and nothing else. At most 1,000,000 records are read.
impl RowFormat for Schema {
    ghost format = { plain_format };

    fn copy_format(&self) -> Result<Schema, NoMemory> {
        self.copy()
    }

    fn row_schema(&self) -> &Schema {
        self
    }

    fn delimiter(&self) -> u8 {
        b','
    }

    fn accepts_header(&self, header: &ByteRecord) -> bool {
        is_good_header(self, header)
    }

    fn find_fields(&self, alloc: Global, header: &ByteRecord) -> Result<Vec<usize>, NoMemory> {
        field_indexes(alloc, self, header)
    }

    fn read_entries(
        &self,
        indexes: &[usize],
        fields: &ByteRecord,
        entries: &mut Vec<Option<i64>>,
    ) -> bool {
        let signed = self.signed();
        entries.clear();
        'columns: for (index, limits) in indexes.iter().zip(self.limits()) {
            let text = field(fields, *index);
            let Some(entry) = read_entry(signed, *limits, text) else {
                return false;
            };
            entries.push_reserved(entry);
        }
        true
    }

    fn most_records(&self) -> u64 {
        MAX_RECORDS
    }
}
