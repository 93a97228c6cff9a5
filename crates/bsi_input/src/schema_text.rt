//! Reads the text of a schema (`read_schema`): the columns and the limit of rows that its records declare.

ghost use Rattle.std.specs.Prelude.{◌≡◌, ◌<◌, None, IfErr, IfOk, IfSome, OnOk, length};
ghost use Rattle.csv.specs.Reading.{reader_state, source_of};
ghost use Rattle.csv.specs.declared.parser.State.TheVariants as st;
ghost use Rattle.bsi_syntax.specs.Setups.{undeclared_table};
ghost use Rattle.bsi_input.specs.SchemaTexts.{Declares, IsSchemaFault, IsSchemaText};
ghost use Rattle.bsi_input.specs.Texts.{ForText};

use crate::NoMemory;
use crate::record_source::RecordSource;
use crate::rows::SourceFault;
use bsi_syntax::{DeclaredTable, read_setup};
use csv::ByteRecord;
use std::alloc::Global;
use std::io::Read;

/// Why a text declares no schema.
#[derive(Clone, Copy, Debug, PartialEq, Eq)]
pub enum SchemaFault {
    /// The record of this number, from 1, declares neither a column nor the limit, or can't be carried out.
    BadRecord(u64),
    /// The records declare no column.
    NoColumns,
    /// The records were not all read, or memory was refused. It is never `BadHeader`, since the text has no header.
    Source(SourceFault),
}

impl From<SourceFault> for SchemaFault {
    ghost use Rattle.bsi_input.specs.declared.schema_text.SchemaFault.TheVariants.{Source};

    ghost from_gives = { λ fault e. e ≡ Source fault };

    fn from(fault: SourceFault) -> SchemaFault {
        SchemaFault::Source(fault)
    }
}

impl From<NoMemory> for SchemaFault {
    ghost use Rattle.bsi_input.specs.declared.rows.SourceFault.TheVariants.{NoMemory};
    ghost use Rattle.bsi_input.specs.declared.schema_text.SchemaFault.TheVariants.{Source};

    ghost from_gives = { λ _ e. e ≡ Source NoMemory };

    fn from(_refused: NoMemory) -> SchemaFault {
        SchemaFault::Source(SourceFault::NoMemory)
    }
}

/// Reads the columns and the limit that a text declares. Without a record of a limit, it is the greatest there is. It
/// takes at most 1,000,000 records.
pub fn read_schema<R: Read + Drop>(alloc: Global, reader: R) -> Result<DeclaredTable, SchemaFault>
    ensures some { IfOk result (λ table. 0 < length table.schema.columns) }
    ensures declared { IfOk result (λ table. IfSome (R.remaining reader)
        (λ bytes. IsSchemaText bytes table.schema table.limit)) }
    ensures fault { IfErr result (λ fault. IfSome (R.remaining reader)
        (λ bytes. IsSchemaFault bytes fault)) }
{
    let mut records = RecordSource::new(alloc, reader);
    let mut table = DeclaredTable::new(alloc);
    declare_all(alloc, &mut records, &mut table)?;
    if table.schema.columns() == 0 {
        return Err(SchemaFault::NoColumns);
    }
    Ok(table)
}

/// Carries out the records of a text of which no record was read.
fn declare_all<R: Read + Drop>(
    alloc: Global,
    records: &mut RecordSource<R>,
    table: &mut DeclaredTable,
) -> Result<(), SchemaFault>
    requires fresh { (records.old.read_so_far ≡ 0) × (records.old.end ≡ None) }
    requires start { reader_state records.old.input ≡ st.StartRecord }
    requires none { table.old ≡ undeclared_table }
    ensures declared { OnOk result (ForText (source_of R.remaining records.old.input)
        (λ bytes. Declares bytes table.new)) }
    ensures fault { IfErr result (λ fault. ForText (source_of R.remaining records.old.input)
        (λ bytes. IsSchemaFault bytes fault)) }
{
    let mut fields = ByteRecord::new(alloc);
    // No text has so many records. The bound lets the proof see that the loop ends.
    'records: for before in 0..u64::MAX {
        if !records.next_record(&mut fields)? {
            return Ok(());
        }
        if !read_setup(alloc, &mut table.schema, &mut table.limit, &fields)? {
            return Err(SchemaFault::BadRecord(before + 1));
        }
    }
    // No text has so many records, so the loop has returned.
    Err(SchemaFault::Source(SourceFault::TooLong))
}
