//! Reads a logical schema from its text (`read_logical`), or says why the text is none (`LogicalFault`).

ghost use Rattle.std.specs.Prelude.{◌≡◌, ◌<◌, ℕ, List, None, Some, IfErr, IfOk, IfSome, OnOk, length};
ghost use Rattle.csv.specs.Reading.{reader_state, source_of};
ghost use Rattle.csv.specs.declared.parser.State.TheVariants as st;
ghost use Rattle.bsi_input.specs.Texts.{ForText};
ghost use Rattle.bsi_logical.specs.Logical.{nothing_said, Logical};
ghost use Rattle.bsi_logical.specs.LogicalTexts.{fault_of, IsLogicalFault, IsLogicalText, Reads, Says};

use crate::logical::LogicalSchema;
use crate::{DeclareError, NoMemory, Refusal};
use bsi_input::{RecordSource, SourceFault};
use csv::ByteRecord;
use std::alloc::Global;
use std::io::Read;

/// Why a text says no schema of kinds.
#[derive(Clone, Copy, Debug, PartialEq, Eq)]
pub enum LogicalFault {
    /// The record of this number, from 1, says nothing, for this reason.
    BadRecord(u64, Refusal),
    /// The records say no column.
    NoColumns,
    /// The records were not all read, or memory was refused. It is never `BadHeader`, since the text has no header.
    Source(SourceFault),
}

impl From<SourceFault> for LogicalFault {
    ghost use Rattle.std.specs.Prelude.{◌≡◌};
    ghost use Rattle.bsi_logical.specs.declared.logical_text.LogicalFault.TheVariants.{Source};

    ghost from_gives = { λ fault e. e ≡ Source fault };

    fn from(fault: SourceFault) -> LogicalFault {
        LogicalFault::Source(fault)
    }
}

impl From<NoMemory> for LogicalFault {
    ghost use Rattle.std.specs.Prelude.{◌≡◌};
    ghost use Rattle.bsi_input.specs.declared.rows.SourceFault.TheVariants.{NoMemory};
    ghost use Rattle.bsi_logical.specs.declared.logical_text.LogicalFault.TheVariants.{Source};

    ghost from_gives = { λ _ e. e ≡ Source NoMemory };

    fn from(_refused: NoMemory) -> LogicalFault {
        LogicalFault::Source(SourceFault::NoMemory)
    }
}

/// Reads the schema of kinds that a text says: records as a schema file has them and, each behind the column that it
/// names, `title,NAME,TITLE`, `kind,NAME,KIND` and `text,NAME,TEXT`; besides, `dialect,DELIMITER,POINT` and
/// `null,WORD`. It reads at most 1,000,000 records.
pub fn read_logical<R: Read + Drop>(alloc: Global, reader: R) -> Result<LogicalSchema, LogicalFault>
    ensures some { IfOk result (λ logical. 0 < length logical.schema.columns) }
    ensures said { IfOk result (λ logical. IfSome (R.remaining reader)
        (λ bytes. IsLogicalText bytes logical)) }
    ensures fault { IfErr result (λ fault. IfSome (R.remaining reader)
        (λ bytes. IsLogicalFault bytes fault)) }

    // A text that says a schema is read as that one, unless the reader fails or memory is refused.
    ensures read { (bytes : List ℕ) → (logical : Logical) → R.remaining reader ≡ Some bytes →
        IsLogicalText bytes logical → Reads logical result }
{
    read_text(alloc, reader)
}

/// Reads the schema of kinds that a text says.
fn read_text<R: Read + Drop>(alloc: Global, reader: R) -> Result<LogicalSchema, LogicalFault>
    ensures some { IfOk result (λ logical. 0 < length logical.schema.columns) }
    ensures said { IfOk result (λ logical. IfSome (R.remaining reader)
        (λ bytes. IsLogicalText bytes logical)) }
    ensures fault { IfErr result (λ fault. IfSome (R.remaining reader)
        (λ bytes. IsLogicalFault bytes fault)) }
{
    let mut records = RecordSource::new(alloc, reader);
    let mut logical = LogicalSchema::new(alloc);
    declare_all(alloc, &mut records, &mut logical)?;
    if logical.schema().columns() == 0 {
        return Err(LogicalFault::NoColumns);
    }
    Ok(logical)
}

/// Carries out the records of a text of which no record was read.
fn declare_all<R: Read + Drop>(
    alloc: Global,
    records: &mut RecordSource<R>,
    logical: &mut LogicalSchema,
) -> Result<(), LogicalFault>
    requires fresh { (records.old.read_so_far ≡ 0) × (records.old.end ≡ None) }
    requires start { reader_state records.old.input ≡ st.StartRecord }
    requires none { logical.old ≡ nothing_said }
    ensures said { OnOk result (ForText (source_of R.remaining records.old.input)
        (λ bytes. Says bytes logical.new)) }
    ensures fault { IfErr result (λ fault. ForText (source_of R.remaining records.old.input)
        (λ bytes. IsLogicalFault bytes fault)) }
{
    let mut fields = ByteRecord::new(alloc);
    // No text has so many records. The bound lets the proof see that the loop ends.
    'records: for before in 0..u64::MAX {
        if !records.next_record(&mut fields)? {
            return Ok(());
        }
        if let Err(error) = logical.declare(alloc, &fields) {
            return Err(fault_of(before + 1, error));
        }
    }
    // No text has so many records, so the loop has returned.
    Err(LogicalFault::Source(SourceFault::TooLong))
}

/// Returns the fault of a record that was not carried out.
fn fault_of(number: u64, error: DeclareError) -> LogicalFault
    ensures { result ≡ fault_of number error }
{
    match error {
        DeclareError::Refused(why) => LogicalFault::BadRecord(number, why),
        DeclareError::NoMemory => LogicalFault::Source(SourceFault::NoMemory),
    }
}
