//! Makes an index of no rows from the text of a schema, or says which record is bad (`open_text`).

ghost use Rattle.std.specs.Prelude.{◌≡◌, ℕ, List, IfErr, IfOk, OnOk};
ghost use Rattle.bsi_input.specs.SchemaTexts.{IsSchemaFault, IsSchemaText};
ghost use Rattle.bsi_ffi.specs.Calls.{IsFeederCount, IsNewIndex, IsTextRefusal};

use crate::open_index::OpenIndex;
use crate::refusal::Refusal;
use bsi_input::{SchemaFault, SourceFault, read_schema};
use bsi_syntax::DeclaredTable;
use bsi_table::Index;
use std::alloc::Global;

/// Makes the index of no rows that the text declares. If a record is bad, it writes the record's number, from 1.
pub(crate) fn open_text(
    alloc: Global,
    text: &[u8],
    feeders: u32,
    bad_record: &mut u64,
) -> Result<OpenIndex, Refusal>
    requires feeders { IsFeederCount feeders }
    requires zero { bad_record.old ≡ 0 }
    ensures opened { IfOk result (IsNewIndex text.now feeders) }
    ensures zero { OnOk result (bad_record.new ≡ 0) }
    ensures refused { IfErr result (IsTextRefusal text.now bad_record.new) }
{
    let DeclaredTable { schema, limit } = read_declared(alloc, text, bad_record)?;
    let Ok(index) = Index::new(alloc, schema, feeders, limit) else {
        // There is a column, and the limit is that of a record, so only memory can be refused.
        return Err(Refusal::NoMemory);
    };
    Ok(OpenIndex::new(alloc, text.to_vec(alloc)?, index))
}

/// Reads the columns and the limit that the text declares. If a record is bad, it writes the record's number, from 1.
fn read_declared(alloc: Global, text: &[u8], bad_record: &mut u64) -> Result<DeclaredTable, Refusal>
    requires { bad_record.old ≡ 0 }
    ensures declared { IfOk result (λ table. IsSchemaText text.now table.schema table.limit) }
    ensures zero { OnOk result (bad_record.new ≡ 0) }
    ensures refused { IfErr result (IsTextRefusal text.now bad_record.new) }
{
    match read_schema(alloc, text) {
        Ok(table) => Ok(table),
        Err(fault) => Err(refusal_of(fault, bad_record)),
    }
}

/// Returns the refusal of a text that declares no schema. If a record is bad, it writes the record's number.
fn refusal_of(fault: SchemaFault, bad_record: &mut u64) -> Refusal
    requires { bad_record.old ≡ 0 }
    ensures { (text : List ℕ) → IsSchemaFault text fault → IsTextRefusal text bad_record.new result }
{
    match fault {
        SchemaFault::BadRecord(number) => {
            *bad_record = number;
            Refusal::BadSchema
        }
        SchemaFault::NoColumns => Refusal::NoColumns,
        SchemaFault::Source(SourceFault::TooLong) => Refusal::BadText,
        // Bytes in memory are read without a fault, so it is memory that was refused.
        SchemaFault::Source(_) => Refusal::NoMemory,
    }
}
