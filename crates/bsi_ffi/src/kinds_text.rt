//! Reads what a text of kinds says of the columns of an index (`read_kinds`).

ghost use Rattle.std.specs.Prelude.{◌≡◌, ◌≤◌, IfErr, IfOk, OnOk, length};
ghost use Rattle.bsi_storage.specs.Saved.{max_kinds};
ghost use Rattle.bsi_ffi.specs.Kinds.{fault_refusal, IsKindsRefusal, SaysKinds};

use crate::refusal::Refusal;
use bsi_input::SourceFault;
use bsi_logical::{LogicalFault, LogicalSchema, read_logical};
use bsi_storage::MAX_KINDS;
use bsi_table::Schema;
use std::alloc::Global;

/// Reads the logical schema that a text of kinds says of columns, or none if the text is empty.
pub(crate) fn read_kinds(
    alloc: Global,
    kinds: &[u8],
    schema: &Schema,
) -> Result<Option<LogicalSchema>, Refusal>
    ensures says { IfOk result (SaysKinds kinds.now schema.now) }
    ensures few { OnOk result (length kinds.now ≤ max_kinds) }
    ensures refused { IfErr result (IsKindsRefusal kinds.now schema.now) }
{
    if kinds.is_empty() {
        return Ok(None);
    }
    if kinds.len() > MAX_KINDS {
        return Err(Refusal::BadKinds);
    }
    let logical = match read_logical(alloc, kinds) {
        Ok(logical) => logical,
        Err(fault) => return Err(refusal_of(fault)),
    };
    if !logical.schema().is_same(schema) {
        return Err(Refusal::BadKinds);
    }
    Ok(Some(logical))
}

/// Returns the refusal of a text that was not read as a logical schema.
fn refusal_of(fault: LogicalFault) -> Refusal
    ensures { result ≡ fault_refusal fault }
{
    match fault {
        // Bytes in memory are read without a fault, so it is memory that was refused.
        LogicalFault::Source(SourceFault::NoMemory | SourceFault::Read) => Refusal::NoMemory,
        LogicalFault::Source(SourceFault::TooLong | SourceFault::BadHeader)
        | LogicalFault::BadRecord(_, _)
        | LogicalFault::NoColumns => Refusal::BadKinds,
    }
}
