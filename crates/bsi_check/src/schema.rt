//! Checks a schema file (`check_schema`): reads the schema that it declares, of whole numbers or of kinds, or adds the
//! reason why it declares none.

ghost use Rattle.std.specs.Prelude.{IfOk, OnOk};
ghost use Rattle.bsi_check.specs.Reasons.{AddsOneReason, IsSchemaChecked};

use crate::NoMemory;
use crate::diagnostics::{why_bad_setup, why_refused_setup};
use crate::lines::{Lines, add_reason, add_reason_at};
use crate::rows::add_unread;
use bsi_input::{DeclaredTable, SourceFault, plain_reader, read_next};
use bsi_logical::{DeclaredSchema, LogicalFault, Refusal, read_schema_file};
use bsi_syntax::read_setup;
use csv::ByteRecord;
use std::alloc::Global;
use std::io::{ErrorKind, Read};

/// Reads the columns and the limit that a file declares. It returns nothing, and adds the reason to `reasons`, where a
/// run over files would not accept the schema. It keeps the text while it reads it.
pub(crate) fn check_schema<S: Read + Drop>(
    alloc: Global,
    path: &str,
    mut file: S,
    reasons: &mut Vec<u8>,
) -> Result<Option<DeclaredSchema>, NoMemory>
    ensures { IfOk result (λ finding. IsSchemaChecked path.now (S.remaining file) finding
        reasons.old.items reasons.new.items) }
{
    let mut text = Vec::new(alloc);
    if let Err(error) = file.read_to_end(&mut text) {
        if error.kind() == ErrorKind::OutOfMemory {
            return Err(NoMemory);
        }
        add_unread(alloc, path, SourceFault::Read, reasons)?;
        return Ok(None);
    }
    match read_schema_file(alloc, text.as_slice()) {
        Ok(file) => Ok(Some(file)),
        Err(LogicalFault::Source(fault)) => {
            add_unread(alloc, path, fault, reasons)?;
            Ok(None)
        }
        Err(LogicalFault::NoColumns) => {
            add_reason(alloc, reasons, path, "declares no column")?;
            Ok(None)
        }
        Err(LogicalFault::BadRecord(number, why)) => {
            add_bad_record(alloc, path, text.as_slice(), number, why, reasons)?;
            Ok(None)
        }
    }
}

/// Adds the reason of the bad record of this number, from 1.
fn add_bad_record(
    alloc: Global,
    path: &str,
    text: &[u8],
    number: u64,
    why: Refusal,
    reasons: &mut Vec<u8>,
) -> Result<(), NoMemory>
    ensures { OnOk result (AddsOneReason path.now reasons.old.items reasons.new.items) }
{
    let mut fields = ByteRecord::new(alloc);
    let mut table = DeclaredTable::new(alloc);
    let (line, plain) = read_up_to(alloc, text, number, &mut fields, &mut table)?;
    let why = if plain && is_plain(why) {
        why_bad_setup(alloc, &mut table.schema, &fields, line)?
    } else {
        why_refused_setup(alloc, &fields, line, why)?
    };
    add_reason_at(alloc, reasons, path, line, why.as_str())
}

/// Returns whether a record that is refused for this reason, behind records of columns and limits, is bad in a schema of
/// whole numbers too, and says nothing of kinds.
fn is_plain(why: Refusal) -> bool {
    matches!(
        why,
        Refusal::UnknownWord | Refusal::BadTable | Refusal::NameTaken
    )
}

/// Reads a schema up to its record of this number, from 1, carries out those before it that declare columns and limits,
/// and returns the line of the record, and whether all before it were such.
fn read_up_to(
    alloc: Global,
    text: &[u8],
    number: u64,
    fields: &mut ByteRecord,
    table: &mut DeclaredTable,
) -> Result<(u64, bool), NoMemory> {
    let mut input = plain_reader(alloc, text);
    let (mut line, mut plain) = (0, true);
    let mut lines = Lines::new();
    'records: for before in 0..number {
        match read_next(&mut input, fields) {
            Ok(true) => {}
            Ok(false) => break,
            // A slice is always read: memory was refused.
            Err(_) => return Err(NoMemory),
        }
        let after = input.position();
        lines.advance(fields, after);
        line = lines.line_of(fields, after);
        if before + 1 < number {
            plain &= read_setup(alloc, &mut table.schema, &mut table.limit, fields)?;
        }
    }
    Ok((line, plain))
}
