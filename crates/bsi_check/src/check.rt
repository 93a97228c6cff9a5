//! Checks all files of a run, and writes what the run would not accept (`check_files`).

ghost use Rattle.std.specs.Prelude.{◌≡◌, Err, IfOk};
ghost use Rattle.bsi_check.specs.Reports.{AreAsksChecked, HasBegunReport, HasReported, IsReport};

use crate::NoMemory;
use crate::asks::check_asks;
use crate::fault::CheckFault;
use crate::finding::AsksFinding;
use crate::lines::add_reason;
use crate::named::NamedFile;
use crate::report::{Report, write_report};
use crate::row_files::{check_each, check_limit, write_counts};
use crate::schema::check_schema;
use bsi_logical::TableSchema;
use bsi_rows::MAX_FEEDERS;
use std::alloc::Global;
use std::io::{Read, Write};

/// Reads the files of a run as the run does, and writes a line for each thing that it would not accept, at most 100 for
/// a file, and then how many more there are; behind these the line `fed` of each row file that was read to its end. It
/// returns whether there was no reason. Each file is read to its end, whatever is found, but row files are not read
/// where the schema file declares no schema, or where they are more than 64. A schema of kinds judges row files by its
/// kinds, and asks as `bsi ask` reads them. It keeps the text of the schema, and the lines.
pub fn check_files<'a, S: Read + Drop, W: Write>(
    alloc: Global,
    schema: NamedFile<'a, S>,
    asks: Option<NamedFile<'a, S>>,
    rows: Vec<NamedFile<'a, S>>,
    output: &mut W,
) -> Result<bool, CheckFault>
    ensures reported { IfOk result (HasReported S.remaining schema.entry rows.entry.items asks.entry
        (W.contents output.old) (W.contents output.new)) }
    ensures prefix { result ≡ Err CheckFault.Write →
        HasBegunReport S.remaining schema.entry rows.entry.items asks.entry
        (W.contents output.old) (W.contents output.new) }
    ensures output_unchanged { result ≡ Err CheckFault.NoMemory →
        W.contents output.new ≡ W.contents output.old }
{
    let report = report_on(alloc, schema, asks, rows)?;
    write_report(&report, output)
}

/// Checks the files of a run.
fn report_on<'a, S: Read + Drop>(
    alloc: Global,
    schema: NamedFile<'a, S>,
    asks: Option<NamedFile<'a, S>>,
    rows: Vec<NamedFile<'a, S>>,
) -> Result<Report, NoMemory>
    ensures { IfOk result (λ report. IsReport S.remaining schema.entry rows.entry.items asks.entry
        report.reasons.items report.fed.items) }
{
    let mut reasons = Vec::new(alloc);
    let mut fed = Vec::new(alloc);
    if rows.len() > MAX_FEEDERS as usize {
        add_reason(alloc, &mut reasons, "bsi", "more than 64 files")?;
        return Ok(Report { reasons, fed });
    }
    let NamedFile { path, reader } = schema;
    let Some(table) = check_schema(alloc, path, reader, &mut reasons)? else {
        return Ok(Report { reasons, fed });
    };
    let files = check_each(alloc, &table.schema, rows, &mut reasons)?;
    check_limit(alloc, path, table.limit, &files, &mut reasons)?;
    check_given(alloc, &table.schema, asks, &mut reasons)?;
    write_counts(&files, &mut fed)?;
    Ok(Report { reasons, fed })
}

/// Checks the asks, if there are any. Without asks none is bad.
fn check_given<'a, S: Read + Drop>(
    alloc: Global,
    schema: &TableSchema,
    asks: Option<NamedFile<'a, S>>,
    reasons: &mut Vec<u8>,
) -> Result<AsksFinding, NoMemory>
    ensures { IfOk result (λ finding. AreAsksChecked S.remaining schema.now asks.entry finding
        reasons.old.items reasons.new.items) }
{
    match asks {
        Some(NamedFile { path, reader }) => check_asks(alloc, schema, path, reader, reasons),
        None => Ok(AsksFinding::Counted(0)),
    }
}
