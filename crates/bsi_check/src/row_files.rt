//! Checks row files by a format, one after another, and counts their rows (`check_row_files`).

ghost use Rattle.std.specs.Prelude.{◌≡◌, ◌≤◌, ◌++◌, Err, length, map, nat_le, sum, IfOk, OnOk};
ghost use Rattle.bsi_rows.specs.Table.{max_feeders};
ghost use Rattle.bsi_check.specs.Reasons.{AddsOneReasonUnless};
ghost use Rattle.bsi_check.specs.Reports.{fed_text, good_count, line_of, AreAdded, HasBegunWriting, HasWritten, IsFileChecked, IsRowReport};

use crate::NoMemory;
use crate::explains::Explains;
use crate::fault::CheckFault;
use crate::finding::FileFinding;
use crate::lines::add_reason;
use crate::named::NamedFile;
use crate::report::{Report, write_report};
use crate::rows::check_rows;
use bsi_rows::MAX_FEEDERS;
use bsi_syntax::write_fed;
use std::alloc::Global;
use std::io::{Read, Write};

/// Reads row files by a format, and writes a line for each thing that the format does not accept, at most 100 for a
/// file, and then how many more there are; behind these the line `fed` of each file that was read to its end. If there
/// are more good rows than the limit, it writes that as a reason of the schema at `path`. It returns whether there was
/// no reason. Each file is read to its end, whatever is found, but none is read where they are more than 64. It keeps
/// the lines.
pub fn check_row_files<'a, F: Explains + Drop, S: Read + Drop, W: Write>(
    alloc: Global,
    format: &F,
    limit: u64,
    path: &str,
    rows: Vec<NamedFile<'a, S>>,
    output: &mut W,
) -> Result<bool, CheckFault>
    ensures reported { IfOk result (HasWritten
        (IsRowReport S.remaining (F.format format.now) limit path.now rows.entry.items)
        (W.contents output.old) (W.contents output.new)) }
    ensures prefix { result ≡ Err CheckFault.Write → HasBegunWriting
        (IsRowReport S.remaining (F.format format.now) limit path.now rows.entry.items)
        (W.contents output.old) (W.contents output.new) }
    ensures output_unchanged { result ≡ Err CheckFault.NoMemory →
        W.contents output.new ≡ W.contents output.old }
{
    let report = report_on_rows(alloc, format, limit, path, rows)?;
    write_report(&report, output)
}

/// Checks row files.
fn report_on_rows<'a, F: Explains + Drop, S: Read + Drop>(
    alloc: Global,
    format: &F,
    limit: u64,
    path: &str,
    rows: Vec<NamedFile<'a, S>>,
) -> Result<Report, NoMemory>
    ensures { IfOk result (λ report. IsRowReport S.remaining (F.format format.now) limit path.now rows.entry.items
        report.reasons.items report.fed.items) }
{
    let mut reasons = Vec::new(alloc);
    let mut fed = Vec::new(alloc);
    if rows.len() > MAX_FEEDERS as usize {
        add_reason(alloc, &mut reasons, "bsi", "more than 64 files")?;
        return Ok(Report { reasons, fed });
    }
    let files = check_each(alloc, format, rows, &mut reasons)?;
    check_limit(alloc, path, limit, &files, &mut reasons)?;
    write_counts(&files, &mut fed)?;
    Ok(Report { reasons, fed })
}

/// Checks each row file.
pub(crate) fn check_each<'a, F: Explains + Drop, S: Read + Drop>(
    alloc: Global,
    format: &F,
    rows: Vec<NamedFile<'a, S>>,
    reasons: &mut Vec<u8>,
) -> Result<Vec<FileFinding>, NoMemory>
    ensures { IfOk result (λ files. AreAdded (IsFileChecked S.remaining (F.format format.now))
        rows.entry.items files.items reasons.old.items reasons.new.items) }
{
    let mut files = Vec::with_capacity(alloc, rows.len())?;
    'files: for named in rows {
        let NamedFile { path, reader } = named;
        let finding = check_rows(alloc, format, path, reader, reasons)?;
        files.push(finding)?;
    }
    Ok(files)
}

/// Adds the reason that the good records are more than the limit, if they are.
pub(crate) fn check_limit(
    alloc: Global,
    path: &str,
    limit: u64,
    files: &[FileFinding],
    reasons: &mut Vec<u8>,
) -> Result<(), NoMemory>
    requires few { length files.now ≤ max_feeders }
    ensures { OnOk result (AddsOneReasonUnless (nat_le (sum (map good_count files.now)) limit) path.now
        reasons.old.items reasons.new.items) }
{
    let good = count_good(files);
    if good <= u128::from(limit) {
        return Ok(());
    }
    let text = format!(in alloc; "there are {good} good rows, and the limit is {limit}")?;
    add_reason(alloc, reasons, path, text.as_str())
}

/// Counts the good records of all files.
fn count_good(files: &[FileFinding]) -> u128
    requires few { length files.now ≤ max_feeders }
    ensures { result ≡ sum (map good_count files.now) }
{
    let mut good = 0u128;
    'files: for file in files {
        good += u128::from(file.good_count());
    }
    good
}

/// Adds the line of each row file that was read to its end.
pub(crate) fn write_counts(files: &[FileFinding], fed: &mut Vec<u8>) -> Result<(), NoMemory>
    requires few { length files.now ≤ max_feeders }
    ensures { OnOk result (fed.new.items ≡ fed.old.items ++ fed_text 0 files.now) }
{
    let mut feeder = 0u32;
    'files: for file in files {
        write_count(feeder, *file, fed)?;
        feeder += 1;
    }
    Ok(())
}

/// Adds the line of a row file that was read to its end, and nothing for another one.
fn write_count(feeder: u32, file: FileFinding, fed: &mut Vec<u8>) -> Result<(), NoMemory>
    ensures { OnOk result (fed.new.items ≡ fed.old.items ++ line_of feeder file) }
{
    match file {
        FileFinding::Counted(counts) => {
            write_fed(feeder, counts.records - counts.bad, counts.bad, fed)
        }
        FileFinding::NoHeader | FileFinding::Unread(_) => Ok(()),
    }
}
