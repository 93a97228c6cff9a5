//! Checks a row file, its header and each record, and adds the reasons why they are not accepted (`check_rows`).

ghost use Rattle.std.specs.Prelude.{◌≡◌, ◌≢◌, ◌∷◌, [], is_some, IfErr, IfOk, IfSome, OnOk};
ghost use Rattle.csv.specs.Reading.{ReadRecord, error_kind, reader_state, source_of};
ghost use Rattle.csv.specs.Records.{fields_of};
ghost use Rattle.csv.specs.declared.parser.State.TheVariants as st;
ghost use Rattle.bsi_input.specs.Formats.{good_row};
ghost use Rattle.bsi_input.specs.Sources.{layout_by, IsReadFault, IsReaderBy};
ghost use Rattle.bsi_input.specs.Texts.{ForText};
ghost use Rattle.bsi_check.specs.Checks.{HasAtMost, HasCounted, HasMoreRecords, IsFileFinding, IsTooLongRowFile};
ghost use Rattle.bsi_check.specs.Reasons.{fault_why, AddsBadRecordReasons, AddsFileReasons, AddsFirstReasons, AddsOneReason, AddsReasons, AddsRecordReason, AddsSomeReasons};

use crate::NoMemory;
use crate::diagnostics::{why_bad_record, why_no_header};
use crate::explains::Explains;
use crate::finding::{FileCounts, FileFinding};
use crate::lines::{Lines, MAX_REASONS, add_more_bad, add_reason, add_reason_at};
use bsi_input::{Layout, SourceFault, row_file_reader};
use bsi_rows::Row;
use csv::{ByteRecord, Reader};
use std::alloc::Global;
use std::io::Read;

/// Reads a row file to its end, and adds the reason of each bad record to `reasons`, at most 100 of them; or the reason
/// why it is no row file.
pub(crate) fn check_rows<F: Explains + Drop, I: Read + Drop>(
    alloc: Global,
    format: &F,
    path: &str,
    file: I,
    reasons: &mut Vec<u8>,
) -> Result<FileFinding, NoMemory>
    ensures finding { IfOk result (λ finding. IfSome (I.remaining file)
        (IsFileFinding (F.format format.now) finding)) }
    ensures few { IfOk result (HasAtMost (F.format format.now).most) }
    ensures reported { IfOk result (λ finding.
        AddsFileReasons path.now finding reasons.old.items reasons.new.items) }
{
    let mut input = row_file_reader(alloc, format.delimiter(), file);
    match check_input(alloc, format, path, &mut input, reasons) {
        Ok(finding) => Ok(finding),
        Err(fault) => add_unread(alloc, path, fault, reasons),
    }
}

/// Reads a row file of which no record was read, as `check_rows` does.
fn check_input<F: Explains + Drop, I: Read + Drop>(
    alloc: Global,
    format: &F,
    path: &str,
    input: &mut Reader<I>,
    reasons: &mut Vec<u8>,
) -> Result<FileFinding, SourceFault>
    requires by { IsReaderBy (F.format format.now).config input.old }
    requires start { reader_state input.old ≡ st.StartRecord }
    ensures finding { IfOk result (λ finding. ForText (source_of I.remaining input.old)
        (IsFileFinding (F.format format.now) finding)) }
    ensures few { IfOk result (HasAtMost (F.format format.now).most) }
    ensures reported { IfOk result (λ finding.
        AddsFileReasons path.now finding reasons.old.items reasons.new.items) }
    ensures some_reasons { IfErr result (λ fault. fault ≢ SourceFault.NoMemory →
        AddsSomeReasons path.now reasons.old.items reasons.new.items) }
    ensures later { IfErr result (λ fault. fault ≢ SourceFault.BadHeader) }
    ensures too_long { IfErr result (λ fault. fault ≡ SourceFault.TooLong →
        ForText (source_of I.remaining input.old) (IsTooLongRowFile (F.format format.now))) }
{
    let mut header = ByteRecord::new(alloc);
    if !read_header(format, input, &mut header)? {
        add_reason(alloc, reasons, path, "is empty: it has no header")?;
        return Ok(FileFinding::NoHeader);
    }
    let mut lines = Lines::new();
    lines.advance(&header, input.position());
    if !format.accepts_header(&header) {
        let line = lines.line_of(&header, input.position());
        add_bad_header(alloc, format, path, line, &header, reasons)?;
        return Ok(FileFinding::NoHeader);
    }
    let layout = Layout::of_header(alloc, format, header)?;
    let counts = check_records(alloc, &layout, lines, path, input, reasons)?;
    Ok(FileFinding::Counted(counts))
}

/// Adds the reason why a record is no header.
fn add_bad_header<F: Explains>(
    alloc: Global,
    format: &F,
    path: &str,
    line: u64,
    header: &ByteRecord,
    reasons: &mut Vec<u8>,
) -> Result<(), NoMemory>
    ensures { OnOk result (AddsOneReason path.now reasons.old.items reasons.new.items) }
{
    let why = why_no_header(alloc, format, header, line)?;
    add_reason_at(alloc, reasons, path, line, why.as_str())
}

/// Reads the records of a row file after its header, and adds the reason of each bad one, at most 100 of them, and how
/// many more there are.
fn check_records<F: Explains + Drop, I: Read + Drop>(
    alloc: Global,
    layout: &Layout<F>,
    lines: Lines,
    path: &str,
    input: &mut Reader<I>,
    reasons: &mut Vec<u8>,
) -> Result<FileCounts, SourceFault>
    requires { IsReaderBy (F.format layout.now.format).config input.old }
    ensures counted { IfOk result (HasCounted I.remaining (layout_by F.format layout.now) input.old) }
    ensures reported { IfOk result (λ counts.
        AddsBadRecordReasons path.now counts.bad reasons.old.items reasons.new.items) }
    ensures some_reasons { IfErr result (λ fault. fault ≢ SourceFault.NoMemory →
        AddsSomeReasons path.now reasons.old.items reasons.new.items) }
    ensures later { IfErr result (λ fault. fault ≢ SourceFault.BadHeader) }
    ensures too_long { IfErr result (λ fault. fault ≡ SourceFault.TooLong →
        HasMoreRecords I.remaining (F.format layout.now.format) input.old) }
{
    let counts = count_records(alloc, layout, lines, path, input, reasons)?;
    if counts.bad > MAX_REASONS {
        add_more_bad(alloc, reasons, path, counts.bad)?;
    }
    Ok(counts)
}

/// Reads and counts the records of a row file after its header, and adds the reason of each of the first 100 bad ones.
fn count_records<F: Explains + Drop, I: Read + Drop>(
    alloc: Global,
    layout: &Layout<F>,
    mut lines: Lines,
    path: &str,
    input: &mut Reader<I>,
    reasons: &mut Vec<u8>,
) -> Result<FileCounts, SourceFault>
    requires { IsReaderBy (F.format layout.now.format).config input.old }
    ensures counted { IfOk result (HasCounted I.remaining (layout_by F.format layout.now) input.old) }
    ensures reported { IfOk result (λ counts.
        AddsFirstReasons path.now counts.bad reasons.old.items reasons.new.items) }
    ensures some_reasons { IfErr result (λ fault. fault ≢ SourceFault.NoMemory →
        AddsSomeReasons path.now reasons.old.items reasons.new.items) }
    ensures later { IfErr result (λ fault. fault ≢ SourceFault.BadHeader) }
    ensures too_long { IfErr result (λ fault. fault ≡ SourceFault.TooLong →
        HasMoreRecords I.remaining (F.format layout.now.format) input.old) }
{
    let most = layout.format().most_records();
    let (mut records, mut bad) = (0u64, 0u64);
    let mut fields = ByteRecord::new(alloc);
    let mut entries = Vec::new(alloc);
    let mut row = Row::new(Vec::new(alloc));
    'records: while records < most {
        if !read_record(layout, input, &mut fields)? {
            return Ok(FileCounts { records, bad });
        }
        lines.advance(&fields, input.position());
        let good = is_good_record(alloc, layout, &fields, &mut entries, &mut row)?;
        records += 1;
        if good {
            continue;
        }
        bad += 1;
        if bad <= MAX_REASONS {
            let line = lines.line_of(&fields, input.position());
            add_bad_record(alloc, layout, path, line, &fields, reasons)?;
        }
    }
    if read_record(layout, input, &mut fields)? {
        return Err(SourceFault::TooLong);
    }
    Ok(FileCounts { records, bad })
}

/// Reads the first record of a row file of a format, and returns whether there was one.
// Its clauses say what csv's call does with a reader of this format.
fn read_header<F: Explains, I: Read + Drop>(
    _format: &F,
    input: &mut Reader<I>,
    fields: &mut ByteRecord,
) -> Result<bool, csv::Error>
    requires by { IsReaderBy (F.format _format.now).config input.old }
    ensures reads { IfOk result
        (λ more. ReadRecord I.remaining input.old input.new more (fields_of fields.new)) }
    ensures by { OnOk result (IsReaderBy (F.format _format.now).config input.new) }
    ensures fault { IfErr result (λ e. IsReadFault (error_kind e)) }
{
    input.read_byte_record(fields)
}

/// Reads the next record of a row file of this layout, and returns whether there was one.
// Its clauses say what csv's call does with a reader of the layout's format.
fn read_record<F: Explains + Drop, I: Read + Drop>(
    _layout: &Layout<F>,
    input: &mut Reader<I>,
    fields: &mut ByteRecord,
) -> Result<bool, csv::Error>
    requires by { IsReaderBy (F.format _layout.now.format).config input.old }
    ensures reads { IfOk result
        (λ more. ReadRecord I.remaining input.old input.new more (fields_of fields.new)) }
    ensures by { OnOk result (IsReaderBy (F.format _layout.now.format).config input.new) }
    ensures fault { IfErr result (λ e. IsReadFault (error_kind e)) }
{
    input.read_byte_record(fields)
}

/// Returns whether a record is good. It uses the row up.
fn is_good_record<F: Explains + Drop>(
    alloc: Global,
    layout: &Layout<F>,
    fields: &ByteRecord,
    entries: &mut Vec<Option<i64>>,
    row: &mut Row,
) -> Result<bool, NoMemory>
    ensures { IfOk result (λ good. good
        ≡ is_some (good_row (F.format layout.now.format) layout.now.header
        (fields_of fields.now))) }
{
    layout.read(alloc, fields, entries, row)
}

/// Adds the reason why a record is bad.
fn add_bad_record<F: Explains + Drop>(
    alloc: Global,
    layout: &Layout<F>,
    path: &str,
    line: u64,
    fields: &ByteRecord,
    reasons: &mut Vec<u8>,
) -> Result<(), NoMemory>
    ensures { OnOk result (AddsRecordReason (F.format layout.now.format) (F.judge layout.now.format)
        layout.now.header (fields_of fields.now) path.now reasons.old.items reasons.new.items) }
{
    let why = why_bad_record(alloc, layout.format(), layout.header(), fields, line)?;
    add_reason_at(alloc, reasons, path, line, why.as_str())
}

/// Adds the reason why a file was not read to its end. Refused memory is an error.
pub(crate) fn add_unread(
    alloc: Global,
    path: &str,
    fault: SourceFault,
    reasons: &mut Vec<u8>,
) -> Result<FileFinding, NoMemory>
    ensures finding { IfOk result (λ finding. finding ≡ FileFinding.Unread fault) }
    ensures reported { OnOk result
        (AddsReasons path.now (fault_why fault ∷ []) reasons.old.items reasons.new.items) }
    ensures fault { OnOk result (fault ≢ SourceFault.NoMemory) }
{
    if fault == SourceFault::NoMemory {
        return Err(NoMemory);
    }
    add_reason(alloc, reasons, path, fault.text())?;
    Ok(FileFinding::Unread(fault))
}
