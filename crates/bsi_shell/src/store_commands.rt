//! Carries out the commands over a saved index: `bsi save`, `bsi schema`, `bsi add`, `bsi ask`, `bsi show` and `bsi check`;
//! and `bsi help`.
ghost use Rattle.std.specs.Prelude.{◌≡◌, ◌<◌, ◌≤◌, IfErr, IfOk, IsOk, IsOkAnd, OnOk, false, length};
ghost use Rattle.std.specs.Io.KnownBytes.{Appends, Keeps};
ghost use Rattle.bsi_shell.specs.StoreRuns.{bad_records_notice, EndedByFault, HasAddedRows, HasAskedEither, HasDescribedRows, HasFailedFound, HasFailedSaveOf, HasFailedSchemaOf, HasFailedStore, HasGivenRows, HasSavedBy, HasSavedDeclared, HasSavedFound, HasSavedRows, IsCutByWrite, IsFlushed, LeavesAdd, LeavesAsk, LeavesSave, LeavesSaveBy, LeavesShow, OfSome};
ghost use Rattle.bsi_shell.specs.FaultLines.{help_text, IsLineWritten};
ghost use Rattle.bsi_shell.specs.Checks.{LeavesIndexCheck};
ghost use Rattle.bsi_store.specs.Asked.{HasReadWhole, HasShown};
ghost use Rattle.bsi_store.specs.Faults.{store_fault_line};
ghost use Rattle.bsi_store.specs.Surveyed.{HasDescribed, HasSurveyed};

use crate::fault_lines::{HELP, write_bad_records, write_store_fault};
use crate::request::SaveRequest;
use crate::row_options::{RowOptions, SchemaRequest};
use crate::survey_lines::write_survey_fault;
use crate::words::CommandEnd;
use bsi_files::{Gate, Stopping};
use bsi_logical::LogicalFormat;
use bsi_store::{
    AddPaths, AskPaths, LockFile, SavePaths, StoreFault, SurveyFault, add_rows, ask_input,
    ask_over, check_index, describe_rows, find_file_delimiter, save_kinds, save_rows, show_index,
    survey_rows,
};
use bsi_survey::SurveyOptions;
use bsi_text::{WriteFault, write_bytes};
use std::fs::OpenFile;
use std::io::{Read, Write};
use std::rt::Files;
use std::sync::Wait;
use std::thread::Threads;
use std::time::Clock;

/// Carries out `bsi save`.
pub(crate) fn answer_save<
    'a,
    R: AllocGlobal + Files<File = S> + Threads + Wait + Sync,
    S: Read + Write + OpenFile + LockFile + Drop + Send,
    O: Write,
    F: Write,
    G: Gate + Stopping + Sync,
>(rt: &R, request: &SaveRequest<'a>, output: &mut O, stderr: &mut F, gate: &G) -> CommandEnd
    requires { G.STOPS ≡ false }
    ensures status { result.status ≤ 1 }
    ensures saved { result.status ≡ 0 → HasGivenRows
        (HasSavedRows S.remaining S.contents request.now) (O.contents output.old)
        (O.contents output.new) result.reported (F.contents stderr.old) (F.contents stderr.new) }
    ensures reported { result.status ≡ 1 →
        HasFailedSaveOf S.remaining S.contents request.now
        (O.contents output.old) (O.contents output.new) result.reported (F.contents stderr.old) (F.contents stderr.new) }
{
    match request.schema {
        Some(schema) => save_declared(rt, schema, &request.paths, output, stderr, gate),
        None => save_found(rt, &request.options, &request.paths, output, stderr, gate),
    }
}

/// Saves rows by a schema file.
fn save_declared<
    'a,
    R: AllocGlobal + Files<File = S> + Threads + Wait + Sync,
    S: Read + Write + OpenFile + LockFile + Drop + Send,
    O: Write,
    F: Write,
    G: Gate + Stopping + Sync,
>(
    rt: &R,
    schema: &'a str,
    paths: &SavePaths<'a>,
    output: &mut O,
    stderr: &mut F,
    gate: &G,
) -> CommandEnd
    requires { G.STOPS ≡ false }
    ensures status { result.status ≤ 1 }
    ensures saved { result.status ≡ 0 → HasGivenRows
        (HasSavedDeclared S.remaining S.contents paths.now) (O.contents output.old)
        (O.contents output.new) result.reported (F.contents stderr.old) (F.contents stderr.new) }
    ensures reported { result.status ≡ 1 →
        HasFailedStore (LeavesSave S.remaining S.contents schema.entry paths.now)
        (OfSome (HasSavedDeclared S.remaining S.contents paths.now))
        (O.contents output.old) (O.contents output.new) result.reported (F.contents stderr.old) (F.contents stderr.new) }
{
    let run = save_rows(rt, schema, paths, output, gate);
    finish_rows(run, output, stderr)
}

/// Saves rows by a schema of kinds that is found in them.
fn save_found<
    'a,
    R: AllocGlobal + Files<File = S> + Threads + Wait + Sync,
    S: Read + Write + OpenFile + LockFile + Drop + Send,
    O: Write,
    F: Write,
    G: Gate + Stopping + Sync,
>(
    rt: &R,
    options: &RowOptions,
    paths: &SavePaths<'a>,
    output: &mut O,
    stderr: &mut F,
    gate: &G,
) -> CommandEnd
    requires { G.STOPS ≡ false }
    ensures status { result.status ≤ 1 }
    ensures saved { result.status ≡ 0 → HasGivenRows
        (HasSavedFound S.remaining S.contents paths.now) (O.contents output.old)
        (O.contents output.new) result.reported (F.contents stderr.old) (F.contents stderr.new) }
    ensures reported { result.status ≡ 1 →
        HasFailedFound S.remaining S.contents paths.now
        (O.contents output.old) (O.contents output.new) result.reported (F.contents stderr.old) (F.contents stderr.new) }
{
    match find_format(rt, options, &paths.rows) {
        Ok(format) => save_by_kinds(rt, &format, paths, output, stderr, gate),
        Err(fault) => CommandEnd::by(
            1,
            write_survey_fault(rt.alloc(), fault, options.rounding, stderr),
        ),
    }
}

/// Saves rows by a schema of kinds.
fn save_by_kinds<
    'a,
    R: AllocGlobal + Files<File = S> + Threads + Wait + Sync,
    S: Read + Write + OpenFile + LockFile + Drop + Send,
    O: Write,
    F: Write,
    G: Gate + Stopping + Sync,
>(
    rt: &R,
    format: &LogicalFormat,
    paths: &SavePaths<'a>,
    output: &mut O,
    stderr: &mut F,
    gate: &G,
) -> CommandEnd
    requires { G.STOPS ≡ false }
    ensures status { result.status ≤ 1 }
    ensures saved { result.status ≡ 0 → HasGivenRows
        (HasSavedBy S.remaining S.contents format.now paths.now) (O.contents output.old)
        (O.contents output.new) result.reported (F.contents stderr.old) (F.contents stderr.new) }
    ensures reported { result.status ≡ 1 →
        HasFailedStore (LeavesSaveBy S.remaining S.contents format.now paths.now)
        (OfSome (HasSavedBy S.remaining S.contents format.now paths.now))
        (O.contents output.old) (O.contents output.new) result.reported (F.contents stderr.old) (F.contents stderr.new) }
{
    let run = save_kinds(rt, format, paths, output, gate);
    finish_rows(run, output, stderr)
}

/// Finds the schema of kinds of row files, as the format of these.
fn find_format<
    'a,
    R: AllocGlobal + Files<File = S> + Threads + Sync,
    S: Read + OpenFile + Drop + Send,
>(rt: &R, options: &RowOptions, rows: &[&'a str]) -> Result<LogicalFormat, SurveyFault<'a>>
    requires { 0 < length rows.now }
    ensures { IfOk result (HasSurveyed S.remaining (length rows.now)) }
{
    let mut options = find_options(rt, options, rows)?;
    let logical = survey_rows(rt, rows, &mut options)?;
    Ok(LogicalFormat::new(rt.alloc(), logical)?)
}

/// Finds what is not said of row files before they are surveyed: the byte between fields.
fn find_options<'a, R: AllocGlobal + Files<File = S>, S: Read + OpenFile + Drop>(
    rt: &R,
    options: &RowOptions,
    rows: &[&'a str],
) -> Result<SurveyOptions, SurveyFault<'a>>
    requires { 0 < length rows.now }
{
    let found = find_file_delimiter(rt, rows[0])?;
    let delimiter = options.delimiter.unwrap_or(found);
    if delimiter == options.point {
        return Err(SurveyFault::PointBetween(rows[0]));
    }
    Ok(options.survey_options(rt.alloc(), delimiter)?)
}

/// Carries out `bsi schema`.
pub(crate) fn answer_schema<
    'a,
    R: AllocGlobal + Files<File = S> + Threads + Sync,
    S: Read + OpenFile + Drop + Send,
    O: Write,
    F: Write,
>(rt: &R, request: &SchemaRequest<'a>, output: &mut O, stderr: &mut F) -> CommandEnd
    ensures status { result.status ≤ 1 }
    ensures described { result.status ≡ 0 →
        IsFlushed (HasDescribedRows S.remaining request.now)
        (O.contents output.old) (O.contents output.new) }
    ensures reported { result.status ≡ 1 →
        HasFailedSchemaOf S.remaining request.now
        (O.contents output.old) (O.contents output.new) result.reported (F.contents stderr.old) (F.contents stderr.new) }
    ensures stderr_unchanged { result.status ≡ 0 → F.contents stderr.new ≡ F.contents stderr.old }
{
    match find_schema_text(rt, request) {
        Ok(text) => {
            let run = put_text(text.as_slice(), output);
            finish_command(run, output, stderr)
        }
        Err(fault) => CommandEnd::by(
            1,
            write_survey_fault(rt.alloc(), fault, request.options.rounding, stderr),
        ),
    }
}

/// Makes the text of the schema that is found of row files.
fn find_schema_text<
    'a,
    R: AllocGlobal + Files<File = S> + Threads + Sync,
    S: Read + OpenFile + Drop + Send,
>(rt: &R, request: &SchemaRequest<'a>) -> Result<Vec<u8>, SurveyFault<'a>>
    ensures { IfOk result (λ text. HasDescribed S.remaining (length request.now.rows.items) text.items) }
{
    let mut options = find_options(rt, &request.options, &request.rows)?;
    describe_rows(rt, &request.rows, &mut options)
}

/// Writes a text.
fn put_text<O: Write>(text: &[u8], output: &mut O) -> Result<(), StoreFault<'static>>
    ensures written { OnOk result
        (Appends (O.contents output.old) (O.contents output.new) text.now) }
    ensures fault { IfErr result (λ fault. IsCutByWrite text.now fault
        (O.contents output.old) (O.contents output.new)) }
{
    write_bytes(output, text)?;
    Ok(())
}

/// Carries out `bsi add`.
pub(crate) fn answer_add<
    'a,
    R: AllocGlobal + Clock + Files<File = S> + Threads + Wait + Sync,
    S: Read + Write + OpenFile + LockFile + Drop + Send,
    O: Write,
    F: Write,
    G: Gate + Stopping + Sync,
>(rt: &R, paths: &AddPaths<'a>, output: &mut O, stderr: &mut F, gate: &G) -> CommandEnd
    requires { G.STOPS ≡ false }
    ensures status { result.status ≤ 1 }
    ensures added { result.status ≡ 0 → HasGivenRows
        (HasAddedRows S.remaining S.contents paths.now) (O.contents output.old)
        (O.contents output.new) result.reported (F.contents stderr.old) (F.contents stderr.new) }
    ensures reported { result.status ≡ 1 →
        HasFailedStore (LeavesAdd S.remaining S.contents paths.now)
        (OfSome (HasAddedRows S.remaining S.contents paths.now))
        (O.contents output.old) (O.contents output.new) result.reported (F.contents stderr.old) (F.contents stderr.new) }
{
    let run = add_rows(rt, paths, output, gate);
    finish_rows(run, output, stderr)
}

/// Carries out `bsi ask`.
pub(crate) fn answer_ask<
    'a,
    R: AllocGlobal + Files<File = S> + Threads + Sync,
    S: Read + LockFile + Drop,
    I: Read + Drop,
    O: Write,
    F: Write,
>(rt: &R, paths: &AskPaths<'a>, input: I, output: &mut O, stderr: &mut F) -> CommandEnd
    ensures status { result.status ≤ 1 }
    ensures asked { result.status ≡ 0 →
        IsFlushed (HasAskedEither S.remaining (I.remaining input) paths.now)
        (O.contents output.old) (O.contents output.new) }
    ensures reported { result.status ≡ 1 →
        HasFailedStore (LeavesAsk S.remaining (I.remaining input) paths.now)
        (HasAskedEither S.remaining (I.remaining input) paths.now)
        (O.contents output.old) (O.contents output.new) result.reported (F.contents stderr.old) (F.contents stderr.new) }
    ensures stderr_unchanged { result.status ≡ 0 → F.contents stderr.new ≡ F.contents stderr.old }
{
    let run = ask_either(rt, paths, input, output);
    finish_command(run, output, stderr)
}

/// Carries out `bsi show`.
pub(crate) fn answer_show<
    'a,
    R: AllocGlobal + Files<File = S>,
    S: Read + LockFile + Drop,
    O: Write,
    F: Write,
>(rt: &R, path: &'a str, output: &mut O, stderr: &mut F) -> CommandEnd
    ensures status { result.status ≤ 1 }
    ensures shown { result.status ≡ 0 →
        IsFlushed (HasShown S.remaining) (O.contents output.old) (O.contents output.new) }
    ensures reported { result.status ≡ 1 →
        HasFailedStore (LeavesShow S.remaining path.entry) (HasShown S.remaining)
        (O.contents output.old) (O.contents output.new) result.reported (F.contents stderr.old) (F.contents stderr.new) }
    ensures stderr_unchanged { result.status ≡ 0 → F.contents stderr.new ≡ F.contents stderr.old }
{
    let run = show_index(rt, path, output);
    finish_command(run, output, stderr)
}

/// Carries out `bsi check` of a saved index.
pub(crate) fn answer_check_index<
    'a,
    R: AllocGlobal + Files<File = S>,
    S: Read + LockFile + Drop,
    O: Write,
    F: Write,
>(rt: &R, path: &'a str, output: &mut O, stderr: &mut F) -> CommandEnd
    ensures status { result.status ≤ 1 }
    ensures whole { result.status ≡ 0 →
        IsFlushed (HasReadWhole S.remaining) (O.contents output.old) (O.contents output.new) }
    ensures reported { result.status ≡ 1 →
        HasFailedStore (LeavesIndexCheck S.remaining path.entry) (HasReadWhole S.remaining)
        (O.contents output.old) (O.contents output.new) result.reported (F.contents stderr.old) (F.contents stderr.new) }
    ensures stderr_unchanged { result.status ≡ 0 → F.contents stderr.new ≡ F.contents stderr.old }
{
    let run = check_index(rt, path, output);
    finish_command(run, output, stderr)
}

/// Carries out `bsi help`.
pub(crate) fn answer_help<O: Write, F: Write>(output: &mut O, stderr: &mut F) -> CommandEnd
    ensures status { result.status ≤ 1 }
    ensures helped { result.status ≡ 0 → IsFlushed
        (λ before after. Appends before after help_text) (O.contents output.old) (O.contents output.new) }
    ensures reported { result.status ≡ 1 → HasFailedStore (IsCutByWrite help_text)
        (λ before after. Appends before after help_text)
        (O.contents output.old) (O.contents output.new) result.reported (F.contents stderr.old) (F.contents stderr.new) }
    ensures stderr_unchanged { result.status ≡ 0 → F.contents stderr.new ≡ F.contents stderr.old }
{
    let run = put_text(HELP.as_bytes(), output);
    finish_command(run, output, stderr)
}

/// Answers the questions of the file of a path, or those of the input.
fn ask_either<
    'a,
    R: AllocGlobal + Files<File = S> + Threads + Sync,
    S: Read + LockFile + Drop,
    I: Read + Drop,
    O: Write,
>(rt: &R, paths: &AskPaths<'a>, input: I, output: &mut O) -> Result<(), StoreFault<'a>>
    ensures asked { OnOk result (HasAskedEither S.remaining (I.remaining input) paths.now
        (O.contents output.old) (O.contents output.new)) }
    ensures fault { IfErr result (λ fault. LeavesAsk S.remaining (I.remaining input) paths.now fault
        (O.contents output.old) (O.contents output.new)) }
{
    match paths.asks {
        Some(asks) => ask_over(rt, paths, asks, output),
        None => ask_input(rt, paths, input, output),
    }
}

/// Ends a command, and flushes the output. A flush that fails counts only if the command met no fault.
fn finish_command<O: Write, F: Write>(
    run: Result<(), StoreFault<'_>>,
    output: &mut O,
    stderr: &mut F,
) -> CommandEnd
    ensures status { result.status ≤ 1 }
    ensures ok { result.status ≡ 0 → IsOk run.entry }
    ensures flushed { Keeps (O.contents output.old) (O.contents output.new) }
    ensures reported { result.status ≡ 1 →
        EndedByFault run.entry result.reported (F.contents stderr.old) (F.contents stderr.new) }
    ensures stderr_unchanged { result.status ≡ 0 → F.contents stderr.new ≡ F.contents stderr.old }
{
    let flushed = output.flush();
    match run {
        Err(fault) => fail(fault, stderr),
        Ok(()) if flushed.is_err() => fail(StoreFault::from(WriteFault), stderr),
        Ok(()) => CommandEnd::by(0, Ok(())),
    }
}

/// Ends a command that gave the rows of row files to an index, as `finish_command` does, and says how many records are
/// bad, if some are.
fn finish_rows<O: Write, F: Write>(
    run: Result<u64, StoreFault<'_>>,
    output: &mut O,
    stderr: &mut F,
) -> CommandEnd
    ensures status { result.status ≤ 1 }
    ensures noticed { result.status ≡ 0 → IsOkAnd run.entry (λ bad. IsLineWritten result.reported (F.contents stderr.old) (F.contents stderr.new)
        (bad_records_notice bad)) }
    ensures flushed { Keeps (O.contents output.old) (O.contents output.new) }
    ensures reported { result.status ≡ 1 →
        EndedByFault run.entry result.reported (F.contents stderr.old) (F.contents stderr.new) }
{
    let flushed = output.flush();
    match run {
        Err(fault) => fail(fault, stderr),
        Ok(_) if flushed.is_err() => fail(StoreFault::from(WriteFault), stderr),
        Ok(bad) => CommandEnd::by(0, notice_bad_records(bad, stderr)),
    }
}

/// Writes how many records are bad, if some are.
fn notice_bad_records<F: Write>(bad: u64, stderr: &mut F) -> Result<(), WriteFault>
    ensures { IsLineWritten result (F.contents stderr.old) (F.contents stderr.new) (bad_records_notice bad) }
{
    if bad == 0 {
        return Ok(());
    }
    write_bad_records(bad, stderr)
}

/// Ends a command by a fault, and writes its line.
fn fail<F: Write>(fault: StoreFault<'_>, stderr: &mut F) -> CommandEnd
    ensures status { result.status ≡ 1 }
    ensures line { IsLineWritten result.reported (F.contents stderr.old) (F.contents stderr.new) (store_fault_line fault.entry) }
{
    CommandEnd::by(1, write_store_fault(fault, stderr))
}
