//! Runs a command line (`run_words`): carries out what its words ask for, and returns the status to end with.
ghost use Rattle.std.specs.Prelude.{◌≡◌, ◌≢◌, ◌≤◌, IfErr, OnErr, OnOk, false};
ghost use Rattle.std.specs.Io.KnownBytes.{Appends};
ghost use Rattle.bsi_shell.specs.Checks.{HasChecked, HasCheckedEither, HasFailedCheck, HasFailedEitherCheck};
ghost use Rattle.bsi_shell.specs.Commands.{subcommand_of};
ghost use Rattle.bsi_shell.specs.FaultLines.{help_text, usage_of, IsLineWritten};
ghost use Rattle.bsi_shell.specs.FileRuns.{HasFailedFiles, HasRunOver};
ghost use Rattle.bsi_shell.specs.StoreRuns.{HasAddedRows, HasAskedEither, HasDescribedRows, HasDone, HasDoneRows, HasFailedAdd, HasFailedAsk, HasFailedHelp, HasFailedSave, HasFailedSchema, HasFailedShow, HasSavedRows, IsFlushed};
ghost use Rattle.bsi_store.specs.Asked.{HasShown};
ghost use Rattle.bsi_shell.specs.ScriptRuns.{HasFailedScript, LeavesScript};
ghost use Rattle.bsi_input.specs.Texts.{IfBytesKnown, IsAnswered, WrotePrefix};

use crate::check::check_paths;
use crate::fault_lines::{write_fault, write_run_fault, write_usage};
use crate::files::{RunFault, run_paths};
use crate::paths::{CheckPaths, Paths};
use crate::request::{Request, Subcommand, read_request, subcommand_of};
use crate::store_commands::{
    answer_add, answer_ask, answer_check_index, answer_help, answer_save, answer_schema,
    answer_show,
};
use bsi_files::{FilesFault, Gate, Stopping};
use bsi_store::LockFile;
use bsi_text::{ScriptFault, WriteFault, run_script};
use std::alloc::Global;
use std::fs::OpenFile;
use std::io::{Read, Write};
use std::rt::Files;
use std::sync::Wait;
use std::thread::Threads;
use std::time::Clock;

/// How a command line ends.
#[derive(Clone, Copy, Debug, PartialEq, Eq)]
pub struct CommandEnd {
    /// The status that the program ends with.
    pub status: u8,
    /// Whether the line of a fault, of wrong words or of bad records, if there is one, was written whole.
    pub reported: Result<(), WriteFault>,
}

impl CommandEnd {
    pub(crate) fn by(status: u8, reported: Result<(), WriteFault>) -> CommandEnd
        ensures status { result.status ≡ status }
        ensures reported { result.reported ≡ reported }
    {
        CommandEnd { status, reported }
    }
}

/// Carries out what the words after the program's name ask for. The status is 0, or 1 with one line on `stderr` for
/// the fault that was met, or 2 with the usage line for words that are not a command. A check ends with status 1 and
/// no such line if it has written reasons. The status does not depend on whether the line can be written. If rows are
/// read from files, the feeders call the gate.
pub fn run_words<
    R: AllocGlobal + Clock + Files<File = S> + Threads + Wait + Sync,
    S: Read + Write + OpenFile + LockFile + Drop + Send,
    I: Read + Drop,
    O: Write,
    F: Write,
    G: Gate + Stopping + Sync,
>(rt: &R, words: Vec<String>, input: I, output: &mut O, stderr: &mut F, gate: &G) -> CommandEnd
    requires { G.STOPS ≡ false }
    ensures status { result.status ≤ 2 }

    // Where the first word names no other command, a run with no fault has answered the whole input. After status 1
    // the output has what the fault leaves: a prefix of the lines that answer the whole input. Then `stderr` has the
    // line of this fault, or a prefix of it where `reported` says that the writer refused.
    ensures answered { result.status ≡ 0 → subcommand_of words.items ≡ Subcommand.Script →
        IfBytesKnown (I.remaining input) IsAnswered (O.contents output.old) (O.contents output.new) }
    ensures begun { result.status ≡ 1 → subcommand_of words.items ≡ Subcommand.Script →
        IfBytesKnown (I.remaining input) WrotePrefix (O.contents output.old) (O.contents output.new) }
    ensures script_reported { result.status ≡ 1 → subcommand_of words.items ≡ Subcommand.Script →
        HasFailedScript (I.remaining input) (O.contents output.old) (O.contents output.new) result.reported
        (F.contents stderr.old) (F.contents stderr.new) }

    // Where it is `files`, a run with no fault has answered all asks over the files that were opened. After status 1
    // the output has what a fault of these files leaves, and `stderr` the line of this fault, as above.
    ensures ran { result.status ≡ 0 → subcommand_of words.items ≡ Subcommand.Files →
        HasRunOver S.remaining (O.contents output.old) (O.contents output.new) }
    ensures files_reported { result.status ≡ 1 → subcommand_of words.items ≡ Subcommand.Files →
        HasFailedFiles S.remaining (O.contents output.old) (O.contents output.new) result.reported
        (F.contents stderr.old) (F.contents stderr.new) }

    // Where it is `check`, all is good after status 0, and no reason was written; or all of a saved index was read. After
    // status 1 there are reasons on the output, or `stderr` has the line of a fault, as above.
    ensures checked { result.status ≡ 0 → subcommand_of words.items ≡ Subcommand.Check →
        HasCheckedEither S.remaining (O.contents output.old) (O.contents output.new) }
    ensures reasons { result.status ≡ 1 → subcommand_of words.items ≡ Subcommand.Check →
        HasFailedEitherCheck S.remaining (O.contents output.old) (O.contents output.new) result.reported
        (F.contents stderr.old) (F.contents stderr.new) }

    // Where it is a command over a saved index, it has done this by some paths after status 0. After status 1 `stderr`
    // has the line of a fault, as above: which fault of which of these paths, and which first lines were written.
    // After status 0 of a command that gave rows to an index, `stderr` has how many records are bad, if some are.
    ensures saved { result.status ≡ 0 → subcommand_of words.items ≡ Subcommand.Save →
        HasDoneRows (HasSavedRows S.remaining S.contents) (O.contents output.old)
        (O.contents output.new) result.reported (F.contents stderr.old) (F.contents stderr.new) }
    ensures described { result.status ≡ 0 → subcommand_of words.items ≡ Subcommand.Schema →
        HasDone (HasDescribedRows S.remaining) (O.contents output.old) (O.contents output.new) }
    ensures added { result.status ≡ 0 → subcommand_of words.items ≡ Subcommand.Add →
        HasDoneRows (HasAddedRows S.remaining S.contents) (O.contents output.old)
        (O.contents output.new) result.reported (F.contents stderr.old) (F.contents stderr.new) }
    ensures asked { result.status ≡ 0 → subcommand_of words.items ≡ Subcommand.Ask →
        HasDone (HasAskedEither S.remaining (I.remaining input))
        (O.contents output.old) (O.contents output.new) }
    ensures shown { result.status ≡ 0 → subcommand_of words.items ≡ Subcommand.Show →
        IsFlushed (HasShown S.remaining) (O.contents output.old) (O.contents output.new) }
    ensures unsaved { result.status ≡ 1 → subcommand_of words.items ≡ Subcommand.Save →
        HasFailedSave S.remaining S.contents (O.contents output.old) (O.contents output.new)
        result.reported (F.contents stderr.old) (F.contents stderr.new) }
    ensures undescribed { result.status ≡ 1 → subcommand_of words.items ≡ Subcommand.Schema →
        HasFailedSchema S.remaining (O.contents output.old) (O.contents output.new)
        result.reported (F.contents stderr.old) (F.contents stderr.new) }
    ensures unadded { result.status ≡ 1 → subcommand_of words.items ≡ Subcommand.Add →
        HasFailedAdd S.remaining S.contents (O.contents output.old) (O.contents output.new)
        result.reported (F.contents stderr.old) (F.contents stderr.new) }
    ensures unasked { result.status ≡ 1 → subcommand_of words.items ≡ Subcommand.Ask →
        HasFailedAsk S.remaining (I.remaining input) (O.contents output.old) (O.contents output.new)
        result.reported (F.contents stderr.old) (F.contents stderr.new) }
    ensures unshown { result.status ≡ 1 → subcommand_of words.items ≡ Subcommand.Show →
        HasFailedShow S.remaining (O.contents output.old) (O.contents output.new)
        result.reported (F.contents stderr.old) (F.contents stderr.new) }

    // Where the words ask for help, the output has that after status 0.
    ensures helped { result.status ≡ 0 → subcommand_of words.items ≡ Subcommand.Help →
        IsFlushed (λ before after. Appends before after help_text)
        (O.contents output.old) (O.contents output.new) }
    ensures unhelped { result.status ≡ 1 → subcommand_of words.items ≡ Subcommand.Help →
        HasFailedHelp (O.contents output.old) (O.contents output.new)
        result.reported (F.contents stderr.old) (F.contents stderr.new) }

    // Other commands than those that give rows to an index say nothing if they met no fault. After status 2 nothing was
    // written, and `stderr` has the usage line, as above.
    ensures stderr_unchanged { result.status ≡ 0 → subcommand_of words.items ≢ Subcommand.Save →
        subcommand_of words.items ≢ Subcommand.Add → F.contents stderr.new ≡ F.contents stderr.old }
    ensures wrong { result.status ≡ 2 → O.contents output.new ≡ O.contents output.old }
    ensures usage { result.status ≡ 2 →
        IsLineWritten result.reported (F.contents stderr.old) (F.contents stderr.new)
        (usage_of (subcommand_of words.items)) }
{
    match read_request(rt.alloc(), &words) {
        Request::Script => answer_script(rt.alloc(), input, output, stderr),
        Request::Files(paths) => answer_files(rt, &paths, output, stderr, gate),
        Request::Check(paths) => answer_check(rt, &paths, output, stderr),
        Request::CheckIndex(path) => answer_check_index(rt, path, output, stderr),
        Request::Save(request) => answer_save(rt, &request, output, stderr, gate),
        Request::Schema(request) => answer_schema(rt, &request, output, stderr),
        Request::Add(paths) => answer_add(rt, &paths, output, stderr, gate),
        Request::Ask(paths) => answer_ask(rt, &paths, input, output, stderr),
        Request::Show(path) => answer_show(rt, path, output, stderr),
        Request::Help => answer_help(output, stderr),
        Request::Wrong => CommandEnd::by(2, write_usage(subcommand_of(&words), stderr)),
        Request::NoMemory => {
            CommandEnd::by(
                1,
                write_run_fault(RunFault::Run(FilesFault::NoMemory), stderr),
            )
        }
    }
}

/// Carries out `bsi script`.
fn answer_script<I: Read + Drop, O: Write, F: Write>(
    alloc: Global,
    input: I,
    output: &mut O,
    stderr: &mut F,
) -> CommandEnd
    ensures status { result.status ≤ 1 }
    ensures answered { result.status ≡ 0 →
        IfBytesKnown (I.remaining input) IsAnswered (O.contents output.old) (O.contents output.new) }
    ensures begun { result.status ≡ 1 →
        IfBytesKnown (I.remaining input) WrotePrefix (O.contents output.old) (O.contents output.new) }
    ensures script_reported { result.status ≡ 1 →
        HasFailedScript (I.remaining input) (O.contents output.old) (O.contents output.new) result.reported
        (F.contents stderr.old) (F.contents stderr.new) }
    ensures stderr_unchanged { result.status ≡ 0 → F.contents stderr.new ≡ F.contents stderr.old }
{
    match run_to_end(alloc, input, output) {
        Ok(()) => CommandEnd::by(0, Ok(())),
        Err(fault) => CommandEnd::by(1, write_fault(fault.text(), stderr)),
    }
}

/// Carries out `bsi files`.
fn answer_files<
    'a,
    R: AllocGlobal + Files<File = S> + Threads + Wait + Sync,
    S: Read + Drop + Send,
    O: Write,
    F: Write,
    G: Gate + Stopping + Sync,
>(rt: &R, paths: &Paths<'a>, output: &mut O, stderr: &mut F, gate: &G) -> CommandEnd
    requires { G.STOPS ≡ false }
    ensures status { result.status ≤ 1 }
    ensures ran { result.status ≡ 0 →
        HasRunOver S.remaining (O.contents output.old) (O.contents output.new) }
    ensures reported { result.status ≡ 1 →
        HasFailedFiles S.remaining (O.contents output.old) (O.contents output.new) result.reported
        (F.contents stderr.old) (F.contents stderr.new) }
    ensures stderr_unchanged { result.status ≡ 0 → F.contents stderr.new ≡ F.contents stderr.old }
{
    match run_paths(rt, paths, output, gate) {
        Ok(()) => CommandEnd::by(0, Ok(())),
        Err(fault) => CommandEnd::by(1, write_run_fault(fault, stderr)),
    }
}

/// Carries out `bsi check`.
fn answer_check<'a, R: AllocGlobal + Files<File = S>, S: Read + Drop, O: Write, F: Write>(
    rt: &R,
    paths: &CheckPaths<'a>,
    output: &mut O,
    stderr: &mut F,
) -> CommandEnd
    ensures status { result.status ≤ 1 }
    ensures checked { result.status ≡ 0 →
        HasChecked S.remaining (O.contents output.old) (O.contents output.new) }
    ensures reasons { result.status ≡ 1 →
        HasFailedCheck S.remaining (O.contents output.old) (O.contents output.new) result.reported
        (F.contents stderr.old) (F.contents stderr.new) }
    ensures stderr_unchanged { result.status ≡ 0 → F.contents stderr.new ≡ F.contents stderr.old }
{
    match check_paths(rt, paths, output) {
        Ok(true) => CommandEnd::by(0, Ok(())),
        Ok(false) => CommandEnd::by(1, Ok(())),
        Err(fault) => CommandEnd::by(1, write_run_fault(fault, stderr)),
    }
}

/// Runs the script and flushes the output. A flush that fails counts only if the script met no fault.
fn run_to_end<I: Read + Drop, O: Write>(
    alloc: Global,
    input: I,
    output: &mut O,
) -> Result<(), ScriptFault>
    ensures ok { OnOk result
        (IfBytesKnown (I.remaining input) IsAnswered (O.contents output.old) (O.contents output.new)) }
    ensures fault { OnErr result
        (IfBytesKnown (I.remaining input) WrotePrefix (O.contents output.old) (O.contents output.new)) }
    ensures after_fault { IfErr result (λ fault.
        LeavesScript (I.remaining input) fault (O.contents output.old) (O.contents output.new)) }
{
    let run = run_script(alloc, input, output);
    let flushed = output.flush().map_err(|_| ScriptFault::Write);
    run.and(flushed)
}
