//! Carries out `bsi files`: it opens the schema, the asks and the row files, in this order, and then runs over them; or
//! says why it ended early (`RunFault`).
ghost use Rattle.std.specs.Prelude.{◌≡◌, ◌<◌, IfErr, IfOk, OnOk, false, length};
ghost use Rattle.bsi_shell.specs.FileRuns.{HasEndedEarly, HasFailedRunOver, HasRunOver, IsOpenFault};

use crate::paths::Paths;
use bsi_files::{FilesFault, Gate, Stopping, run_files};
use std::alloc::AllocError;
use std::fs;
use std::io::{Read, Write};
use std::rt::Files;
use std::sync::Wait;
use std::thread::Threads;

/// Why a run over files ended early.
#[derive(Clone, Copy, Debug)]
pub(crate) enum RunFault<'a> {
    /// The file of this path can't be opened.
    CannotOpen(&'a str),
    /// The run met a fault.
    Run(FilesFault),
}

impl From<FilesFault> for RunFault<'_> {
    ghost use Rattle.std.specs.Prelude.{◌≡◌};
    ghost use Rattle.bsi_shell.specs.declared.files.RunFault.TheVariants.{Run};

    ghost from_gives = { λ fault run_fault. run_fault ≡ Run fault };

    fn from(fault: FilesFault) -> Self {
        RunFault::Run(fault)
    }
}

impl From<AllocError> for RunFault<'_> {
    ghost use Rattle.std.specs.Prelude.{◌≡◌};
    ghost use Rattle.bsi_answers.specs.declared.faults.FilesFault.TheVariants.{NoMemory};
    ghost use Rattle.bsi_shell.specs.declared.files.RunFault.TheVariants.{Run};

    ghost from_gives = { λ _ fault. fault ≡ Run NoMemory };

    fn from(_refused: AllocError) -> Self {
        RunFault::Run(FilesFault::NoMemory)
    }
}

/// The files of a run, each open for reading.
struct OpenFiles<S: Read + Drop> {
    schema: S,
    asks: S,
    rows: Vec<S>,
}

/// Opens the files, and runs over them.
pub(crate) fn run_paths<
    'a,
    R: AllocGlobal + Files<File = S> + Threads + Wait + Sync,
    S: Read + Drop + Send,
    O: Write,
    G: Gate + Stopping + Sync,
>(rt: &R, paths: &Paths<'a>, output: &mut O, gate: &G) -> Result<(), RunFault<'a>>
    requires { G.STOPS ≡ false }
    ensures ran { OnOk result
        (HasRunOver S.remaining (O.contents output.old) (O.contents output.new)) }
    ensures failed { IfErr result (HasEndedEarly S.remaining (O.contents output.old) (O.contents output.new)) }
{
    let opened = open_all(rt, paths)?;
    run_opened(rt, opened, output, gate)?;
    Ok(())
}

/// Answers the questions over the rows of files, and flushes the output. A flush that fails counts only if the run met
/// no fault.
fn run_opened<
    R: AllocGlobal + Threads + Wait + Sync,
    S: Read + Drop + Send,
    O: Write,
    G: Gate + Stopping + Sync,
>(rt: &R, opened: OpenFiles<S>, output: &mut O, gate: &G) -> Result<(), FilesFault>
    requires some { 0 < length opened.rows.items }
    requires never { G.STOPS ≡ false }
    ensures ran { OnOk result
        (HasRunOver S.remaining (O.contents output.old) (O.contents output.new)) }
    ensures failed { IfErr result (λ fault.
        HasFailedRunOver S.remaining fault (O.contents output.old) (O.contents output.new)) }
{
    let OpenFiles { schema, asks, rows } = opened;
    let run = run_files(rt, schema, asks, rows, output, gate);
    let flushed = output.flush().map_err(|_| FilesFault::Write);
    run.and(flushed)
}

/// Opens the schema, the asks and the row files, in this order.
fn open_all<'a, R: AllocGlobal + Files<File = S>, S: Read + Drop>(
    rt: &R,
    paths: &Paths<'a>,
) -> Result<OpenFiles<S>, RunFault<'a>>
    ensures opened { IfOk result (λ opened. length opened.rows.items ≡ length paths.now.rows.items) }
    ensures failed { IfErr result IsOpenFault }
{
    let schema = open_file(rt, paths.schema)?;
    let asks = open_file(rt, paths.asks)?;
    let mut rows = Vec::with_capacity(rt.alloc(), paths.rows.len())?;
    for path in &paths.rows {
        let file = open_file(rt, path)?;
        rows.push(file).map_err(|_| FilesFault::NoMemory)?;
    }
    Ok(OpenFiles { schema, asks, rows })
}

/// Opens one file for reading.
pub(crate) fn open_file<'a, R: Files<File = S>, S: Read + Drop>(
    rt: &R,
    path: &'a str,
) -> Result<S, RunFault<'a>>
    ensures { IfErr result IsOpenFault }
{
    fs::open(rt, path).map_err(|_| RunFault::CannotOpen(path))
}
