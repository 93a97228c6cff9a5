//! Carries out `bsi check`: it opens the schema, the asks and the row files, in this order, and then checks them.
ghost use Rattle.std.specs.Prelude.{IfErr, IfOk};
ghost use Rattle.bsi_shell.specs.Checks.{HasReportedOver, LeavesCheck};
ghost use Rattle.bsi_shell.specs.FileRuns.{IsOpenFault};

use crate::files::{RunFault, open_file};
use crate::paths::CheckPaths;
use bsi_check::{CheckFault, NamedFile, check_files};
use bsi_files::FilesFault;
use std::alloc::AllocError;
use std::io::{Read, Write};
use std::rt::Files;

impl From<CheckFault> for RunFault<'_> {
    ghost use Rattle.std.specs.Prelude.{◌≡◌};
    ghost use Rattle.bsi_shell.specs.Checks.{check_fault_of};

    ghost from_gives = { λ fault run_fault. run_fault ≡ check_fault_of fault };

    fn from(fault: CheckFault) -> Self {
        match fault {
            CheckFault::NoMemory => RunFault::Run(FilesFault::NoMemory),
            CheckFault::Write => RunFault::Run(FilesFault::Write),
        }
    }
}

/// Opens the files, checks them, and flushes the output. It returns whether there was no reason.
pub(crate) fn check_paths<'a, R: AllocGlobal + Files<File = S>, S: Read + Drop, O: Write>(
    rt: &R,
    paths: &CheckPaths<'a>,
    output: &mut O,
) -> Result<bool, RunFault<'a>>
    ensures reported { IfOk result
        (HasReportedOver S.remaining (O.contents output.old) (O.contents output.new)) }
    ensures after_fault { IfErr result (λ fault.
        LeavesCheck S.remaining fault (O.contents output.old) (O.contents output.new)) }
{
    let schema = open_named(rt, paths.schema)?;
    let asks = open_asks(rt, paths.asks)?;
    let rows = open_rows(rt, &paths.rows)?;
    let good = check_files(rt.alloc(), schema, asks, rows, output)?;
    output
        .flush()
        .map_err(|_| RunFault::Run(FilesFault::Write))?;
    Ok(good)
}

/// Opens one file for reading, under its path.
fn open_named<'a, R: Files<File = S>, S: Read + Drop>(
    rt: &R,
    path: &'a str,
) -> Result<NamedFile<'a, S>, RunFault<'a>>
    ensures { IfErr result IsOpenFault }
{
    let reader = open_file(rt, path)?;
    Ok(NamedFile { path, reader })
}

/// Opens the asks, if there are any.
fn open_asks<'a, R: Files<File = S>, S: Read + Drop>(
    rt: &R,
    path: Option<&'a str>,
) -> Result<Option<NamedFile<'a, S>>, RunFault<'a>>
    ensures { IfErr result IsOpenFault }
{
    match path {
        Some(path) => Ok(Some(open_named(rt, path)?)),
        None => Ok(None),
    }
}

/// Opens the row files, in their order.
fn open_rows<'a, R: AllocGlobal + Files<File = S>, S: Read + Drop>(
    rt: &R,
    paths: &[&'a str],
) -> Result<Vec<NamedFile<'a, S>>, RunFault<'a>>
    ensures { IfErr result IsOpenFault }
{
    let mut rows = Vec::with_capacity(rt.alloc(), paths.len())?;
    for path in paths {
        let file = open_named(rt, path)?;
        rows.push(file).map_err(|_| FilesFault::NoMemory)?;
    }
    Ok(rows)
}
