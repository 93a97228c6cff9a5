//! What a check writes (`Report`): the reasons, and then the line of each row file that was read.

ghost use Rattle.std.specs.Prelude.{◌≡◌, ◌≢◌, ◌++◌, Err, length, nat_eq, IfOk};
ghost use Rattle.std.specs.Io.KnownBytes.{Appends};
ghost use Rattle.bsi_input.specs.BufferedOutput.{AppendsPrefix};
ghost use Rattle.bsi_check.specs.Reports.{IsWritten};

use crate::fault::CheckFault;
use bsi_input::write_bytes;
use std::io::Write;

/// What a check writes.
#[derive(Drop)]
pub(crate) struct Report {
    /// The reasons, a line each.
    pub(crate) reasons: Vec<u8>,
    /// The lines of the row files that were read.
    pub(crate) fed: Vec<u8>,
}

/// Writes a report, and returns whether it has no reason.
pub(crate) fn write_report<W: Write>(report: &Report, output: &mut W) -> Result<bool, CheckFault>
    ensures written { IfOk result (IsWritten (W.contents output.old) (W.contents output.new)
        report.now.reasons.items report.now.fed.items) }
    ensures prefix { result ≡ Err CheckFault.Write →
        AppendsPrefix (W.contents output.old) (W.contents output.new)
        (report.now.reasons.items ++ report.now.fed.items) }
    ensures not_memory { result ≢ Err CheckFault.NoMemory }
{
    write_bytes(output, &report.reasons)?;
    write_bytes(output, &report.fed)?;
    Ok(report.reasons.is_empty())
}
