//! Writes the line `fed` of each row file: how many rows it gave, and how many of its records are bad.

ghost use Rattle.std.specs.Prelude.{◌≡◌, ◌≢◌, ◌≤◌, IfErr, OnOk, length, map, true};
ghost use Rattle.std.specs.Io.KnownBytes.{Appends};
ghost use Rattle.std.specs.List.{concat};
ghost use Rattle.bsi_syntax.specs.Lines.{fed_line};
ghost use Rattle.bsi_answers.specs.Faults.{may_follow_output};
ghost use Rattle.bsi_answers.specs.RowFiles.{fed_counts};
ghost use Rattle.bsi_answers.specs.Runs.{fed_lines};
ghost use Rattle.bsi_answers.specs.Writing.{AreWrittenBefore};
ghost use Rattle.bsi_rows.specs.Table.{max_feeders};

use crate::{Fed, FilesFault, NoMemory, Which, file_number};
use bsi_input::write_bytes;
use bsi_syntax::write_fed;
use std::alloc::Global;
use std::io::Write;

/// Writes a line for each of at most 64 feeders, in their order. After a fault some first lines were written, whole unless the
/// writer failed.
pub fn write_fed_lines<W: Write>(
    alloc: Global,
    fed: &[Fed],
    writer: &mut W,
) -> Result<(), FilesFault>
    requires { length fed.now ≤ max_feeders }
    ensures follows_output { IfErr result (λ fault. may_follow_output fault ≡ true) }
    ensures ok { OnOk result (Appends (W.contents writer.old) (W.contents writer.new)
        (concat (fed_lines 0 (map fed_counts fed.now)))) }
    ensures short { IfErr result (λ fault. fault ≢ FilesFault.TooLong Which.AsksFile) }
    ensures prefix { IfErr result (λ fault. AreWrittenBefore fault (fed_lines 0 (map fed_counts fed.now))
        (W.contents writer.old) (W.contents writer.new)) }
{
    let mut line = Vec::new(alloc);
    'feeders: for (feeder, counts) in fed.iter().enumerate() {
        make_fed_line(file_number(feeder), counts, &mut line)?;
        write_bytes(writer, line.as_slice())?;
    }
    Ok(())
}

/// Makes `line` the line of a feeder.
fn make_fed_line(feeder: u32, counts: &Fed, line: &mut Vec<u8>) -> Result<(), NoMemory>
    ensures { OnOk result (line.new.items ≡ fed_line feeder counts.now.accepted counts.now.bad) }
{
    line.clear();
    write_fed(feeder, counts.accepted, counts.bad, line)
}
