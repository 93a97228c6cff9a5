//! What a run reports of a row file (`Fed`): how many rows and bad records it had, and why it was not read to its end.

ghost use Rattle.std.specs.Prelude.{◌≡◌, ◌<◌};
ghost use Rattle.bsi_rows.specs.Table.{max_feeders};

use bsi_input::SourceFault;

/// What a feeder that read a row file leaves beside its rows.
#[derive(Drop)]
pub struct Fed {
    /// How many of its rows were accepted.
    pub accepted: u64,
    /// How many of its records are bad.
    pub bad: u64,
    /// Whether it was stopped before the end of its file.
    pub stopped: bool,
    /// The fault that ended its file, or none at the end.
    pub fault: Option<SourceFault>,
    /// Whether it left a closing, which says what it sent.
    pub closed: bool,
}

/// Returns the number of the file at an index. There are at most 64 files.
pub fn file_number(index: usize) -> u32
    ensures { index < max_feeders → result ≡ index }
{
    u32::try_from(index).unwrap_or(u32::MAX)
}
