//! A pending operation of the publisher (`Operation`), rows or a stamp in the history, and how it changes a copy of the
//! index.

use crate::NoMemory;
use crate::history::VersionToken;
use crate::version::Version;
use bsi_table::{Block, Index};
use left_right::Absorb;

/// A pending operation of the publisher.
#[derive(Drop)]
pub enum Operation {
    /// A block of rows, each with its feeder.
    Block(Block),
    /// The rows of a batch, each with its feeder.
    Batch(Index),
    /// The list in the history that the rows make at this point.
    Stamp(VersionToken),
}

impl Absorb<Operation> for Version {
    ghost use Rattle.bsi_snapshots.specs.Versions.{after};

    type State = Version;

    ghost state = { λ version. version };

    ghost applied = { after };

    fn absorb_first(&mut self, operation: &Operation, _other: &Version) -> Result<(), NoMemory> {
        match operation {
            Operation::Block(block) => self.append(block),
            Operation::Batch(batch) => self.append_batch(batch),
            Operation::Stamp(token) => {
                self.stamp(token);
                Ok(())
            }
        }
    }
}
