//! A gate: what a feeder calls before each row of a file. It may pause the feeder, stop it, or show how far it is.

use std::sync::Wait;

/// What a feeder calls while it reads a file, so that a test can decide which thread goes on, and when. The calls have
/// no clauses, because what is proved of a feeder holds whatever its gate does.
pub trait Gate {
    /// Holds feeder `who` up for as long as it likes. The feeder calls it for each row, in their order, before its
    /// first try of the row or of the batch that has it: `point` good rows of its source come before this one. It calls
    /// it once more before it is closed, when `point` rows were accepted in all.
    fn pass<R: Wait>(&self, rt: &R, who: u32, point: u64);

    /// Returns whether feeder `who` is to try again. The feeder calls it after each try that found no free slot in the
    /// ring, with the `point` of the row, or of the batch's first row.
    fn again<R: Wait>(&self, rt: &R, who: u32, point: u64) -> bool;

    /// Is told that no feeder calls it any more. A run calls it once its feeders have ended, before it writes a line.
    fn done(&self) {}
}

/// The gate that holds nobody up and stops nobody.
#[derive(Clone, Copy, Debug)]
pub struct Go;

impl Gate for Go {
    fn pass<R: Wait>(&self, _rt: &R, _who: u32, _point: u64) {}

    fn again<R: Wait>(&self, _rt: &R, _who: u32, _point: u64) -> bool {
        true
    }
}

/// Whether the gate of a run may stop a feeder. Where it says that it never does and a feeder was stopped, a run
/// answers a fault.
pub trait Stopping {
    ghost use Rattle.std.specs.Prelude.{Bool};

    /// Whether the gate may stop a feeder.
    const STOPS: bool;

    ghost STOPS: { Bool };
}

impl Stopping for Go {
    ghost use Rattle.std.specs.Prelude.{false};

    const STOPS: bool = false;

    ghost STOPS = { false };
}
