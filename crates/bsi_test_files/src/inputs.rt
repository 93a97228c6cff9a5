//! Makes the readers that tests of runs give as files: of a text, of one that fails at its end, and of a long one.

use bsi_fixtures::{EMPTY, TextReader};

pub(crate) type Input = TextReader<'static>;

/// A schema of one column, of numbers below 8.
pub(crate) const QUANTITIES: &str = "column,qty,slices,3\n";

pub(crate) fn text(left: &'static str) -> Input {
    TextReader {
        left: left.as_bytes(),
        ..EMPTY
    }
}

// Fails after the text.
pub(crate) fn broken(left: &'static str) -> Input {
    TextReader {
        left: left.as_bytes(),
        fails: true,
        ..EMPTY
    }
}

// Has so many units after the text.
pub(crate) fn long(left: &'static str, unit: &'static str, times: u64) -> Input {
    TextReader {
        left: left.as_bytes(),
        unit: unit.as_bytes(),
        times,
        ..EMPTY
    }
}
