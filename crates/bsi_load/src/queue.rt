//! The queue of a feeder (`Queue`): its waiting rows, at most as many as its capacity, and whether it is closed.

ghost use Rattle.std.specs.Prelude.{◌≡◌, if◌then◌else◌};

use crate::LoadRefused;
use bsi_table::Row;
use circular_buffer::HeapCircularBuffer;
use std::marker::Model;

/// The waiting rows of a feeder, at most as many as the capacity, and whether the feeder is closed.
#[derive(Drop)]
pub(crate) struct Queue {
    pub(crate) rows: HeapCircularBuffer<Row>,
    pub(crate) closed: bool,
}

impl Model for Queue {
    ghost use Rattle.std.specs.Prelude.{◌≤◌, length};
    ghost use Rattle.bsi_rows.specs.Shown.{Waiting};

    ghost Value = { Waiting };

    ghost view = { λ q. record
        { rows = q.rows.items; closed = q.closed; capacity = q.rows.capacity } };

    ghost invariant = { λ q. length q.rows.items ≤ q.rows.capacity };
}

impl Queue {
    /// Returns why no row is loaded if none waits.
    pub(crate) fn refusal(&self) -> LoadRefused
        ensures { result ≡ (if self.now.closed then LoadRefused.Ended else LoadRefused.Empty) }
    {
        if self.closed {
            LoadRefused::Ended
        } else {
            LoadRefused::Empty
        }
    }
}
