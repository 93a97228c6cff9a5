//! How many rows are on their way in a ring, as far as its feeder knows.
//!
//! The loader acknowledges the rows that it has popped in a number that both ends share. Nothing is proved of that
//! number: it only bounds the memory of the rows that are on their way.

ghost use Rattle.std.specs.Prelude.{◌≡◌, ◌+◌, ◌<◌, ◌≤◌, ◌↔◌, IsTrue, false, true};

use std::alloc::Global;
use std::sync::Arc;
use std::sync::atomic::{AtomicU64, Ordering};

/// The count of the rows that a feeder has sent: those that it knows to be popped, and those on their way.
#[derive(Drop)]
pub(crate) struct Credits {
    pub(crate) acked: u64,
    pub(crate) in_flight: u64,
    shared_acked: Arc<AtomicU64, Global>,
}

impl Credits {
    /// Makes the count of a feeder that has sent nothing.
    pub(crate) fn new(shared_acked: Arc<AtomicU64, Global>) -> Credits
        ensures { (result.acked ≡ 0) × (result.in_flight ≡ 0) }
    {
        Credits {
            acked: 0,
            in_flight: 0,
            shared_acked,
        }
    }

    /// Counts so many rows more, if a ring of this capacity has slots for them, and returns whether it has. It reads
    /// the shared number only where too few slots are known to be free.
    pub(crate) fn spend(&mut self, capacity: usize, rows: usize) -> bool
        ensures filled { result ≡ true →
            self.new.acked + self.new.in_flight ≡ self.old.acked + self.old.in_flight + rows }
        ensures within { result ≡ true → self.new.in_flight ≤ capacity }
        ensures refused { result ≡ false → capacity < self.new.in_flight + rows }
        ensures unchanged { result ≡ false →
            (self.new.acked + self.new.in_flight ≡ self.old.acked + self.old.in_flight)
            × (self.new.in_flight ≤ self.old.in_flight) }
    {
        if !self.has_credit(capacity, rows) {
            self.refresh();
        }
        let is_free = self.has_credit(capacity, rows);
        if is_free {
            self.in_flight += rows as u64;
        }
        is_free
    }

    /// Returns whether a ring of this capacity is known to have slots for so many rows more.
    fn has_credit(&self, capacity: usize, rows: usize) -> bool
        ensures { IsTrue result ↔ (self.now.in_flight + rows ≤ capacity) }
    {
        rows <= capacity && self.in_flight <= (capacity - rows) as u64
    }

    /// Learns how many rows were popped.
    fn refresh(&mut self)
        ensures all { self.new.acked + self.new.in_flight ≡ self.old.acked + self.old.in_flight }
        ensures fewer { self.new.in_flight ≤ self.old.in_flight }
    {
        let shared_acked = self.shared_acked.load(Ordering::SeqCst);
        let newly = shared_acked.saturating_sub(self.acked).min(self.in_flight);
        self.acked += newly;
        self.in_flight -= newly;
    }
}
