//! Gates that tests put between a feeder and its rows: `Meeting` has two feeders wait for each other, `Patience` counts
//! calls and stops a feeder after so many tries.

use bsi_files::{Gate, Stopping};
use std::sync::Wait;
use std::sync::atomic::{AtomicBool, AtomicU64, Ordering};
use std::thread;

/// How often a waiting feeder yields before it is late.
pub(crate) const MAX_YIELDS: u64 = 10_000_000;

// Stops feeder 0 before its first row until feeder 1 is before its second, and feeder 1 before its first until feeder
// 0 is before its first. On one thread, in whatever order, a feeder is late.
#[derive(Drop)]
pub(crate) struct Meeting {
    first: AtomicBool,
    second: AtomicBool,
    late: AtomicBool,
}

impl Meeting {
    pub(crate) fn new() -> Meeting {
        Meeting {
            first: AtomicBool::new(false),
            second: AtomicBool::new(false),
            late: AtomicBool::new(false),
        }
    }

    pub(crate) fn may_follow_output(&self) -> bool {
        self.late.load(Ordering::SeqCst)
    }

    fn hold(&self, until: &AtomicBool) {
        for _ in 0..MAX_YIELDS {
            if until.load(Ordering::SeqCst) {
                return;
            }
            thread::yield_now();
        }
        self.late.store(true, Ordering::SeqCst);
    }
}

impl Gate for Meeting {
    fn pass<R: Wait>(&self, _rt: &R, who: u32, point: u64) {
        match (who, point) {
            (0, 0) => {
                self.first.store(true, Ordering::SeqCst);
                self.hold(&self.second);
            }
            (1, 0) => self.hold(&self.first),
            (1, 1) => self.second.store(true, Ordering::SeqCst),
            _ => {}
        }
    }

    fn again<R: Wait>(&self, _rt: &R, _who: u32, _point: u64) -> bool {
        true
    }
}

impl Stopping for Meeting {
    ghost use Rattle.std.specs.Prelude.{false};

    const STOPS: bool = false;

    ghost STOPS = { false };
}

// Counts the calls, and says so often that a feeder is to try again.
#[derive(Drop)]
pub(crate) struct Patience {
    passes: AtomicU64,
    tries: AtomicU64,
    most: u64,
}

impl Patience {
    pub(crate) fn new(most: u64) -> Patience {
        Patience {
            passes: AtomicU64::new(0),
            tries: AtomicU64::new(0),
            most,
        }
    }

    pub(crate) fn passes(&self) -> u64 {
        self.passes.load(Ordering::SeqCst)
    }

    pub(crate) fn tries(&self) -> u64 {
        self.tries.load(Ordering::SeqCst)
    }
}

impl Gate for Patience {
    fn pass<R: Wait>(&self, _rt: &R, _who: u32, _point: u64) {
        self.passes.fetch_add(1, Ordering::SeqCst);
    }

    fn again<R: Wait>(&self, _rt: &R, _who: u32, _point: u64) -> bool {
        self.tries.fetch_add(1, Ordering::SeqCst) < self.most
    }
}

impl Stopping for Patience {
    ghost use Rattle.std.specs.Prelude.{true};

    const STOPS: bool = true;

    ghost STOPS = { true };
}
