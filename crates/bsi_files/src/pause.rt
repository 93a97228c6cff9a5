//! How a thread waits that has nothing to do: it yields at first, and then it sleeps for short times.
//!
//! A ring fills in about the time of one sleep, so a loader yields for as long before it sleeps: one that sleeps after
//! a few yields finds its rings full, and the feeders asleep. A feeder whose ring is full has longer to wait and sleeps
//! sooner, since feeders that go on yielding take the processor from the loader again and again. A sleep is
//! `AtomicU64::park_timeout`, which needs `Wait` alone, where `thread::sleep` needs a clock.

use std::sync::Wait;
use std::sync::atomic::AtomicU64;
use std::thread;
use std::time::Duration;

/// How long a thread sleeps each time, in microseconds.
const SLEEP_MICROS: u64 = 100;

/// How one thread waits, from when it last had something to do. Its calls have no clauses, because nothing is proved of
/// how long a thread waits.
#[derive(Clone, Copy)]
pub struct Pause {
    yields: u32,
}

impl Pause {
    /// Makes the state of a thread that has not waited yet. It yields so many times before it first sleeps.
    pub fn new(yields: u32) -> Pause {
        Pause { yields }
    }

    /// Yields the processor or, once it has yielded as often as it may, sleeps for 100 microseconds.
    pub fn wait<R: Wait>(&mut self, rt: &R) {
        if self.yields > 0 {
            self.yields -= 1;
            thread::yield_now();
        } else {
            AtomicU64::new(0).park_timeout(rt, 0, Duration::from_micros(SLEEP_MICROS));
        }
    }
}
