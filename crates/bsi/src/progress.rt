//! Shows on a terminal how far a run over files is (`Progress`), as the gate that its feeders call.

use arrayvec::ArrayString;
use bsi_shell::{Gate, Stopping};
use itoa::Buffer;
use std::io::Eprint;
use std::sync::Wait;
use std::sync::atomic::{AtomicU64, Ordering};
use std::time::Instant;

/// Once so many rows of a file were read, the clock is asked whether the line is due.
const ROWS_AT_ONCE: u64 = 1024;

/// From so many milliseconds on there is a line.
const FIRST_DUE: u64 = 1000;

/// The least milliseconds from one line to the next.
const PAUSE: u64 = 100;

/// The most bytes of the line: its words, three numbers, and what moves the cursor.
const MAX_PROGRESS: usize = 96;

/// A gate that stops nobody and, on a terminal, shows on standard error how many rows of how many files were read, and
/// in how many seconds: from the first second on, in one line that is drawn anew at most ten times a second, and removed
/// when the feeders have ended.
#[derive(Drop)]
pub(crate) struct Progress {
    rt: HostRuntime,
    begun: Option<Instant>,
    rows: AtomicU64,
    files: AtomicU64,
    due: AtomicU64,
}

impl Progress {
    /// Begins a run. Where standard error is no terminal, nothing is shown.
    pub(crate) fn new(rt: &HostRuntime, is_terminal: bool) -> Progress {
        let begun = if is_terminal {
            Instant::now(rt).ok()
        } else {
            None
        };
        Progress {
            rt: *rt,
            begun,
            rows: AtomicU64::new(0),
            files: AtomicU64::new(0),
            due: AtomicU64::new(FIRST_DUE),
        }
    }

    /// Draws the line where it is due, and no other thread draws it.
    fn draw(&self, begun: Instant) {
        let Ok(time) = begun.elapsed(&self.rt) else {
            return;
        };
        let now = u64::try_from(time.as_millis()).unwrap_or(u64::MAX);
        let due = self.due.load(Ordering::SeqCst);
        let next = now.saturating_add(PAUSE);
        if now >= due && self.becomes_due(due, next) {
            self.show(now / 1000);
        }
    }

    /// Notes when the next line is due, and returns whether no other thread has done so.
    fn becomes_due(&self, due: u64, next: u64) -> bool {
        self.due
            .compare_exchange(due, next, Ordering::SeqCst, Ordering::SeqCst)
            .is_ok()
    }

    /// Writes the line over the one before.
    fn show(&self, seconds: u64) {
        let mut line = ArrayString::<MAX_PROGRESS>::new();
        line.push_str("\rrows ");
        line.push_str(Buffer::new().format(self.rows.load(Ordering::SeqCst)));
        line.push_str(", files ");
        line.push_str(Buffer::new().format(self.files.load(Ordering::SeqCst)));
        line.push_str(", seconds ");
        line.push_str(Buffer::new().format(seconds));
        line.push_str("\x1b[K");
        let _ = self.rt.eprint(line.as_str());
    }
}

impl Gate for Progress {
    fn pass<R: Wait>(&self, _rt: &R, _who: u32, point: u64) {
        let Some(begun) = self.begun else {
            return;
        };
        if point == 0 {
            self.files.fetch_add(1, Ordering::SeqCst);
        } else if point % ROWS_AT_ONCE == 0 {
            self.rows.fetch_add(ROWS_AT_ONCE, Ordering::SeqCst);
            self.draw(begun);
        }
    }

    fn again<R: Wait>(&self, _rt: &R, _who: u32, _point: u64) -> bool {
        true
    }

    fn done(&self) {
        if self.due.load(Ordering::SeqCst) > FIRST_DUE {
            let _ = self.rt.eprint("\r\x1b[K");
        }
    }
}

impl Stopping for Progress {
    ghost use Rattle.std.specs.Prelude.{false};

    const STOPS: bool = false;

    ghost STOPS = { false };
}
