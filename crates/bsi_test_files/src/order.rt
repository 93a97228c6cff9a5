//! Tests of which fault of a run over row files is reported first, and which rows a run names to its gate.

use crate::inputs::{QUANTITIES, broken, long, text};
use crate::runs::{RunInputs, end_once, ends, give_up, was_refused};
use bsi_files::{FilesFault, Gate, Stopping};
use bsi_text::SourceFault;
use std::sync::Wait;
use std::sync::atomic::{AtomicU64, Ordering};
use std::thread::Threads;

#[test]
fn a_bad_schema_record_comes_before_the_reader_that_fails(rt: HostRuntime) {
    let files = RunInputs {
        schema: broken("column,qty,slices,3\nbegin\n"),
        asks: text(""),
        rows: &[text("qty\n1\n")],
    };
    assert!(rt; ends(&rt, files, Err(FilesFault::BadSchema(2)), b""));
}

#[test]
fn the_first_row_file_that_fails_is_told(rt: HostRuntime) {
    let files = RunInputs {
        schema: text(QUANTITIES),
        asks: text(""),
        rows: &[
            text("qty\n1\n"),
            broken("qty\n1\n"),
            text("qty\n"),
            broken("qty\n"),
        ],
    };
    let fault = Err(FilesFault::Source(1, SourceFault::Read));
    assert!(rt; ends(&rt, files, fault, b""));
}

#[test]
fn a_full_index_comes_before_the_reader_that_fails(rt: HostRuntime) {
    let files = RunInputs {
        schema: text("column,qty,slices,3\nlimit,1\n"),
        asks: text(""),
        rows: &[broken("qty\n1\n2\n")],
    };
    assert!(rt; ends(&rt, files, Err(FilesFault::IndexFull), b""));
}

// Follows the calls of feeder 1: one for each row that it tries, in order, and one at its end. Feeder 0 has no row.
// Counts as a stop where the end names the first row of a batch that was not accepted.
#[derive(Drop)]
struct Follower {
    passes: AtomicU64,
    stops: AtomicU64,
    tries: AtomicU64,
    strange: AtomicU64,
}

impl Follower {
    fn new() -> Follower {
        Follower {
            passes: AtomicU64::new(0),
            stops: AtomicU64::new(0),
            tries: AtomicU64::new(0),
            strange: AtomicU64::new(0),
        }
    }
}

fn count(calls: &AtomicU64) {
    calls.fetch_add(1, Ordering::SeqCst);
}

fn calls(counted: &AtomicU64) -> u64 {
    counted.load(Ordering::SeqCst)
}

// Whether the row is one of the last 1,024 of so many.
fn is_in_batch(point: u64, passes: u64) -> bool {
    point < passes && passes - point <= 1_024
}

impl Gate for Follower {
    fn pass<R: Wait>(&self, _rt: &R, who: u32, point: u64) {
        let before = if who == 1 { calls(&self.passes) } else { 0 };
        if who == 1 {
            count(&self.passes);
        }
        if is_in_batch(point, before) {
            count(&self.stops);
        } else if point != before {
            count(&self.strange);
        }
    }

    fn again<R: Wait>(&self, _rt: &R, who: u32, point: u64) -> bool {
        count(&self.tries);
        if who != 1 || !is_in_batch(point, calls(&self.passes)) {
            count(&self.strange);
        }
        true
    }
}

impl Stopping for Follower {
    ghost use Rattle.std.specs.Prelude.{false};

    const STOPS: bool = false;

    ghost STOPS = { false };
}

// Whether a run ends so, behind this output, and its gate was called so often by feeder 1: each time for the next row,
// but so many times for a row of a batch. It gives none where memory was refused.
fn follows<R: Threads + Wait + AllocGlobal + Sync>(
    rt: &R,
    files: RunInputs<'_>,
    run: Result<(), FilesFault>,
    output: &[u8],
    (passes, stops): (u64, u64),
) -> Option<bool> {
    let gate = Follower::new();
    let ended = end_once(rt, files, &gate);
    if was_refused(&ended) {
        return None;
    }
    let tried = stops == 0 || calls(&gate.tries) > 0;
    let counted = calls(&gate.passes) == passes && calls(&gate.stops) == stops;
    let ended = ended.ok()?;
    Some(ended.is(run, output) && tried && counted && calls(&gate.strange) == 0)
}

// Of 1,100 rows the ring takes a batch of 1,024, and the table 10 rows of it. The next batch finds no free slots. Rows
// for which a batch finds no memory go one by one, and no answer reports it.
#[test]
fn a_feeder_that_stops_names_its_row(rt: HostRuntime) {
    let files = RunInputs {
        schema: text("column,qty,slices,3\nlimit,10\n"),
        asks: text(""),
        rows: &[text("qty\n"), long("qty\n", "1\n", 1_100)],
    };
    let full = Err(FilesFault::IndexFull);
    let mut done = follows(&rt, files, full, b"", (1_101, 1));
    if done != Some(true) {
        give_up(&rt, done);
        done = follows(&rt, files, full, b"", (1_101, 1));
    }
    assert!(rt; done == Some(true));
}

#[test]
fn a_feeder_at_its_end_names_how_many_it_sent(rt: HostRuntime) {
    let files = RunInputs {
        schema: text(QUANTITIES),
        asks: text(""),
        rows: &[text("qty\n"), text("qty\n1\n2\n3\n")],
    };
    let fed = b"fed 0 0 0\nfed 1 3 0\n";
    let mut done = follows(&rt, files, Ok(()), fed, (4, 0));
    if done != Some(true) {
        give_up(&rt, done);
        done = follows(&rt, files, Ok(()), fed, (4, 0));
    }
    assert!(rt; done == Some(true));
}
