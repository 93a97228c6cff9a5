//! Tests of runs over row files that end because the reader of the questions or the writer fails.

use crate::inputs::{QUANTITIES, broken, text};
use crate::runs::{RunInputs, ends};
use bsi_files::{FilesFault, Go, Which, run_files};
use bsi_fixtures::NarrowWriter;
use bsi_text::SourceFault;
use std::alloc::AllocError;
use std::sync::Wait;
use std::thread::Threads;

#[test]
fn a_reader_of_questions_that_fails(rt: HostRuntime) {
    let files = RunInputs {
        schema: text(QUANTITIES),
        asks: broken("x\n"),
        rows: &[text("qty\n1\n")],
    };
    let fault = Err(FilesFault::Read(Which::AsksFile));
    assert!(rt; ends(&rt, files, fault, b"fed 0 1 0\nbad\n"));
}

// What a writer of so much room takes of a run, and how that ends.
fn narrow_once<R: Threads + Wait + AllocGlobal + Sync>(
    rt: &R,
    room: usize,
    fails: bool,
) -> Result<(Result<(), FilesFault>, Vec<u8>), AllocError> {
    let mut writer = NarrowWriter {
        accepted: Vec::with_capacity(rt.alloc(), 64)?,
        room,
        fails,
        flushes: 0,
    };
    let rows = Vec::from_slice(rt.alloc(), &[text("qty\n1\n")])?;
    if rows.is_empty() {
        return Err(AllocError);
    }
    let run = run_files(rt, text(QUANTITIES), text("x\ny\n"), rows, &mut writer, &Go);
    Ok((run, writer.accepted))
}

// Whether the run ends as the writer fails, behind these bytes. It gives none where memory was refused.
fn is_cut_once<R: Threads + Wait + AllocGlobal + Sync>(
    rt: &R,
    fails: bool,
    expected: &[u8],
) -> Option<bool> {
    match narrow_once(rt, expected.len(), fails) {
        Err(_)
        | Ok((Err(FilesFault::NoMemory | FilesFault::Source(_, SourceFault::NoMemory)), _)) => None,
        Ok((run, taken)) => Some(run == Err(FilesFault::Write) && taken.as_slice() == expected),
    }
}

// Where memory was refused, the run is made again.
fn is_cut<R: Threads + Wait + AllocGlobal + Sync>(rt: &R, fails: bool, expected: &[u8]) -> bool {
    match is_cut_once(rt, fails, expected) {
        None => is_cut_once(rt, fails, expected) == Some(true),
        Some(cut) => cut,
    }
}

#[test]
fn writers_that_take_no_more(rt: HostRuntime) {
    let none = is_cut(&rt, false, b"");
    let some = is_cut(&rt, true, b"fed ");
    let most = is_cut(&rt, false, b"fed 0 1 0\nbad\nbad");
    assert!(&rt; none && some && most);
}
