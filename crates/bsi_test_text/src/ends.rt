//! Tests of scripts whose reader fails after each byte, and whose writer fails at each call.

use bsi_fixtures::{EMPTY, NarrowWriter, TextReader};
use bsi_text::{NoMemory, ScriptFault, run_script};
use std::alloc::Global;

// Gives the text, and then fails.
pub(crate) fn broken(text: &[u8]) -> TextReader<'_> {
    TextReader {
        left: text,
        fails: true,
        ..EMPTY
    }
}

// Gives the text, and then ends.
pub(crate) fn whole(text: &[u8]) -> TextReader<'_> {
    TextReader {
        left: text,
        ..EMPTY
    }
}

// A buffer that a test writes to; a refused growth is asked for again.
pub(crate) fn buffer(alloc: Global) -> Result<Vec<u8>, NoMemory> {
    match Vec::with_capacity(alloc, 4096) {
        Err(_) => Vec::with_capacity(alloc, 4096),
        made => made,
    }
}

// A script, and the lines that answer it.
const SCRIPT: &str =
    "column,qty,slices,3\nfeeder,4\nbegin\nsubmit,0,5\ncount,all\nload,0\ncount,all\nsum,qty,all\n";

const LINES: &str = "ok\nok\nok\naccepted\ncount 0\nloaded 0\ncount 1\nsum 5\n";

// How the script ends whose reader fails after this text. Where memory was refused, it runs again.
fn read_until(alloc: Global, text: &[u8], lines: &mut Vec<u8>) -> Result<(), ScriptFault> {
    lines.clear();
    let run = run_script(alloc, broken(text), lines);
    if run != Err(ScriptFault::NoMemory) && !reports_no_memory(lines) {
        return run;
    }
    lines.clear();
    run_script(alloc, broken(text), lines)
}

// Whether some line says that memory was refused.
fn reports_no_memory(lines: &[u8]) -> bool {
    lines
        .windows(10)
        .any(|window| window == b"no memory\n".as_slice())
}

fn line_ends(text: &[u8]) -> usize {
    text.iter().filter(|byte| **byte == b'\n').count()
}

// Whether the script, whose reader fails after this text, has answered its whole lines.
fn answers_whole_lines(alloc: Global, text: &[u8], lines: &mut Vec<u8>) -> bool {
    let run = read_until(alloc, text, lines);
    run == Err(ScriptFault::Read)
        && line_ends(lines) == line_ends(text)
        && LINES.as_bytes().starts_with(lines.as_slice())
}

fn answers_until_each_byte(alloc: Global) -> Result<bool, NoMemory> {
    let mut lines = buffer(alloc)?;
    let mut right = true;
    for count in 0..SCRIPT.len() {
        right &= answers_whole_lines(alloc, &SCRIPT.as_bytes()[..count], &mut lines);
    }
    Ok(right)
}

#[test]
fn a_reader_fails_after_each_byte(rt: HostRuntime) {
    assert!(rt; matches!(answers_until_each_byte(rt.alloc()), Ok(true)));
}

fn write_once(
    alloc: Global,
    room: usize,
    fails: bool,
    writer: &mut NarrowWriter,
) -> Result<(), ScriptFault> {
    writer.accepted.clear();
    writer.room = room;
    writer.fails = fails;
    run_script(alloc, SCRIPT.as_bytes(), writer)
}

// How the script ends whose writer takes so many bytes, one a call. Where memory was refused, it runs again.
fn write_until(
    alloc: Global,
    room: usize,
    fails: bool,
    writer: &mut NarrowWriter,
) -> Result<(), ScriptFault> {
    let run = write_once(alloc, room, fails, writer);
    if run == Err(ScriptFault::NoMemory)
        || !LINES.as_bytes().starts_with(writer.accepted.as_slice())
    {
        return write_once(alloc, room, fails, writer);
    }
    run
}

// Whether the writer takes just so many bytes of the lines, and the script ends as it should.
fn writes(
    alloc: Global,
    room: usize,
    fails: bool,
    writer: &mut NarrowWriter,
    expected: Result<(), ScriptFault>,
) -> bool {
    let run = write_until(alloc, room, fails, writer);
    let taken = writer.accepted.as_slice();
    run == expected && taken.len() == room && LINES.as_bytes().starts_with(taken)
}

// Whether the script ends with a fault where the writer fails behind so many bytes, or takes no more of them.
fn is_cut(alloc: Global, room: usize, writer: &mut NarrowWriter) -> bool {
    let expected = Err(ScriptFault::Write);
    writes(alloc, room, true, writer, expected) && writes(alloc, room, false, writer, expected)
}

fn is_cut_at_each_byte(alloc: Global) -> Result<bool, NoMemory> {
    let mut writer = NarrowWriter {
        accepted: buffer(alloc)?,
        room: 0,
        fails: false,
        flushes: 0,
    };
    let mut right = writes(alloc, LINES.len(), true, &mut writer, Ok(()));
    for room in 0..LINES.len() {
        right &= is_cut(alloc, room, &mut writer);
    }
    Ok(right)
}

#[test]
fn a_writer_fails_at_each_call(rt: HostRuntime) {
    assert!(rt; matches!(is_cut_at_each_byte(rt.alloc()), Ok(true)));
}
