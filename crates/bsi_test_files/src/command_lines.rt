//! Tests of command lines: the status that each ends with, the line of its fault, and how often its output is flushed.

use crate::runs::give_up;
use bsi_fixtures::{EMPTY, NarrowWriter, TextReader};
use bsi_shell::{Go, LockFile, run_words};
use std::alloc::{AllocError, Global};
use std::fs::OpenFile;
use std::io;
use std::io::{PipeReader, Read, Write};
use std::os::fd::AsRawFd;
use std::rt::Files;
use std::sync::Wait;
use std::thread::Threads;
use std::time::Clock;

// How a command line ends: its status, what it wrote, and how often it flushed its output.
#[derive(Drop)]
struct LineEnd {
    status: u8,
    output: Vec<u8>,
    stderr: Vec<u8>,
    flushes: u64,
}

// How a command line is run: its words, whether its reader fails after the text, and how much its writer takes.
#[derive(Clone, Copy)]
struct Line<'a> {
    words: &'a str,
    text: &'a str,
    is_broken: bool,
    room: usize,
    fails: bool,
}

fn words_of(alloc: Global, line: &str) -> Result<Vec<String>, AllocError> {
    let mut list = Vec::new(alloc);
    for word in line.split_whitespace() {
        list.push(String::from_str(alloc, word)?)?;
    }
    Ok(list)
}

fn end_once<
    R: AllocGlobal + Clock + Files<File = S> + Threads + Wait + Sync,
    S: Read + Write + OpenFile + LockFile + Drop + Send,
>(rt: &R, line: Line<'_>) -> Result<LineEnd, AllocError> {
    let words = words_of(rt.alloc(), line.words)?;
    let mut output = NarrowWriter {
        accepted: Vec::with_capacity(rt.alloc(), 4096)?,
        room: line.room,
        fails: line.fails,
        flushes: 0,
    };
    let mut stderr = Vec::with_capacity(rt.alloc(), 4096)?;
    let reader = TextReader {
        left: line.text.as_bytes(),
        fails: line.is_broken,
        ..EMPTY
    };
    Ok(LineEnd {
        status: run_words(rt, words, reader, &mut output, &mut stderr, &Go).status,
        flushes: output.flushes,
        output: output.accepted,
        stderr,
    })
}

// How the line ends. Where memory was refused, it is run again.
fn end_of<
    R: AllocGlobal + Clock + Files<File = S> + Threads + Wait + Sync,
    S: Read + Write + OpenFile + LockFile + Drop + Send,
>(rt: &R, line: Line<'_>) -> Result<LineEnd, AllocError> {
    match end_once(rt, line) {
        Ok(end) if end.stderr.as_slice() != b"bsi: no memory\n".as_slice() => Ok(end),
        _ => end_once(rt, line),
    }
}

// A line whose reader and writer do not fail.
const PLAIN: Line<'static> = Line {
    words: "script",
    text: "begin\nbegin\nload,0",
    is_broken: false,
    room: 99,
    fails: false,
};

impl LineEnd {
    // Whether the line ends so, writes this to standard error, and flushes its output once.
    fn is(&self, status: u8, output: &str, stderr: &str) -> bool {
        self.status == status
            && self.flushes == 1
            && self.output.as_slice() == output.as_bytes()
            && self.stderr.as_slice() == stderr.as_bytes()
    }
}

// Whether a line ends so, writes this to standard error and writes this.
fn ends<
    R: AllocGlobal + Clock + Files<File = S> + Threads + Wait + Sync,
    S: Read + Write + OpenFile + LockFile + Drop + Send,
>(rt: &R, line: Line<'_>, status: u8, output: &str, stderr: &str) -> bool {
    match end_of(rt, line) {
        Ok(end) => end.is(status, output, stderr),
        Err(_) => false,
    }
}

#[test]
fn the_script_word_runs_the_script(rt: HostRuntime) {
    assert!(rt; ends(&rt, PLAIN, 0, "bad\nbad\nbad\n", ""));
}

#[test]
fn each_fault_has_its_text_and_status_one(rt: HostRuntime) {
    for (is_broken, room, fails, wrote, expected) in [
        (true, 99, false, "bad\nbad\n", "bsi: read failed\n"),
        (true, 99, true, "bad\nbad\n", "bsi: read failed\n"),
        (false, 6, true, "bad\nba", "bsi: write failed\n"),
        (false, 6, false, "bad\nba", "bsi: write failed\n"),
        (false, 99, true, "bad\nbad\nbad\n", "bsi: write failed\n"),
    ] {
        let line = Line {
            is_broken,
            room,
            fails,
            ..PLAIN
        };
        assert!(rt; ends(&rt, line, 1, wrote, expected), "at {expected}");
    }
}

// A pipe that gives the text and then ends, and its path.
fn pipe_of<R: AllocGlobal + Files>(rt: &R, text: &str) -> io::Result<(PipeReader, String)> {
    let (reader, mut writer) = io::pipe(rt)?;
    writer.write_all(text.as_bytes())?;
    let path = format!(in rt.alloc(); "/dev/fd/{}", reader.as_raw_fd())?;
    Ok((reader, path))
}

// How a run over these files ends whose flush fails.
fn end_over<
    R: AllocGlobal + Clock + Files<File = S> + Threads + Wait + Sync,
    S: Read + Write + OpenFile + LockFile + Drop + Send,
>(rt: &R, schema: &str, rows: &str) -> io::Result<LineEnd> {
    let words = format!(in rt.alloc(); "files --schema {schema} --asks /dev/null {rows}")?;
    let line = Line {
        words: words.as_str(),
        fails: true,
        ..PLAIN
    };
    Ok(end_once(rt, line)?)
}

// How a run over files ends that goes well, and whose flush fails.
fn unflushed<
    R: AllocGlobal + Clock + Files<File = S> + Threads + Wait + Sync,
    S: Read + Write + OpenFile + LockFile + Drop + Send,
>(rt: &R) -> io::Result<LineEnd> {
    let (_schema, schema) = pipe_of(rt, "column,qty,slices,3\n")?;
    let (_rows, rows) = pipe_of(rt, "qty\n5\n")?;
    end_over(rt, schema.as_str(), rows.as_str())
}

// Whether such a run ends so. It gives none where the answer is refused memory.
fn is_unflushed<
    R: AllocGlobal + Clock + Files<File = S> + Threads + Wait + Sync,
    S: Read + Write + OpenFile + LockFile + Drop + Send,
>(rt: &R) -> Option<bool> {
    let end = unflushed(rt).ok()?;
    if end.stderr.as_slice().ends_with(b"no memory\n") {
        return None;
    }
    Some(end.is(1, "fed 0 1 0\n", "bsi: write failed\n"))
}

// A file for whose opening there is no memory can't be opened.
#[test]
fn a_flush_of_files_that_fails(rt: HostRuntime) {
    let mut done = is_unflushed(&rt);
    if done != Some(true) {
        give_up(&rt, done);
        done = is_unflushed(&rt);
    }
    assert!(rt; done == Some(true));
}

#[test]
fn a_fault_of_files_before_a_flush_that_fails(rt: HostRuntime) {
    let line = Line {
        words: "files --schema /dev/null --asks /dev/null /dev/null",
        fails: true,
        ..PLAIN
    };
    assert!(rt; ends(&rt, line, 1, "", "bsi: schema: no columns\n"));
}

// A saved index with a column `x` of one slice and no row, in words.
const SAVED: [u64; 14] = [
    0x0174_7065_6b69_7362,
    11,
    0,
    1,
    1,
    0,
    1,
    0,
    1,
    0x78,
    0,
    1,
    0,
    0x4cab_03fb_b76c_730f,
];

// How `bsi show` ends of this index, whose flush fails.
fn unflushed_show<
    R: AllocGlobal + Clock + Files<File = S> + Threads + Wait + Sync,
    S: Read + Write + OpenFile + LockFile + Drop + Send,
>(rt: &R) -> io::Result<LineEnd> {
    let (reader, mut writer) = io::pipe(rt)?;
    for &word in &SAVED {
        writer.write_all(&word.to_le_bytes())?;
    }
    drop(writer);
    let words = format!(in rt.alloc(); "show /dev/fd/{}", reader.as_raw_fd())?;
    let line = Line {
        words: words.as_str(),
        fails: true,
        ..PLAIN
    };
    Ok(end_once(rt, line)?)
}

// Whether it ends so. It gives none where the answer is refused memory.
fn is_unflushed_show<
    R: AllocGlobal + Clock + Files<File = S> + Threads + Wait + Sync,
    S: Read + Write + OpenFile + LockFile + Drop + Send,
>(rt: &R) -> Option<bool> {
    let end = unflushed_show(rt).ok()?;
    if end.stderr.as_slice().ends_with(b"no memory\n") {
        return None;
    }
    let shown = "column,x,slices,1\nlimit,1\nfeeders 1\nrows 0\nbytes x 0\n";
    Some(end.is(1, shown, "bsi: write failed\n"))
}

#[test]
fn a_flush_of_a_saved_index_that_fails(rt: HostRuntime) {
    let mut done = is_unflushed_show(&rt);
    if done != Some(true) {
        give_up(&rt, done);
        done = is_unflushed_show(&rt);
    }
    assert!(rt; done == Some(true));
}
