//! A reader that knows whether the next record is in its buffer as a whole, so needs no further read
//! (`RecordAwareReader`).
//!
//! If the text of a read has no quote, the end of a line that is not empty ends a record. If it has one, a record may
//! go on past the end of a line, so each answer is written at once. So no text is parsed twice. A reader that writes
//! what waits before it reads would share the answers in a cell, whose contents no contract can describe.

ghost use Rattle.std.specs.Prelude.{◌≡◌};

use csv::Reader;
use std::io;
use std::io::Read;

/// A reader that notes how far the lines reach that were read as a whole.
#[derive(Drop)]
pub struct RecordAwareReader<R: Read + Drop> {
    /// The reader that it reads from.
    pub inner: R,
    // How many bytes were read, and how many of them stand up to the last line end that surely ends a record.
    read: u64,
    whole: u64,
}

impl<R: Read + Drop> Read for RecordAwareReader<R> {
    ghost remaining = { λ w. R.remaining w.inner };

    fn read(&mut self, buf: &mut [u8]) -> io::Result<usize> {
        let count = self.inner.read(buf)?;
        self.whole = self.read.saturating_add(whole_lines(&buf[..count]) as u64);
        self.read = self.read.saturating_add(count as u64);
        Ok(count)
    }
}

impl<R: Read + Drop> RecordAwareReader<R> {
    /// Makes the reader of which no byte has been read.
    pub fn new(inner: R) -> RecordAwareReader<R>
        ensures { result.inner ≡ inner }
    {
        RecordAwareReader {
            inner,
            read: 0,
            whole: 0,
        }
    }
}

/// Returns whether the next record was read as a whole, so that it can be returned without asking for more bytes. It may
/// return false for a record with quotes that was read as a whole.
pub fn has_buffered_record<R: Read + Drop>(input: &Reader<RecordAwareReader<R>>) -> bool {
    input.position().byte() < input.get_ref().whole
}

/// Returns how many of the bytes stand up to the end of the last line that has bytes before its end. It returns 0 if
/// there is a quote, since a quoted record may go on past the end of a line.
fn whole_lines(bytes: &[u8]) -> usize {
    if bytes.contains(&b'"') {
        return 0;
    }
    let behind = bytes.windows(2).rev().position(ends_line);
    behind.map_or(0, |behind| bytes.len() - behind)
}

/// Returns whether the second of two bytes ends a line that has the first before its end.
fn ends_line(pair: &[u8]) -> bool {
    matches!(pair, [before, end] if is_line_end(*end) && !is_line_end(*before))
}

/// Returns whether a byte ends a line.
fn is_line_end(byte: u8) -> bool {
    byte == b'\n' || byte == b'\r'
}
