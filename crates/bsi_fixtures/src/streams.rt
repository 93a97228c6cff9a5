//! Readers that give a text byte by byte and then end or fail (`TextReader`), and writers that accept some bytes
//! (`NarrowWriter`).

use std::io;
use std::io::{Read, Write};

/// A reader that gives its text a byte a call, and then its unit so many times. Then it ends, or fails.
#[derive(Clone, Copy)]
pub struct TextReader<'a> {
    /// What is left of the text, or of the unit that is being given.
    pub left: &'a [u8],
    /// What is given after the text.
    pub unit: &'a [u8],
    /// How many more times the unit is given.
    pub times: u64,
    /// Whether it fails at the end.
    pub fails: bool,
}

/// A reader that has nothing to give, and ends.
pub const EMPTY: TextReader<'static> = TextReader {
    left: b"",
    unit: b"",
    times: 0,
    fails: false,
};

impl<'a> Read for TextReader<'a> {
    fn read(&mut self, buf: &mut [u8]) -> io::Result<usize> {
        if self.left.is_empty() && self.times > 0 {
            self.times -= 1;
            self.left = self.unit;
        }
        match (self.left.split_first(), buf.first_mut()) {
            (Some((byte, rest)), Some(place)) => {
                *place = *byte;
                self.left = rest;
                Ok(1)
            }
            _ if self.fails => Err(io::Error::from(io::ErrorKind::BrokenPipe)),
            _ => Ok(0),
        }
    }
}

/// A writer that accepts a byte a call until it has `room` of them. After them it fails once, or accepts nothing once.
#[derive(Drop)]
pub struct NarrowWriter {
    /// The bytes that were accepted.
    pub accepted: Vec<u8>,
    /// How many bytes it accepts before it refuses one.
    pub room: usize,
    /// Whether it fails where it refuses a byte, and at each flush.
    pub fails: bool,
    /// How often it was flushed.
    pub flushes: u64,
}

impl Write for NarrowWriter {
    fn write(&mut self, buf: &[u8]) -> io::Result<usize> {
        match buf.first() {
            Some(byte) if self.accepted.len() < self.room => {
                self.accepted.push(*byte)?;
                Ok(1)
            }
            _ => {
                self.room = usize::MAX;
                if self.fails {
                    return Err(io::Error::from(io::ErrorKind::BrokenPipe));
                }
                Ok(0)
            }
        }
    }

    fn flush(&mut self) -> io::Result<()> {
        self.flushes = self.flushes.saturating_add(1);
        if self.fails {
            return Err(io::Error::from(io::ErrorKind::BrokenPipe));
        }
        Ok(())
    }
}
