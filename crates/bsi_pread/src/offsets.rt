//! Reads the bytes of a file at any offset (`ReadAt`), also by a reader that begins at one (`At`).

ghost use Rattle.std.specs.Prelude.{◌≡◌, None, Some};
ghost use Rattle.std.specs.Io.{ReadsAtMost};
ghost use Rattle.bsi_pread.specs.Offsets.{known_from, ReadsFrom};
ghost use Rattle.bsi_syntax.specs.Bytes.{KnownBytes};

use std::fs::File;
use std::io;
use std::io::{ErrorKind, Read};
use std::os::unix::fs::FileExt;

/// Bytes that are read from any offset. They stay as they are while they are read.
pub trait ReadAt {
    // All the bytes, if they are known.
    ghost all_bytes: { Self → KnownBytes } = { λ _. None };

    /// Reads some of the bytes from offset `at` on, and returns how many: none only if no more stand there, or if there is
    /// no room for one.
    fn read_at(&self, bytes: &mut [u8], at: u64) -> io::Result<usize>
        ensures bound { ReadsAtMost result bytes.new }
        ensures bytes { ReadsFrom (all_bytes self.now) at result bytes.new };
}

impl ReadAt for File {
    fn read_at(&self, bytes: &mut [u8], at: u64) -> io::Result<usize> {
        FileExt::read_at(self, bytes, at)
    }
}

/// Bytes in memory, as those of a file that is mapped into it.
#[derive(Clone, Copy, Debug)]
pub struct LentBytes<'a> {
    /// All the bytes.
    pub bytes: &'a [u8],
}

impl ReadAt for LentBytes<'_> {
    ghost all_bytes = { λ lent. Some lent.bytes.now };

    fn read_at(&self, bytes: &mut [u8], at: u64) -> io::Result<usize> {
        let from = at.min(self.bytes.len() as u64) as usize;
        let (_, rest) = self.bytes.split_at(from);
        let count = rest.len().min(bytes.len());
        bytes[..count].copy_from_slice(&rest[..count]);
        Ok(count)
    }
}

/// A reader of the bytes from an offset on.
#[derive(Drop)]
pub struct At<'a, R> {
    reader: &'a R,
    at: u64,
}

impl<'a, R: ReadAt> At<'a, R> {
    /// Makes a reader of the bytes from offset `at` on.
    pub fn new(reader: &'a R, at: u64) -> At<'a, R>
        ensures reader { result.reader ≡ reader.entry }
        ensures at { result.at ≡ at }
    {
        At { reader, at }
    }
}

impl<R: ReadAt> Read for At<'_, R> {
    ghost remaining = { λ s. known_from s.at (R.all_bytes s.reader.now) };

    fn read(&mut self, buf: &mut [u8]) -> io::Result<usize> {
        let count = self.reader.read_at(buf, self.at)?;
        let Some(end) = self.at.checked_add(count as u64) else {
            return Err(io::Error::from(ErrorKind::InvalidInput));
        };
        self.at = end;
        Ok(count)
    }
}
