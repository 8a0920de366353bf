// SPDX-License-Identifier: MIT
//! The tests' own readers and writers.

ghost use Rattle.std.specs.Prelude.{◌≡◌, ◌≤◌, false, None, IfOk};

use po_streams::{IoFailed, Sink, Source};
use std::alloc::Global;
use std::io;
use std::io::{Read, Write};

/// A reader that gives its bytes in pieces of one size, and then ends or fails.
#[derive(Drop)]
pub(crate) struct Pieces<'a> {
    bytes: &'a [u8],
    size: usize,
    fails: bool,
    failed: bool,
    ended: bool,
}

impl<'a> Pieces<'a> {
    pub(crate) fn new(bytes: &'a [u8], size: usize, fails: bool) -> Pieces<'a>
        ensures fine { result.failed ≡ false }
        ensures fresh { result.ended ≡ false }
    {
        Pieces {
            bytes,
            size,
            fails,
            failed: false,
            ended: false,
        }
    }
}

impl Source for Pieces<'_> {
    ghost left = { λ _. None };

    ghost failed = { λ s. s.failed };

    ghost ended = { λ s. s.ended };

    fn read(&mut self, buffer: &mut [u8]) -> Result<usize, IoFailed> {
        if self.bytes.is_empty() && self.fails {
            self.failed = true;
            return Err(IoFailed);
        }
        let count = self.size.min(self.bytes.len()).min(buffer.len());
        let (piece, rest) = self.bytes.split_at(count);
        buffer[..count].copy_from_slice(piece);
        self.bytes = rest;
        if count == 0 {
            self.ended = true;
        }
        Ok(count)
    }
}

/// A reader that gives a line without an end, a letter a read, and counts its reads.
#[derive(Clone, Copy)]
pub(crate) struct Endless {
    pub(crate) reads: u64,
}

impl Source for Endless {
    ghost left = { λ _. None };

    ghost failed = { λ _. false };

    ghost ended = { λ _. false };

    fn read(&mut self, buffer: &mut [u8]) -> Result<usize, IoFailed> {
        self.reads = self.reads.saturating_add(1);
        buffer[0] = b'x';
        Ok(1)
    }
}

/// A writer that takes at most `size` bytes a call, has room for `room` bytes, and then fails or takes none.
#[derive(Drop)]
pub(crate) struct Narrow {
    pub(crate) bytes: Vec<u8>,
    size: usize,
    room: usize,
    fails: bool,
    failed: bool,
    stuck: bool,
}

impl Narrow {
    pub(crate) fn new(alloc: Global, size: usize, room: usize, fails: bool) -> Narrow
        ensures fine { result.failed ≡ false }
        ensures fresh { result.stuck ≡ false }
    {
        Narrow {
            bytes: Vec::new(alloc),
            size,
            room,
            fails,
            failed: false,
            stuck: false,
        }
    }
}

impl Sink for Narrow {
    ghost taken = { λ _. None };

    ghost failed = { λ s. s.failed };

    ghost stuck = { λ s. s.stuck };

    fn write(&mut self, bytes: &[u8]) -> Result<usize, IoFailed> {
        let count = self.size.min(self.room).min(bytes.len());
        if count == 0 && self.fails || self.bytes.extend_from_slice(&bytes[..count]).is_err() {
            self.failed = true;
            return Err(IoFailed);
        }
        self.room -= count;
        if count == 0 {
            self.stuck = true;
        }
        Ok(count)
    }
}

/// A reader and writer of std that counts its calls. Either each call fails, or each gives or takes a byte.
#[derive(Clone, Copy)]
pub(crate) struct Asked {
    pub(crate) calls: u64,
    fails: bool,
}

impl Asked {
    pub(crate) fn new(fails: bool) -> Asked {
        Asked { calls: 0, fails }
    }

    /// Counts one more call, on a buffer of this length, and answers it.
    fn answer(&mut self, length: usize) -> io::Result<usize>
        ensures { IfOk result (λ count. count ≤ length) }
    {
        self.calls = self.calls.saturating_add(1);
        if self.fails {
            return Err(io::Error::from(io::ErrorKind::TimedOut));
        }
        Ok(length.min(1))
    }
}

impl Read for Asked {
    fn read(&mut self, buf: &mut [u8]) -> io::Result<usize> {
        self.answer(buf.len())
    }
}

impl Write for Asked {
    fn write(&mut self, buf: &[u8]) -> io::Result<usize> {
        self.answer(buf.len())
    }

    fn flush(&mut self) -> io::Result<()> {
        Ok(())
    }
}
