// SPDX-License-Identifier: MIT
//! Readers and writers of std as sources and sinks.

ghost use Rattle.std.specs.Prelude.{◌≡◌, true, false, Some};
ghost use Rattle.po_streams.specs.Source.{CountsMore};

use crate::sink::Sink;
use crate::source::{IoFailed, Source};
use std::io::{Read, Write};

/// A reader or a writer of std, and what its calls have shown.
///
/// Each call makes one call of the reader or writer, and fails if that fails. No clause says that it fails only then, since std
/// never says that a call of a reader or a writer succeeds.
#[derive(Drop)]
pub struct OverStd<T> {
    inner: T,
    failed: bool,
    empty: bool,
    /// How many reads have given bytes, as long as a u64 holds the number.
    reads: Option<u64>,
}

/// Returns one more, if a u64 holds it.
fn one_more(count: Option<u64>) -> Option<u64>
    ensures { CountsMore count result 1 }
{
    count?.checked_add(1)
}

impl<T> OverStd<T> {
    ghost use Rattle.po_streams.specs.OverStd.{inner_of, has_failed, was_empty, reads_of};

    /// Makes one over a reader or a writer; none of its calls has shown anything yet.
    pub fn new(inner: T) -> OverStd<T>
        ensures inner { inner_of result ≡ inner }
        ensures fine { has_failed result ≡ false }
        ensures fresh { was_empty result ≡ false }
        ensures unread { reads_of result ≡ Some 0 }
    {
        OverStd {
            inner,
            failed: false,
            empty: false,
            reads: Some(0),
        }
    }

    /// Returns the reader or the writer itself.
    pub fn into_inner(self) -> T
        ensures { result ≡ inner_of self }
    {
        let OverStd {
            inner,
            failed: _,
            empty: _,
            reads: _,
        } = self;
        inner
    }
}

impl<T: Read> Source for OverStd<T> {
    ghost left = { λ s. T.remaining s.inner };

    ghost failed = { λ s. s.failed };

    ghost ended = { λ s. s.empty };

    ghost reads = { λ s. s.reads };

    fn read(&mut self, buffer: &mut [u8]) -> Result<usize, IoFailed> {
        match self.inner.read(buffer) {
            Ok(0) => {
                self.empty = true;
                Ok(0)
            }
            Ok(count) => {
                self.reads = one_more(self.reads);
                Ok(count)
            }
            Err(_) => {
                self.failed = true;
                Err(IoFailed)
            }
        }
    }
}

impl<T: Write> Sink for OverStd<T> {
    ghost taken = { λ s. T.contents s.inner };

    ghost failed = { λ s. s.failed };

    ghost stuck = { λ s. s.empty };

    fn write(&mut self, bytes: &[u8]) -> Result<usize, IoFailed> {
        match self.inner.write(bytes) {
            Ok(count) => {
                if count == 0 {
                    self.empty = true;
                }
                Ok(count)
            }
            Err(_) => {
                self.failed = true;
                Err(IoFailed)
            }
        }
    }
}
