// SPDX-License-Identifier: MIT
//! A sink with room for a limited number of bytes.

ghost use Rattle.std.specs.Prelude.{◌≡◌, false};

use po_streams::{IoFailed, Sink};
use std::alloc::Global;

/// A sink that takes one byte a call, has room for `room` of them, and then fails or takes none.
#[derive(Drop)]
pub(crate) struct Narrow {
    pub(crate) bytes: Vec<u8>,
    room: usize,
    fails: bool,
    failed: bool,
    stuck: bool,
}

impl Narrow {
    /// Returns an empty sink.
    pub(crate) fn new(alloc: Global, room: usize, fails: bool) -> Narrow {
        Narrow {
            bytes: Vec::new(alloc),
            room,
            fails,
            failed: false,
            stuck: false,
        }
    }
}

impl Sink for Narrow {
    ghost use Rattle.std.specs.Prelude.{None};

    ghost taken = { λ _. None };

    ghost failed = { λ s. s.failed };

    ghost stuck = { λ s. s.stuck };

    fn write(&mut self, bytes: &[u8]) -> Result<usize, IoFailed> {
        let count = self.room.min(1);
        if count == 0 && self.fails || self.bytes.extend_from_slice(&bytes[..count]).is_err() {
            self.failed = true;
            return Err(IoFailed);
        }
        self.room -= count;
        if count == 0 {
            self.stuck = true;
        }
        Ok(count)
    }
}
