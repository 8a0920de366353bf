// SPDX-License-Identifier: MIT
//! What an object asks before each step, which here is the explorer.

use crate::explorer::Explorer;
use crate::next::Next;
use po_object::steps::{Hook, SharedStep};
use std::sync::{Arc, Wait};

/// Holds each thread of an object until the explorer lets it go on.
#[derive(Drop)]
pub(crate) struct Gate<W: Wait + Drop> {
    pub(crate) rt: W,
    pub(crate) explorer: Arc<Explorer>,
}

impl<W: Wait + Drop> Hook for Gate<W> {
    const TRIES: u32 = 1;

    const LOOKS: u32 = 1;

    fn reach(&self, step: SharedStep) {
        self.explorer.reach(&self.rt, Next::Take(step));
    }

    fn sleeps(&self, seat: u16) -> bool {
        self.explorer
            .reach(&self.rt, Next::Take(SharedStep::Sleep(seat)));
        self.explorer.schedule(&self.rt).was_woken()
    }
}
