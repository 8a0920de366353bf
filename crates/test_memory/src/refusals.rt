// SPDX-License-Identifier: MIT
//! How often memory ran out.

/// How often memory ran out, and how often something had changed when it did.
#[derive(Drop)]
pub(crate) struct Refusals {
    pub(crate) times: u64,
    pub(crate) changes: u64,
}

impl Refusals {
    /// Returns no refusals yet.
    pub(crate) fn new() -> Refusals {
        Refusals {
            times: 0,
            changes: 0,
        }
    }

    /// Counts that memory ran out, and whether all is as before.
    pub(crate) fn note(&mut self, is_same: bool) {
        self.times = self.times.saturating_add(1);
        if !is_same {
            self.changes = self.changes.saturating_add(1);
        }
    }
}
