// SPDX-License-Identifier: MIT
//! What applies to a call that is to be queued.

ghost use Rattle.std.specs.Prelude.{◌≡◌};
ghost use Rattle.po_engine.specs.Step.{is_full};

/// The greatest length of a queue, and the place at which a call that is queued now arrives.
#[derive(Clone, Copy)]
pub struct Queueing {
    /// How many calls may be queued on an entry, if there is a limit (D.7).
    pub max_length: Option<u64>,
    /// The place in the history of the event that queues the call.
    pub place: u128,
}

impl Queueing {
    /// Returns whether a queue with this many calls is full (D.7).
    pub(crate) fn is_full(self, count: u64) -> bool
        ensures { result ≡ is_full self.max_length count }
    {
        match self.max_length {
            None => false,
            Some(most) => count >= most,
        }
    }
}
