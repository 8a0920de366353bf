// SPDX-License-Identifier: MIT
//! Calls on entries.

/// Until when a call waits (9.7.2, 9.7.3).
#[derive(Clone, Copy, Debug, PartialEq, Eq)]
pub enum Deadline {
    /// Until it is selected: a simple entry call.
    Never,
    /// Until the clock reaches this time: a timed call. With time 0 it is a conditional call.
    At(u64),
}

/// A call that waits on the queue of an entry (9.5.3).
#[derive(Clone, Copy, Debug, PartialEq, Eq)]
pub struct Call<V> {
    /// The number that the call got when it was accepted. Later calls have greater numbers.
    pub number: u64,
    /// Who made the call.
    pub owner: u16,
    /// The flat number of the entry on whose queue it is.
    pub entry: u16,
    /// Its parameter, of mode `in out`.
    pub value: V,
    /// Whether it was queued by a requeue without abort, and so is protected against cancellation (9.5.4).
    pub without_abort: bool,
    /// Whether someone tried to cancel it while it was queued without abort.
    pub aborted: bool,
    /// Until when it waits.
    pub deadline: Deadline,
}
