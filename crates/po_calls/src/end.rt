// SPDX-License-Identifier: MIT
//! How calls end, and the status of a ticket's call.

/// How a call ended.
#[derive(Clone, Copy, Debug, PartialEq, Eq)]
pub enum End<V> {
    /// Its body completed and left this value (9.5.3).
    Completed(V),
    /// The exception of this number was propagated to its caller.
    Raised(u32),
    /// It was cancelled (9.5.3, 9.7.2, 9.7.3).
    Cancelled,
    /// Program_Error was raised at the call: a barrier faulted, the object was finalized, or a queue was full
    /// (9.4, 9.5.3, D.7).
    ProgramError,
}

/// The status of the call of a ticket.
#[derive(Clone, Copy, Debug, PartialEq, Eq)]
pub enum CallStatus<V> {
    /// No uncollected call has this ticket.
    Unknown,
    /// The call waits on a queue.
    Waiting,
    /// The call has ended in this way.
    Ended(End<V>),
}
