// SPDX-License-Identifier: MIT
//! What an object waits for.

/// What an object waits for.
#[derive(Clone, Copy, Debug, PartialEq, Eq)]
pub enum Phase {
    /// A command: the object is at rest.
    Resting,
    /// The client's answer about the barrier of this entry.
    Asked(u16),
    /// The end of the body that its client runs.
    Running,
    /// The client's request for what is next.
    Settling,
    /// Like `Settling`, while all queued calls end by Program_Error (9.4, 9.5.3).
    Breaking,
}
