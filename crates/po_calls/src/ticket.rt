// SPDX-License-Identifier: MIT
//! Tickets.

/// What a caller holds for an accepted call until its end is collected.
#[derive(Clone, Copy, Debug, PartialEq, Eq)]
pub struct Ticket {
    /// The key under which the call is kept. No two uncollected calls have the same key.
    pub key: usize,
    /// The call's number.
    pub number: u64,
}
