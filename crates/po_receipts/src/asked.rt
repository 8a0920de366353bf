// SPDX-License-Identifier: MIT
//! What a caller has asked for.

use po_calls::{Deadline, Ticket};

/// A call that was accepted and has no receipt yet.
#[derive(Clone, Copy, Debug, PartialEq, Eq)]
pub struct Asked<V> {
    /// The ticket that finds the call.
    pub ticket: Ticket,
    /// The flat number of the entry that was called.
    pub entry: u16,
    /// The value that was passed.
    pub value: V,
    /// How long the caller is ready to wait (9.7.2, 9.7.3).
    pub deadline: Deadline,
}
