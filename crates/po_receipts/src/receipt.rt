// SPDX-License-Identifier: MIT
//! What callers file.

use po_calls::{Deadline, End};

/// What a caller files for an accepted call or procedure: what was asked, and what was answered.
#[derive(Clone, Copy, Debug, PartialEq, Eq)]
pub enum Receipt<V> {
    /// A call on an entry (9.5.3).
    Called {
        /// The number that the call got.
        number: u64,
        /// The flat number of the entry that was called.
        entry: u16,
        /// The value that was passed.
        value: V,
        /// How long the caller was ready to wait (9.7.2, 9.7.3).
        deadline: Deadline,
        /// How the call ended.
        answer: End<V>,
    },
    /// A procedure (9.5.1).
    Ran {
        /// The number of the procedure.
        op: u16,
        /// The value that was passed.
        value: V,
        /// The reply: a value, or the number of the exception that was raised.
        reply: Result<V, u32>,
    },
}
