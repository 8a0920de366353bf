// SPDX-License-Identifier: MIT
//! A call that arrives.

use po_calls::Deadline;

/// What a client says about a call that it issues, or that a body of another object requeued here.
#[derive(Clone, Copy)]
pub struct Arriving<V> {
    /// The flat number of its entry.
    pub entry: u16,
    /// Its value.
    pub value: V,
    /// Whether it comes by a requeue without abort.
    pub without_abort: bool,
    /// Whether an attempt was made to cancel it.
    pub aborted: bool,
    /// When it expires, if it does.
    pub deadline: Deadline,
}
