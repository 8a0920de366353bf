// SPDX-License-Identifier: MIT
//! How the body of an entry ends.

/// How an entry body ends (9.5.2, 9.5.4).
#[derive(Clone, Copy, Debug, PartialEq, Eq)]
pub enum Outcome<V> {
    /// It completes with this value for the call.
    Complete(V),
    /// It propagates the exception of this number.
    Raise(u32),
    /// It requeues its call (9.5.4).
    Requeue {
        /// The entry on whose queue the call is put.
        target: u16,
        /// Whether the requeue is `with abort`, so that the call can be cancelled while it is queued.
        with_abort: bool,
        /// The value that the call has from then on.
        value: V,
    },
}
