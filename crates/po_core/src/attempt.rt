// SPDX-License-Identifier: MIT
//! What comes of an attempt to cancel a call.

/// What came of an attempt to cancel a waiting call (9.5.3).
#[derive(Clone, Copy, Debug, PartialEq, Eq)]
pub enum Attempt {
    /// The call was cancelled.
    Cancelled,
    /// The call is queued without abort: it goes on waiting, marked as aborted (9.5.4).
    Kept,
}
