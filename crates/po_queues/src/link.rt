// SPDX-License-Identifier: MIT
//! A key's place in its queue.

/// A key's place in its entry's queue: the keys before and after it, and the stamp of its arrival.
#[derive(Clone, Copy, Debug)]
pub(crate) struct Link {
    pub(crate) entry: u16,
    pub(crate) stamp: u128,
    /// The key before it in the queue.
    pub(crate) before: Option<usize>,
    /// The key after it in the queue.
    pub(crate) after: Option<usize>,
}
