// SPDX-License-Identifier: MIT
//! The neighbours of a key.

/// The key before a key and the key after it, if there are any.
#[derive(Clone, Copy, Debug)]
pub(crate) struct Neighbours {
    pub(crate) before: Option<usize>,
    pub(crate) after: Option<usize>,
}

/// No key before, and none after.
pub(crate) const ALONE: Neighbours = Neighbours {
    before: None,
    after: None,
};
