// SPDX-License-Identifier: MIT
//! How a call expires.

/// When the call of a key expires (9.7.2), and the stamp of its arrival (9.5.3).
#[derive(Clone, Copy, Debug)]
pub(crate) struct Expiration {
    pub(crate) time: u64,
    pub(crate) stamp: u128,
}
