// SPDX-License-Identifier: MIT
//! Sums over the values put into a buffer and the values taken out of it, kept by its callers. They check the run apart from
//! the proofs: neither rests on the other.

/// The sum of the values put in, minus that of the values taken out, and the exclusive or of all of them. Both are 0 if the
/// values taken out are those put in.
#[derive(Clone, Copy, Debug, PartialEq, Eq)]
pub(crate) struct Balance {
    pub(crate) sum: u64,
    pub(crate) exclusive_or: u64,
}

impl Balance {
    /// Returns the balance of no values.
    pub(crate) fn new() -> Balance {
        Balance {
            sum: 0,
            exclusive_or: 0,
        }
    }

    /// Counts a value that was put.
    pub(crate) fn put(&mut self, value: u64) {
        self.sum = self.sum.wrapping_add(value);
        self.exclusive_or ^= value;
    }

    /// Counts a value that was taken out.
    pub(crate) fn get(&mut self, value: u64) {
        self.sum = self.sum.wrapping_sub(value);
        self.exclusive_or ^= value;
    }
}
