// SPDX-License-Identifier: MIT
//! The result of a check.

/// The result of a check.
#[derive(Clone, Copy, Debug, PartialEq, Eq)]
pub enum Verdict {
    /// Nothing was found.
    Clean,
    /// A fault, or a line that is sure to be refused, was found.
    Faulty,
}
