// SPDX-License-Identifier: MIT
//! Why receipts and history don't agree.

use thiserror::Error;

/// Why receipts and history don't agree. Places and seats are counted from 0.
#[derive(Clone, Copy, Debug, PartialEq, Eq, Error)]
pub enum ReconcileError {
    /// A gap: the first place at which the next volume should begin but doesn't. After the last volume, the base should begin.
    #[error("the history has a gap: no volume that begins at place {place} comes next")]
    Gap {
        /// The place in the whole history.
        place: u64,
    },
    /// The lowest seat whose receipts aren't those that the history gives, and the first place at which they differ.
    #[error("the receipts of seat {seat} differ from the history, first at place {place}")]
    Mismatch {
        /// The seat.
        seat: u16,
        /// The place among the receipts of the seat. If only the last receipts are missing, it is how many there are.
        place: usize,
    },
}
