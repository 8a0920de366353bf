// SPDX-License-Identifier: MIT
//! The receipts that callers file for their calls and procedures, and whether the history of their object says the same.
//!
//! A `Receipt` is what a caller keeps of one accepted call or procedure: what was asked, and what was answered. After the
//! object is closed, each seat's receipts are in a `ClosedPass`. `compare` goes over the history and finds the first gap in it,
//! or the lowest seat whose receipts differ from it. The functions of laws.rt prove what agreement means: each answer is the
//! caller's own, and these are the answers of the serial object.
//!
//! A pass keeps its receipts in a `Receipts`: a `Vec` in memory, or a `Trace` that only proofs know.
//!
//! Begin with receipt.rt and specs/Agreement.antt, then read comparison.rt.
#![tactic(auto)]

mod asked;
mod closed_pass;
mod comparison;
mod due;
mod error;
mod laws;
mod mark;
mod receipt;
mod receipts;
mod round;

pub use asked::Asked;
pub use closed_pass::ClosedPass;
pub use comparison::{Agreed, compare};
pub use error::ReconcileError;
pub use laws::{closing_counts, every_answer, none_pending, own_answers};
pub use receipt::Receipt;
pub use receipts::Receipts;
