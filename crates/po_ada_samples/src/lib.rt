// SPDX-License-Identifier: MIT
//! What the programs that test Ada texts read: texts from standard input, numbers from the command line, and lots.
//!
//! `samples` cuts the input into texts, `argument` is a number of the command line, and a `Lot` draws numbers.
#![tactic(auto)]

mod arguments;
mod input;
mod lot;

pub use crate::arguments::argument;
pub use crate::input::{Sample, samples};
pub use crate::lot::Lot;
