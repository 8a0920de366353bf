// SPDX-License-Identifier: MIT
//! What the programs on Ada texts share: how a file is read, and how an answer or a fault is told.
//!
//! `open` reads a file, `print_text` prints an answer, and `print_fault` prints why a run, a check or a search ended early, and
//! returns the exit status.
#![tactic(auto)]

mod answer;
mod faults;
mod files;

pub use crate::answer::print_text;
pub use crate::faults::print_fault;
pub use crate::files::open;
