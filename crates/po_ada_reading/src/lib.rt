// SPDX-License-Identifier: MIT
//! Reads an Ada text, and makes the programs of its protected units.
//!
//! `read` reads a text; `AdaText::object` makes the program and the names for scripts, for values of the discriminants.
//! Reading is tested, not proved, beyond that it ends and never panics.
#![tactic(auto)]

mod text;

pub use crate::text::{AdaText, read, unit_names};
