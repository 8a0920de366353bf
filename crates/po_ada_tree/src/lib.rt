// SPDX-License-Identifier: MIT
//! The syntax tree of an Ada text, the table of its names, and what is wrong with it.
//!
//! `po_ada_text` makes the tree, `po_ada_program` resolves names and types. Nothing here knows what a name stands for.
//!
//! Begin with `tree.rt`.
#![tactic(auto)]

pub mod fault;
pub mod names;
pub mod reserved;
mod show;
pub mod tree;

pub use crate::fault::{Fault, Faults, Stop};
pub use crate::names::Names;
pub use crate::show::{Position, position_of, report};
pub use crate::tree::Text;
