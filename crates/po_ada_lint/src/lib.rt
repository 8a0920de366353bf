// SPDX-License-Identifier: MIT
//! Hints on a protected unit: what is allowed in its text, and yet is hardly meant.
//!
//! `hints` goes over the tree of a text once, gathers what its operations read, change, call and raise, and tells what stands out.
//!
//! Begin with `telling.rt`.
#![tactic(auto)]

mod barriers;
mod counts;
mod declarations;
mod entities;
mod expressions;
mod gathering;
mod paths;
mod reaches;
mod statements;
mod tallies;
mod telling;
mod unused;
mod uses;
mod walker;

pub use crate::telling::hints;
