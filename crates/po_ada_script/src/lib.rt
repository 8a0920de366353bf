// SPDX-License-Identifier: MIT
//! Runs scripts on protected objects that Ada texts declare.
//!
//! `answer_lines` reads a script, whatever answers its lines: an `Interpreter` of `po_ada_language` does. A `TextObject` is the
//! object of any `TextUnit`.
//!
//! Begin with operate.rt, which carries out one operation, and specs/Operations.antt, which says what it does.
#![tactic(auto)]

pub mod exceptions;
pub mod object;
pub mod operate;
mod preconditions;
mod replies;
pub mod run;

pub use crate::exceptions::push_exception;
pub use crate::object::{TextObject, shape_of, smaller};
pub use crate::preconditions::failed_precondition;
pub use crate::run::{Answers, RunFault, answer_lines, fault_at};
