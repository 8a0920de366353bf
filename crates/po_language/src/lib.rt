// SPDX-License-Identifier: MIT
//! The language of scripts: what a line says.
//!
//! `command_of` returns the `Command` of a line, none for a line that is skipped, or a `LineError`: what was expected, and at
//! which word. `form_of` does so for a line of which it isn't known which unit was begun. A command is a `Beginning`, which
//! makes the object, or an `Operation` on it. A `UnitList` has the units that scripts know, and `RunError` says why a run of a
//! script ended early.
//!
//! Begin with `command.rt` and `parse.rt`. `specs/Commands.antt` and `specs/Words.antt` define the language.
#![tactic(auto)]

pub mod command;
pub mod error;
mod operation_line;
pub mod parse;
pub mod run_error;
pub mod span;
pub mod unit_line;
pub mod unit_list;
pub mod words;

pub use crate::command::{Beginning, Command, FaultKind, Operation, UnitChoice};
pub use crate::error::{Argument, LineError, Reason, UnitPart};
pub use crate::parse::{command_of, form_of};
pub use crate::run_error::RunError;
pub use crate::span::Span;
pub use crate::unit_list::UnitList;
