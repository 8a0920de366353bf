// SPDX-License-Identifier: MIT
//! The language of scripts on protected objects that Ada texts declare.
//!
//! Lines are those of `po_language`, except that an operation has as many values as it has parameters, that values and exceptions
//! have the names of the text, and that a `unit` line has the discriminants and can name a file. `operation_of` returns what a line
//! asks of an object, and `Interpreter` carries out lines: the first makes the object, by a `Texts`, and the others are its own.
//!
//! Begin with `operation_line.rt` and `unit_line.rt`.
#![tactic(auto)]

pub mod arguments;
pub mod fault;
pub mod interpreter;
pub mod operation;
pub mod operation_line;
pub mod text_unit;
pub mod texts;
pub mod unit_line;
pub mod values;

pub use crate::arguments::push_cells;
pub use crate::fault::{
    LineFault, Stop, bad_argument, bad_unit, fault_of, no_object, push_fault, push_word,
};
pub use crate::interpreter::Interpreter;
pub use crate::operation::Operation;
pub use crate::operation_line::operation_of;
pub use crate::text_unit::{Cells, TextUnit};
pub use crate::texts::{FileChoice, ScriptedObject, Settings, Texts};
pub use crate::unit_line::{choice_of, settings_of};
pub use crate::values::{push_formed, push_value, value_before};
