// SPDX-License-Identifier: MIT
//! The program of a protected object that is an Ada text, what it means, and its execution.
//!
//! Begin with `tree.rt`.
#![tactic(auto)]

mod exceptions;
mod execution;
mod operators;
mod tree;
mod values;

pub use exceptions::{
    ASSERTION_ERROR, CONSTRAINT_ERROR, FIRST_DECLARED, MESSAGES, PROGRAM_ERROR, STORAGE_ERROR,
    TASKING_ERROR, TOO_MANY_REQUEUES, TOO_MANY_TURNS,
};
pub use execution::{MOST_CALLS, MOST_SLOTS, MOST_TURNS, Setting, execute_operation};
pub use tree::{
    Area, Base, Binary, Completion, Entry, Expr, Operation, Program, Range, Stmt, Unary,
};
