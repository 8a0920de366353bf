// SPDX-License-Identifier: MIT
//! The words of the command line of `pobj`'s programs, and how each of them ends.
//!
//! `pobj` makes the command that all programs begin with, and `run_command`, `check_command`, `stress_command` and
//! `explore_command` make those that can follow it: each program adds the ones that it knows. `words` returns the words of the command line. A `CommandError` says
//! why a program doesn't do what it was asked for. It prints itself and returns the exit status.
//!
//! Begin with `commands.rt`; `specs/Statuses.antt` has the statuses of faults.
#![tactic(auto)]

mod commands;
mod error;
mod status;

pub use commands::{
    CHECK, EXPLORE, NAME, RUN, STRESS, check_command, explore_command, pobj, run_command,
    stress_command, words,
};
pub use error::CommandError;
pub use status::{CUT_OFF, FINDINGS, FOUND, GOOD, NO_MEANS};
