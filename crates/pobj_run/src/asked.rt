// SPDX-License-Identifier: MIT
//! What the words of the command line ask of this program.

use clap::error::ErrorKind;
use clap::{Command, Error};
use po_command_line::{
    CHECK, CommandError, RUN, STRESS, check_command, pobj, run_command, stress_command, words,
};
use std::alloc::{AllocError, Global};
use std::env::Env;

/// The message for a command that another program carries out.
const ELSEWHERE: &str = "`check` and `stress` are carried out by pobj_check and pobj_stress";

/// Makes the command line. This program carries out its command `run`.
fn command<'a>(alloc: Global) -> Result<Command<'a>, AllocError> {
    pobj(alloc)
        .subcommand(run_command(alloc))?
        .subcommand(check_command(alloc))?
        .subcommand(stress_command(alloc, STRESS))
}

/// Returns the refusal of a command that another program carries out.
fn elsewhere(alloc: Global) -> Result<Error, AllocError> {
    command(alloc)?.error(ErrorKind::InvalidSubcommand, ELSEWHERE)
}

/// Returns whether the words ask for a run. Fails if they ask for help, or are refused.
fn asks_for_run<R: Env + AllocGlobal>(rt: &R) -> Result<bool, CommandError> {
    let words = words(rt)?;
    let matches = command(rt.alloc())?.try_get_matches_from(words.as_slice())?;
    Ok(matches.subcommand_matches(RUN).is_some())
}

/// Checks that the words ask for a run. Fails if they ask for help, or are refused.
pub(crate) fn parse<R: Env + AllocGlobal>(rt: &R) -> Result<(), CommandError> {
    if asks_for_run(rt)? {
        Ok(())
    } else {
        Err(CommandError::from(elsewhere(rt.alloc())?))
    }
}
