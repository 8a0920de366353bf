// SPDX-License-Identifier: MIT
//! What the words of the command line ask of this program.

use clap::error::ErrorKind;
use clap::{Arg, Command, Error};
use po_command_line::{CHECK, CommandError, RUN, check_command, pobj, run_command, words};
use std::alloc::{AllocError, Global};
use std::env::Env;

/// The message for words that ask for nothing that this program does.
const ELSEWHERE: &str = "pobj_text carries out `run` and `check --unit FILE`";

/// What the words of the command line ask for.
#[derive(Debug, Drop)]
pub(crate) enum Asked {
    /// Carries out the script on standard input, on the object of this file or of one that the script names.
    Run(Option<String>),
    /// Reads the text of this file.
    CheckText(String),
    /// Checks the script on standard input, on the object of this file.
    CheckScript(String),
}

/// Makes the argument that names a file with an Ada text.
fn unit<'a>(alloc: Global) -> Arg<'a> {
    Arg::new(alloc, "unit")
        .long("unit")
        .value_name("FILE")
        .help("The Ada text of a protected type or object")
}

/// Makes the argument that asks for a check of a script.
fn script<'a>(alloc: Global) -> Arg<'a> {
    Arg::new(alloc, "SCRIPT").help("A hyphen: the script on standard input is checked too")
}

/// Makes the command line.
fn command<'a>(alloc: Global) -> Result<Command<'a>, AllocError> {
    let run = run_command(alloc)
        .override_usage("pobj run --unit FILE < SCRIPT")
        .arg(unit(alloc))?;
    let check = check_command(alloc)
        .arg(unit(alloc).required(true))?
        .arg(script(alloc))?;
    pobj(alloc).subcommand(run)?.subcommand(check)
}

/// Returns the refusal of words that ask for nothing that this program does.
fn elsewhere(alloc: Global) -> Result<Error, AllocError> {
    command(alloc)?.error(ErrorKind::InvalidSubcommand, ELSEWHERE)
}

/// Returns a copy of the name, if there is one.
fn owned(alloc: Global, name: Option<&str>) -> Result<Option<String>, AllocError> {
    match name {
        Some(name) => Ok(Some(String::from_str(alloc, name)?)),
        None => Ok(None),
    }
}

/// Returns what a check of this file is, if a script is checked too or not.
fn check_of(file: String, is_script: bool) -> Asked {
    if is_script {
        Asked::CheckScript(file)
    } else {
        Asked::CheckText(file)
    }
}

/// Returns what the words ask for. Fails if they ask for help, or are refused.
pub(crate) fn parse<R: Env + AllocGlobal>(rt: &R) -> Result<Asked, CommandError> {
    let alloc = rt.alloc();
    let words = words(rt)?;
    let matches = command(alloc)?.try_get_matches_from(words.as_slice())?;
    if let Some(run) = matches.subcommand_matches(RUN) {
        return Ok(Asked::Run(owned(alloc, run.get_str("unit"))?));
    }
    let checked = matches.subcommand_matches(CHECK);
    let named = checked.and_then(|matches| matches.get_str("unit"));
    let script = checked.and_then(|matches| matches.get_str("SCRIPT"));
    match owned(alloc, named)? {
        Some(file) => Ok(check_of(file, script.is_some())),
        None => Err(CommandError::from(elsewhere(alloc)?)),
    }
}
