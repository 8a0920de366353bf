// SPDX-License-Identifier: MIT
//! What the words of the command line ask of this program.

use clap::{Arg, Command};
use po_command_line::{CHECK, CommandError, check_command, pobj, words};
use std::alloc::{AllocError, Global};
use std::env::Env;

/// What follows the help on `check`.
const FINDINGS: &str = "\
Each fault is explained in a line, and so is each command that is refused whatever was carried
out before it. The status is 1 if there is one, and 0 if there is none.";

/// Makes the command line. This program carries out its command `check`.
fn command<'a>(alloc: Global) -> Result<Command<'a>, AllocError> {
    let file = Arg::new(alloc, "FILE").help("The script; standard input if none is named");
    let check = check_command(alloc).after_help(FINDINGS).arg(file)?;
    pobj(alloc).subcommand(check)
}

/// Returns the file of the script to check, or none if it is standard input. Fails if the words ask for help, or are refused.
pub(crate) fn parse<R: Env + AllocGlobal>(rt: &R) -> Result<Option<String>, CommandError> {
    let alloc = rt.alloc();
    let words = words(rt)?;
    let matches = command(alloc)?.try_get_matches_from(words.as_slice())?;
    let named = matches
        .subcommand_matches(CHECK)
        .and_then(|matches| matches.get_str("FILE"));
    match named {
        Some(name) => Ok(Some(String::from_str(alloc, name)?)),
        None => Ok(None),
    }
}
