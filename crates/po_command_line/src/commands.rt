// SPDX-License-Identifier: MIT
//! The command `pobj`, the commands that can follow it, and the words of the command line.

use crate::error::CommandError;
use clap::error::ErrorKind;
use clap::{Command, Error};
use std::alloc::{AllocError, Global};
use std::env::{Env, args};
use std::io;

/// The program's name in its texts, however it was started.
pub const NAME: &str = "pobj";

/// The version of the program.
const VERSION: &str = "0.1.0";

/// The word that asks for a run of a script.
pub const RUN: &str = "run";

/// The word that asks for a check of a script.
pub const CHECK: &str = "check";

/// The word that asks for a run of many threads.
pub const STRESS: &str = "stress";

/// The word that asks for all orders of a scene.
pub const EXPLORE: &str = "explore";

/// The message for words that aren't text.
const NOT_TEXT: &str = "the words of the command line aren't UTF-8";

/// The end of the help: the script language in short.
const SCRIPTS: &str = "\
A script has one command on each line. This one makes a buffer with room for two values,
calls its entry Get, which has to wait, and then its entry Put, which lets the first call go:

  unit buffer 2
  call Get 0
  call Put 7

The answer to a call is its number. Then comes a line for each call that ended:

  #1
  #2
  2 done 7
  1 done 7

The commands of a script:
  unit NAME [N] [ORDER] [max M]  Makes the object; the first command
  call ENTRY VALUE               Calls an entry, for as long as it takes
  cond ENTRY VALUE               Calls an entry, if it needn't wait
  timed TIME ENTRY VALUE         Calls an entry, until the clock shows TIME
  proc NAME VALUE                Calls a protected procedure
  func NAME VALUE                Calls a protected function
  cancel NUMBER                  Cancels the waiting call of that number
  tick TIME                      Sets the clock forward to TIME
  final                          Finalizes the object
  show                           Shows the queues' lengths, the clock and the next number

The units: buffer N, signal, broadcast, pulse, meeting N, allocator N, relay, trap.
The orders: textual, oldest, rotating. A line that begins with # is a comment.

A refused command is answered by a number: 1 no such entry, 2 private entry, 3 bad index,
4 no such procedure or function, 5 unknown call, 6 the call has ended, 7 the object is
finalized, 8 numbers spent.

The statuses: 0 at a good end, 1 at a fault of the script, 2 if the words are refused, 3 if
`stress` finds answers that differ from the history, 4 if memory runs out, or a read or a
write fails.

The language is described in docs/SCRIPTS.md, the units in docs/UNITS.md.";

/// Returns the command `pobj`. Each program adds the commands that it knows, which can follow it.
pub fn pobj<'a>(alloc: Global) -> Command<'a> {
    Command::new(alloc, NAME)
        .version(VERSION)
        .about("A proved runtime for Ada 2022 protected objects")
        .after_help(SCRIPTS)
        .subcommand_required(true)
}

/// Returns the command `run`.
pub fn run_command<'a>(alloc: Global) -> Command<'a> {
    Command::new(alloc, RUN)
        .about(
            "Carries out a script from standard input, and writes the answers to standard output",
        )
        .override_usage("pobj run < FILE")
        .after_help(SCRIPTS)
}

/// Returns the command `check`, without what may follow it.
pub fn check_command<'a>(alloc: Global) -> Command<'a> {
    Command::new(alloc, CHECK).about(
        "Reads a script and carries out nothing: explains each line with a fault",
    )
}

/// Returns the command `stress` under this name, without what may follow it.
pub fn stress_command<'a>(alloc: Global, name: &'a str) -> Command<'a> {
    Command::new(alloc, name).about(
        "Has many threads call one object, and compares their answers with its history",
    )
}

/// Returns the command `explore`, without what may follow it.
pub fn explore_command<'a>(alloc: Global) -> Command<'a> {
    Command::new(alloc, EXPLORE).about(
        "Tries every order of the callers of a scene, and finds what can go wrong",
    )
}

/// Returns the words of the command line, with the program's own name instead of the one it was started under.
fn given_words<R: Env + AllocGlobal>(rt: &R) -> io::Result<Vec<String>> {
    let alloc = rt.alloc();
    let mut words = vec![in alloc; String::from_str(alloc, NAME)?]?;
    for word in args(rt)?.skip(1) {
        words.push(word)?;
    }
    Ok(words)
}

/// Returns the refusal of words that aren't text.
fn not_text(alloc: Global) -> Result<Error, AllocError> {
    pobj(alloc)
        .subcommand(run_command(alloc))?
        .error(ErrorKind::InvalidValue, NOT_TEXT)
}

/// Returns the words of the command line, with the program's own name instead of the one it was started under. Fails if they
/// aren't text, or if memory runs out.
pub fn words<R: Env + AllocGlobal>(rt: &R) -> Result<Vec<String>, CommandError> {
    match given_words(rt) {
        Ok(words) => Ok(words),
        Err(error) if error.kind() == io::ErrorKind::OutOfMemory => Err(CommandError::from(
            AllocError,
        )),
        Err(_) => Err(CommandError::from(not_text(rt.alloc())?)),
    }
}
