// SPDX-License-Identifier: MIT
//! What the words of the command line ask of this program.

ghost use Rattle.std.specs.Prelude.{◌≤◌, IfSome};
ghost use Rattle.po_stress.specs.declared.runs.TheConstants.{MOST_THREADS, MOST_CALLS};

use crate::load::Load;
use clap::error::ErrorKind;
use clap::{Arg, ArgAction, ArgMatches, Command, Error};
use po_command_line::{CommandError, STRESS, pobj, stress_command, words};
use po_stress::{MOST_CALLS, MOST_THREADS, StressUnit};
use std::alloc::{AllocError, Global};
use std::env::Env;

/// The message for an unknown unit.
const NO_UNIT: &str = "--unit takes buffer, allocator, meeting or race";

/// The message for a number of threads outside the limits.
const BAD_THREADS: &str = "--threads takes a number from 1 to 64";

/// The message for a number of calls outside the limits.
const BAD_CALLS: &str = "--calls takes a number from 1 to 100000";

/// What follows the help on `stress`.
const LOADS: &str = "\
What each thread does, N times:
  buffer     Calls Put or Get of a buffer for four values; half of the threads call Put
  allocator  Requests one to three of three pieces, and releases them
  meeting    Calls Wait of a meeting of all threads
  race       Like buffer, for two values, but each call has a deadline, and one more thread
             raises the clock and attempts to cancel calls

Then the object is closed, and one line says how many calls were issued and how they ended:

  issued 8000 completed 8000 cancelled 0 program_error 0 agreed

It ends with `agreed` if every answer that a thread got is the history's own. Otherwise the line
is `mismatch seat S place P` or `gap place P`, and the status is 3.

With --bounded the object's memory is fixed when it is opened, so no history is kept, and no
answer can be compared. The line ends with `agreed` if the object issued as many calls as the
threads saw end. Otherwise it ends with `differ`, and the status is 3.

On a terminal a long run shows how many calls have ended.

'pobj stress --scene SCENE' has a thread for each caller of a scene; with --help it says more.";

/// Returns the unit that a word names.
fn unit_of(word: &str) -> Option<StressUnit> {
    match word {
        "buffer" => Some(StressUnit::Buffer),
        "allocator" => Some(StressUnit::Allocator),
        "meeting" => Some(StressUnit::Meeting),
        "race" => Some(StressUnit::Race),
        _ => None,
    }
}

/// Returns the number of threads, if it is within the limits.
fn threads_of(matches: &ArgMatches) -> Option<u16>
    ensures { IfSome result (λ threads. (1 ≤ threads) × (threads ≤ MOST_THREADS)) }
{
    let threads = matches.get_one("threads")?;
    if threads >= 1 && threads <= MOST_THREADS {
        Some(threads)
    } else {
        None
    }
}

/// Returns the number of calls, if it is within the limits.
fn calls_of(matches: &ArgMatches) -> Option<u32>
    ensures { IfSome result (λ calls. (1 ≤ calls) × (calls ≤ MOST_CALLS)) }
{
    let calls = matches.get_one("calls")?;
    if calls >= 1 && calls <= MOST_CALLS {
        Some(calls)
    } else {
        None
    }
}

/// Returns the run that the words after `stress` ask for, or what is wrong with them.
fn load_of(matches: &ArgMatches) -> Result<Load, &'static str> {
    let Some(unit) = matches.get_str("unit").and_then(unit_of) else {
        return Err(NO_UNIT);
    };
    let Some(threads) = threads_of(matches) else {
        return Err(BAD_THREADS);
    };
    let Some(calls) = calls_of(matches) else {
        return Err(BAD_CALLS);
    };
    Ok(Load {
        unit,
        threads,
        calls,
        is_bounded: matches.get_flag("bounded"),
    })
}

/// Adds the arguments of `stress` to the command.
fn with_arguments<'a>(alloc: Global, command: Command<'a>) -> Result<Command<'a>, AllocError> {
    let unit = Arg::new(alloc, "unit")
        .long("unit")
        .value_name("NAME")
        .required(true)
        .help("What is loaded: buffer, allocator, meeting or race");
    let threads = Arg::new(alloc, "threads")
        .long("threads")
        .value_name("T")
        .required(true)
        .help("How many threads call: 1 to 64, for buffer and race an even number");
    let calls = Arg::new(alloc, "calls")
        .long("calls")
        .value_name("N")
        .required(true)
        .help("How often each of them calls: 1 to 100000");
    let bounded = Arg::new(alloc, "bounded")
        .long("bounded")
        .action(ArgAction::SetTrue)
        .help("Fixes the object's memory when it is opened, and compares numbers alone");
    command.arg(unit)?.arg(threads)?.arg(calls)?.arg(bounded)
}

/// Returns the command `stress` under this name, with all that may follow it.
fn whole_stress_command<'a>(alloc: Global, name: &'a str) -> Result<Command<'a>, AllocError> {
    with_arguments(alloc, stress_command(alloc, name).after_help(LOADS))
}

/// Returns the refusal of the words after `stress`, for this reason.
pub(crate) fn refuse_load(alloc: Global, reason: &str) -> Result<Error, AllocError> {
    whole_stress_command(alloc, "pobj stress")?.error(ErrorKind::ValueValidation, reason)
}

/// Makes the command line. This program carries out its command `stress`.
fn command<'a>(alloc: Global) -> Result<Command<'a>, AllocError> {
    pobj(alloc).subcommand(whole_stress_command(alloc, STRESS)?)
}

/// Returns the run that the words ask for, or what is wrong with it. Fails if they ask for help, or are refused.
fn load_asked<R: Env + AllocGlobal>(rt: &R) -> Result<Result<Load, &'static str>, CommandError> {
    let words = words(rt)?;
    let matches = command(rt.alloc())?.try_get_matches_from(words.as_slice())?;
    Ok(match matches.subcommand_matches(STRESS) {
        Some(matches) => load_of(matches),
        None => Err(NO_UNIT),
    })
}

/// Returns the run that the words ask for. Fails if they ask for help, or are refused.
pub(crate) fn parse<R: Env + AllocGlobal>(rt: &R) -> Result<Load, CommandError> {
    match load_asked(rt)? {
        Ok(load) => Ok(load),
        Err(reason) => Err(CommandError::from(refuse_load(rt.alloc(), reason)?)),
    }
}
