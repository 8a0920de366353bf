// SPDX-License-Identifier: MIT
//! What the words of the command line ask of this program.

use clap::error::ErrorKind;
use clap::{Arg, ArgAction, ArgMatches, Command, Error};
use po_command_line::{
    CHECK, CommandError, EXPLORE, STRESS, check_command, explore_command, pobj, stress_command,
    words,
};
use po_explore::Options;
use po_scene_stress::MOST_RUNS;
use std::alloc::{AllocError, Global};
use std::env::Env;

/// The message for words that ask for nothing that this program does.
const ELSEWHERE: &str =
    "pobj_explore carries out `explore SCENE`, `check --scene SCENE` and `stress --scene SCENE`";

/// The message for a limit that isn't one.
const NO_LIMIT: &str = "the value of '--most' is a number of situations, from 1 on";

/// The message for a number of runs that isn't one.
const NO_RUNS: &str = "the value of '--runs' is a number from 1 to 1000000";

/// A scene is run this often, if the words don't say how often.
const RUNS: u32 = 100;

/// A search ends when it has met more situations than these, if the words don't say how many.
const SITUATIONS: usize = 1_000_000;

/// The end of the help.
const SCENES: &str = "\
A scene has protected objects, each of an Ada text, and callers with the commands that each of them
makes, one after the other:

  object Left file \"fork.adb\"
  object Right file \"fork.adb\"
  caller Anna
    call Left.Take
    call Right.Take
  caller Bert
    call Right.Take
    call Left.Take

Each thing found is told with a script of the fewest commands that lead to it: callers that wait for
ever, exceptions, a function Invariant that is False, calls that no order completes.
'pobj explore SCENE --picture DIR' draws each of them as DIR/1.svg, DIR/2.svg and so on.

The statuses: 0 if all orders were tried and nothing was found, 1 at a fault of the scene, 2 if the
words are refused, 3 if something was found, 4 if memory runs out, or a read or a write fails, 7 if
nothing was found, but not all orders were tried.

The language is described in docs/EXPLORE.md.";

/// The end of the help on `stress --scene`.
const THREADS: &str = "\
Each caller of the scene is a thread, and all of them begin at the same time. The report says in how
many runs callers waited for ever, and which of them, and how often commands raised exceptions, ended
by Program_Error or were refused, or invariants didn't hold. Each answer that a caller got is compared
with the history of its object.

The statuses: 0 if nothing was found, 1 at a fault of the scene, 2 if the words are refused, 3 if
something was found or an answer isn't its history's, 4 if memory runs out, or a read or a write fails.

Scenes are described in docs/EXPLORE.md.";

/// What the words of the command line ask for.
#[derive(Debug, Drop)]
pub(crate) enum Asked {
    /// Every order of the callers.
    Explore(ExploreAsked),
    /// The faults of a scene.
    Check(CheckAsked),
    /// Runs of a scene in which each caller is a thread.
    Stress(StressAsked),
}

/// What the words after `stress` ask for.
#[derive(Debug, Drop)]
pub(crate) struct StressAsked {
    /// The scene's file.
    pub(crate) scene: String,
    /// The file of the object that the scene doesn't name.
    pub(crate) unit: Option<String>,
    /// How often the scene is run.
    pub(crate) runs: u32,
}

/// What the words after `check` ask for.
#[derive(Debug, Drop)]
pub(crate) struct CheckAsked {
    /// The scene's file.
    pub(crate) scene: String,
    /// The file of the object that the scene doesn't name.
    pub(crate) unit: Option<String>,
}

/// What the words after `explore` ask for.
#[derive(Debug, Drop)]
pub(crate) struct ExploreAsked {
    /// The scene's file.
    pub(crate) scene: String,
    /// The file of the object that the scene doesn't name.
    pub(crate) unit: Option<String>,
    pub(crate) options: Options,
    pub(crate) watched: Watched,
}

/// What is watched while the search goes on.
#[derive(Debug, Drop)]
pub(crate) struct Watched {
    /// Whether it is told how far the search is.
    pub(crate) progress: bool,
    /// The search ends once this file is there.
    pub(crate) until: Option<String>,
}

/// Makes the argument that names a file with an Ada text.
fn unit<'a>(alloc: Global) -> Arg<'a> {
    Arg::new(alloc, "unit").long("unit").value_name("FILE").help(
        "The Ada text of the only object, if the scene has no line for it",
    )
}

/// Makes the argument that limits the search.
fn most<'a>(alloc: Global) -> Arg<'a> {
    Arg::new(alloc, "most")
        .long("most")
        .value_name("SITUATIONS")
        .help("Ends after this many situations; 1000000 if it is left out")
}

/// Makes the argument that says how often a scene is run.
fn runs<'a>(alloc: Global) -> Arg<'a> {
    Arg::new(alloc, "runs").long("runs").value_name("N").help(
        "Runs the scene this often, from 1 to 1000000; 100 if it is left out",
    )
}

/// Makes the argument that asks for callers with the same commands to be told apart.
fn apart<'a>(alloc: Global) -> Arg<'a> {
    Arg::new(alloc, "apart")
        .long("apart")
        .action(ArgAction::SetTrue)
        .help("Tells callers with the same commands apart: the same is found, more slowly")
}

/// Makes the argument that asks for answers that depend on the order.
fn answers<'a>(alloc: Global) -> Arg<'a> {
    Arg::new(alloc, "answers")
        .long("answers")
        .action(ArgAction::SetTrue)
        .help("Tells answers that depend on the order, too")
}

/// Makes the argument that asks how far the search is.
fn progress<'a>(alloc: Global) -> Arg<'a> {
    Arg::new(alloc, "progress")
        .long("progress")
        .action(ArgAction::SetTrue)
        .help("Says on standard error each second how far the search is")
}

/// Makes the argument that names a file: once it is there, the search ends.
fn until<'a>(alloc: Global) -> Arg<'a> {
    Arg::new(alloc, "until")
        .long("until")
        .value_name("FILE")
        .help("Ends once this file is there, and tells what was found so far")
}

/// Makes the argument that names the scene.
fn scene<'a>(alloc: Global) -> Arg<'a> {
    Arg::new(alloc, "SCENE")
        .required(true)
        .help("The file of the scene")
}

/// Makes the argument that names the scene after `--scene`.
fn named_scene<'a>(alloc: Global) -> Arg<'a> {
    Arg::new(alloc, "scene")
        .long("scene")
        .value_name("SCENE")
        .required(true)
        .help("The file of the scene")
}

/// Makes the command line.
fn command<'a>(alloc: Global) -> Result<Command<'a>, AllocError> {
    let explore = explore_command(alloc)
        .after_help(SCENES)
        .arg(scene(alloc))?
        .arg(unit(alloc))?
        .arg(most(alloc))?
        .arg(answers(alloc))?
        .arg(apart(alloc))?
        .arg(progress(alloc))?
        .arg(until(alloc))?;
    let check = check_command(alloc)
        .about("Reads a scene and carries out nothing: explains each line with a fault")
        .arg(named_scene(alloc))?
        .arg(unit(alloc))?;
    let stress = stress_command(alloc, STRESS)
        .about("Has a thread for each caller of a scene, and compares each answer with its history")
        .after_help(THREADS)
        .arg(named_scene(alloc))?
        .arg(unit(alloc))?
        .arg(runs(alloc))?;
    pobj(alloc)
        .subcommand(explore)?
        .subcommand(check)?
        .subcommand(stress)
}

/// Returns the refusal of words for this reason.
fn refusal(alloc: Global, kind: ErrorKind, reason: &str) -> Result<Error, AllocError> {
    command(alloc)?.error(kind, reason)
}

/// Returns how many situations the word asks for, if it is a number from 1 on.
fn situations(word: Option<&str>) -> Option<usize> {
    match word {
        None => Some(SITUATIONS),
        Some(word) => match word.parse::<usize>() {
            Ok(0) | Err(_) => None,
            Ok(most) => Some(most),
        },
    }
}

/// Returns how many runs the word asks for, if it is a number from 1 to 1,000,000.
fn run_count(word: Option<&str>) -> Option<u32> {
    match word {
        None => Some(RUNS),
        Some(word) => match word.parse::<u32>() {
            Ok(runs) if runs >= 1 && runs <= MOST_RUNS => Some(runs),
            _ => None,
        },
    }
}

/// Returns a copy of the name, if there is one.
fn owned(alloc: Global, name: Option<&str>) -> Result<Option<String>, AllocError> {
    match name {
        Some(name) => Ok(Some(String::from_str(alloc, name)?)),
        None => Ok(None),
    }
}

/// Returns what the words after `explore` ask for, or what is wrong with them.
fn explore_asked(alloc: Global, matches: &ArgMatches) -> Result<Asked, CommandError> {
    let scene = owned(alloc, matches.get_str("SCENE"))?;
    let most = situations(matches.get_str("most"));
    match (scene, most) {
        (Some(scene), Some(situations)) => Ok(Asked::Explore(ExploreAsked {
            scene,
            unit: owned(alloc, matches.get_str("unit"))?,
            options: Options {
                situations,
                answers: matches.get_flag("answers"),
                apart: matches.get_flag("apart"),
            },
            watched: Watched {
                progress: matches.get_flag("progress"),
                until: owned(alloc, matches.get_str("until"))?,
            },
        })),
        _ => Err(refused(alloc, ErrorKind::InvalidValue, NO_LIMIT)?),
    }
}

/// Returns what the words after `check` ask for.
fn check_asked(alloc: Global, matches: &ArgMatches) -> Result<Asked, CommandError> {
    match owned(alloc, matches.get_str("scene"))? {
        Some(scene) => Ok(Asked::Check(CheckAsked {
            scene,
            unit: owned(alloc, matches.get_str("unit"))?,
        })),
        None => Err(refused(alloc, ErrorKind::InvalidSubcommand, ELSEWHERE)?),
    }
}

/// Returns what the words after `stress` ask for, or what is wrong with them.
fn stress_asked(alloc: Global, matches: &ArgMatches) -> Result<Asked, CommandError> {
    let scene = owned(alloc, matches.get_str("scene"))?;
    match (scene, run_count(matches.get_str("runs"))) {
        (Some(scene), Some(runs)) => Ok(Asked::Stress(StressAsked {
            scene,
            unit: owned(alloc, matches.get_str("unit"))?,
            runs,
        })),
        _ => Err(refused(alloc, ErrorKind::InvalidValue, NO_RUNS)?),
    }
}

/// Returns why words are refused for this reason.
fn refused(alloc: Global, kind: ErrorKind, reason: &str) -> Result<CommandError, AllocError> {
    Ok(CommandError::from(refusal(alloc, kind, reason)?))
}

/// Returns what the words ask for. Fails if they ask for help, or are refused.
pub(crate) fn parse<R: Env + AllocGlobal>(rt: &R) -> Result<Asked, CommandError> {
    let alloc = rt.alloc();
    let words = words(rt)?;
    let matches = command(alloc)?.try_get_matches_from(words.as_slice())?;
    if let Some(matches) = matches.subcommand_matches(EXPLORE) {
        return explore_asked(alloc, matches);
    }
    if let Some(matches) = matches.subcommand_matches(STRESS) {
        return stress_asked(alloc, matches);
    }
    match matches.subcommand_matches(CHECK) {
        Some(matches) => check_asked(alloc, matches),
        None => Err(refused(alloc, ErrorKind::InvalidSubcommand, ELSEWHERE)?),
    }
}
