// SPDX-License-Identifier: MIT
//! The program for `pobj run`: it carries out a script from standard input on a protected object.
#![tactic(auto)]

mod asked;
mod run;
mod terminals;

use po_command_line::{CommandError, GOOD, NAME};
use po_language::RunError;
use std::env::Env;
use std::io::{Eprint, Input, IsTerminal, Print};
use std::process::ExitCode;
use terminals::Terminals;

/// What explains the fault of a script.
const EXPLAINED: &str = "`pobj check FILE` explains what is wrong with a script";

/// Carries out the script, if the words of the command line ask for that.
fn start<R: Env + Input + Print + Eprint + AllocGlobal>(
    rt: &R,
    terminals: Terminals,
) -> Result<(), CommandError> {
    asked::parse(rt)?;
    run::run(rt, terminals)?;
    Ok(())
}

/// Prints the fault, or the help that was asked for, and returns the status. On a terminal it also says what explains the fault
/// of a script.
fn tell<R: Print + Eprint>(rt: &R, fault: &CommandError, terminals: Terminals) -> u8 {
    let status = fault.print(rt);
    if terminals.errors && matches!(fault, CommandError::Run(RunError::Script { .. })) {
        let _ = eprintln!(rt; "{NAME}: {EXPLAINED}");
    }
    status
}

fn main(rt: HostRuntime) -> ExitCode {
    let terminals = Terminals {
        input: rt.stdin().is_terminal(),
        errors: rt.stderr().is_terminal(),
    };
    let status = match start(&rt, terminals) {
        Ok(()) => GOOD,
        Err(fault) => tell(&rt, &fault, terminals),
    };
    ExitCode::from(status)
}
