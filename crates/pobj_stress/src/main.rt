// SPDX-License-Identifier: MIT
//! The program for `pobj stress`: many threads call one object, and their answers are compared with its history.
#![tactic(auto)]

mod asked;
mod load;
mod watch;

use po_command_line::CommandError;
use std::env::Env;
use std::io::{Eprint, IsTerminal, Print};
use std::process::ExitCode;
use std::sync::Wait;
use std::thread::Threads;

/// Carries out the run that the words of the command line ask for, and returns the status. On a terminal it shows how far the
/// run has come.
fn start<R: Env + Print + Eprint + Threads + Wait + AllocGlobal + Copy + Send + 'static>(
    rt: R,
    terminal: bool,
) -> Result<u8, CommandError> {
    let load = asked::parse(&rt)?;
    load::run(rt, load, terminal)
}

fn main(rt: HostRuntime) -> ExitCode {
    let terminal = rt.stderr().is_terminal();
    let status = match start(rt, terminal) {
        Ok(status) => status,
        Err(fault) => fault.print(&rt),
    };
    ExitCode::from(status)
}
