// SPDX-License-Identifier: MIT
//! The program for scenes: `pobj explore SCENE` tries every order of the callers, `pobj check --scene SCENE` tells the faults of the
//! scene, and `pobj stress --scene SCENE` has a thread for each caller.
#![tactic(auto)]

mod asked;
mod checked;
mod explored;
mod scene;
mod stressed;
mod watch;

use crate::asked::Asked;
use po_command_line::CommandError;
use std::env::Env;
use std::io::{Eprint, Print};
use std::process::ExitCode;
use std::rt::Files;
use std::sync::Wait;
use std::thread::Threads;
use std::time::Clock;

/// Does what the words of the command line ask for, and returns the status.
fn start<
    R: Env + Print + Eprint + Clock + Files + Threads + Wait + AllocGlobal + Copy + Send + 'static,
>(rt: R) -> Result<u8, CommandError> {
    match asked::parse(&rt)? {
        Asked::Explore(asked) => Ok(explored::run(&rt, asked)),
        Asked::Check(asked) => Ok(checked::run(&rt, asked)),
        Asked::Stress(asked) => Ok(stressed::run(rt, asked)),
    }
}

fn main(rt: HostRuntime) -> ExitCode {
    let status = match start(rt) {
        Ok(status) => status,
        Err(fault) => fault.print(&rt),
    };
    ExitCode::from(status)
}
