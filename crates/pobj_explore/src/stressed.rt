// SPDX-License-Identifier: MIT
//! Runs a scene in which each caller is a thread, and prints the report.

use crate::asked::StressAsked;
use crate::scene::read;
use po_ada_command::{print_fault, print_text};
use po_ada_script::{RunFault, fault_at};
use po_command_line::{FOUND, GOOD};
use po_scene_stress::{Verdict, stress_scene};
use std::io::{Eprint, Print};
use std::rt::Files;
use std::sync::Wait;
use std::thread::Threads;

/// Runs the scene that is asked for, and prints the report.
fn stressed<R: Print + Files + Threads + Wait + AllocGlobal + Copy + Send + 'static>(
    rt: R,
    asked: StressAsked,
) -> Result<Verdict, RunFault> {
    let scene = read(&rt, asked.scene, asked.unit)?;
    let report = stress_scene(rt, &scene, asked.runs).map_err(|stop| fault_at(0, stop))?;
    print_text(&rt, report.text.as_str())?;
    Ok(report.verdict)
}

/// Returns the status of runs that came to this.
fn status_of(verdict: Verdict) -> u8 {
    match verdict {
        Verdict::Clean => GOOD,
        Verdict::Found | Verdict::Different => FOUND,
    }
}

/// Runs the scene that is asked for, prints the report, and returns the status.
pub(crate) fn run<R: Print + Eprint + Files + Threads + Wait + AllocGlobal + Copy + Send + 'static>(
    rt: R,
    asked: StressAsked,
) -> u8 {
    match stressed(rt, asked) {
        Ok(verdict) => status_of(verdict),
        Err(fault) => print_fault(&rt, &fault),
    }
}
