// SPDX-License-Identifier: MIT
//! Explores a scene, and prints the report.

use crate::asked::{ExploreAsked, Watched};
use crate::scene::read;
use crate::watch::Watch;
use po_ada_command::{print_fault, print_text};
use po_ada_language::Stop;
use po_ada_script::{RunFault, fault_at};
use po_command_line::{CUT_OFF, FOUND, GOOD};
use po_explore::{Explored, Options, Report, Search, Verdict, most_looks, report_of};
use po_scene::Scene;
use std::alloc::Global;
use std::io::{Eprint, Print};
use std::rt::Files;
use std::time::Clock;

/// Looks at the situations of the scene, until the watch over the search ends it.
fn searched<R: Eprint + Clock + Files>(
    rt: &R,
    alloc: Global,
    scene: &Scene,
    options: Options,
    mut watch: Option<Watch>,
) -> Result<Explored, Stop> {
    let mut search = Search::new(alloc, scene, options)?;
    for _ in 0..most_looks(scene, options) {
        if !search.look_further(scene)? {
            break;
        }
        if let Some(watch) = &mut watch
            && watch.look(rt, search.explored())
        {
            break;
        }
    }
    Ok(search.finish()?)
}

/// Returns the report of the scene.
fn reported<R: Eprint + Clock + Files + AllocGlobal>(
    rt: &R,
    scene: &Scene,
    options: Options,
    watched: Watched,
) -> Result<Report, Stop> {
    let alloc = rt.alloc();
    let watch = Watch::new(rt, watched);
    let explored = searched(rt, alloc, scene, options, watch)?;
    report_of(alloc, scene, &explored)
}

/// Explores the scene that is asked for, and prints the report.
fn explored<R: Print + Eprint + Clock + Files + AllocGlobal>(
    rt: &R,
    asked: ExploreAsked,
) -> Result<Verdict, RunFault> {
    let scene = read(rt, asked.scene, asked.unit)?;
    let report = reported(rt, &scene, asked.options, asked.watched);
    let report = report.map_err(|stop| fault_at(0, stop))?;
    print_text(rt, report.text.as_str())?;
    Ok(report.verdict)
}

/// Returns the status of a search that ended so.
fn status_of(verdict: Verdict) -> u8 {
    match verdict {
        Verdict::Clean => GOOD,
        Verdict::Found => FOUND,
        Verdict::CutOff => CUT_OFF,
    }
}

/// Explores the scene that is asked for, prints the report, and returns the status.
pub(crate) fn run<R: Print + Eprint + Clock + Files + AllocGlobal>(
    rt: &R,
    asked: ExploreAsked,
) -> u8 {
    match explored(rt, asked) {
        Ok(verdict) => status_of(verdict),
        Err(fault) => print_fault(rt, &fault),
    }
}
