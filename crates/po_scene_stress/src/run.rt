// SPDX-License-Identifier: MIT
//! Runs a scene again and again.

use crate::course::Course;
use crate::host::{Place, start_host};
use crate::job::Steps;
use crate::report::{Report, Stuck, report_of};
use crate::step::{Step, steps_of, turns_at};
use crate::tally::Tally;
use crate::turns::Turns;
use po_ada_language::Stop;
use po_ada_script::{shape_of, smaller};
use po_explore::invariant_of;
use po_scene::{Scene, SceneObject};
use po_unit::Unit;
use std::alloc::{AllocError, Global};
use std::sync::{Arc, Wait};
use std::thread::{JoinHandle, Threads};

/// A scene is run at most this often.
pub const MOST_RUNS: u32 = 1_000_000;

/// Returns the steps of each caller.
fn all_steps(alloc: Global, scene: &Scene) -> Result<Vec<Vec<Step>>, AllocError> {
    let mut all = Vec::with_capacity(alloc, scene.callers.len())?;
    for caller in scene.callers.iter() {
        all.push(steps_of(alloc, scene, caller)?)?;
    }
    Ok(all)
}

/// Returns the course of a run that hasn't begun.
fn course_of(
    alloc: Global,
    scene: &Scene,
    steps: &[Vec<Step>],
    tally: &Arc<Tally>,
) -> Result<Arc<Course>, AllocError> {
    let objects = scene.objects.len();
    let mut turns = Vec::with_capacity(alloc, steps.len())?;
    for list in steps {
        turns.push(Turns::new(alloc, list.len() as u64, objects)?)?;
    }
    let course = Course::new(alloc, turns, objects, Arc::try_clone(tally)?)?;
    Ok(Arc::new(alloc, course)?)
}

/// Returns what the callers do at the object with this position.
fn jobs_at(
    alloc: Global,
    named: &SceneObject,
    object: u16,
    steps: &[Vec<Step>],
    course: &Arc<Course>,
) -> Result<Vec<Steps>, AllocError> {
    let mut jobs = Vec::with_capacity(alloc, steps.len())?;
    let mut caller = 0u16;
    for list in steps {
        jobs.push(Steps {
            caller,
            object,
            invariant: invariant_of(&named.names),
            turns: turns_at(alloc, list.as_slice(), object)?,
            course: Arc::try_clone(course)?,
        })?;
        caller = caller.saturating_add(1);
    }
    Ok(jobs)
}

/// Starts the host of the object with this position.
fn start_at<W: Threads + Wait + AllocGlobal + Copy + Send + 'static>(
    rt: W,
    named: &SceneObject,
    object: u16,
    steps: &[Vec<Step>],
    course: &Arc<Course>,
) -> Result<JoinHandle<()>, Stop> {
    let alloc = rt.alloc();
    let shape = shape_of(alloc, named.names.entries.as_slice())?;
    let place = Place {
        object,
        order: named.order,
        max_queue: smaller(named.names.max_queue, named.max_queue),
    };
    let jobs = jobs_at(alloc, named, object, steps, course)?;
    let unit = named.unit.copy()?;
    let shared = Arc::try_clone(course)?;
    Ok(start_host(rt, unit, shape, place, jobs, shared)?)
}

/// Starts the hosts of all objects.
fn start_hosts<W: Threads + Wait + AllocGlobal + Copy + Send + 'static>(
    rt: W,
    scene: &Scene,
    steps: &[Vec<Step>],
    course: &Arc<Course>,
    hosts: &mut Vec<JoinHandle<()>>,
) -> Result<(), Stop> {
    let mut object = 0u16;
    for named in scene.objects.iter() {
        hosts.push(start_at(rt, named, object, steps, course)?)?;
        object = object.saturating_add(1);
    }
    Ok(())
}

/// Watches over a run until it is over. If callers wait for ever, ends it, and returns true.
fn watch<W: Wait>(rt: &W, course: &Course) -> bool {
    for _ in rt.forever() {
        course.sleep_as_watcher(rt);
        if course.is_over() || course.is_stopped() {
            return false;
        }
        if course.is_stuck(rt) {
            return true;
        }
    }
    unreachable!()
}

/// Watches over a run until it is over. If callers wait for ever, notes who, and ends it.
fn watch_over<W: Wait>(
    rt: &W,
    course: &Course,
    steps: &[Vec<Step>],
    stuck: &mut Stuck,
    run: u32,
) -> Result<(), AllocError> {
    let is_stuck = watch(rt, course);
    let noted = if is_stuck {
        stuck.note(course, steps, run)
    } else {
        Ok(())
    };
    if is_stuck {
        course.stop();
    }
    noted
}

/// Runs the scene once.
fn run_once<W: Threads + Wait + AllocGlobal + Copy + Send + 'static>(
    rt: W,
    scene: &Scene,
    steps: &[Vec<Step>],
    tally: &Arc<Tally>,
    stuck: &mut Stuck,
    run: u32,
) -> Result<(), Stop> {
    let course = course_of(rt.alloc(), scene, steps, tally)?;
    let mut hosts = Vec::with_capacity(rt.alloc(), scene.objects.len())?;
    let started = start_hosts(rt, scene, steps, &course, &mut hosts);
    if started.is_err() {
        course.give_up();
    }
    let noted = watch_over(&rt, &*course, steps, stuck, run);
    for host in hosts {
        host.join(&rt);
    }
    started?;
    noted?;
    if course.is_short() {
        return Err(Stop::OutOfMemory);
    }
    Ok(())
}

/// Runs the scene as often as is said, each caller as a thread, and reports what was found. Each answer that a caller gets is
/// compared with the history of its object.
///
/// Fails if an object can't be made, memory runs out, or no thread can be made.
pub fn stress_scene<W: Threads + Wait + AllocGlobal + Copy + Send + 'static>(
    rt: W,
    scene: &Scene,
    runs: u32,
) -> Result<Report, Stop> {
    let alloc = rt.alloc();
    let steps = all_steps(alloc, scene)?;
    let tally = Arc::new(alloc, Tally::new(alloc, scene)?)?;
    let mut stuck = Stuck::new(alloc);
    for run in 0..runs {
        run_once(rt, scene, steps.as_slice(), &tally, &mut stuck, run)?;
    }
    Ok(report_of(alloc, scene, &*tally, &stuck, runs)?)
}
