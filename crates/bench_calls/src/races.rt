// SPDX-License-Identifier: MIT
//! A round: threads that start together and do the same work on one thing that they share.

use crate::callers::{Called, carry_out};
use crate::team::{Round, Team};
use crate::work::Task;
use std::alloc::AllocError;
use std::io;
use std::sync::{Arc, Wait};
use std::thread::{self, JoinHandle, Threads};
use std::time::Clock;

/// What the threads of a round share.
#[derive(Drop)]
struct Stage<O> {
    object: O,
    team: Team,
}

/// Starts the thread with this number, which does its work with the pass.
fn start<
    O: Called<P> + Send + Sync + Drop + 'static,
    P: Send + Drop + 'static,
    R: Threads + Wait + Clock + Copy + Send + 'static,
>(
    rt: R,
    stage: Arc<Stage<O>>,
    pass: P,
    task: Task,
    thread: u64,
) -> Result<JoinHandle<()>, AllocError> {
    let all = move || carry_out(&rt, &stage.object, &stage.team, pass, task, thread);
    Ok(thread::spawn(&rt, all)?)
}

/// Starts a thread for each pass.
fn start_all<
    O: Called<P> + Send + Sync + Drop + 'static,
    P: Send + Drop + 'static,
    R: Threads + Wait + Clock + AllocGlobal + Copy + Send + 'static,
>(
    rt: R,
    stage: &Arc<Stage<O>>,
    passes: Vec<P>,
    task: Task,
) -> Result<Vec<JoinHandle<()>>, AllocError> {
    let mut running = Vec::new(rt.alloc());
    for pass in passes {
        let thread = running.len() as u64;
        running.push(start(rt, Arc::try_clone(stage)?, pass, task, thread)?)?;
    }
    Ok(running)
}

/// Has a thread for each pass do the task on the object.
pub(crate) fn race<
    O: Called<P> + Send + Sync + Drop + 'static,
    P: Send + Drop + 'static,
    R: Threads + Wait + Clock + AllocGlobal + Copy + Send + 'static,
>(rt: R, object: O, passes: Vec<P>, task: Task) -> io::Result<Round> {
    let team = Team::new(&rt, task.threads)?;
    let stage = Arc::new(rt.alloc(), Stage { object, team })?;
    for thread in start_all(rt, &stage, passes, task)? {
        thread.join(&rt);
    }
    Ok(stage.team.round())
}
