// SPDX-License-Identifier: MIT
//! A meeting of three threads ends beside a thread that only watches. It would never end if one thread made all its calls.

use crate::team::Team;
use po_stress::{StressUnit, stress};
use std::alloc::AllocError;
use std::io::{self, Print};
use std::sync::{Arc, Wait};
use std::thread::{self, JoinHandle, Threads};
use std::time::Clock;

/// Has three threads meet ten times, and counts this on the team if all their calls completed.
fn meet<R: Threads + Wait + AllocGlobal + Copy + Send + 'static>(rt: R, team: &Team) {
    if let Ok(report) = stress(rt, StressUnit::Meeting, 3, 10) {
        if report.completed == 30 {
            team.count();
        }
    }
}

/// Starts a thread that has the others meet.
fn start<R: Threads + Wait + AllocGlobal + Copy + Send + 'static>(
    rt: R,
    team: Arc<Team>,
) -> Result<JoinHandle<()>, AllocError> {
    let job = move || meet(rt, &*team);
    Ok(thread::spawn(&rt, job)?)
}

/// Watches while the others meet, and prints whether they have.
pub(crate) fn run<R: Threads + Wait + Clock + Print + AllocGlobal + Copy + Send + 'static>(
    rt: R,
) -> io::Result<()> {
    let team = Arc::new(rt.alloc(), Team::new(1))?;
    let meeting = start(rt, Arc::try_clone(&team)?)?;
    if team.sees_answered(&rt, 1) {
        meeting.join(&rt);
        println!(rt; "the meeting is seen to end")
    } else {
        println!(rt; "the meeting isn't seen to end")
    }
}
