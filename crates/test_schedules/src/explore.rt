// SPDX-License-Identifier: MIT
//! Explores a scene: plays it in each schedule of a plan.

use crate::ending::Ending;
use crate::explorer::Explorer;
use crate::plan::{Kind, Plan};
use crate::report::print_schedule;
use crate::{bounded, recorded, refused};
use std::alloc::AllocError;
use std::io::{self, Print};
use std::sync::{Arc, Wait};
use std::thread::Threads;
use std::time::Clock;

/// How many schedules were played.
#[derive(Clone, Copy)]
struct Count {
    /// All of them.
    schedules: u64,
    /// Those of them that were cut off, since other schedules cover them.
    like_others: u64,
    /// The most steps of one schedule.
    most_steps: usize,
}

/// Plays one schedule, and returns whether all its answers are as they should be.
fn agrees<W: Threads + Wait + Clock + AllocGlobal + Copy + Drop + Send + Sync + 'static>(
    rt: W,
    explorer: &Arc<Explorer>,
    plan: Plan,
) -> Result<bool, AllocError> {
    match plan.kind {
        Kind::Recorded => recorded::agrees(rt, explorer, plan.scene),
        Kind::Bounded => bounded::agrees(rt, explorer, plan.scene),
        Kind::Refused => refused::agrees(rt, explorer, plan.scene),
    }
}

impl Count {
    /// Counts the schedule that was played.
    fn add<W: Wait>(&mut self, rt: &W, explorer: &Explorer) {
        let schedule = explorer.schedule(rt);
        self.schedules = self.schedules.saturating_add(1);
        self.like_others = self
            .like_others
            .saturating_add(u64::from(schedule.is_like_another()));
        self.most_steps = self.most_steps.max(schedule.log().len());
    }
}

/// Plays the scene in each schedule of the plan, and prints how many there were. Returns whether all of them ended as they
/// should; if one didn't, it prints the first such one.
pub(crate) fn explore<
    W: Threads + Wait + Clock + Print + AllocGlobal + Copy + Drop + Send + Sync + 'static,
>(rt: W, plan: Plan) -> io::Result<bool> {
    let explorer = Explorer::new(rt.alloc(), plan.bound, plan.may_doze)?;
    let explorer = Arc::new(rt.alloc(), explorer)?;
    let mut count = Count {
        schedules: 0,
        like_others: 0,
        most_steps: 0,
    };
    for _ in 0..plan.scene.most_schedules() {
        let agrees = agrees(rt, &explorer, plan)?;
        count.add(&rt, &*explorer);
        let ending = explorer.schedule(&rt).ending().unwrap_or(Ending::Lost);
        if ending != Ending::Done || !agrees {
            println!(rt;
                "{plan}: schedule {}: {ending}, answers agree: {agrees}",
                count.schedules
            )?;
            print_schedule(&rt, &*explorer, plan.scene)?;
            return Ok(false);
        }
        if !explorer.schedule(&rt).go_back() {
            print_count(&rt, plan, count)?;
            return Ok(true);
        }
    }
    print!(rt; "not all of ")?;
    print_count(&rt, plan, count)?;
    Ok(true)
}

/// Prints how many schedules there were.
fn print_count<W: Print>(rt: &W, plan: Plan, count: Count) -> io::Result<()> {
    println!(rt;
        "{plan}: {} schedules, {} cut off, up to {} steps",
        count.schedules, count.like_others, count.most_steps
    )
}
