// SPDX-License-Identifier: MIT
//! The host of an object: the thread that opens it, starts the threads of its callers, counts who waits, and closes it.

ghost use Rattle.std.specs.Prelude.{◌≡◌, ◌+◌, []};
ghost use Rattle.po_ada_unit.specs.Object.{ada_meaning};
ghost use Rattle.po_object.specs.Stories.{IsStory};

use crate::course::Course;
use crate::job::Steps;
use po_ada_unit::{AdaUnit, Values};
use po_core::{Core, Event, Order, Start};
use po_object::{Closed, Keeper, Object, Pass, Story};
use po_stress::Report;
use po_threads::start;
use po_unit::{EntryRef, Shape};
use std::alloc::{AllocError, Global};
use std::marker::Brand;
use std::sync::ledger::{Blank, Ledger};
use std::sync::{Arc, Wait};
use std::thread::{self, JoinHandle, Threads};

/// How an object is made, and its position in its scene.
#[derive(Clone, Copy)]
pub(crate) struct Place {
    /// The position of the object.
    pub(crate) object: u16,
    pub(crate) order: Order,
    pub(crate) max_queue: Option<u64>,
}

/// Makes the core of an object. Fails if memory runs out.
fn core_of(
    alloc: Global,
    unit: AdaUnit,
    shape: Shape,
    place: Place,
) -> Result<Core<AdaUnit>, AllocError> {
    let start = Start {
        first_number: 1,
        first_place: 0,
        max_queue: place.max_queue,
    };
    Core::start(alloc, unit, shape, place.order, start).map_err(|_| AllocError)
}

/// Returns the entries of an object.
fn entries_of(alloc: Global, shape: &Shape) -> Result<Vec<EntryRef>, AllocError> {
    let mut entries = Vec::new(alloc);
    for flat in 0..shape.total() {
        entries.push(shape.of_flat(flat))?;
    }
    Ok(entries)
}

/// Returns how many calls wait on these entries. One whose queue can't be looked at just now counts as if none did.
fn waiting<C: Story<AdaUnit, Values>, P: Ledger>(
    object: &Object<AdaUnit, C, P>,
    entries: &[EntryRef],
) -> u64 {
    let mut waiting = 0u64;
    for entry in entries {
        if let Ok(Some(count)) = object.try_count(*entry) {
            waiting = waiting.saturating_add(count);
        }
    }
    waiting
}

/// Counts who waits at the object, until the run is over. If it ends early, finalizes the object, so that no call waits any more.
fn watch<C: Story<AdaUnit, Values>, P: Ledger, W: Wait>(
    rt: &W,
    object: &Object<AdaUnit, C, P>,
    position: u16,
    course: &Course,
    entries: &[EntryRef],
) {
    for _ in rt.forever() {
        if course.is_stopped() {
            // If it was finalized before, no call waits either.
            let _finalized = object.finalize(rt);
            return;
        }
        if course.is_over() {
            return;
        }
        let round = course.round();
        course.note_waiting(position, round, waiting(object, entries));
        course.sleep_as_host(rt, position);
    }
    unreachable!()
}

/// Starts the threads of the callers that have steps at the object. The passes of the others go to `idle`.
fn start_all<
    C: Story<AdaUnit, Values> + Send + Sync + 'static,
    P: Ledger + Send + Sync + 'static,
    W: Threads + Wait + Copy + Send + 'static,
>(
    rt: W,
    object: &Arc<Object<AdaUnit, C, P>>,
    mut passes: Vec<Pass<Values, C, P>>,
    mut jobs: Vec<Steps>,
    idle: &mut Vec<Pass<Values, C, P>>,
    running: &mut Vec<JoinHandle<Pass<Values, C, P>>>,
) -> Result<(), AllocError> {
    while let Some(pass) = passes.pop() {
        let Some(job) = jobs.pop() else {
            return Err(AllocError);
        };
        if job.turns.is_empty() {
            idle.push(pass)?;
        } else {
            running.push(start(rt, Arc::try_clone(object)?, pass, job)?)?;
        }
    }
    Ok(())
}

/// Has the callers do their steps at the object, and returns all passes. Fails if memory runs out.
fn call_from_all<
    C: Story<AdaUnit, Values> + Send + Sync + 'static,
    P: Ledger + Send + Sync + 'static,
    W: Threads + Wait + AllocGlobal + Copy + Send + 'static,
>(
    rt: W,
    object: &Arc<Object<AdaUnit, C, P>>,
    position: u16,
    passes: Vec<Pass<Values, C, P>>,
    jobs: Vec<Steps>,
    course: &Course,
    entries: &[EntryRef],
) -> Result<Vec<Pass<Values, C, P>>, AllocError> {
    let mut back = Vec::with_capacity(rt.alloc(), passes.len())?;
    let mut running = Vec::with_capacity(rt.alloc(), passes.len())?;
    if start_all(rt, object, passes, jobs, &mut back, &mut running).is_err() {
        course.give_up();
    }
    course.note_ready();
    watch(&rt, &**object, position, course, entries);
    for thread in running {
        back.push(thread.join(&rt))?;
    }
    Ok(back)
}

/// Closes the object. All threads of callers have ended, so no one else has it.
fn close<C: Story<AdaUnit, Values>, P: Ledger>(
    object: Arc<Object<AdaUnit, C, P>>,
    passes: Vec<Pass<Values, C, P>>,
) -> Result<Closed<AdaUnit>, AllocError> {
    let Ok(object) = Arc::try_unwrap(object) else {
        return Err(AllocError);
    };
    match object.close(passes) {
        Ok(closed) => Ok(closed),
        Err(_) => Err(AllocError),
    }
}

/// Opens an object over the core, has the callers do their steps, closes it, and reports on it.
fn host_core<
    C: Story<AdaUnit, Values> + Send + Sync + 'static,
    P: Ledger + Send + Sync + 'static,
    W: Threads + Wait + AllocGlobal + Copy + Send + 'static,
>(
    rt: W,
    core: Core<AdaUnit>,
    position: u16,
    seats: u16,
    jobs: Vec<Steps>,
    course: &Course,
    calls: Blank,
    procedures: Blank,
    log: Keeper<Event<Values>>,
) -> Result<Report, AllocError>
    requires shape { core.object.setup.shape ≡ C.shape }
    requires story { IsStory ada_meaning core.object.setup C.setup C.end_of }
    requires log { (log.name ≡ C.log) × (log.items ≡ []) }
    requires calls { (calls.name ≡ C.name) × (calls.parts ≡ C.parts) × (calls.parts ≡ seats + 1) }
    requires procedures { (procedures.name ≡ P.name) × (procedures.parts ≡ P.parts) × (procedures.parts ≡ seats + 1) }
{
    let entries = entries_of(rt.alloc(), core.shape())?;
    match Object::open(rt.alloc(), core, seats, calls, procedures, log) {
        Ok((object, passes)) => {
            let object: Arc<Object<AdaUnit, C, P>> = Arc::new(rt.alloc(), object)?;
            let passes = call_from_all(
                rt,
                &object,
                position,
                passes,
                jobs,
                course,
                entries.as_slice(),
            )?;
            Ok(Report::of(&close(object, passes)?))
        }
        Err(_) => Err(AllocError),
    }
}

/// Makes the object, has the callers do their steps, closes it, and reports on it.
fn host_object<W: Threads + Wait + AllocGlobal + Copy + Send + 'static>(
    rt: W,
    unit: AdaUnit,
    shape: Shape,
    place: Place,
    jobs: Vec<Steps>,
    course: &Course,
) -> Result<Report, AllocError> {
    let core = core_of(rt.alloc(), unit, shape, place)?;
    let Ok(seats) = u16::try_from(jobs.len()) else {
        return Err(AllocError);
    };
    let (calls, procedures) = (
        Blank::new(u64::from(seats) + 1),
        Blank::new(u64::from(seats) + 1),
    );
    host_core::<Brand, Brand, W>(
        rt,
        core,
        place.object,
        seats,
        jobs,
        course,
        calls,
        procedures,
        Keeper::open(),
    )
}

/// What the thread of a host does: it hosts the object, and counts what is said of it.
fn host<W: Threads + Wait + AllocGlobal + Copy + Send + 'static>(
    rt: W,
    unit: AdaUnit,
    shape: Shape,
    place: Place,
    jobs: Vec<Steps>,
    course: Arc<Course>,
) {
    match host_object(rt, unit, shape, place, jobs, &*course) {
        Ok(report) => course.tally.add(report),
        Err(_) => course.give_up(),
    }
}

/// What a thread takes along: a unit. The prover takes from a bound on this type that it may go to another thread.
pub(crate) trait Carried {
    /// Returns the unit.
    fn into_unit(self) -> AdaUnit;
}

impl Carried for AdaUnit {
    fn into_unit(self) -> AdaUnit {
        self
    }
}

/// Starts the host of an object of this unit. Fails if memory runs out, or no thread can be made.
pub(crate) fn start_host<
    U: Carried + Drop + Send + 'static,
    W: Threads + Wait + AllocGlobal + Copy + Send + 'static,
>(
    rt: W,
    unit: U,
    shape: Shape,
    place: Place,
    jobs: Vec<Steps>,
    course: Arc<Course>,
) -> Result<JoinHandle<()>, AllocError> {
    let work = move || host(rt, unit.into_unit(), shape, place, jobs, course);
    Ok(thread::spawn(&rt, work)?)
}
