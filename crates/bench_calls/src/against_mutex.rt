// SPDX-License-Identifier: MIT
//! Measures a call, a procedure and a function, on a core that records its history and on one with fixed memory, against a lock
//! and unlock of a mutex.

use crate::commands::{Command, OPEN};
use crate::engine::{Engine, make_trap};
use crate::measure::Measure;
use crate::plan::Plan;
use crate::report::line;
use po_classic_units::Trap;
use po_core::{BoundedCore, Core};
use std::alloc::{AllocError, Global};
use std::io::{self, Print};
use std::sync::{Mutex, Wait};
use std::time::{Clock, Instant};

/// How many objects are read. Each one's reply says which is read next, so no read can be left out, or begin before the last
/// has ended.
const OBJECTS: u64 = 16;

/// Adds a batch of locks and unlocks to the measure.
fn measure_mutex<R: Clock + Wait>(rt: &R, times: u64, measure: &mut Measure) -> io::Result<()> {
    let mutex = Mutex::new(0u64);
    let start = Instant::now(rt)?;
    for _ in 0..times {
        drop(mutex.lock(rt));
    }
    measure.add(rt, start, times)
}

/// Makes objects each of which replies which is the next.
fn ring<E: Engine<Unit = Trap>>(alloc: Global) -> Result<Vec<E>, AllocError> {
    let mut engines = Vec::new(alloc);
    for n in 0..OBJECTS {
        let mut engine: E = make_trap(alloc)?;
        engine.run((n + 1) % OBJECTS);
        engines.push(engine)?;
    }
    Ok(engines)
}

/// Returns what the object with this number replies.
fn read_at<E: Engine>(engines: &[E], number: u64) -> Option<u64> {
    let index = usize::try_from(number).ok()?;
    engines.get(index)?.read()
}

/// Reads `times` times along the ring, and returns how many objects replied which is the next.
fn read_along<E: Engine>(engines: &[E], times: u64) -> u64 {
    let mut number = Some(0);
    let mut replied = 0u64;
    for _ in 0..times {
        number = match number {
            Some(n) => read_at(engines, n),
            None => None,
        };
        if number.is_some() {
            replied = replied.saturating_add(1);
        }
    }
    replied
}

/// Adds a batch of reads to the measure.
fn measure_read<E: Engine<Unit = Trap>, R: Clock + AllocGlobal>(
    rt: &R,
    times: u64,
    measure: &mut Measure,
) -> io::Result<()> {
    let engines: Vec<E> = ring(rt.alloc())?;
    let start = Instant::now(rt)?;
    let done = read_along(engines.as_slice(), times);
    measure.add(rt, start, done)
}

/// What a call, a procedure and a function took.
#[derive(Drop)]
struct Measures {
    call: Measure,
    procedure: Measure,
    function: Measure,
}

impl Measures {
    /// Returns measures without a batch.
    fn new() -> Measures {
        Measures {
            call: Measure::new(),
            procedure: Measure::new(),
            function: Measure::new(),
        }
    }

    /// Adds a batch of each.
    fn add<E: Engine<Unit = Trap>, R: Clock + AllocGlobal>(
        &mut self,
        rt: &R,
        times: u64,
    ) -> io::Result<()> {
        Command::Call.measure_alone::<E, R>(rt, times, &mut self.call)?;
        Command::Run(OPEN).measure_alone::<E, R>(rt, times, &mut self.procedure)?;
        measure_read::<E, R>(rt, times, &mut self.function)
    }
}

/// Measures all of them, and prints what they take.
pub(crate) fn print<R: Print + Clock + Wait + AllocGlobal>(rt: &R, plan: &Plan) -> io::Result<()> {
    let mut mutex = Measure::new();
    let (mut core, mut bounded) = (Measures::new(), Measures::new());
    for _ in 0..plan.batches {
        measure_mutex(rt, plan.commands, &mut mutex)?;
        core.add::<Core<Trap>, R>(rt, plan.commands)?;
        bounded.add::<BoundedCore<Trap>, R>(rt, plan.commands)?;
    }
    for (name, measure) in [
        ("mutex_lock_unlock", mutex),
        ("issue_and_collect", core.call),
        ("procedure", core.procedure),
        ("function", core.function),
        ("bounded_issue_and_collect", bounded.call),
        ("bounded_procedure", bounded.procedure),
        ("bounded_function", bounded.function),
    ] {
        line(rt, plan, name, measure, mutex)?;
    }
    Ok(())
}
