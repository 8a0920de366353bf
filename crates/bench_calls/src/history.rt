// SPDX-License-Identifier: MIT
//! Measures a call at the beginning of a history, and after the history has grown long.
//!
//! A call makes two events, and with each of them the history grows into memory that its round hasn't touched before: all
//! histories of a round are begun before the first of them goes on, and none is dropped before the round ends. The average over
//! a round counts, since not every batch bears the same part of the cost of growing; and of all rounds the one with the lowest
//! average counts.

use crate::commands::{Command, OPEN};
use crate::engine::{Engine, make_trap};
use crate::measure::Measure;
use crate::plan::Plan;
use crate::report::pair;
use po_classic_units::Trap;
use po_core::Core;
use std::io::{self, Print};
use std::time::Clock;

/// Begins histories, and adds a batch on each to the measure.
fn begin_all<E: Engine<Unit = Trap>, R: Clock + AllocGlobal>(
    rt: &R,
    plan: &Plan,
    measure: &mut Measure,
) -> io::Result<Vec<E>> {
    let mut engines = Vec::new(rt.alloc());
    for _ in 0..plan.begun_histories {
        let mut engine: E = make_trap(rt.alloc())?;
        engine.run(OPEN);
        Command::Call.measure(rt, &mut engine, u64::from(plan.first), measure)?;
        engines.push(engine)?;
    }
    Ok(engines)
}

/// Makes the history long, and adds the last batch to the measure.
fn go_on<E: Engine, R: Clock>(
    rt: &R,
    plan: &Plan,
    engine: &mut E,
    measure: &mut Measure,
) -> io::Result<()> {
    Command::Call.repeat(engine, u64::from(plan.middle));
    Command::Call.measure(rt, engine, u64::from(plan.last), measure)
}

/// Begins histories, has some of them go on to their end, and adds a series of batches to both measures.
fn measure<E: Engine<Unit = Trap>, R: Clock + AllocGlobal>(
    rt: &R,
    plan: &Plan,
    first: &mut Measure,
    last: &mut Measure,
) -> io::Result<()> {
    let (mut beginnings, mut ends) = (Measure::new(), Measure::new());
    let mut engines: Vec<E> = begin_all(rt, plan, &mut beginnings)?;
    for n in 0..plan.histories {
        if let Some(engine) = engines.get_mut(n) {
            go_on(rt, plan, engine, &mut ends)?;
        }
    }
    first.add_series(beginnings);
    last.add_series(ends);
    Ok(())
}

/// Measures calls at both ends of histories, in turn, and prints what they take.
pub(crate) fn print<R: Print + Clock + AllocGlobal>(rt: &R, plan: &Plan) -> io::Result<()> {
    let (mut first, mut last) = (Measure::new(), Measure::new());
    for _ in 0..plan.history_rounds {
        measure::<Core<Trap>, R>(rt, plan, &mut first, &mut last)?;
    }
    let begun = u64::from(plan.first);
    let length = begun + u64::from(plan.middle) + u64::from(plan.last);
    pair(rt, plan, "history", (begun, first), (length, last))
}
