// SPDX-License-Identifier: MIT
//! Measures a tick by which one call expires, while few and while many timed calls wait.
//!
//! The ticket of each waiting call is kept at a place that its moment gives: the moment modulo the number of waiting calls.

use crate::commands::Command;
use crate::engine::{Engine, make_trap};
use crate::measure::{Measure, nanos_since};
use crate::plan::Plan;
use crate::report::pair;
use po_classic_units::Trap;
use po_core::{Core, Deadline, End, Ticket};
use po_unit::EntryRef;
use std::io::{self, Print};
use std::time::{Clock, Instant};

/// The entry on which calls wait.
const WAIT: EntryRef = EntryRef {
    declaration: 0,
    index: Some(1),
};

/// A prime, by which moments are scattered.
const SCATTER: u64 = 65_537;

/// Returns the place of the ticket of the call that expires at this moment.
fn place(tickets: &[Option<Ticket>], moment: u64) -> usize {
    let calls = tickets.len() as u64;
    moment.checked_rem(calls).unwrap_or(0) as usize
}

/// Issues `calls` calls, one of which expires at each moment from `from` on. They arrive in another order.
fn issue<E: Engine>(engine: &mut E, tickets: &mut [Option<Ticket>], from: u64, calls: u64) {
    for n in 0..calls {
        let later = n.wrapping_mul(SCATTER).checked_rem(calls).unwrap_or(0);
        let moment = from.saturating_add(later);
        let issued = engine.issue(WAIT, 1, Deadline::At(moment));
        if let Some(ticket) = tickets.get_mut(place(tickets, moment)) {
            *ticket = issued;
        }
    }
}

/// Collects the end of the call of this moment, and returns whether it has expired.
fn collect_one<E: Engine>(engine: &mut E, tickets: &[Option<Ticket>], moment: u64) -> bool {
    let Some(Some(ticket)) = tickets.get(place(tickets, moment)).copied() else {
        return false;
    };
    matches!(engine.collect(ticket), Some(End::Cancelled))
}

/// Collects the ends of `calls` calls, those of moment `from` and later, and returns how many have expired.
fn collect<E: Engine>(engine: &mut E, tickets: &[Option<Ticket>], from: u64, calls: u64) -> u64 {
    let mut expired = 0u64;
    for n in 0..calls {
        if collect_one(engine, tickets, from.saturating_add(n)) {
            expired = expired.saturating_add(1);
        }
    }
    expired
}

/// Adds a batch of ticks to the measure, the first of them to the moment `next`. Issues as many calls as expire by them.
fn add<E: Engine, R: Clock>(
    rt: &R,
    engine: &mut E,
    tickets: &mut [Option<Ticket>],
    next: u64,
    ticks: u64,
    measure: &mut Measure,
) -> io::Result<()> {
    let waiting = tickets.len() as u64;
    let start = Instant::now(rt)?;
    Command::Tick.repeat(engine, ticks);
    let nanos = nanos_since(rt, start)?;
    measure.count(nanos, collect(engine, tickets, next, ticks));
    issue(engine, tickets, next.saturating_add(waiting), ticks);
    Ok(())
}

/// Adds batches of ticks to the measure, while the given number of calls waits.
fn measure<E: Engine<Unit = Trap>, R: Clock + AllocGlobal>(
    rt: &R,
    plan: &Plan,
    calls: u64,
    measure: &mut Measure,
) -> io::Result<()> {
    let mut engine: E = make_trap(rt.alloc())?;
    let mut tickets: Vec<Option<Ticket>> = vec![in rt.alloc(); None; calls as usize]?;
    issue(&mut engine, tickets.as_mut_slice(), 1, calls);
    let ticks = plan.waiting_commands;
    for batch in 0..plan.waiting_batches {
        let next = u64::from(batch).saturating_mul(ticks).saturating_add(1);
        add(
            rt,
            &mut engine,
            tickets.as_mut_slice(),
            next,
            ticks,
            measure,
        )?;
    }
    Ok(())
}

/// Measures the tick while few and while many calls wait, in turn, and prints what it takes.
pub(crate) fn print<R: Print + Clock + AllocGlobal>(rt: &R, plan: &Plan) -> io::Result<()> {
    // Not counted: the measurements after it then find memory that was touched before.
    measure::<Core<Trap>, R>(rt, plan, plan.many, &mut Measure::new())?;
    let (mut few, mut many) = (Measure::new(), Measure::new());
    for _ in 0..plan.waiting_rounds {
        measure::<Core<Trap>, R>(rt, plan, plan.few, &mut few)?;
        measure::<Core<Trap>, R>(rt, plan, plan.many, &mut many)?;
    }
    pair(rt, plan, "expire", (plan.few, few), (plan.many, many))
}
