// SPDX-License-Identifier: MIT
//! Measures commands while few and while many calls wait.

use crate::commands::Command;
use crate::engine::{Cancelling, Engine, make_trap};
use crate::measure::Measure;
use crate::plan::Plan;
use crate::report::pair;
use po_classic_units::Trap;
use po_core::{Core, Deadline, Ticket};
use po_unit::EntryRef;
use std::io::{self, Print};
use std::time::{Clock, Instant};

/// The moment from which on the waiting calls expire. The clock never gets there.
const FAR: u64 = 1 << 40;

/// The number of moments at which they expire.
const SPREAD: u64 = 65_536;

/// An odd number without a pattern, which scatters the moments.
const SCATTER: u64 = 0x9E37_79B9_7F4A_7C15;

/// The entries on which calls wait.
const ENTRIES: [EntryRef; 3] = [
    EntryRef {
        declaration: 0,
        index: Some(1),
    },
    EntryRef {
        declaration: 0,
        index: Some(2),
    },
    EntryRef {
        declaration: 0,
        index: Some(3),
    },
];

/// What the commands took while some number of calls waited.
#[derive(Drop)]
struct Measures {
    procedure: Measure,
    conditional: Measure,
    issue: Measure,
    cancel: Measure,
    cancel_seat: Measure,
    tick: Measure,
}

impl Measures {
    /// Returns measures without a batch of any command.
    fn new() -> Measures {
        Measures {
            procedure: Measure::new(),
            conditional: Measure::new(),
            issue: Measure::new(),
            cancel: Measure::new(),
            cancel_seat: Measure::new(),
            tick: Measure::new(),
        }
    }

    /// Adds a batch of each command. The next batch cancels the calls that this one issues.
    fn add<E: Cancelling, R: Clock>(
        &mut self,
        rt: &R,
        engine: &mut E,
        tickets: &mut Vec<Ticket>,
        commands: u64,
    ) -> io::Result<()> {
        Command::Run(0).measure(rt, engine, commands, &mut self.procedure)?;
        Command::Conditional.measure(rt, engine, commands, &mut self.conditional)?;
        Command::Tick.measure(rt, engine, commands, &mut self.tick)?;
        let start = Instant::now(rt)?;
        let issued = issue(engine, tickets, commands);
        self.issue.add(rt, start, issued)?;
        let start = Instant::now(rt)?;
        let cancelled = cancel(engine, tickets.as_slice());
        self.cancel.add(rt, start, cancelled)?;
        collect(engine, tickets);
        issue(engine, tickets, commands);
        let start = Instant::now(rt)?;
        let aborted = cancel_seats(engine, tickets.as_slice());
        self.cancel_seat.add(rt, start, aborted)?;
        collect(engine, tickets);
        Ok(())
    }
}

/// Issues `calls` calls on the entries in turn, which wait, and returns how many tickets were kept.
fn issue<E: Engine>(engine: &mut E, tickets: &mut Vec<Ticket>, calls: u64) -> u64 {
    let mut kept = 0u64;
    for n in 0..calls {
        let deadline = Deadline::At(FAR + n.wrapping_mul(SCATTER) % SPREAD);
        if let Some(ticket) = engine.issue(ENTRIES[(n % 3) as usize], n, deadline) {
            if tickets.push(ticket).is_ok() {
                kept = kept.saturating_add(1);
            }
        }
    }
    kept
}

/// Cancels the calls of the tickets, and returns how many it cancelled.
fn cancel<E: Cancelling>(engine: &mut E, tickets: &[Ticket]) -> u64 {
    let mut cancelled = 0u64;
    for ticket in tickets {
        if engine.cancel(*ticket) {
            cancelled = cancelled.saturating_add(1);
        }
    }
    cancelled
}

/// Does what `LockedCore::cancel_seat` does for each ticket that it knows to be its seat's latest: looks whether the call waits,
/// and cancels it. Returns how many calls it cancelled.
fn cancel_seats<E: Cancelling>(engine: &mut E, tickets: &[Ticket]) -> u64 {
    let mut cancelled = 0u64;
    for ticket in tickets {
        if engine.is_waiting(*ticket) && engine.cancel(*ticket) {
            cancelled = cancelled.saturating_add(1);
        }
    }
    cancelled
}

/// Collects the calls of the tickets.
fn collect<E: Engine>(engine: &mut E, tickets: &mut Vec<Ticket>) {
    for ticket in tickets.iter() {
        let _end = engine.collect(*ticket);
    }
    tickets.clear();
}

/// Adds batches of the commands to the measures, on an object on which the given number of calls wait.
fn measure<E: Cancelling + Engine<Unit = Trap>, R: Clock + AllocGlobal>(
    rt: &R,
    plan: &Plan,
    calls: u64,
    measures: &mut Measures,
) -> io::Result<()> {
    let mut engine: E = make_trap(rt.alloc())?;
    let mut tickets = Vec::new(rt.alloc());
    issue(&mut engine, &mut tickets, calls);
    tickets.clear();
    for _ in 0..plan.waiting_batches {
        measures.add(rt, &mut engine, &mut tickets, plan.waiting_commands)?;
    }
    Ok(())
}

/// Measures the commands while few and while many calls wait, in turn, and prints what they take.
pub(crate) fn print<R: Print + Clock + AllocGlobal>(rt: &R, plan: &Plan) -> io::Result<()> {
    // Not counted: the measurements after it then find memory that was touched before.
    measure::<Core<Trap>, R>(rt, plan, plan.many, &mut Measures::new())?;
    let (mut few, mut many) = (Measures::new(), Measures::new());
    for _ in 0..plan.waiting_rounds {
        measure::<Core<Trap>, R>(rt, plan, plan.few, &mut few)?;
        measure::<Core<Trap>, R>(rt, plan, plan.many, &mut many)?;
    }
    for (name, few, many) in [
        ("procedure", few.procedure, many.procedure),
        ("conditional", few.conditional, many.conditional),
        ("issue", few.issue, many.issue),
        ("cancel", few.cancel, many.cancel),
        ("cancel_seat", few.cancel_seat, many.cancel_seat),
        ("tick", few.tick, many.tick),
    ] {
        pair(rt, plan, name, (plan.few, few), (plan.many, many))?;
    }
    Ok(())
}
