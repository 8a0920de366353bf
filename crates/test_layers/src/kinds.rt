// SPDX-License-Identifier: MIT
//! One list of commands, carried out by a core with a record in memory and by one without: they answer alike, unless the second
//! has no memory for a further call, or no place for a further event.

use crate::transcript::{from, single};
use po_classic_units::{Allocator, ScriptUnit};
use po_core::{
    Attempt, BoundedCore, CallStatus, Core, Deadline, End, Order, Record, Refusal, Start, Ticket,
};
use std::alloc::Global;
use std::fmt::Write;
use std::test::Fail;

/// The entry Request of an allocator.
const REQUEST: u16 = 0;

/// The entry Claim, whose calls are requeued without abort.
const CLAIM: u16 = 1;

/// Makes a core of an allocator of one, with its record in memory.
fn recorded(alloc: Global, start: Start) -> Result<Core<Allocator>, Fail> {
    let unit = Allocator::new(1);
    let shape = unit.shape(alloc)?;
    Ok(Core::start(alloc, unit, shape, Order::Textual, start)?)
}

/// Makes the same without a record, and with memory for `most` calls.
fn bounded(alloc: Global, start: Start, most: usize) -> Result<BoundedCore<Allocator>, Fail> {
    let unit = Allocator::new(1);
    let shape = unit.shape(alloc)?;
    let core = BoundedCore::with_capacity(alloc, unit, shape, Order::Textual, start, most)?;
    Ok(core)
}

/// Adds a refusal.
fn refuse(text: &mut String, refusal: Refusal) -> Result<(), Fail> {
    let number = refusal.number();
    write!(text, "refused {number}; ")?;
    Ok(())
}

/// Adds how a call ended.
fn tell_end(text: &mut String, end: End<u64>) -> Result<(), Fail> {
    match end {
        End::Completed(value) => write!(text, "done {value}; ")?,
        End::Raised(exception) => write!(text, "raised {exception}; ")?,
        End::Cancelled => write!(text, "cancelled; ")?,
        End::ProgramError => write!(text, "program_error; ")?,
    }
    Ok(())
}

/// Adds the status of the call of a ticket.
fn tell_place<R: Record<Allocator>>(
    core: &Core<Allocator, R>,
    ticket: Ticket,
    text: &mut String,
) -> Result<(), Fail> {
    match core.end_of(ticket) {
        CallStatus::Unknown => write!(text, "unknown; ")?,
        CallStatus::Waiting => write!(text, "waits; ")?,
        CallStatus::Ended(end) => tell_end(text, end)?,
    }
    Ok(())
}

/// Issues a call on an entry for one unit, and adds its status.
fn call<R: Record<Allocator>>(
    core: &mut Core<Allocator, R>,
    entry: u16,
    deadline: Deadline,
    text: &mut String,
) -> Result<Option<Ticket>, Fail> {
    match core.issue(1, single(entry), 1, deadline) {
        Ok(ticket) => {
            let number = ticket.number;
            write!(text, "#{number} ")?;
            tell_place(core, ticket, text)?;
            Ok(Some(ticket))
        }
        Err(refusal) => {
            refuse(text, refusal)?;
            Ok(None)
        }
    }
}

/// Tries to cancel the call of a ticket, if there is one.
fn cancel<R: Record<Allocator>>(
    core: &mut Core<Allocator, R>,
    ticket: Option<Ticket>,
    text: &mut String,
) -> Result<(), Fail> {
    let Some(ticket) = ticket else {
        return Ok(());
    };
    match core.cancel(ticket) {
        Ok(Attempt::Cancelled) => write!(text, "cancelled; ")?,
        Ok(Attempt::Kept) => write!(text, "kept; ")?,
        Err(refusal) => refuse(text, refusal)?,
    }
    Ok(())
}

/// Raises the clock.
fn tick<R: Record<Allocator>>(
    core: &mut Core<Allocator, R>,
    t: u64,
    text: &mut String,
) -> Result<(), Fail> {
    match core.tick(t) {
        Ok(clock) => write!(text, "clock {clock}; ")?,
        Err(refusal) => refuse(text, refusal)?,
    }
    Ok(())
}

/// Runs the procedure Release for one unit.
fn release<R: Record<Allocator>>(
    core: &mut Core<Allocator, R>,
    text: &mut String,
) -> Result<(), Fail> {
    match core.procedure(1, 0, 1) {
        Ok(Ok(value)) => write!(text, "released {value}; ")?,
        Ok(Err(exception)) => write!(text, "raised {exception}; ")?,
        Err(refusal) => refuse(text, refusal)?,
    }
    Ok(())
}

/// Takes the end of the call of a ticket, if there is one.
fn collect<R: Record<Allocator>>(
    core: &mut Core<Allocator, R>,
    ticket: Option<Ticket>,
    text: &mut String,
) -> Result<(), Fail> {
    let Some(ticket) = ticket else {
        return Ok(());
    };
    match core.collect(ticket) {
        Some(end) => tell_end(text, end)?,
        None => write!(text, "none; ")?,
    }
    Ok(())
}

/// Carries out the commands, and adds what they answer.
fn tell<R: Record<Allocator>>(
    core: &mut Core<Allocator, R>,
    text: &mut String,
) -> Result<(), Fail> {
    let served = call(core, REQUEST, Deadline::Never, text)?;
    let queued = call(core, REQUEST, Deadline::Never, text)?;
    cancel(core, served, text)?;
    cancel(core, queued, text)?;
    collect(core, served, text)?;
    cancel(core, served, text)?;
    collect(core, queued, text)?;
    let requeued = call(core, CLAIM, Deadline::Never, text)?;
    cancel(core, requeued, text)?;
    cancel(core, requeued, text)?;
    let timed = call(core, REQUEST, Deadline::At(5), text)?;
    tick(core, 5, text)?;
    collect(core, timed, text)?;
    release(core, text)?;
    collect(core, requeued, text)?;
    call(core, REQUEST, Deadline::At(5), text)?;
    let last = call(core, REQUEST, Deadline::Never, text)?;
    match core.finalize() {
        Ok(()) => write!(text, "final; ")?,
        Err(refusal) => refuse(text, refusal)?,
    }
    collect(core, last, text)?;
    tick(core, 9, text)?;
    release(core, text)?;
    let (next, place, clock) = (core.next_number(), core.place(), core.clock());
    write!(text, "next {next}, place {place}, clock {clock}")?;
    Ok(())
}

/// The answers of both kinds.
const TOLD: &str =
    "#1 done 1; #2 waits; refused 6; cancelled; done 1; refused 5; cancelled; #3 waits; kept; kept; \
     #4 waits; clock 5; cancelled; released 1; done 1; #5 cancelled; #6 waits; final; program_error; \
     refused 7; refused 7; next 7, place 15, clock 5";

#[test]
fn kinds_answer_alike(rt: HostRuntime) -> Result<(), Fail> {
    let mut text = String::new(rt.alloc());
    tell(&mut recorded(rt.alloc(), from(1, 0))?, &mut text)?;
    assert_eq!(rt; text.as_str(), TOLD);
    let mut text = String::new(rt.alloc());
    tell(&mut bounded(rt.alloc(), from(1, 0), 3)?, &mut text)?;
    assert_eq!(rt; text.as_str(), TOLD);
    Ok(())
}

/// Asks three times for the unit, and if `collects` collects the first call before the third.
fn ask_thrice<R: Record<Allocator>>(
    core: &mut Core<Allocator, R>,
    collects: bool,
    text: &mut String,
) -> Result<(), Fail> {
    let first = call(core, REQUEST, Deadline::Never, text)?;
    call(core, REQUEST, Deadline::Never, text)?;
    if collects {
        collect(core, first, text)?;
    }
    call(core, REQUEST, Deadline::Never, text)?;
    Ok(())
}

#[test]
fn uncollected_calls_fill_fixed_memory(rt: HostRuntime) -> Result<(), Fail> {
    let mut text = String::new(rt.alloc());
    ask_thrice(&mut recorded(rt.alloc(), from(1, 0))?, false, &mut text)?;
    ask_thrice(&mut bounded(rt.alloc(), from(1, 0), 2)?, false, &mut text)?;
    ask_thrice(&mut bounded(rt.alloc(), from(1, 0), 2)?, true, &mut text)?;
    assert_eq!(rt;
        text.as_str(),
        "#1 done 1; #2 waits; #3 waits; #1 done 1; #2 waits; refused 11; #1 done 1; #2 waits; done 1; #3 waits; "
    );
    Ok(())
}

// A record in memory has a place for each event that it has room for, even past 64 bits.
#[test]
fn places_of_ticks(rt: HostRuntime) -> Result<(), Fail> {
    let start = from(1, 18446744073709551614);
    let mut text = String::new(rt.alloc());
    let mut core = recorded(rt.alloc(), start)?;
    tick(&mut core, 1, &mut text)?;
    tick(&mut core, 2, &mut text)?;
    let mut core = bounded(rt.alloc(), start, 1)?;
    tick(&mut core, 1, &mut text)?;
    tick(&mut core, 2, &mut text)?;
    assert_eq!(rt; text.as_str(), "clock 1; clock 2; clock 1; refused 8; ");
    Ok(())
}
