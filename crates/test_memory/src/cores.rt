// SPDX-License-Identifier: MIT
//! Cores whose allocations are refused. A command that runs out of memory has changed nothing, and does its work when it is
//! asked again. What takes no memory answers the same, whatever was refused.

ghost use Rattle.po_classic_units.specs.Sizes.{IsSizeWhere};

use crate::refusals::Refusals;
use po_classic_units::{Allocator, Buffer, ScriptUnit, Trap};
use po_core::{Attempt, CallStatus, Core, Deadline, End, Order, Refusal, Ticket};
use po_unit::{EntryRef, Unit};
use std::alloc::Global;
use std::io::{self, Print};

/// How many calls and entries are looked at.
const MOST: usize = 6;

/// A ticket of no core.
const STRANGE: Ticket = Ticket {
    key: 4096,
    number: 0,
};

/// Returns the single entry of a declaration.
fn single(entry: u16) -> EntryRef {
    EntryRef {
        declaration: entry,
        index: None,
    }
}

/// Returns the entry Wait of the trap with this index.
fn wait(index: i32) -> EntryRef {
    EntryRef {
        declaration: 0,
        index: Some(index),
    }
}

/// What a core is asked to do.
#[derive(Clone, Copy)]
enum Step {
    /// Issue a call of the entry with this value, until the deadline.
    Issue(EntryRef, u64, Deadline),
    /// Run the procedure with this value.
    Run(u64),
    /// Raise the clock to this time.
    Tick(u64),
    /// Cut the history.
    Cut,
    /// Cancel the call with this number.
    Cancel(u64),
    /// Finalize the object.
    Finalize,
    /// Collect the end of a call, by its place among the first calls.
    Collect(usize),
    /// Look at what there is to see.
    Look,
}

impl Step {
    /// Returns whether the step may run out of memory.
    fn takes_memory(self) -> bool {
        matches!(
            self,
            Step::Issue(..) | Step::Run(_) | Step::Tick(_) | Step::Cut
        )
    }
}

/// What the core answers.
#[derive(Clone, Copy, Debug)]
enum Answer {
    /// The call has this number.
    Issued(u64),
    /// The procedure replied this.
    Replied(Result<u64, u32>),
    /// The clock shows this.
    Clock(u64),
    /// The volume begins at this place, and has this many events.
    Volume(u64, usize),
    /// The attempt to cancel a call had this outcome.
    Attempted(Attempt),
    /// The object is finalized.
    Finalized,
    /// The call has ended in this way, if it has.
    Collected(Option<End<u64>>),
    /// This is seen.
    Seen(Snapshot),
}

/// What is seen of a core, and what a refused command may not change.
#[derive(Clone, Copy, Debug, PartialEq, Eq)]
struct Snapshot {
    events: usize,
    ended: usize,
    next: u64,
    clock: u64,
    place: u128,
    base: u64,
    reads: Result<Result<u64, u32>, Refusal>,
    counts: [u64; MOST],
    places: [CallStatus<u64>; MOST],
    outcomes: [Option<End<u64>>; MOST],
}

/// A core under test, with the tickets of its first calls.
#[derive(Drop)]
struct Trial<U: Unit<Value = u64> + Drop> {
    core: Core<U>,
    tickets: [Ticket; MOST],
    issued: usize,
}

impl<U: Unit<Value = u64> + Drop> Trial<U> {
    /// Returns how many calls are queued on the entries with the first flat numbers.
    fn counts(&self) -> [u64; MOST] {
        let mut counts = [0; MOST];
        let shape = self.core.shape();
        for (flat, count) in counts.iter_mut().enumerate() {
            if (flat as u16) < shape.total() {
                *count = self.core.count(shape.of_flat(flat as u16)).unwrap_or(0);
            }
        }
        counts
    }

    /// Returns the status of each call of the tickets.
    fn places(&self) -> [CallStatus<u64>; MOST] {
        let mut places = [CallStatus::Unknown; MOST];
        for (ticket, place) in self.tickets.iter().zip(places.iter_mut()) {
            *place = self.core.end_of(*ticket);
        }
        places
    }

    /// Returns how the first calls ended.
    fn outcomes(&self) -> [Option<End<u64>>; MOST] {
        let mut outcomes = [None; MOST];
        for (n, outcome) in outcomes.iter_mut().enumerate() {
            *outcome = self.core.outcome(n as u64 + 1);
        }
        outcomes
    }

    /// Returns what is seen of the core.
    fn see(&self) -> Snapshot {
        Snapshot {
            events: self.core.events().len(),
            ended: self.core.ended_now().len(),
            next: self.core.next_number(),
            clock: self.core.clock(),
            place: self.core.place(),
            base: self.core.base().place(),
            reads: self.core.function(0, 0),
            counts: self.counts(),
            places: self.places(),
            outcomes: self.outcomes(),
        }
    }

    /// Issues a call, and keeps its ticket.
    fn issue(
        &mut self,
        entry: EntryRef,
        value: u64,
        deadline: Deadline,
    ) -> Result<Answer, Refusal> {
        let ticket = self.core.issue(0, entry, value, deadline)?;
        if self.issued < MOST {
            self.tickets[self.issued] = ticket;
            self.issued += 1;
        }
        Ok(Answer::Issued(ticket.number))
    }

    /// Cuts the history.
    fn cut(&mut self) -> Result<Answer, Refusal> {
        let volume = self.core.cut()?;
        Ok(Answer::Volume(volume.first_place(), volume.events().len()))
    }

    /// Finalizes the object.
    fn finalize(&mut self) -> Result<Answer, Refusal> {
        self.core.finalize()?;
        Ok(Answer::Finalized)
    }

    /// Collects the end of a call.
    fn collect(&mut self, n: usize) -> Option<End<u64>> {
        let ticket = self.tickets.get(n)?;
        self.core.collect(*ticket)
    }

    /// Returns what the core answers to the step.
    fn answer(&mut self, step: Step) -> Result<Answer, Refusal> {
        match step {
            Step::Issue(entry, value, deadline) => self.issue(entry, value, deadline),
            Step::Run(value) => Ok(Answer::Replied(self.core.procedure(0, 0, value)?)),
            Step::Tick(time) => Ok(Answer::Clock(self.core.tick(time)?)),
            Step::Cut => self.cut(),
            Step::Cancel(number) => Ok(Answer::Attempted(self.core.cancel_number(number)?)),
            Step::Finalize => self.finalize(),
            Step::Collect(n) => Ok(Answer::Collected(self.collect(n))),
            Step::Look => Ok(Answer::Seen(self.see())),
        }
    }

    /// Prints the answer, how many events there are, and the calls that the latest command ended.
    fn print<R: Print>(&self, rt: &R, answer: &Result<Answer, Refusal>) -> io::Result<()> {
        println!(rt; "{answer:?} events {}", self.core.events().len())?;
        for call in self.core.ended_now() {
            println!(rt; "ended {} {:?}", call.number, call.end)?;
        }
        Ok(())
    }

    /// Carries out the step, once more if memory runs out, and counts how often it does.
    fn carry_out<R: Print>(
        &mut self,
        rt: &R,
        step: Step,
        refusals: &mut Refusals,
    ) -> io::Result<()> {
        for _ in 0..2 {
            let before = self.see();
            let answer = self.answer(step);
            if !step.takes_memory() || !matches!(answer, Err(Refusal::OutOfMemory)) {
                return self.print(rt, &answer);
            }
            refusals.note(before == self.see());
        }
        println!(rt; "refused twice")
    }

    /// Carries out all steps.
    fn carry_out_all<R: Print>(
        &mut self,
        rt: &R,
        steps: &[Step],
        refusals: &mut Refusals,
    ) -> io::Result<()> {
        for step in steps {
            self.carry_out(rt, *step, refusals)?;
        }
        Ok(())
    }
}

/// Returns a core of a unit of this size, or `None` if memory runs out.
fn make<U: ScriptUnit>(alloc: Global, size: u16, order: Order) -> Option<Core<U>>
    requires { IsSizeWhere U.known.names.is_sized size }
{
    let unit = U::made(alloc, size).ok()?;
    let shape = unit.shape(alloc).ok()?;
    Core::new(alloc, unit, shape, order, 1).ok()
}

/// Does the same, once more if memory runs out, and counts how often it does.
pub(crate) fn make_again<U: ScriptUnit>(
    alloc: Global,
    size: u16,
    order: Order,
    refusals: &mut Refusals,
) -> Option<Core<U>>
    requires { IsSizeWhere U.known.names.is_sized size }
{
    for _ in 0..2 {
        if let Some(core) = make(alloc, size, order) {
            return Some(core);
        }
        refusals.note(true);
    }
    None
}

/// Has a core of the unit carry out the steps, and counts how often memory runs out.
fn try_steps<U: ScriptUnit, R: Print + AllocGlobal>(
    rt: &R,
    size: u16,
    order: Order,
    steps: &[Step],
    refusals: &mut Refusals,
) -> io::Result<()>
    requires { IsSizeWhere U.known.names.is_sized size }
{
    let Some(core) = make_again::<U>(rt.alloc(), size, order, refusals) else {
        return println!(rt; "refused twice");
    };
    let mut trial = Trial {
        core,
        tickets: [STRANGE; MOST],
        issued: 0,
    };
    trial.carry_out_all(rt, steps, refusals)
}

/// Tries calls that wait, expire and are served, in the order of arrival over the entries.
fn on_the_trap<R: Print + AllocGlobal>(rt: &R, refusals: &mut Refusals) -> io::Result<()> {
    let steps = [
        Step::Issue(single(2), 1, Deadline::At(5)),
        Step::Issue(single(2), 2, Deadline::Never),
        Step::Issue(wait(2), 3, Deadline::Never),
        Step::Run(1),
        Step::Tick(5),
        Step::Run(2),
        Step::Issue(wait(3), 4, Deadline::At(0)),
        Step::Run(13),
    ];
    try_steps::<Trap, R>(rt, 1, Order::Oldest, &steps, refusals)
}

/// Tries calls that are cancelled and requeued.
fn on_the_allocator<R: Print + AllocGlobal>(rt: &R, refusals: &mut Refusals) -> io::Result<()> {
    let steps = [
        Step::Issue(single(0), 2, Deadline::Never),
        Step::Issue(single(0), 2, Deadline::Never),
        Step::Cancel(2),
        Step::Issue(single(1), 2, Deadline::Never),
        Step::Cancel(3),
        Step::Run(2),
    ];
    try_steps::<Allocator, R>(rt, 3, Order::Textual, &steps, refusals)
}

/// Tries calls that wait until the object is finalized, and all that takes no memory.
fn on_the_finalized<R: Print + AllocGlobal>(rt: &R, refusals: &mut Refusals) -> io::Result<()> {
    let steps = [
        Step::Issue(single(0), 1, Deadline::Never),
        Step::Issue(single(0), 1, Deadline::Never),
        Step::Issue(single(1), 1, Deadline::Never),
        Step::Issue(single(0), 1, Deadline::At(9)),
        Step::Look,
        Step::Cancel(2),
        Step::Cancel(3),
        Step::Finalize,
        Step::Look,
        Step::Collect(0),
        Step::Collect(1),
        Step::Collect(2),
        Step::Collect(3),
        Step::Look,
    ];
    try_steps::<Allocator, R>(rt, 1, Order::Textual, &steps, refusals)
}

/// Tries a history that is cut while a call waits, when it no longer does, and when there is no event.
fn on_the_buffer<R: Print + AllocGlobal>(rt: &R, refusals: &mut Refusals) -> io::Result<()> {
    let steps = [
        Step::Issue(single(1), 0, Deadline::Never),
        Step::Cut,
        Step::Issue(single(0), 7, Deadline::Never),
        Step::Cut,
        Step::Cut,
    ];
    try_steps::<Buffer, R>(rt, 2, Order::Textual, &steps, refusals)
}

/// Tries each unit, and counts how often memory runs out.
pub(crate) fn run<R: Print + AllocGlobal>(rt: &R, refusals: &mut Refusals) -> io::Result<()> {
    on_the_trap(rt, refusals)?;
    on_the_allocator(rt, refusals)?;
    on_the_finalized(rt, refusals)?;
    on_the_buffer(rt, refusals)
}
