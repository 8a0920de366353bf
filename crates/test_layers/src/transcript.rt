// SPDX-License-Identifier: MIT
//! The answers to commands on a core, as text, for tests. No clause says what a command did here, so a test's proof doesn't
//! depend on it.

use po_classic_units::ScriptUnit;
use po_core::{Attempt, CallStatus, Core, Deadline, End, Event, Order, Refusal, Start, Ticket};
use po_unit::{EntryRef, Shape, ShapeError, Unit};
use std::alloc::Global;
use std::fmt::Write;
use std::process::Abort;
use std::test::Fail;

/// A command on a core, or a look at it.
#[derive(Clone, Copy)]
pub(crate) enum Step {
    Call(EntryRef, u64),
    Timed(u64, EntryRef, u64),
    /// Gives the following calls and procedures this owner.
    By(u16),
    /// Runs procedure 0.
    Procedure(u64),
    /// Runs the procedure with this number.
    Run(u16, u64),
    Function(u64),
    Cancel(u64),
    Tick(u64),
    Finalize,
    /// Adds the calls ended by the latest command that wasn't refused, with their owners.
    EndedNow,
    /// Adds the status of the call of the ticket with this index.
    EndOf(usize),
    /// Collects the end of the call of the ticket with this index.
    Collect(usize),
    Outcome(u64),
    Count(EntryRef),
    CallStatus,
    /// Cuts the history.
    Cut,
    /// Adds the state from which the history replays.
    Base,
}

/// Returns the start of a core whose first call and first event have these numbers, and whose queues may have any length.
pub(crate) fn from(first_number: u64, first_place: u64) -> Start {
    Start {
        first_number,
        first_place,
        max_queue: None,
    }
}

/// Returns the single entry of a declaration.
pub(crate) fn single(entry: u16) -> EntryRef {
    EntryRef {
        declaration: entry,
        index: None,
    }
}

/// A core, the tickets of its calls, and what its commands answered: first the answer, then the calls that ended.
#[derive(Drop)]
struct Transcript<U: Unit<Value = u64> + Drop> {
    core: Core<U>,
    owner: u16,
    tickets: Vec<Ticket>,
    text: String,
}

/// Adds the answer of a refused command.
fn refuse(text: &mut String, refusal: Refusal) -> Result<(), Fail> {
    let number = refusal.number();
    write!(text, "refused {number}; ")?;
    Ok(())
}

/// Adds how a call ended.
fn end(text: &mut String, number: u64, end: End<u64>) -> Result<(), Fail> {
    match end {
        End::Completed(value) => write!(text, ", {number} done {value}")?,
        End::Raised(exception) => write!(text, ", {number} raised {exception}")?,
        End::Cancelled => write!(text, ", {number} cancelled")?,
        End::ProgramError => write!(text, ", {number} program_error")?,
    }
    Ok(())
}

/// Adds an event.
fn event(text: &mut String, event: &Event<u64>) -> Result<(), Fail> {
    match event {
        Event::Issue { .. } => write!(text, "Issue ")?,
        Event::Procedure { .. } => write!(text, "Procedure ")?,
        Event::Cancel(n) => write!(text, "Cancel({n}) ")?,
        Event::Tick(t) => write!(text, "Tick({t}) ")?,
        Event::Finalize => write!(text, "Finalize ")?,
        Event::Serve(e) => write!(text, "Serve({e}) ")?,
        Event::Break(e) => write!(text, "Break({e}) ")?,
        Event::Expire(n) => write!(text, "Expire({n}) ")?,
    }
    Ok(())
}

/// Returns the kinds of the events.
fn events_of(alloc: Global, events: &[Event<u64>]) -> Result<String, Fail> {
    let mut text = String::new(alloc);
    for kind in events {
        event(&mut text, kind)?;
    }
    Ok(text)
}

/// A run on a new core: the order and the start of the core, the steps, what they answer, and what the history has at the end.
#[derive(Clone, Copy)]
pub(crate) struct Run<'a> {
    pub(crate) order: Order,
    pub(crate) start: Start,
    pub(crate) steps: &'a [Step],
    pub(crate) text: &'a str,
    pub(crate) events: &'a str,
}

/// Runs on a new core over a unit that comes with the runtime.
pub(crate) fn run_on<R: Abort + AllocGlobal, U: ScriptUnit>(
    rt: &R,
    unit: U,
    run: Run,
) -> Result<(), Fail> {
    let shape = unit.shape(rt.alloc());
    run_with(rt, unit, shape, run)
}

/// Runs on a new core over a unit of this shape, and compares the answers and the history with what is wanted.
pub(crate) fn run_with<R: Abort + AllocGlobal, U: Unit<Value = u64> + Drop>(
    rt: &R,
    unit: U,
    shape: Result<Shape, ShapeError>,
    run: Run,
) -> Result<(), Fail> {
    let mut transcript = Transcript {
        core: Core::start(rt.alloc(), unit, shape?, run.order, run.start)?,
        owner: 0,
        tickets: Vec::new(rt.alloc()),
        text: String::new(rt.alloc()),
    };
    transcript.compare(rt, run)
}

impl<U: Unit<Value = u64> + Drop> Transcript<U> {
    fn compare<R: Abort + AllocGlobal>(&mut self, rt: &R, run: Run) -> Result<(), Fail> {
        for step in run.steps {
            self.step(*step)?;
        }
        assert_eq!(rt; self.text.as_str(), run.text);
        let kinds = events_of(rt.alloc(), self.core.events())?;
        assert_eq!(rt; kinds.as_str(), run.events);
        Ok(())
    }

    fn step(&mut self, step: Step) -> Result<(), Fail> {
        match step {
            Step::Call(entry, value) => self.issue(entry, value, Deadline::Never),
            Step::Timed(time, entry, value) => self.issue(entry, value, Deadline::At(time)),
            Step::Procedure(value) => self.run(0, value),
            Step::Run(op, value) => self.run(op, value),
            Step::Function(value) => self.function(value),
            Step::Cancel(n) => self.cancel(n),
            Step::Tick(time) => self.tick(time),
            Step::Finalize => self.finalize(),
            Step::Cut => self.cut(),
            Step::By(owner) => {
                self.owner = owner;
                Ok(())
            }
            _ => self.look(step),
        }
    }

    fn look(&mut self, step: Step) -> Result<(), Fail> {
        match step {
            Step::EndedNow => self.ended_now(),
            Step::EndOf(index) => self.end_of(index),
            Step::Collect(index) => self.collect(index),
            Step::Outcome(n) => {
                let outcome = self.core.outcome(n);
                self.ending(n, outcome)
            }
            Step::Count(entry) => self.count(entry),
            Step::Base => self.base(),
            _ => {
                let place = self.core.place();
                write!(self.text, "place {place}; ")?;
                Ok(())
            }
        }
    }

    /// Adds the calls that the latest command ended.
    fn ended(&mut self) -> Result<(), Fail> {
        for call in self.core.ended_now() {
            end(&mut self.text, call.number, call.end)?;
        }
        write!(self.text, "; ")?;
        Ok(())
    }

    /// Adds the calls ended by the latest command that wasn't refused, with their owners.
    fn ended_now(&mut self) -> Result<(), Fail> {
        write!(self.text, "now")?;
        for call in self.core.ended_now() {
            end(&mut self.text, call.number, call.end)?;
            write!(self.text, " of {}", call.owner)?;
        }
        write!(self.text, "; ")?;
        Ok(())
    }

    fn issue(&mut self, entry: EntryRef, value: u64, deadline: Deadline) -> Result<(), Fail> {
        match self.core.issue(self.owner, entry, value, deadline) {
            Ok(ticket) => {
                let number = ticket.number;
                self.tickets.push(ticket)?;
                write!(self.text, "#{number}")?;
                self.ended()
            }
            Err(refusal) => refuse(&mut self.text, refusal),
        }
    }

    fn run(&mut self, op: u16, value: u64) -> Result<(), Fail> {
        match self.core.procedure(self.owner, op, value) {
            Ok(Ok(reply)) => write!(self.text, "done {reply}")?,
            Ok(Err(exception)) => write!(self.text, "raised {exception}")?,
            Err(refusal) => return refuse(&mut self.text, refusal),
        }
        self.ended()
    }

    fn function(&mut self, value: u64) -> Result<(), Fail> {
        match self.core.function(0, value) {
            Ok(Ok(reply)) => write!(self.text, "value {reply}; ")?,
            Ok(Err(exception)) => write!(self.text, "raised {exception}; ")?,
            Err(refusal) => refuse(&mut self.text, refusal)?,
        }
        Ok(())
    }

    fn cancel(&mut self, n: u64) -> Result<(), Fail> {
        match self.core.cancel_number(n) {
            Ok(Attempt::Cancelled) => write!(self.text, "cancelled")?,
            Ok(Attempt::Kept) => write!(self.text, "kept")?,
            Err(refusal) => return refuse(&mut self.text, refusal),
        }
        self.ended()
    }

    fn tick(&mut self, time: u64) -> Result<(), Fail> {
        match self.core.tick(time) {
            Ok(clock) => write!(self.text, "clock {clock}")?,
            Err(refusal) => return refuse(&mut self.text, refusal),
        }
        self.ended()
    }

    fn finalize(&mut self) -> Result<(), Fail> {
        match self.core.finalize() {
            Ok(()) => write!(self.text, "final")?,
            Err(refusal) => return refuse(&mut self.text, refusal),
        }
        self.ended()
    }

    fn cut(&mut self) -> Result<(), Fail> {
        match self.core.cut() {
            Ok(volume) => {
                write!(self.text, "volume {}: ", volume.first_place())?;
                for kind in volume.events() {
                    event(&mut self.text, kind)?;
                }
                write!(self.text, "; ")?;
            }
            Err(refusal) => refuse(&mut self.text, refusal)?,
        }
        Ok(())
    }

    fn base(&mut self) -> Result<(), Fail> {
        let base = self.core.base();
        write!(self.text, "base {}: ", base.place())?;
        for arrival in base.waiting() {
            write!(self.text, "{} at {} ", arrival.call.number, arrival.place)?;
        }
        write!(self.text, "ended {}", base.ended())?;
        for ended in self.core.ended_at_base() {
            end(&mut self.text, ended.number, ended.end)?;
        }
        write!(
            self.text,
            " next {} clock {} ran {} last {:?} finalized {}; ",
            base.next_number(),
            base.clock(),
            base.ran(),
            base.last(),
            base.is_finalized()
        )?;
        Ok(())
    }

    fn ending(&mut self, n: u64, ending: Option<End<u64>>) -> Result<(), Fail> {
        match ending {
            Some(how) => {
                write!(self.text, "some")?;
                end(&mut self.text, n, how)?;
                write!(self.text, "; ")?;
            }
            None => write!(self.text, "none; ")?,
        }
        Ok(())
    }

    fn end_of(&mut self, index: usize) -> Result<(), Fail> {
        let ticket = *self.tickets.get(index).ok_or("no such ticket")?;
        match self.core.end_of(ticket) {
            CallStatus::Unknown => write!(self.text, "unknown; ")?,
            CallStatus::Waiting => write!(self.text, "waiting; ")?,
            CallStatus::Ended(how) => {
                write!(self.text, "ended")?;
                end(&mut self.text, ticket.number, how)?;
                write!(self.text, "; ")?;
            }
        }
        Ok(())
    }

    fn collect(&mut self, index: usize) -> Result<(), Fail> {
        let ticket = *self.tickets.get(index).ok_or("no such ticket")?;
        let ending = self.core.collect(ticket);
        self.ending(ticket.number, ending)
    }

    fn count(&mut self, entry: EntryRef) -> Result<(), Fail> {
        match self.core.count(entry) {
            Ok(number) => write!(self.text, "count {number}; ")?,
            Err(refusal) => refuse(&mut self.text, refusal)?,
        }
        Ok(())
    }
}
