// SPDX-License-Identifier: MIT
//! An object of a scene between two commands.

ghost use Rattle.std.specs.Prelude.{◌≡◌, ◌⊎◌, ◌∷◌, ◌++◌, [], ℕ, List, Some, false, is_some, find, replicate, option_map, map, IfOk, IfErr, OnOk};
ghost use Rattle.po_engine.specs.WaitingCalls.{is_of};
ghost use Rattle.po_core.specs.View.{ended_now};
ghost use Rattle.po_core.specs.Refusals.{finalized_refusal};
ghost use Rattle.po_ada_unit.specs.Object.{ada_meaning};
ghost use Rattle.po_explore.specs.News.{news as the_news, end_news, operation_news, asking_news, abort_news, tick_news};
ghost use Rattle.po_explore.specs.Scenes.{IsOpening, CantBeMade};
ghost use Rattle.po_explore.specs.Commands.{is_want, value_cells, no_values, after_operation, after_asking, after_abort, function_holds};

use crate::key::{Key, key_of};
use crate::news::{Event, News};
use po_ada_language::{Operation, Stop, no_object};
use po_ada_names::ObjectNames;
use po_ada_script::{failed_precondition, shape_of, smaller};
use po_ada_unit::{AdaUnit, Values};
use po_core::{BoundedCore, Core, Deadline, Ended, MakeError, Refusal, Start, Ticket};
use po_scene::SceneObject;
use po_unit::{EntryRef, Unit};
use std::alloc::{AllocError, Global};

/// The fault of a text whose names don't fit its program.
const MISMATCH: &str = "the names of the entries don't fit the program";

/// An object of a scene, and the tickets of the calls that wait on it.
#[derive(Drop)]
pub(crate) struct Object {
    core: BoundedCore<AdaUnit>,
    /// How many callers the scene has.
    callers: u16,
    /// By caller: the ticket of its call, if that waits here.
    tickets: Vec<Option<Ticket>>,
}

/// Makes the core of the object, with memory for this many calls at once.
fn core_of(
    alloc: Global,
    object: &SceneObject,
    capacity: usize,
) -> Result<BoundedCore<AdaUnit>, Stop>
    ensures opens { IfOk result (λ core. IsOpening object.now core.object) }
    ensures fails { IfErr result (λ stop. (stop ≡ Stop.OutOfMemory) ⊎ CantBeMade object.now) }
{
    let shape = shape_of(alloc, object.names.entries.as_slice())?;
    let start = Start {
        first_number: 1,
        first_place: 0,
        max_queue: smaller(object.names.max_queue, object.max_queue),
    };
    let unit = object.unit.copy()?;
    match Core::with_capacity(alloc, unit, shape, object.order, start, capacity) {
        Ok(core) => Ok(core),
        Err(MakeError::OutOfMemory) => Err(Stop::OutOfMemory),
        Err(MakeError::ShapeMismatch) => Err(no_object(alloc, MISMATCH)),
    }
}

/// Returns a refusal that is told. Running out of memory, of room for calls or of numbers is an error instead.
fn told(refusal: Refusal) -> Result<Refusal, AllocError>
    ensures told { OnOk result (is_want refusal ≡ false) }
    ensures same { IfOk result (λ same. same ≡ refusal) }
{
    match refusal {
        Refusal::OutOfMemory | Refusal::TooManyCalls | Refusal::NumbersSpent => Err(AllocError),
        _ => Ok(refusal),
    }
}

/// Adds what a caller is told.
fn push_event(caller: u16, event: Event, news: &mut Vec<News>) -> Result<(), AllocError>
    ensures { OnOk result (news.new.items ≡ news.old.items ++ the_news caller event ∷ []) }
{
    news.push(News { caller, event })?;
    Ok(())
}

/// Adds how these calls have ended.
fn push_ends(all: &[Ended<Values>], news: &mut Vec<News>) -> Result<(), AllocError>
    ensures { OnOk result (news.new.items ≡ news.old.items ++ map end_news all.now) }
{
    for ended in all {
        push_event(ended.owner, Event::Ended(ended.end), news)?;
    }
    Ok(())
}

/// Adds a refusal of a caller's operation, if it is told.
fn push_refused(caller: u16, refusal: Refusal, news: &mut Vec<News>) -> Result<(), AllocError>
    ensures told { OnOk result (is_want refusal ≡ false) }
    ensures added { OnOk result (news.new.items ≡ news.old.items ++ the_news caller (Event.Refused refusal) ∷ []) }
{
    push_event(caller, Event::Refused(told(refusal)?), news)
}

impl Object {
    /// Makes an object of a scene with this many callers.
    pub(crate) fn new(alloc: Global, object: &SceneObject, callers: u16) -> Result<Object, Stop>
        ensures opens { IfOk result (λ made. IsOpening object.now made.core.object) }
        ensures fails { IfErr result (λ stop. (stop ≡ Stop.OutOfMemory) ⊎ CantBeMade object.now) }
    {
        let capacity = usize::from(callers);
        let core = core_of(alloc, object, capacity)?;
        match Vec::from_elem(alloc, None, capacity) {
            Ok(tickets) => Ok(Object {
                core,
                callers,
                tickets,
            }),
            Err(_) => Err(Stop::OutOfMemory),
        }
    }

    /// Returns an equal object.
    pub(crate) fn copy(&self, alloc: Global) -> Result<Object, AllocError>
        ensures { IfOk result (λ copy. copy.core ≡ self.now.core) }
    {
        Ok(Object {
            core: self.core.copy()?,
            callers: self.callers,
            tickets: Vec::from_slice(alloc, self.tickets.as_slice())?,
        })
    }

    /// Returns whether a call of the caller waits here.
    pub(crate) fn has_call_of(&self, caller: u16) -> bool
        ensures { result ≡ is_some (find (is_of caller) self.now.core.object.state.waiting) }
    {
        self.core.waiting_number_of(caller).is_some()
    }

    /// Returns the number of the caller's call that waits here, if one does.
    pub(crate) fn waiting_number(&self, caller: u16) -> Option<u64>
        ensures { result ≡ option_map (λ x. x.number) (find (is_of caller) self.now.core.object.state.waiting) }
    {
        self.core.waiting_number_of(caller)
    }

    /// Collects the call of the caller, if it has ended.
    fn collect_of(&mut self, caller: u16)
        ensures { self.new.core.object ≡ self.old.core.object }
    {
        if let Some(kept) = self.tickets.get_mut(usize::from(caller))
            && let Some(ticket) = *kept
            && self.core.collect(ticket).is_some()
        {
            *kept = None;
        }
    }

    /// Collects all calls that have ended, so that there is room for others.
    fn collect(&mut self)
        ensures { self.new.core.object ≡ self.old.core.object }
    {
        for caller in 0..self.callers {
            self.collect_of(caller);
        }
    }

    /// Adds how the calls ended that the last command ended, and collects them.
    fn end(&mut self, news: &mut Vec<News>) -> Result<(), AllocError>
        ensures object { OnOk result (self.new.core.object ≡ self.old.core.object) }
        ensures told { OnOk result (news.new.items ≡ news.old.items ++ map end_news (ended_now self.old.core.object)) }
    {
        push_ends(self.core.ended_now(), news)?;
        self.collect();
        Ok(())
    }

    /// Issues a call, and adds what that brings about.
    #[tactic(auto, using(crate::proofs::Refused::call_refused_or, crate::proofs::Refused::let_pass))]
    fn call(
        &mut self,
        caller: u16,
        entry: EntryRef,
        value: Values,
        deadline: Deadline,
        news: &mut Vec<News>,
    ) -> Result<(), AllocError>
        ensures object { OnOk result (self.new.core.object ≡ after_operation ada_meaning self.old.core.object caller (Operation.Call entry value deadline)) }
        ensures told { OnOk result (news.new.items ≡ news.old.items ++ operation_news self.old.core.object caller (Operation.Call entry value deadline)) }
    {
        match self.core.issue(caller, entry, value, deadline) {
            Ok(ticket) => {
                if let Some(kept) = self.tickets.get_mut(usize::from(caller)) {
                    *kept = Some(ticket);
                }
                self.end(news)
            }
            Err(refusal) => push_refused(caller, refusal, news),
        }
    }

    /// Runs a procedure, and adds what that brings about.
    #[tactic(auto, using(crate::proofs::Refused::refused_or))]
    fn procedure(
        &mut self,
        caller: u16,
        op: u16,
        value: Values,
        news: &mut Vec<News>,
    ) -> Result<(), AllocError>
        ensures object { OnOk result (self.new.core.object ≡ after_operation ada_meaning self.old.core.object caller (Operation.Procedure op value)) }
        ensures told { OnOk result (news.new.items ≡ news.old.items ++ operation_news self.old.core.object caller (Operation.Procedure op value)) }
    {
        match self.core.procedure(caller, op, value) {
            Ok(reply) => {
                push_event(caller, Event::Replied(reply), news)?;
                self.end(news)
            }
            Err(refusal) => push_refused(caller, refusal, news),
        }
    }

    /// Calls a function, and adds its reply. Nothing changes.
    fn function(
        &self,
        caller: u16,
        op: u16,
        value: Values,
        news: &mut Vec<News>,
    ) -> Result<(), AllocError>
        ensures { OnOk result (news.new.items ≡ news.old.items ++ operation_news self.now.core.object caller (Operation.Function op value)) }
    {
        match self.core.function(op, value) {
            Ok(reply) => push_event(caller, Event::Replied(reply), news),
            Err(refusal) => push_refused(caller, refusal, news),
        }
    }

    /// Raises the clock, and adds what that brings about. Returns the refusal, if there is one.
    #[tactic(auto, using(crate::proofs::Refused::tick_refused_or, crate::proofs::Refused::let_pass))]
    fn raise_clock(
        &mut self,
        time: u64,
        news: &mut Vec<News>,
    ) -> Result<Option<Refusal>, AllocError>
        // Whose tick it is changes nothing.
        ensures object { OnOk result (self.new.core.object ≡ after_operation ada_meaning self.old.core.object 0 (Operation.Tick time)) }
        ensures told { OnOk result (news.new.items ≡ news.old.items ++ tick_news time self.old.core.object) }
        ensures refused { IfOk result (λ refusal. refusal ≡ finalized_refusal self.old.core.object) }
    {
        match self.core.tick(time) {
            Ok(_clock) => {
                self.end(news)?;
                Ok(None)
            }
            Err(refusal) => Ok(Some(told(refusal)?)),
        }
    }

    /// Raises the clock for a caller, and adds what that brings about.
    fn tick_of(&mut self, caller: u16, time: u64, news: &mut Vec<News>) -> Result<(), AllocError>
        ensures object { OnOk result (self.new.core.object ≡ after_operation ada_meaning self.old.core.object caller (Operation.Tick time)) }
        ensures told { OnOk result (news.new.items ≡ news.old.items ++ operation_news self.old.core.object caller (Operation.Tick time)) }
    {
        match self.raise_clock(time, news)? {
            Some(refusal) => push_event(caller, Event::Refused(refusal), news),
            None => Ok(()),
        }
    }

    /// Finalizes the object, and adds what that brings about.
    fn finalize(&mut self, caller: u16, news: &mut Vec<News>) -> Result<(), AllocError>
        ensures object { OnOk result (self.new.core.object ≡ after_operation ada_meaning self.old.core.object caller Operation.Finalize) }
        ensures told { OnOk result (news.new.items ≡ news.old.items ++ operation_news self.old.core.object caller Operation.Finalize) }
    {
        match self.core.finalize() {
            Ok(()) => self.end(news),
            Err(refusal) => push_event(caller, Event::Refused(refusal), news),
        }
    }

    /// Carries out the operation of a caller, and adds what it brings about.
    fn carry_out(
        &mut self,
        caller: u16,
        operation: Operation<Values>,
        news: &mut Vec<News>,
    ) -> Result<(), AllocError>
        ensures object { OnOk result (self.new.core.object ≡ after_operation ada_meaning self.old.core.object caller operation) }
        ensures told { OnOk result (news.new.items ≡ news.old.items ++ operation_news self.old.core.object caller operation) }
    {
        match operation {
            Operation::Call {
                entry,
                value,
                deadline,
            } => self.call(caller, entry, value, deadline, news),
            Operation::Procedure { op, value } => self.procedure(caller, op, value, news),
            Operation::Function { op, value } => self.function(caller, op, value, news),
            Operation::Tick(time) => self.tick_of(caller, time, news),
            Operation::Finalize => self.finalize(caller, news),
            Operation::Cancel(_) | Operation::Show => Ok(()),
        }
    }

    /// Carries out the operation of a caller, unless a precondition fails, and adds what it brings about.
    pub(crate) fn operate(
        &mut self,
        names: &ObjectNames,
        caller: u16,
        operation: Operation<Values>,
        news: &mut Vec<News>,
    ) -> Result<(), AllocError>
        ensures object { OnOk result (self.new.core.object ≡ after_asking ada_meaning value_cells names.now.entries.items self.old.core.object caller operation) }
        ensures told { OnOk result (news.new.items ≡ news.old.items ++ asking_news names.now.entries.items self.old.core.object caller operation) }
    {
        match failed_precondition(&self.core, names, &operation) {
            Some(exception) => push_event(caller, Event::Failed(exception), news),
            None => self.carry_out(caller, operation, news),
        }
    }

    /// Raises the clock, unless the object is finalized, and adds what that brings about.
    pub(crate) fn tick(&mut self, time: u64, news: &mut Vec<News>) -> Result<(), AllocError>
        // Whose tick it is changes nothing.
        ensures object { OnOk result (self.new.core.object ≡ after_operation ada_meaning self.old.core.object 0 (Operation.Tick time)) }
        ensures told { OnOk result (news.new.items ≡ news.old.items ++ tick_news time self.old.core.object) }
    {
        self.raise_clock(time, news)?;
        Ok(())
    }

    /// Tries to cancel the call of the caller, if it waits here (9.5.3), and adds what that brings about.
    pub(crate) fn abort(&mut self, caller: u16, news: &mut Vec<News>) -> Result<(), AllocError>
        ensures object { OnOk result (self.new.core.object ≡ after_abort ada_meaning self.old.core.object caller) }
        ensures told { OnOk result (news.new.items ≡ news.old.items ++ abort_news caller self.old.core.object) }
    {
        let Some(ticket) = self.core.waiting_ticket_of(caller) else {
            return Ok(());
        };
        match self.core.cancel(ticket) {
            Ok(_attempt) => self.end(news),
            Err(_refusal) => Err(AllocError),
        }
    }

    /// Returns whether the function with this number, the object's invariant, is True. It can't be called if the object is finalized,
    /// and counts as True then.
    pub(crate) fn holds(&self, op: u16) -> bool
        ensures { result ≡ function_holds ada_meaning value_cells self.now.core.object op no_values }
    {
        match self.core.function(op, Values::new([0; 8])) {
            Ok(Ok(value)) => value.cells[0] != 0,
            Ok(Err(_)) => false,
            Err(_) => true,
        }
    }

    /// Returns the object's data.
    pub(crate) fn cells(&self) -> &[i128]
        ensures { result.now ≡ self.now.core.object.state.unit.cells }
    {
        self.core.unit().cells()
    }

    /// Returns what tells this object apart from others with the same text.
    pub(crate) fn key(&self, alloc: Global) -> Result<Key, AllocError> {
        key_of(alloc, &self.core)
    }
}
