// SPDX-License-Identifier: MIT
//! A protected object between two protected actions: its core, which carries out every operation on it.

ghost use Rattle.std.specs.Prelude.{◌≡◌, ◌∷◌, ◌++◌, [], map, slice_index, find, option_map, None, Some, Option, true, IfOk, IfErr, IfNone, IfSome, is_some, OnSome, MatchResult, OnOk, OnErr};
ghost use Rattle.po_unit.specs.Numbering.{flat_number, is_public};
ghost use Rattle.po_engine.specs.Tickets.{number_at, is_live, SetsTicket};
ghost use Rattle.po_engine.specs.WaitingCalls.{has_number, is_of};
ghost use Rattle.po_engine.specs.ObjectState.{counts_in};
ghost use Rattle.po_core.specs.View.{ended_now, last_served, next_place};
ghost use Rattle.po_core.specs.ProtectedAction.{IsProtectedAction, IsAttemptOf, after_action, after_attempt, attempt_answer};
ghost use Rattle.po_core.specs.Commands.{entry_of, issue_of, reply_of};
ghost use Rattle.po_core.specs.Headline.{Headline};
ghost use Rattle.po_core.specs.Cutting.{KeepsVolumes, AreVolumes};
ghost use Rattle.po_core.specs.Tickets.{status_of_ticket, end_of_ticket, AreIssued};
ghost use Rattle.po_core.specs.Refusals.{MayRefuse, entry_refusal, call_refusal, procedure_refusal, function_refusal, cancel_refusal, tick_refusal, finalized_refusal, count_refusal};
ghost use Rattle.po_core.specs.declared.refusal.Refusal.{Refusal};

use crate::Attempt;
use crate::core_in_action::CoreInAction;
use crate::record::Record;
use crate::recorded::Recorded;
use crate::refusal::Refusal;
use crate::unrecorded::Unrecorded;
use po_calls::{Call, CallStatus, Deadline, End, Ticket};
use po_engine::{Arrival, Ended};
use po_history::Event;
use po_queues::Order;
use po_unit::{EntryRef, Shape, Unit};
use std::alloc::AllocError;
use std::marker::Model;

/// The core of a protected object (9.4), with a record of what has happened: in memory, or for proofs alone.
///
/// Each command is one protected action of one thread: its own event, and then the servicing of the entry queues (9.5.1,
/// 9.5.3). Between two commands the headline holds, which `headline` states.
#[derive(Drop)]
pub struct Core<U: Unit, R: Record<U> = Recorded<U>> {
    pub(crate) in_action: CoreInAction<U, R>,
}

/// A core that takes all its memory when it is made, and keeps no record: only proofs know its history. The number of calls
/// that may be uncollected at once is fixed.
pub type BoundedCore<U> = Core<U, Unrecorded<U>>;

impl<U: Unit, R: Record<U>> Model for Core<U, R> {
    ghost use Rattle.po_engine.specs.ObjectState.{IsAtRest};
    ghost use Rattle.po_core.specs.Tickets.{CoreView, AreIssued as TicketsAreIssued};

    ghost Value = { CoreView U U.Value };

    ghost view = { λ c. c.in_action };

    ghost invariant = { λ c. record {
      rest : IsAtRest U.meaning c.in_action.object.state;
      issued : TicketsAreIssued c.in_action;
    } };
}

impl<U: Unit, R: Record<U>> Core<U, R> {
    /// Issues a call on an entry (9.5.3).
    ///
    /// Refused as `NoSuchEntry`, `PrivateEntry`, `BadIndex`, `Finalized` or `NumbersSpent`; also as `TooManyCalls` if the
    /// number of calls is fixed, and as `OutOfMemory` if it isn't.
    pub fn issue(
        &mut self,
        owner: u16,
        entry: EntryRef,
        value: U::Value,
        deadline: Deadline,
    ) -> Result<Ticket, Refusal>
        ensures after { OnOk result (self.new.object ≡
            after_action U.meaning self.old.object (issue_of self.old.object owner entry value deadline)) }
        ensures number { IfOk result (λ ticket. ticket.number ≡ self.old.object.state.next) }
        // No uncollected call had the key of the ticket.
        ensures key { IfOk result (λ ticket. number_at self.old.tickets ticket.key ≡ None) }
        ensures ticket { IfOk result (λ ticket.
            SetsTicket self.old.tickets self.new.tickets ticket.key (Some ticket.number)) }
        ensures capacity { self.new.capacity ≡ self.old.capacity }
        ensures volumes { OnOk result (KeepsVolumes U.meaning self.old.object self.new.object) }
        ensures action { OnOk result (IsProtectedAction U.meaning self.old.object self.new.object
            (issue_of self.old.object owner entry value deadline)) }
        ensures allowed { OnOk result (call_refusal self.old entry ≡ None) }
        ensures refused { IfErr result (MayRefuse self.old.capacity (call_refusal self.old entry)) }
        ensures unchanged { OnErr result (self.new ≡ self.old) }
    {
        let e = self.entry_from_outside(entry)?;
        if self.in_action.state().is_finalized() {
            return Err(Refusal::Finalized);
        }
        self.in_action.recall_invariant();
        if self.in_action.state().next_number() == u64::MAX {
            return Err(Refusal::NumbersSpent);
        }
        let ticket = self.in_action.issue(owner, e, value, deadline)?;
        self.in_action.settle();
        Ok(ticket)
    }

    /// Runs a protected procedure (9.5.1). Its reply is a value, or the number of the exception that it propagates.
    ///
    /// Refused as `NoSuchOperation`, `Finalized` or `NumbersSpent`; also as `OutOfMemory` if the number of calls isn't fixed.
    pub fn procedure(
        &mut self,
        owner: u16,
        op: u16,
        value: U::Value,
    ) -> Result<Result<U::Value, u32>, Refusal>
        ensures after { IfOk result (λ reply. self.new ≡ record self.old {
          object = after_action U.meaning self.old.object (Event.Procedure owner op value reply);
        }) }
        ensures reply { IfOk result (λ reply. reply ≡ reply_of U.meaning self.old.object op value) }
        ensures volumes { OnOk result (KeepsVolumes U.meaning self.old.object self.new.object) }
        ensures action { IfOk result (λ reply.
            IsProtectedAction U.meaning self.old.object self.new.object (Event.Procedure owner op value reply)) }
        ensures allowed { OnOk result (procedure_refusal U.meaning self.old.object op ≡ None) }
        ensures refused { IfErr result (MayRefuse self.old.capacity (procedure_refusal U.meaning self.old.object op)) }
        ensures unchanged { OnErr result (self.new ≡ self.old) }
    {
        if op >= self.in_action.state().procedures() {
            return Err(Refusal::NoSuchOperation);
        }
        if self.in_action.state().is_finalized() {
            return Err(Refusal::Finalized);
        }
        if self.in_action.place() >= u128::from(u64::MAX) {
            return Err(Refusal::NumbersSpent);
        }
        self.in_action.recall_invariant();
        let reply = self.in_action.procedure(owner, op, value)?;
        self.in_action.settle();
        Ok(reply)
    }

    /// Returns what a protected function replies (9.5.1). Nothing changes, and no memory is taken.
    ///
    /// Refused as `NoSuchOperation` or `Finalized`.
    pub fn function(&self, op: u16, value: U::Value) -> Result<Result<U::Value, u32>, Refusal>
        ensures reply { IfOk result (λ reply. reply ≡
            U.meaning.function self.now.object.state.unit op value
            (counts_in U.meaning self.now.object.state)) }
        ensures refused { MatchResult result
            (λ _. function_refusal U.meaning self.now.object op ≡ None)
            (λ r. function_refusal U.meaning self.now.object op ≡ Some r) }
    {
        if op >= self.in_action.state().functions() {
            return Err(Refusal::NoSuchOperation);
        }
        if self.in_action.state().is_finalized() {
            return Err(Refusal::Finalized);
        }
        Ok(self.in_action.state().function(op, value))
    }

    /// Attempts to cancel the call of a ticket (9.5.3, 9.5.4). No memory is taken.
    ///
    /// Refused as `UnknownCall` if the ticket is of no uncollected call, and as `AlreadyEnded` if the call has ended.
    pub fn cancel(&mut self, ticket: Ticket) -> Result<Attempt, Refusal>
        ensures after { OnOk result (self.new ≡ record self.old {
          object = after_attempt U.meaning self.old.object ticket.number;
        }) }
        ensures answer { IfOk result (λ aborted. aborted ≡ attempt_answer self.old.object ticket.number) }
        ensures volumes { OnOk result (KeepsVolumes U.meaning self.old.object self.new.object) }
        ensures action { OnOk result (IsAttemptOf U.meaning self.old.object self.new.object ticket.number) }
        ensures refused { MatchResult result
            (λ _. cancel_refusal (status_of_ticket self.old ticket) ≡ None)
            (λ r. cancel_refusal (status_of_ticket self.old ticket) ≡ Some r) }
        ensures unchanged { OnErr result (self.new ≡ self.old) }
    {
        let call = self.in_action.cancellable(ticket)?;
        Ok(self.cancel_waiting(ticket, call))
    }

    /// Attempts to cancel this waiting call.
    pub(crate) fn cancel_waiting(&mut self, ticket: Ticket, call: Call<U::Value>) -> Attempt
        requires live { is_live self.old.tickets ticket ≡ true }
        requires found { find (has_number ticket.number) self.old.object.state.waiting ≡ Some call }
        ensures after { self.new ≡ record self.old {
          object = after_attempt U.meaning self.old.object ticket.number;
        } }
        ensures answer { result ≡ attempt_answer self.old.object ticket.number }
        ensures volumes { KeepsVolumes U.meaning self.old.object self.new.object }
        ensures action { IsAttemptOf U.meaning self.old.object self.new.object ticket.number }
    {
        self.in_action.recall_invariant();
        if !call.without_abort {
            self.in_action.attempt_cancel(ticket);
            self.in_action.settle();
            return Attempt::Cancelled;
        }
        if call.aborted {
            self.in_action.pass();
        } else {
            self.in_action.attempt_cancel(ticket);
        }
        Attempt::Kept
    }

    /// Raises the clock to t if it is lower, and returns the clock.
    ///
    /// Refused as `Finalized`; also as `NumbersSpent` if the number of calls is fixed, and as `OutOfMemory` if it isn't.
    pub fn tick(&mut self, t: u64) -> Result<u64, Refusal>
        ensures after { OnOk result (self.new ≡ record self.old {
          object = after_action U.meaning self.old.object (Event.Tick t);
        }) }
        ensures clock { IfOk result (λ clock. clock ≡ self.new.object.state.clock) }
        ensures volumes { OnOk result (KeepsVolumes U.meaning self.old.object self.new.object) }
        ensures action { OnOk result (
            IsProtectedAction U.meaning self.old.object self.new.object (Event.Tick t)) }
        ensures allowed { OnOk result (tick_refusal self.old ≡ None) }
        ensures refused { IfErr result (MayRefuse self.old.capacity (tick_refusal self.old)) }
        ensures unchanged { OnErr result (self.new ≡ self.old) }
    {
        if self.in_action.state().is_finalized() {
            return Err(Refusal::Finalized);
        }
        self.in_action.recall_invariant();
        self.in_action.tick(t)?;
        self.in_action.settle();
        Ok(self.clock())
    }

    /// Finalizes the object: Program_Error is raised at each queued call (9.4). No memory is taken.
    ///
    /// Refused as `Finalized`.
    pub fn finalize(&mut self) -> Result<(), Refusal>
        ensures after { OnOk result (self.new ≡ record self.old {
          object = after_action U.meaning self.old.object Event.Finalize;
        }) }
        ensures volumes { OnOk result (KeepsVolumes U.meaning self.old.object self.new.object) }
        ensures action { OnOk result (
            IsProtectedAction U.meaning self.old.object self.new.object Event.Finalize) }
        ensures alone { OnOk result (self.new.object.events ≡ self.old.object.events ++ Event.Finalize ∷ []) }
        ensures refused { MatchResult result
            (λ _. finalized_refusal self.old.object ≡ None)
            (λ r. finalized_refusal self.old.object ≡ Some r) }
        ensures unchanged { OnErr result (self.new ≡ self.old) }
    {
        if self.in_action.state().is_finalized() {
            return Err(Refusal::Finalized);
        }
        self.in_action.recall_invariant();
        self.in_action.finalize();
        Ok(())
    }

    /// Returns whether the call of a ticket waits, has ended or is unknown.
    pub fn end_of(&self, ticket: Ticket) -> CallStatus<U::Value>
        ensures { result ≡ status_of_ticket self.now ticket }
    {
        self.in_action.status_of(ticket)
    }

    /// Takes the end of the call of a ticket, if it has ended, and makes the ticket Unknown for good. Otherwise nothing
    /// changes.
    pub fn collect(&mut self, ticket: Ticket) -> Option<End<U::Value>>
        ensures end { result ≡ end_of_ticket self.old ticket }
        ensures object { self.new.object ≡ self.old.object }
        ensures taken { OnSome result (SetsTicket self.old.tickets self.new.tickets ticket.key None) }
        ensures capacity { self.new.capacity ≡ self.old.capacity }
        ensures left { IfNone result (self.new ≡ self.old) }
    {
        self.in_action.collect(ticket)
    }

    /// Returns how many calls are queued on an entry: the attribute Count (9.9). Private entries have a count too.
    ///
    /// Refused as `NoSuchEntry` or `BadIndex`.
    pub fn count(&self, entry: EntryRef) -> Result<u64, Refusal>
        ensures count { IfOk result (λ n. n ≡
            slice_index (counts_in U.meaning self.now.object.state)
            (entry_of self.now.object.setup.shape entry)) }
        ensures refused { MatchResult result
            (λ _. count_refusal self.now.object entry ≡ None)
            (λ r. count_refusal self.now.object entry ≡ Some r) }
    {
        let e = self.in_action.setup().shape().flat(entry)?;
        self.in_action.recall_invariant();
        Ok(self.in_action.state().count(e))
    }

    /// Returns the queued calls with the places at which they were queued, in order of arrival. Fails only if memory runs out.
    pub fn arrivals(&self) -> Result<Vec<Arrival<U::Value>>, AllocError>
        ensures { IfOk result (λ list. map (λ a. a.call) list.items ≡ self.now.object.state.waiting) }
    {
        self.in_action.state().arrivals()
    }

    /// Returns the calls that were ended by the last command that wasn't refused, in the order in which they ended.
    pub fn ended_now(&self) -> &[Ended<U::Value>]
        ensures { result.now ≡ ended_now self.now.object }
    {
        self.in_action.ended_now()
    }

    /// Returns the number of the owner's earliest queued call.
    pub fn waiting_number_of(&self, owner: u16) -> Option<u64>
        ensures { result ≡ option_map (λ x. x.number) (find (is_of owner) self.now.object.state.waiting) }
    {
        Some(self.in_action.state().waiting_ticket_of(owner)?.number)
    }

    /// Returns the ticket of the owner's earliest queued call.
    pub fn waiting_ticket_of(&self, owner: u16) -> Option<Ticket>
        ensures number { option_map (λ t. t.number) result ≡
            option_map (λ x. x.number) (find (is_of owner) self.now.object.state.waiting) }
        ensures live { IfSome result (λ t. is_live self.now.tickets t ≡ true) }
    {
        self.in_action.waiting_ticket_of(owner)
    }

    /// Returns the number that the next call gets.
    pub fn next_number(&self) -> u64
        ensures { result ≡ self.now.object.state.next }
    {
        self.in_action.state().next_number()
    }

    /// Returns the clock.
    pub fn clock(&self) -> u64
        ensures { result ≡ self.now.object.state.clock }
    {
        self.in_action.state().clock()
    }

    /// Returns how many calls may be uncollected at once, if that number is fixed: the capacity with which a bounded core was made.
    pub fn capacity(&self) -> Option<usize>
        ensures { result ≡ self.now.capacity }
    {
        self.in_action.capacity()
    }

    /// Returns whether the object is finalized (9.4).
    pub fn is_finalized(&self) -> bool
        ensures { result ≡ self.now.object.state.finalized }
    {
        self.in_action.state().is_finalized()
    }

    /// Returns the entry that servicing served last, if it has served one. The `Rotating` order goes on after it.
    pub fn last_served(&self) -> Option<u16>
        ensures { result ≡ last_served self.now.object }
    {
        self.in_action.last_served()
    }

    /// Returns the unit as the object was made with it.
    pub fn opening(&self) -> &U
        ensures { result.now ≡ self.now.object.setup.opening }
    {
        self.in_action.setup().opening()
    }

    /// Returns the unit as it is now.
    pub fn unit(&self) -> &U
        ensures { result.now ≡ self.now.object.state.unit }
    {
        self.in_action.state().unit()
    }

    /// Returns the declarations of the object's entries.
    pub fn shape(&self) -> &Shape
        ensures { result.now ≡ self.now.object.setup.shape }
    {
        self.in_action.setup().shape()
    }

    /// Returns the service order.
    pub fn order(&self) -> Order
        ensures { result ≡ self.now.object.setup.order }
    {
        self.in_action.setup().order()
    }

    /// Returns the place of the next event in the whole history.
    pub fn place(&self) -> u128
        ensures { result ≡ next_place self.now.object }
    {
        self.in_action.place()
    }

    /// Returns the place of the first event.
    pub fn first_place(&self) -> u64
        ensures { result ≡ self.now.object.setup.first_place }
    {
        self.in_action.setup().first_place()
    }

    /// Returns the number of the first call.
    pub fn first_number(&self) -> u64
        ensures { result ≡ self.now.object.setup.first_number }
    {
        self.in_action.setup().first_number()
    }

    /// Returns how many calls may be queued on an entry, if there is a limit.
    pub fn max_queue(&self) -> Option<u64>
        ensures { result ≡ self.now.object.setup.max_queue }
    {
        self.in_action.setup().max_queue()
    }

    /// States the headline, which holds of every core, whatever commands it has carried out or refused: no queued call has an
    /// open barrier, each queue is in order of arrival, each accepted call is in exactly one place, and the history, replayed
    /// from its base as serial protected actions of one thread, leads to the present state. And each ticket is of an issued
    /// call.
    pub fn headline(&self)
        ensures headline { Headline U.meaning self.now.object }
        ensures tickets { AreIssued self.now }
        // If the base is at the place of the first event, no volume is before it.
        ensures uncut { self.now.object.base.place ≡ self.now.object.setup.first_place → AreVolumes U.meaning self.now.object [] }
    {
        self.in_action.recall_invariant();
    }

    /// Recalls for proofs that the number of uncollected calls is fixed exactly if the record is that of a bounded core.
    pub fn recall_kind(&self)
        ensures { is_some self.now.capacity ≡ R.is_bounded }
    {
        self.in_action.recall_kind();
    }

    /// Returns the flat number of a public entry, for a call from outside.
    fn entry_from_outside(&self, entry: EntryRef) -> Result<u16, Refusal>
        ensures number { IfOk result (λ e. flat_number self.now.object.setup.shape entry ≡ Ok e) }
        ensures public { IfOk result (λ e. is_public self.now.object.setup.shape e ≡ true) }
        ensures allowed { OnOk result ((other : Option Refusal) →
            entry_refusal self.now.object.setup.shape entry other ≡ other) }
        ensures refused { IfErr result (λ r. (other : Option Refusal) →
            entry_refusal self.now.object.setup.shape entry other ≡ Some r) }
    {
        let shape = self.in_action.setup().shape();
        let Some(decl) = shape.decl(entry.declaration) else {
            return Err(Refusal::NoSuchEntry);
        };
        if !decl.public {
            return Err(Refusal::PrivateEntry);
        }
        let number = shape.flat(entry)?;
        Ok(number)
    }
}
