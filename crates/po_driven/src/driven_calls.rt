// SPDX-License-Identifier: MIT
//! The calls of a driven object with what has happened to them.

ghost use Rattle.std.specs.Prelude.{◌≡◌, ◌<◌, ◌+◌, ◌++◌, ◌∷◌, [], ℕ, None, Some, IsSome, IfSome, IfNone, IfOk, IsOk, OnOk, OnErr, true, false, All, find, length, List, nat_lt, count_by, if◌then◌else◌};
ghost use Rattle.std.specs.List.{slice_get};
ghost use Rattle.po_engine.specs.Calls.{places_without};
ghost use Rattle.po_engine.specs.Tickets.{is_live, uncollected};
ghost use Rattle.po_engine.specs.WaitingCalls.{is_on, is_due, has_number};
ghost use Rattle.po_engine.specs.Arrival.{Increases};
ghost use Rattle.po_engine.specs.Driving.{counted, new_call};
ghost use Rattle.po_engine.specs.StateView.{NamesEntry};
ghost use Rattle.po_engine.specs.Step.{end_call, enter, take_out, conclude, cancel, attempt_cancel, is_full};
ghost use Rattle.po_unit.specs.declared.outcome.Outcome.TheVariants.{Requeue as RequeueTo};
ghost use Rattle.po_calls.specs.declared.end.End.TheVariants.{Cancelled as IsCancelled, Completed};
ghost use Rattle.po_driven.specs.AtRest.{IsAtRest};
ghost use Rattle.po_driven.specs.Happening.{cancellation_of, end_oldest, make_due as due};
ghost use Rattle.po_driven.specs.OnePlace.{HasTickets, IsThereOnce};
ghost use Rattle.po_driven.specs.DrivenCallsView.{IsReady, IsTraced, KeepsRoom, KeepsTickets, MayPass, opening_calls, passed, passed_twice};
ghost use Rattle.po_driven.specs.declared.happening.Happening.TheVariants.{Served, Arrived, Selected, Ended, RequeuedElsewhere, Due, Requeued, Broken, Cancelled, Marked, Finalized};

use crate::client_unit::ClientUnit;
use crate::happening::Happening;
use crate::words::Requeue;
use po_calls::{Call, Deadline, End, Ticket};
use po_engine::{Arriving, Queueing, State};
use po_history::Trace;
use po_unit::Outcome;
use std::alloc::{AllocError, Global};
use std::marker::Model;

/// The calls of a driven object. Only proofs know what has happened to them, which leads to their present state. Each accepted
/// call is in one place, and the queues are in order of arrival.
#[derive(Drop)]
pub struct DrivenCalls {
    state: State<ClientUnit>,
    /// How many arrivals there have been, requeues included.
    place: u128,
    happened: Trace<Happening>,
}

impl Model for DrivenCalls {
    ghost use Rattle.po_driven.specs.DrivenCallsView.{DrivenCallsView, IsTraced as IsKept};

    ghost Value = { DrivenCallsView };

    ghost view = { λ t. record { object = t.state; place = t.place; happened = t.happened.items } };

    ghost invariant = { λ t. IsKept (record { object = t.state; place = t.place; happened = t.happened.items }) };
}

/// Ends the call in service in this way, and gives up its ticket.
#[inline(always)]
fn finish(state: &mut State<ClientUnit>, call: Call<u64>, end: End<u64>)
    requires { state.old.serving ≡ Some call }
    ensures state { state.new ≡ record state.old {
      state = end_call state.old.state call end;
      serving = None;
      tickets = state.new.tickets;
      capacity = state.new.capacity;
      before = length state.old.state.ended + 1;
    } }
    ensures placed { IsThereOnce state.old → IsThereOnce state.new }
    ensures tickets { HasTickets state.old → HasTickets state.new }
    ensures room { KeepsRoom state.old state.new }
    ensures kept_room { uncollected state.old.tickets < state.old.capacity → state.new.capacity ≡ state.old.capacity }
    ensures tickets_kept { KeepsTickets state.old state.new }
{
    state.end_collected(call, end);
}

/// Cancels a queued call, and gives up its ticket.
fn withdraw(state: &mut State<ClientUnit>, ticket: Ticket)
    requires serving { state.old.serving ≡ None }
    requires live { is_live state.old.tickets ticket ≡ true }
    requires found { IsSome (find (has_number ticket.number) state.old.state.waiting) }
    ensures state { state.new ≡ record state.old {
      state = cancel state.old.state ticket.number (find (has_number ticket.number) state.old.state.waiting);
      places = state.new.places;
      tickets = state.new.tickets;
      capacity = state.new.capacity;
    } }
    ensures unit { state.new.state.unit ≡ state.old.state.unit }
    ensures kept { (k : ℕ) → All (λ j. j < k) state.old.places → All (λ j. j < k) state.new.places }
    ensures rises { Increases state.old.places → Increases state.new.places }
    ensures placed { IsThereOnce state.old → IsThereOnce state.new }
    ensures tickets { HasTickets state.old → HasTickets state.new }
    ensures room { KeepsRoom state.old state.new }
    ensures kept_room { uncollected state.old.tickets < state.old.capacity → state.new.capacity ≡ state.old.capacity }
    ensures tickets_kept { KeepsTickets state.old state.new }
{
    state.cancel(ticket);
    state.collect(ticket);
}

impl DrivenCalls {
    /// Makes the calls of an object with this number of entries. There are none yet, and they take memory as they come.
    pub fn new(alloc: Global, entries: u16) -> Result<DrivenCalls, AllocError>
        ensures { IfOk result (λ t. t ≡ opening_calls entries 0 false) }
    {
        Ok(DrivenCalls {
            state: State::new(alloc, ClientUnit::new(entries), 1)?,
            place: 0,
            happened: Trace::new(),
        })
    }

    /// Like `new`, but takes all memory at once, for up to `calls` calls that are queued or in service.
    pub fn with_capacity(
        alloc: Global,
        entries: u16,
        calls: usize,
    ) -> Result<DrivenCalls, AllocError>
        ensures { IfOk result (λ t. t ≡ opening_calls entries calls true) }
    {
        Ok(DrivenCalls {
            state: State::with_capacity(alloc, ClientUnit::new(entries), 1, calls)?,
            place: 0,
            happened: Trace::new(),
        })
    }

    /// Recalls for proofs what holds of all such calls.
    pub fn recall_invariant(&self)
        ensures { IsTraced self.now }
    {
        // Only for the prover: brings the invariant into the proof.
        let _ = &self.state;
    }

    /// Returns the engine of the calls, to look at.
    #[inline(always)]
    pub fn state(&self) -> &State<ClientUnit>
        ensures { result.now ≡ self.now.object }
    {
        &self.state
    }

    /// Returns whether there is a number and a place for one more call.
    pub fn has_numbers(&self) -> bool
        ensures yes { result ≡ true → (self.now.object.state.next < u64.MAX) × (self.now.place < u128.MAX) }
        ensures no { self.now.object.state.next < u64.MAX → self.now.place < u128.MAX → result ≡ true }
    {
        self.state.next_number() < u64::MAX && self.place < u128::MAX
    }

    /// Returns whether there is a place for one more arrival.
    pub fn has_place(&self) -> bool
        ensures { result ≡ nat_lt self.now.place u128.MAX }
    {
        self.place < u128::MAX
    }

    /// Returns whether there are places for two more arrivals.
    pub fn has_places(&self) -> bool
        ensures { result ≡ nat_lt (self.now.place + 1) u128.MAX }
    {
        self.place < u128::MAX - 1
    }

    /// Makes room for one more call, and begins its command.
    #[inline(always)]
    pub fn make_room(&mut self) -> Result<(), AllocError>
        ensures same { self.new ≡ record self.old {
          object = record self.old.object {
            capacity = self.new.object.capacity;
            before = self.new.object.before;
          };
        } }
        ensures room { OnOk result (uncollected self.new.object.tickets < self.new.object.capacity) }
        ensures begun { OnOk result (self.new.object.before ≡ length self.new.object.state.ended) }
        ensures err { OnErr result (self.new ≡ self.old) }
        ensures had_room { uncollected self.old.object.tickets < self.old.object.capacity → IsOk result × (self.new.object.capacity ≡ self.old.object.capacity) }
        ensures room_kept { KeepsRoom self.old.object self.new.object }
        ensures tickets_kept { KeepsTickets self.old.object self.new.object }
    {
        if !self.state.has_room() {
            if self.state.is_fixed() {
                return Err(AllocError);
            }
            self.state.reserve()?;
        }
        self.state.begin();
        Ok(())
    }

    /// Accepts a call with an open barrier: it is in service, and its body runs (9.5.3).
    #[inline(always)]
    pub fn accept_open(&mut self, arriving: Arriving<u64>)
        requires { IsReady self.old arriving.entry }
        ensures state { self.new.object.state ≡ counted self.old.object.state }
        ensures unit { self.new.object.state.unit ≡ self.old.object.state.unit }
        ensures serving { self.new.object.serving ≡ Some (new_call self.old.object.state.next arriving) }
        ensures happened { self.new.happened ≡ self.old.happened ++ Served arriving ∷ [] }
        ensures room_kept { KeepsRoom self.old.object self.new.object }
        ensures tickets_kept { KeepsTickets self.old.object self.new.object }
    {
        self.state.take_in(arriving);
        self.place += 1;
        self.happened = self.happened.then(&Happening::Served(arriving));
    }

    /// Accepts a call with a closed barrier. It is queued, and its ticket is returned; or it ends, if as many calls as this are
    /// queued on its entry (9.5.3, D.7).
    #[inline(always)]
    pub fn accept_closed(&mut self, arriving: Arriving<u64>, longest: Option<u64>) -> Option<Ticket>
        requires { IsReady self.old arriving.entry }
        ensures state { self.new.object.state ≡ enter longest (counted self.old.object.state) (new_call self.old.object.state.next arriving) }
        ensures unit { self.new.object.state.unit ≡ self.old.object.state.unit }
        ensures serving { self.new.object.serving ≡ None }
        ensures happened { self.new.happened ≡ self.old.happened ++ Arrived arriving longest ∷ [] }
        ensures queued { IfSome result (λ _. IsSome (find (is_on arriving.entry) self.new.object.state.waiting)) }
        ensures found { IfSome result (λ ticket. IsSome (find (has_number ticket.number) self.new.object.state.waiting)) }
        ensures number { IfSome result (λ ticket. ticket.number ≡ self.old.object.state.next) }
        ensures live { IfSome result (λ ticket. is_live self.new.object.tickets ticket ≡ true) }
        ensures full { IfNone result (is_full longest (count_by (is_on arriving.entry) self.old.object.state.waiting) ≡ true) }
        ensures room_kept { KeepsRoom self.old.object self.new.object }
        ensures tickets_kept { KeepsTickets self.old.object self.new.object }
    {
        let queueing = Queueing {
            max_length: longest,
            place: self.place,
        };
        let (call, ticket) = self.state.take_in(arriving);
        let is_queued = self.state.enter(queueing, call);
        self.place += 1;
        self.happened = self.happened.then(&Happening::Arrived(arriving, longest));
        if !is_queued {
            self.state.collect(ticket);
            return None;
        }
        Some(ticket)
    }

    /// Accepts a call with an open barrier, whose body has run and ended in this way: what `accept_open` and `end` do, one after the
    /// other. The call takes no room.
    #[inline(always)]
    pub fn accept_served(&mut self, arriving: Arriving<u64>, end: End<u64>)
        requires { MayPass self.old }
        ensures { self.new ≡ passed self.old arriving end (Served arriving ∷ Ended end ∷ []) }
    {
        self.state.end_at_once(arriving, end);
        self.place += 1;
        self.happened = self
            .happened
            .then(&Happening::Served(arriving))
            .then(&Happening::Ended(end));
    }

    /// Accepts a call with an open barrier, whose body has run and has requeued it to another object or a task: what `accept_open`
    /// and `requeue_elsewhere` do, one after the other. The call takes no room.
    #[inline(always)]
    pub fn accept_requeued_elsewhere(&mut self, arriving: Arriving<u64>)
        requires { MayPass self.old }
        ensures { self.new ≡ passed self.old arriving (Completed arriving.value) (Served arriving ∷ RequeuedElsewhere ∷ []) }
    {
        self.state
            .end_at_once(arriving, End::Completed(arriving.value));
        self.place += 1;
        self.happened = self
            .happened
            .then(&Happening::Served(arriving))
            .then(&Happening::RequeuedElsewhere);
    }

    /// Accepts a call with an open barrier while none is queued, whose body has requeued it to an open entry, and whose body there
    /// has completed it: what `accept_open`, `requeue`, `select` and `end` do, one after the other. The call takes no room.
    #[inline(always)]
    pub fn accept_served_twice(
        &mut self,
        arriving: Arriving<u64>,
        target: u16,
        with_abort: bool,
        longest: Option<u64>,
    )
        requires may { MayPass self.old }
        requires place { self.old.place + 1 < u128.MAX }
        requires alone { self.old.object.state.waiting ≡ [] }
        requires open { is_full longest 0 ≡ false }
        requires kept { (with_abort ≡ true) → (arriving.aborted ≡ false) }
        ensures { self.new ≡ passed_twice self.old arriving (Completed arriving.value) (Served arriving ∷ Requeued (RequeueTo target with_abort arriving.value) longest ∷ Selected target ∷ Ended (Completed arriving.value) ∷ []) }
    {
        let outcome = Outcome::Requeue {
            target,
            with_abort,
            value: arriving.value,
        };
        let end = End::Completed(arriving.value);
        self.state.end_at_once(arriving, end);
        self.place += 2;
        self.happened = self
            .happened
            .then(&Happening::Served(arriving))
            .then(&Happening::Requeued(outcome, longest))
            .then(&Happening::Selected(target))
            .then(&Happening::Ended(end));
    }

    /// Accepts a call with a closed barrier while none is queued, and cancels it: what `accept_closed` and `cancel` do, one after
    /// the other. The call takes no room.
    #[inline(always)]
    pub fn accept_cancelled(&mut self, arriving: Arriving<u64>, longest: Option<u64>)
        requires may { MayPass self.old }
        requires alone { self.old.object.state.waiting ≡ [] }
        requires open { is_full longest 0 ≡ false }
        ensures { self.new ≡ passed self.old arriving IsCancelled (Arrived arriving longest ∷ Cancelled self.old.object.state.next ∷ []) }
    {
        let number = self.state.next_number();
        self.state.end_at_once(arriving, End::Cancelled);
        self.place += 1;
        self.happened = self
            .happened
            .then(&Happening::Arrived(arriving, longest))
            .then(&Happening::Cancelled(number));
    }

    /// Selects the first call on the entry: it is in service, and its body runs (9.5.3).
    pub fn select(&mut self, e: u16) -> Option<Call<u64>>
        requires serving { self.old.object.serving ≡ None }
        requires entry { e < self.old.object.state.unit }
        ensures found { result ≡ find (is_on e) self.old.object.state.waiting }
        ensures state { self.new.object.state ≡ take_out self.old.object.state (is_on e) }
        ensures unit { self.new.object.state.unit ≡ self.old.object.state.unit }
        ensures serving { self.new.object.serving ≡ result }
        ensures happened { self.new.happened ≡ self.old.happened ++ Selected e ∷ [] }
        ensures room_kept { KeepsRoom self.old.object self.new.object }
        ensures kept_room { uncollected self.old.object.tickets < self.old.object.capacity → self.new.object.capacity ≡ self.old.object.capacity }
        ensures tickets_kept { KeepsTickets self.old.object self.new.object }
    {
        let call = self.state.take_on(e);
        self.happened = self.happened.then(&Happening::Selected(e));
        call
    }

    /// Ends the call in service in this way, and gives up its ticket.
    #[inline(always)]
    pub fn end(&mut self, call: Call<u64>, end: End<u64>)
        requires { self.old.object.serving ≡ Some call }
        ensures state { self.new.object.state ≡ end_call self.old.object.state call end }
        ensures unit { self.new.object.state.unit ≡ self.old.object.state.unit }
        ensures serving { self.new.object.serving ≡ None }
        ensures happened { self.new.happened ≡ self.old.happened ++ Ended end ∷ [] }
        ensures room_kept { KeepsRoom self.old.object self.new.object }
        ensures kept_room { uncollected self.old.object.tickets < self.old.object.capacity → self.new.object.capacity ≡ self.old.object.capacity }
        ensures tickets_kept { KeepsTickets self.old.object self.new.object }
    {
        finish(&mut self.state, call, end);
        self.happened = self.happened.then(&Happening::Ended(end));
    }

    /// Removes the call in service, which its body requeued to another object or a task, and gives up its ticket (9.5.4).
    #[inline(always)]
    pub fn requeue_elsewhere(&mut self, call: Call<u64>)
        requires { self.old.object.serving ≡ Some call }
        ensures state { self.new.object.state ≡ end_call self.old.object.state call (Completed call.value) }
        ensures unit { self.new.object.state.unit ≡ self.old.object.state.unit }
        ensures serving { self.new.object.serving ≡ None }
        ensures happened { self.new.happened ≡ self.old.happened ++ RequeuedElsewhere ∷ [] }
        ensures room_kept { KeepsRoom self.old.object self.new.object }
        ensures kept_room { uncollected self.old.object.tickets < self.old.object.capacity → self.new.object.capacity ≡ self.old.object.capacity }
        ensures tickets_kept { KeepsTickets self.old.object self.new.object }
    {
        finish(&mut self.state, call, End::Completed(call.value));
        self.happened = self.happened.then(&Happening::RequeuedElsewhere);
    }

    /// Makes the call in service due from now on.
    fn make_due(&mut self, call: Call<u64>) -> Call<u64>
        requires { self.old.object.serving ≡ Some call }
        ensures call { result ≡ due call }
        ensures same { self.new ≡ record self.old {
          object = record self.old.object { serving = Some result };
          happened = self.old.happened ++ Due ∷ [];
        } }
    {
        let moved = self.state.set_deadline(call, Deadline::At(0));
        self.happened = self.happened.then(&Happening::Due);
        moved
    }

    /// Moves the call in service, which its body requeued, to the end of the queue of its new entry, and returns its ticket. If as
    /// many calls as this are queued there, the call ends instead (9.5.4, D.7).
    fn move_to(
        &mut self,
        call: Call<u64>,
        target: u16,
        with_abort: bool,
        longest: Option<u64>,
    ) -> Option<Ticket>
        requires serving { self.old.object.serving ≡ Some call }
        requires entry { target < self.old.object.state.unit }
        requires place { self.old.place < u128.MAX }
        requires kept { (with_abort ≡ true) → (call.aborted ≡ false) }
        ensures state { self.new.object.state ≡ conclude longest self.old.object.state call (RequeueTo target with_abort call.value) }
        ensures unit { self.new.object.state.unit ≡ self.old.object.state.unit }
        ensures serving { self.new.object.serving ≡ None }
        ensures happened { self.new.happened ≡ self.old.happened ++ Requeued (RequeueTo target with_abort call.value) longest ∷ [] }
        ensures queued { IfSome result (λ _. IsSome (find (is_on target) self.new.object.state.waiting)) }
        ensures found { IfSome result (λ ticket. IsSome (find (has_number ticket.number) self.new.object.state.waiting)) }
        ensures number { IfSome result (λ ticket. ticket.number ≡ call.number) }
        ensures live { IfSome result (λ ticket. is_live self.new.object.tickets ticket ≡ true) }
        ensures full { IfNone result (is_full longest (count_by (is_on target) self.old.object.state.waiting) ≡ true) }
        ensures room_kept { KeepsRoom self.old.object self.new.object }
        ensures kept_room { uncollected self.old.object.tickets < self.old.object.capacity → self.new.object.capacity ≡ self.old.object.capacity }
        ensures tickets_kept { KeepsTickets self.old.object self.new.object }
    {
        let queueing = Queueing {
            max_length: longest,
            place: self.place,
        };
        let ticket = self.state.ticket_in_service(call);
        let outcome = Outcome::Requeue {
            target,
            with_abort,
            value: call.value,
        };
        let is_queued = self.state.conclude(queueing, call, outcome);
        self.place += 1;
        self.happened = self.happened.then(&Happening::Requeued(outcome, longest));
        if !is_queued {
            self.state.collect(ticket);
            return None;
        }
        Some(ticket)
    }

    /// Like `move_to`, but the call may be due from now on.
    pub fn requeue(
        &mut self,
        call: Call<u64>,
        requeue: Requeue,
        longest: Option<u64>,
    ) -> Option<Ticket>
        requires serving { self.old.object.serving ≡ Some call }
        requires entry { requeue.target < self.old.object.state.unit }
        requires place { self.old.place < u128.MAX }
        requires kept { (requeue.with_abort ≡ true) → (call.aborted ≡ false) }
        ensures serving { self.new.object.serving ≡ None }
        ensures unit { self.new.object.state.unit ≡ self.old.object.state.unit }
        ensures queued { IfSome result (λ _. IsSome (find (is_on requeue.target) self.new.object.state.waiting)) }
        ensures found { IfSome result (λ ticket. IsSome (find (has_number ticket.number) self.new.object.state.waiting)) }
        ensures number { IfSome result (λ ticket. ticket.number ≡ call.number) }
        ensures happened { self.new.happened ≡ self.old.happened ++ (if requeue.due then Due ∷ [] else []) ++ Requeued (RequeueTo requeue.target requeue.with_abort call.value) longest ∷ [] }
        ensures live { IfSome result (λ ticket. is_live self.new.object.tickets ticket ≡ true) }
        ensures full { IfNone result (is_full longest (count_by (is_on requeue.target) self.old.object.state.waiting) ≡ true) }
        ensures room_kept { KeepsRoom self.old.object self.new.object }
        ensures kept_room { uncollected self.old.object.tickets < self.old.object.capacity → self.new.object.capacity ≡ self.old.object.capacity }
        ensures tickets_kept { KeepsTickets self.old.object self.new.object }
    {
        let moved = if requeue.due {
            self.make_due(call)
        } else {
            call
        };
        self.move_to(moved, requeue.target, requeue.with_abort, longest)
    }

    /// Cancels the first call that is due, and gives up its ticket (9.7.2, 9.7.3).
    pub fn cancel_due(&mut self) -> Option<Call<u64>>
        requires { self.old.object.serving ≡ None }
        ensures found { result ≡ find (is_due self.old.object.state.clock) self.old.object.state.waiting }
        ensures serving { self.new.object.serving ≡ None }
        ensures unit { self.new.object.state.unit ≡ self.old.object.state.unit }
        ensures none { IfNone result (self.new ≡ self.old) }
        ensures happened { self.new.happened ≡ self.old.happened ++ cancellation_of result }
        ensures room_kept { KeepsRoom self.old.object self.new.object }
        ensures kept_room { uncollected self.old.object.tickets < self.old.object.capacity → self.new.object.capacity ≡ self.old.object.capacity }
        ensures tickets_kept { KeepsTickets self.old.object self.new.object }
    {
        let ticket = self.state.first_due()?;
        let call = self.state.waiting_call(ticket)?;
        self.cancel(ticket);
        Some(call)
    }

    /// Ends the call that was queued first of all by Program_Error (9.4, 9.5.3).
    pub fn break_oldest(&mut self) -> Option<Call<u64>>
        requires { self.old.object.serving ≡ None }
        ensures found { result ≡ slice_get self.old.object.state.waiting 0 }
        ensures state { self.new.object.state ≡ end_oldest self.old.object.state result }
        ensures unit { self.new.object.state.unit ≡ self.old.object.state.unit }
        ensures serving { self.new.object.serving ≡ None }
        ensures none { IfNone result (self.new.object.state.waiting ≡ []) }
        ensures happened { IfSome result (λ _. self.new.happened ≡ self.old.happened ++ Broken ∷ []) }
        ensures same { IfNone result (self.new.happened ≡ self.old.happened) }
        ensures room_kept { KeepsRoom self.old.object self.new.object }
        ensures kept_room { uncollected self.old.object.tickets < self.old.object.capacity → self.new.object.capacity ≡ self.old.object.capacity }
        ensures tickets_kept { KeepsTickets self.old.object self.new.object }
    {
        let call = self.state.take_oldest()?;
        finish(&mut self.state, call, End::ProgramError);
        self.happened = self.happened.then(&Happening::Broken);
        Some(call)
    }

    /// Cancels the queued call of the ticket, and gives up its ticket (9.5.3, 9.7.2).
    pub fn cancel(&mut self, ticket: Ticket)
        requires serving { self.old.object.serving ≡ None }
        requires live { is_live self.old.object.tickets ticket ≡ true }
        requires found { IsSome (find (has_number ticket.number) self.old.object.state.waiting) }
        ensures state { self.new.object.state ≡ cancel self.old.object.state ticket.number (find (has_number ticket.number) self.old.object.state.waiting) }
        ensures unit { self.new.object.state.unit ≡ self.old.object.state.unit }
        ensures serving { self.new.object.serving ≡ None }
        ensures happened { self.new.happened ≡ self.old.happened ++ Cancelled ticket.number ∷ [] }
        ensures room_kept { KeepsRoom self.old.object self.new.object }
        ensures kept_room { uncollected self.old.object.tickets < self.old.object.capacity → self.new.object.capacity ≡ self.old.object.capacity }
        ensures tickets_kept { KeepsTickets self.old.object self.new.object }
    {
        withdraw(&mut self.state, ticket);
        self.happened = self.happened.then(&Happening::Cancelled(ticket.number));
    }

    /// Remembers an attempt to abort a queued call that can't be cancelled (9.5.4).
    pub fn mark(&mut self, ticket: Ticket, call: Call<u64>)
        requires serving { self.old.object.serving ≡ None }
        requires live { is_live self.old.object.tickets ticket ≡ true }
        requires found { find (has_number ticket.number) self.old.object.state.waiting ≡ Some call }
        requires without_abort { call.without_abort ≡ true }
        ensures state { self.new.object.state ≡ attempt_cancel self.old.object.state ticket.number (Some call) }
        ensures unit { self.new.object.state.unit ≡ self.old.object.state.unit }
        ensures serving { self.new.object.serving ≡ None }
        ensures happened { self.new.happened ≡ self.old.happened ++ Marked ticket.number ∷ [] }
        ensures rests { (closed : List ℕ) → IsAtRest self.old.object closed → IsAtRest self.new.object closed }
        ensures room_kept { KeepsRoom self.old.object self.new.object }
        ensures kept_room { uncollected self.old.object.tickets < self.old.object.capacity → self.new.object.capacity ≡ self.old.object.capacity }
        ensures tickets_kept { KeepsTickets self.old.object self.new.object }
    {
        self.state.attempt_cancel(ticket);
        self.happened = self.happened.then(&Happening::Marked(ticket.number));
    }

    /// Marks the object as finalized: no further call is accepted (9.4).
    pub fn finalize(&mut self)
        ensures same { self.new ≡ record self.old {
          object = record self.old.object { state = record self.old.object.state { finalized = true } };
          happened = self.old.happened ++ Finalized ∷ [];
        } }
    {
        self.state.set_finalized();
        self.happened = self.happened.then(&Happening::Finalized);
    }
}
