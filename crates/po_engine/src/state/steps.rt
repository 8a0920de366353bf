// SPDX-License-Identifier: MIT
//! What each event does to the state of an object.

ghost use Rattle.std.specs.Prelude.{◌≡◌, ◌<◌, ◌≤◌, ◌+◌, ◌∷◌, ◌++◌, [], ℕ, true, false, not, count_by, All, length, drop, Option, None, Some, OnSome, IfNone, IsSome, find, option_map};
ghost use Rattle.std.specs.List.{slice_get};
ghost use Rattle.po_engine.specs.WaitingCalls.{is_on, has_number, is_due};
ghost use Rattle.po_engine.specs.ObjectState.{counts_in};
ghost use Rattle.po_engine.specs.Pick.{owed, Fits};
ghost use Rattle.po_engine.specs.Step.{enter, cancel, attempt_cancel, advance, finalize, run_procedure, end_call, end_all, queue, conclude, run_body, take_out, step, is_full, is_queued_again};
ghost use Rattle.po_engine.specs.Driving.{counted, new_call, take_oldest};
ghost use Rattle.po_engine.specs.Arrival.{AreAt, Increases, noted, call_of};
ghost use Rattle.po_engine.specs.Tickets.{number_at, SetsTicket, status_among, end_at, is_live, uncollected};
ghost use Rattle.po_engine.specs.Calls.{places_without};
ghost use Rattle.po_calls.specs.declared.call.Call.{Call};
ghost use Rattle.po_engine.specs.StateView.{IsFirstDue, NamesEntry};

use crate::arriving::Arriving;
use crate::queueing::Queueing;
use crate::state::{State, events_owed};
use po_calls::{Call, Deadline, End, Ticket};
use po_history::Event;
use po_unit::{Outcome, Unit};

/// Returns a call that arrives, with its number.
fn numbered<V: Copy>(number: u64, arriving: Arriving<V>) -> Call<V>
    ensures { result ≡ new_call number arriving }
{
    Call {
        number,
        owner: 0,
        entry: arriving.entry,
        value: arriving.value,
        without_abort: arriving.without_abort,
        aborted: arriving.aborted,
        deadline: arriving.deadline,
    }
}

impl<U: Unit> State<U> {
    /// Ends the call in service.
    pub fn end_call(&mut self, call: Call<U::Value>, end: End<U::Value>)
        requires { self.old.serving ≡ Some call }
        ensures { self.new ≡ record self.old { state = end_call self.old.state call end; serving = None } }
    {
        self.calls.end(call, end);
    }

    /// Ends the call in service and gives up its ticket, in a command of its own: nobody collects its end.
    #[inline(always)]
    pub fn end_collected(&mut self, call: Call<U::Value>, end: End<U::Value>) -> Ticket
        requires { self.old.serving ≡ Some call }
        ensures after { self.new ≡ record self.old {
          state = end_call self.old.state call end;
          serving = None;
          tickets = self.new.tickets;
          capacity = self.new.capacity;
          before = length self.old.state.ended + 1;
        } }
        ensures number { result.number ≡ call.number }
        ensures live { is_live self.old.tickets result ≡ true }
        ensures taken { SetsTicket self.old.tickets self.new.tickets result.key None }
        ensures room { self.old.is_fixed ≡ true → self.new.capacity ≡ self.old.capacity }
        ensures kept_room { uncollected self.old.tickets < self.old.capacity → self.new.capacity ≡ self.old.capacity }
    {
        self.calls.end_collected(call, end)
    }

    /// Puts the call in service at the end of the queues.
    fn queue(&mut self, call: Call<U::Value>, place: u128)
        requires serving { self.old.serving ≡ Some call }
        requires entry { call.entry < U.meaning.entries self.old.state.unit }
        requires later { All (λ k. k < place) self.old.places }
        ensures { self.new ≡ record self.old {
          state = queue self.old.state call;
          places = self.old.places ++ place ∷ [];
          serving = None;
        } }
    {
        self.calls.recall_invariant();
        self.owed += events_owed::<U>(&call);
        self.calls.queue(call, place);
    }

    /// Puts the call in service at the end of its entry's queue, or ends it if that queue is full. Returns whether it is queued.
    #[inline(always)]
    pub fn enter(&mut self, queueing: Queueing, call: Call<U::Value>) -> bool
        requires serving { self.old.serving ≡ Some call }
        requires entry { call.entry < U.meaning.entries self.old.state.unit }
        requires later { All (λ k. k < queueing.place) self.old.places }
        ensures state { self.new ≡ record self.old {
          state = enter queueing.max_length self.old.state call;
          places = self.new.places;
          serving = None;
        } }
        ensures queued { result ≡ not (is_full queueing.max_length (count_by (is_on call.entry) self.old.state.waiting)) }
        ensures places { (f : ℕ → ℕ) → f call.number ≡ queueing.place
            → AreAt f self.old.state.waiting self.old.places → AreAt f self.new.state.waiting self.new.places }
        ensures within { All (λ k. k ≤ queueing.place) self.new.places }
        ensures rises { Increases self.old.places → Increases self.new.places }
    {
        if queueing.is_full(self.calls.count(call.entry)) {
            self.end_call(call, End::ProgramError);
            return false;
        }
        self.queue(call, queueing.place);
        true
    }

    /// Concludes the call in service, whose body has ended: it completes, raises, is requeued or is cancelled (9.5.2, 9.5.4).
    /// Returns whether it is queued again.
    pub fn conclude(
        &mut self,
        queueing: Queueing,
        call: Call<U::Value>,
        outcome: Outcome<U::Value>,
    ) -> bool
        requires serving { self.old.serving ≡ Some call }
        requires entry { NamesEntry (U.meaning.entries self.old.state.unit) outcome }
        requires later { All (λ k. k < queueing.place) self.old.places }
        ensures state { self.new ≡ record self.old {
          state = conclude queueing.max_length self.old.state call outcome;
          places = self.new.places;
          serving = None;
        } }
        ensures queued { result ≡ is_queued_again queueing.max_length self.old.state call outcome }
        ensures places { (f : ℕ → ℕ) → f call.number ≡ queueing.place
            → AreAt f self.old.state.waiting self.old.places → AreAt f self.new.state.waiting self.new.places }
        ensures within { All (λ k. k ≤ queueing.place) self.new.places }
        ensures rises { Increases self.old.places → Increases self.new.places }
    {
        match outcome {
            Outcome::Complete(value) => self.end_call(call, End::Completed(value)),
            Outcome::Raise(number) => self.end_call(call, End::Raised(number)),
            Outcome::Requeue {
                target,
                with_abort,
                value,
            } => {
                if with_abort && call.aborted {
                    self.end_call(call, End::Cancelled);
                } else {
                    let moved = self.calls.requeue(call, target, value, !with_abort);
                    return self.enter(queueing, moved);
                }
            }
        }
        false
    }

    /// Takes the first call on the entry into service.
    pub fn take_on(&mut self, e: u16) -> Option<Call<U::Value>>
        requires serving { self.old.serving ≡ None }
        requires entry { e < U.meaning.entries self.old.state.unit }
        ensures found { result ≡ find (is_on e) self.old.state.waiting }
        ensures state { self.new ≡ record self.old {
          state = take_out self.old.state (is_on e);
          places = places_without (is_on e) self.old.state.waiting self.old.places;
          serving = result;
        } }
    {
        let call = self.calls.take_on(e)?;
        self.owed -= events_owed::<U>(&call);
        Some(call)
    }

    /// Takes the call that was queued first of all into service.
    pub fn take_oldest(&mut self) -> Option<Call<U::Value>>
        requires serving { self.old.serving ≡ None }
        ensures found { result ≡ slice_get self.old.state.waiting 0 }
        ensures state { self.new ≡ record self.old {
          state = take_oldest self.old.state;
          places = drop 1 self.old.places;
          serving = result;
        } }
    {
        let call = self.calls.take_oldest()?;
        self.owed -= events_owed::<U>(&call);
        Some(call)
    }

    /// Ends all queued calls.
    fn end_all(&mut self)
        requires { self.old.serving ≡ None }
        ensures { self.new ≡ record self.old {
          state = end_all self.old.state End.ProgramError;
          places = [];
        } }
    {
        self.calls.end_all();
        self.owed = u128::from(!self.finalized);
    }

    /// Runs the body of the call in service, and concludes the call.
    fn run_body(&mut self, queueing: Queueing, call: Call<U::Value>)
        requires serving { self.old.serving ≡ Some call }
        requires entry { call.entry < U.meaning.entries self.old.state.unit }
        requires later { All (λ k. k < queueing.place) self.old.places }
        ensures state { self.new ≡ record self.old {
          state = run_body U.meaning queueing.max_length self.old.state call;
          places = self.new.places;
          serving = None;
        } }
        ensures places { (f : ℕ → ℕ) → f call.number ≡ queueing.place
            → AreAt f self.old.state.waiting self.old.places → AreAt f self.new.state.waiting self.new.places }
    {
        let outcome = self.unit.body(call.entry, call.value, self.calls.counts());
        self.conclude(queueing, call, outcome);
    }

    /// Serves the first call on the entry.
    #[tactic(auto, using(crate::proofs::Lists::found_on))]
    fn serve(&mut self, queueing: Queueing, e: u16)
        requires serving { self.old.serving ≡ None }
        requires found { IsSome (find (is_on e) self.old.state.waiting) }
        requires entry { e < U.meaning.entries self.old.state.unit }
        requires later { All (λ k. k < queueing.place) self.old.places }
        ensures state { self.new ≡ record self.old {
          state = step U.meaning queueing.max_length self.old.state (Event.Serve e);
          places = self.new.places;
        } }
        ensures places { (f : ℕ → ℕ) → AreAt f self.old.state.waiting self.old.places
            → AreAt (noted f queueing.place (call_of self.old.state (Event.Serve e))) self.new.state.waiting self.new.places }
    {
        self.calls.recall_invariant();
        if let Some(call) = self.take_on(e) {
            self.run_body(queueing, call);
        }
    }

    /// Cancels the call of the ticket if it is queued.
    #[tactic(auto, using(crate::proofs::Lists::without_none))]
    pub fn cancel(&mut self, ticket: Ticket)
        requires serving { self.old.serving ≡ None }
        requires live { is_live self.old.tickets ticket ≡ true }
        ensures state { self.new ≡ record self.old {
          state = cancel self.old.state ticket.number (find (has_number ticket.number) self.old.state.waiting);
          places = self.new.places;
        } }
        ensures places { (f : ℕ → ℕ) → AreAt f self.old.state.waiting self.old.places
            → AreAt f self.new.state.waiting self.new.places }
        ensures kept { (k : ℕ) → All (λ j. j < k) self.old.places → All (λ j. j < k) self.new.places }
        ensures rises { Increases self.old.places → Increases self.new.places }
    {
        if let Some(call) = self.calls.take_ticket(ticket) {
            self.owed -= events_owed::<U>(&call);
            self.end_call(call, End::Cancelled);
        }
    }

    /// Cancels the first call that is due.
    fn expire(&mut self)
        requires serving { self.old.serving ≡ None }
        ensures state { (n : ℕ) → option_map (λ x. x.number) (find (is_due self.old.state.clock) self.old.state.waiting) ≡ Some n
            → self.new ≡ record self.old {
              state = cancel self.old.state n (find (has_number n) self.old.state.waiting);
              places = self.new.places;
            } }
        ensures places { (f : ℕ → ℕ) → AreAt f self.old.state.waiting self.old.places
            → AreAt f self.new.state.waiting self.new.places }
    {
        if let Some(ticket) = self.calls.first_due() {
            self.cancel(ticket);
        }
    }

    /// Carries out an inner event that was picked. `queueing` applies to a call that it requeues.
    pub fn perform(&mut self, queueing: Queueing, event: Event<U::Value>)
        requires serving { self.old.serving ≡ None }
        requires fits { Fits U.meaning self.old.state event }
        requires first { IsFirstDue self.old.state event }
        requires later { All (λ k. k < queueing.place) self.old.places }
        ensures state { self.new ≡ record self.old {
          state = step U.meaning queueing.max_length self.old.state event;
          places = self.new.places;
        } }
        ensures places { (f : ℕ → ℕ) → AreAt f self.old.state.waiting self.old.places
            → AreAt (noted f queueing.place (call_of self.old.state event)) self.new.state.waiting self.new.places }
    {
        match event {
            Event::Serve(e) => self.serve(queueing, e),
            Event::Break(_) => self.end_all(),
            Event::Expire(_) => self.expire(),
            _ => {}
        }
    }

    /// Issues a call: it is served, queued or ended. `queueing` applies if it is queued.
    pub fn issue(
        &mut self,
        queueing: Queueing,
        owner: u16,
        e: u16,
        v: U::Value,
        deadline: Deadline,
    ) -> Ticket
        requires serving { self.old.serving ≡ None }
        requires room { uncollected self.old.tickets < self.old.capacity }
        requires begun { self.old.before ≡ length self.old.state.ended }
        requires entry { e < U.meaning.entries self.old.state.unit }
        requires number { self.old.state.next < u64.MAX }
        requires later { All (λ k. k < queueing.place) self.old.places }
        ensures state { self.new ≡ record self.old {
          state = step U.meaning queueing.max_length self.old.state (Event.Issue self.old.state.next owner e v deadline);
          places = self.new.places;
          tickets = self.new.tickets;
          keys = self.old.keys ++ result.key ∷ [];
        } }
        ensures places { (f : ℕ → ℕ) → AreAt f self.old.state.waiting self.old.places
            → AreAt (noted f queueing.place (Some self.old.state.next)) self.new.state.waiting self.new.places }
        ensures number { result.number ≡ self.old.state.next }
        ensures key { number_at self.old.tickets result.key ≡ None }
        ensures ticket { SetsTicket self.old.tickets self.new.tickets result.key (Some result.number) }
    {
        self.calls.recall_invariant();
        let barrier = self.unit.barrier(e, self.calls.counts());
        if barrier.is_err() {
            self.end_all();
        }
        let call = Call {
            number: self.calls.next_number(),
            owner,
            entry: e,
            value: v,
            without_abort: false,
            aborted: false,
            deadline,
        };
        let ticket = self.calls.add(call);
        match barrier {
            Ok(true) => self.run_body(queueing, call),
            Ok(false) => {
                self.enter(queueing, call);
            }
            Err(_) => self.end_call(call, End::ProgramError),
        }
        ticket
    }

    /// Gives a new call its number and takes it into service. The client runs its body, or queues it with `enter`.
    #[inline(always)]
    pub fn take_in(&mut self, arriving: Arriving<U::Value>) -> (Call<U::Value>, Ticket)
        requires serving { self.old.serving ≡ None }
        requires room { uncollected self.old.tickets < self.old.capacity }
        requires begun { self.old.before ≡ length self.old.state.ended }
        requires number { self.old.state.next < u64.MAX }
        ensures call { result.0 ≡ new_call self.old.state.next arriving }
        ensures state { self.new ≡ record self.old {
          state = counted self.old.state;
          serving = Some result.0;
          tickets = self.new.tickets;
          keys = self.old.keys ++ result.1.key ∷ [];
        } }
        ensures number { result.1.number ≡ self.old.state.next }
        ensures key { number_at self.old.tickets result.1.key ≡ None }
        ensures ticket { SetsTicket self.old.tickets self.new.tickets result.1.key (Some result.1.number) }
    {
        self.calls.recall_invariant();
        let call = numbered(self.calls.next_number(), arriving);
        (call, self.calls.add(call))
    }

    /// Gives its number to a call that the client has served or turned away, and ends the call, in a command of its own. The call
    /// takes no room and gets no ticket.
    #[inline(always)]
    pub fn end_at_once(&mut self, arriving: Arriving<U::Value>, end: End<U::Value>)
        requires serving { self.old.serving ≡ None }
        requires number { self.old.state.next < u64.MAX }
        ensures { self.new ≡ record self.old {
          state = end_call (counted self.old.state) (new_call self.old.state.next arriving) end;
          before = length self.old.state.ended + 1;
          keys = self.old.keys ++ 0 ∷ [];
        } }
    {
        let call = numbered(self.calls.next_number(), arriving);
        self.calls.end_at_once(call, end);
    }

    /// Gives the call in service another deadline.
    pub fn set_deadline(&mut self, call: Call<U::Value>, deadline: Deadline) -> Call<U::Value>
        requires { self.old.serving ≡ Some call }
        ensures call { result ≡ record call { deadline = deadline } }
        ensures after { self.new ≡ record self.old { serving = Some result } }
    {
        self.calls.set_deadline(call, deadline)
    }

    /// Runs a procedure.
    pub fn procedure(&mut self, op: u16, v: U::Value) -> Result<U::Value, u32>
        requires { op < U.meaning.procedures self.old.state.unit }
        ensures reply { result ≡ (U.meaning.procedure self.old.state.unit op v (counts_in U.meaning self.old.state)).1 }
        ensures state { self.new ≡ record self.old { state = run_procedure U.meaning self.old.state op v } }
    {
        self.unit.procedure(op, v, self.calls.counts())
    }

    /// Cancels the queued call of the ticket, or marks it as aborted.
    pub fn attempt_cancel(&mut self, ticket: Ticket)
        requires serving { self.old.serving ≡ None }
        requires live { is_live self.old.tickets ticket ≡ true }
        ensures state { self.new ≡ record self.old {
          state = attempt_cancel self.old.state ticket.number (find (has_number ticket.number) self.old.state.waiting);
          places = self.new.places;
        } }
        ensures places { (f : ℕ → ℕ) → AreAt f self.old.state.waiting self.old.places
            → AreAt f self.new.state.waiting self.new.places }
        ensures kept { (k : ℕ) → All (λ j. j < k) self.old.places → All (λ j. j < k) self.new.places }
        ensures rises { Increases self.old.places → Increases self.new.places }
    {
        self.calls.recall_invariant();
        if let Some(call) = self.waiting_call(ticket) {
            if !call.without_abort {
                self.cancel(ticket);
            } else if !call.aborted {
                self.owed -= 1;
                self.calls.mark(ticket);
            }
        }
    }

    /// Raises the clock to `t` if it is lower.
    pub fn tick(&mut self, t: u64)
        ensures { self.new ≡ record self.old { state = advance self.old.state t } }
    {
        self.calls.rise(t);
    }

    /// Finalizes the object, and ends all queued calls (9.4).
    pub fn finalize(&mut self)
        requires { self.old.serving ≡ None }
        ensures { self.new ≡ record self.old { state = finalize self.old.state; places = [] } }
    {
        self.end_all();
        self.finalized = true;
        self.owed = 0;
    }

    /// Marks the object as finalized; its queued calls stay queued (9.4).
    pub fn set_finalized(&mut self)
        ensures { self.new ≡ record self.old { state = record self.old.state { finalized = true } } }
    {
        if !self.finalized {
            self.finalized = true;
            self.owed -= 1;
        }
    }

    /// Takes the end of the call of the ticket, if it has ended, and makes the ticket Unknown for good.
    pub fn collect(&mut self, ticket: Ticket) -> Option<End<U::Value>>
        requires { self.old.serving ≡ None }
        ensures end { result ≡ end_at (status_among self.old.state.waiting self.old.state.ended self.old.tickets ticket) }
        ensures taken { OnSome result (SetsTicket self.old.tickets self.new.tickets ticket.key None) }
        ensures rest { self.new ≡ record self.old { tickets = self.new.tickets; capacity = self.new.capacity } }
        ensures room { self.old.is_fixed ≡ true → self.new.capacity ≡ self.old.capacity }
        ensures kept_room { uncollected self.old.tickets < self.old.capacity → self.new.capacity ≡ self.old.capacity }
        ensures left { IfNone result (self.new ≡ self.old) }
    {
        self.calls.collect(ticket)
    }
}
