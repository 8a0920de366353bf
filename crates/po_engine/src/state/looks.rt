// SPDX-License-Identifier: MIT
//! What can be read off the state of an object, and which event comes next.

ghost use Rattle.std.specs.Prelude.{◌≡◌, ◌↔◌, ◌<◌, ◌≤◌, [], true, slice_index, map, All, drop, nat_lt, Option, None, Some, IsTrue, IfOk, IfNone, IfSome, IsSome, find, option_map, if◌then◌else◌};
ghost use Rattle.po_engine.specs.WaitingCalls.{is_on, is_of, is_due};
ghost use Rattle.po_engine.specs.ObjectState.{counts_in};
ghost use Rattle.po_engine.specs.Pick.{event_of, next_turn, pick, owed};
ghost use Rattle.po_engine.specs.Tickets.{status_among, waiting_among, is_live, uncollected};
ghost use Rattle.po_calls.specs.declared.call.Call.{Call};

use crate::state::State;
use crate::{Arrival, Ended};
use po_calls::{Call, CallStatus, Ticket};
use po_history::Event;
use po_queues::{Order, Selection, examine};
use po_unit::Unit;
use std::alloc::AllocError;

impl<U: Unit> State<U> {
    /// Returns the number that the next call gets.
    pub fn next_number(&self) -> u64
        ensures { result ≡ self.now.state.next }
    {
        self.calls.next_number()
    }

    /// Returns whether one more call may be uncollected.
    pub fn has_room(&self) -> bool
        ensures { result ≡ nat_lt (uncollected self.now.tickets) self.now.capacity }
    {
        self.calls.has_room()
    }

    /// Returns whether the memory is fixed.
    pub fn is_fixed(&self) -> bool
        ensures { result ≡ self.now.is_fixed }
    {
        self.calls.is_fixed()
    }

    /// Returns the inner event of the first entry that has one, in the object's service order.
    fn first_ready(&self, order: Order, last: Option<u16>) -> Option<Event<U::Value>>
        ensures { result ≡ event_of (next_turn U.meaning order last self.now.state) }
    {
        match examine(&self.unit, self.calls.by_entry(), order, last) {
            Selection::Ready(e) => Some(Event::Serve(e)),
            Selection::Broken(e) => Some(Event::Break(e)),
            Selection::Quiet => None,
        }
    }

    /// Returns the inner event that comes next, if there is one.
    #[inline]
    pub fn pick(&mut self, order: Order, last: Option<u16>) -> Option<Event<U::Value>>
        ensures picked { result ≡ pick U.meaning order last self.old.state }
        ensures same { self.new ≡ self.old }
    {
        match self.first_ready(order, last) {
            Some(event) => Some(event),
            None => match self.calls.first_due() {
                Some(ticket) => Some(Event::Expire(ticket.number)),
                None => None,
            },
        }
    }

    /// Returns the call in service, if there is one.
    pub fn in_service(&self) -> Option<Call<U::Value>>
        ensures { result ≡ self.now.serving }
    {
        self.calls.in_service()
    }

    /// Returns the ticket of the call in service.
    pub fn ticket_in_service(&self, call: Call<U::Value>) -> Ticket
        requires { self.now.serving ≡ Some call }
        ensures number { result.number ≡ call.number }
        ensures live { is_live self.now.tickets result ≡ true }
    {
        self.calls.ticket_in_service(call)
    }

    /// Returns whether no call is queued.
    pub fn is_idle(&self) -> bool
        ensures { IsTrue result ↔ (self.now.state.waiting ≡ []) }
    {
        self.calls.by_entry().is_empty()
    }

    /// Returns the first entry, from `from` on, that has a queued call.
    pub fn next_busy(&self, from: u16) -> Option<u16>
        ensures entry { IfSome result (λ e. e < U.meaning.entries self.now.state.unit) }
        ensures from_here { IfSome result (λ e. from ≤ e) }
        ensures passed { IfSome result (λ e. All (λ x. x.entry < e → x.entry < from) self.now.state.waiting) }
        ensures below { IfNone result (All (λ x. x.entry < from) self.now.state.waiting) }
        ensures busy { IfSome result (λ e. IsSome (find (is_on e) self.now.state.waiting)) }
    {
        self.calls.by_entry().next_busy(from)
    }

    /// Returns the ticket of the first call that is due, in order of arrival (9.7.2).
    pub fn first_due(&mut self) -> Option<Ticket>
        ensures found { option_map (λ t. t.number) result ≡
            option_map (λ x. x.number) (find (is_due self.old.state.clock) self.old.state.waiting) }
        ensures live { IfSome result (λ t. is_live self.old.tickets t ≡ true) }
        ensures same { self.new ≡ self.old }
    {
        self.calls.first_due()
    }

    /// Returns how many more events may come if the only further command is a finalization.
    pub fn owed(&self) -> u128
        ensures { result ≡ owed U.meaning self.now.state }
    {
        self.owed
    }

    /// Returns how many procedures the unit has.
    pub fn procedures(&self) -> u16
        ensures { result ≡ U.meaning.procedures self.now.state.unit }
    {
        self.unit.procedures()
    }

    /// Returns how many functions the unit has.
    pub fn functions(&self) -> u16
        ensures { result ≡ U.meaning.functions self.now.state.unit }
    {
        self.unit.functions()
    }

    /// Returns whether the object is finalized.
    pub fn is_finalized(&self) -> bool
        ensures { result ≡ self.now.state.finalized }
    {
        self.finalized
    }

    /// Returns how many calls may be uncollected at once, if that number is fixed.
    pub fn capacity(&self) -> Option<usize>
        ensures { result ≡ (if self.now.is_fixed then Some self.now.capacity else None) }
    {
        self.calls.capacity()
    }

    /// Returns the clock.
    pub fn clock(&self) -> u64
        ensures { result ≡ self.now.state.clock }
    {
        self.calls.clock()
    }

    /// Returns the data of the object.
    pub fn unit(&self) -> &U
        ensures { result.now ≡ self.now.state.unit }
    {
        &self.unit
    }

    /// Returns the calls that have ended since the command began, in the order in which they ended.
    pub fn ended_now(&self) -> &[Ended<U::Value>]
        ensures { result.now ≡ drop self.now.before self.now.state.ended }
    {
        self.calls.ended_now()
    }

    /// Returns the queued call of the ticket, if there is one.
    pub fn waiting_call(&self, ticket: Ticket) -> Option<Call<U::Value>>
        requires { self.now.serving ≡ None }
        ensures { result ≡ waiting_among self.now.state.waiting self.now.tickets ticket }
    {
        self.calls.waiting_call(ticket)
    }

    /// Returns the ticket of the owner's earliest queued call.
    pub fn waiting_ticket_of(&self, owner: u16) -> Option<Ticket>
        ensures number { option_map (λ t. t.number) result ≡
            option_map (λ x. x.number) (find (is_of owner) self.now.state.waiting) }
        ensures live { IfSome result (λ t. is_live self.now.tickets t ≡ true) }
    {
        self.calls.waiting_ticket_of(owner)
    }

    /// Returns the waiting calls with the places at which they arrived, in order of arrival.
    pub fn arrivals(&self) -> Result<Vec<Arrival<U::Value>>, AllocError>
        ensures calls { IfOk result (λ list. map (λ a. a.call) list.items ≡ self.now.state.waiting) }
        ensures places { IfOk result (λ list. map (λ a. a.place) list.items ≡ self.now.places) }
    {
        self.calls.arrivals()
    }

    /// Returns whether the call of the ticket waits, has ended or is unknown.
    pub fn status(&self, ticket: Ticket) -> CallStatus<U::Value>
        requires { self.now.serving ≡ None }
        ensures { result ≡ status_among self.now.state.waiting self.now.state.ended self.now.tickets ticket }
    {
        self.calls.status(ticket)
    }

    /// Calls a function of the unit.
    pub fn function(&self, op: u16, v: U::Value) -> Result<U::Value, u32>
        requires { op < U.meaning.functions self.now.state.unit }
        ensures { result ≡ U.meaning.function self.now.state.unit op v (counts_in U.meaning self.now.state) }
    {
        self.unit.function(op, v, self.calls.counts())
    }

    /// Returns how many calls are queued on the entry (9.9).
    pub fn count(&self, e: u16) -> u64
        requires { e < U.meaning.entries self.now.state.unit }
        ensures { result ≡ slice_index (counts_in U.meaning self.now.state) e }
    {
        self.calls.count(e)
    }
}
