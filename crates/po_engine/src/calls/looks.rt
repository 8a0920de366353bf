// SPDX-License-Identifier: MIT
//! What can be read off the calls of an object.

ghost use Rattle.std.specs.Prelude.{◌≡◌, ◌<◌, map, length, count_by, nat_lt, Some, None, true, IfOk, IfSome, find, option_map, if◌then◌else◌, drop};
ghost use Rattle.po_engine.specs.WaitingCalls.{is_on, is_of, is_due, counts_of};
ghost use Rattle.po_engine.specs.Tickets.{status_among, waiting_among, is_live, uncollected};
ghost use Rattle.po_calls.specs.declared.call.Call.{Call};

use crate::arrival::Arrival;
use crate::calls::Calls;
use crate::ended::Ended;
use po_calls::{Call, CallStatus, Ticket};
use po_history::Trace;
use po_queues::Queues;
use std::alloc::AllocError;

impl<V: Copy> Calls<V> {
    /// Returns whether one more call may be uncollected.
    pub fn has_room(&self) -> bool
        ensures { result ≡ nat_lt (uncollected self.now.tickets) self.now.capacity }
    {
        self.table.len() < self.capacity
    }

    /// Returns whether the memory is fixed.
    pub fn is_fixed(&self) -> bool
        ensures { result ≡ self.now.is_fixed }
    {
        self.is_fixed
    }

    /// Returns the ticket of the call in service.
    pub fn ticket_in_service(&self, call: Call<V>) -> Ticket
        requires { self.now.serving ≡ Some call }
        ensures number { result.number ≡ call.number }
        ensures live { is_live self.now.tickets result ≡ true }
    {
        let number = call.number;
        let Some(key) = self.serving else {
            return Ticket { key: 0, number };
        };
        Ticket { key, number }
    }

    /// Returns the call in service, if there is one.
    pub fn in_service(&self) -> Option<Call<V>>
        ensures { result ≡ self.now.serving }
    {
        self.table.at(self.serving?).copied()
    }

    /// Returns the waiting call of the ticket, if there is one.
    pub fn waiting_call(&self, ticket: Ticket) -> Option<Call<V>>
        requires { self.now.serving ≡ None }
        ensures { result ≡ waiting_among self.now.waiting self.now.tickets ticket }
    {
        self.queues.recall_invariant();
        self.table.get(ticket).copied()
    }

    /// Returns the ticket of the first call that is due, in order of arrival (9.7.2).
    pub fn first_due(&mut self) -> Option<Ticket>
        ensures found { option_map (λ t. t.number) result ≡
            option_map (λ x. x.number) (find (is_due self.old.clock) self.old.waiting) }
        ensures live { IfSome result (λ t. is_live self.old.tickets t ≡ true) }
        ensures same { self.new ≡ self.old }
    {
        let key = self.queues.first_due()?;
        let number = self.table.at(key)?.number;
        Some(Ticket { key, number })
    }

    /// Returns whether the call of the ticket waits, has ended or is unknown.
    pub fn status(&self, ticket: Ticket) -> CallStatus<V>
        requires { self.now.serving ≡ None }
        ensures { result ≡ status_among self.now.waiting self.now.ended self.now.tickets ticket }
    {
        self.table.status(ticket)
    }

    /// Returns the ticket of the owner's earliest waiting call.
    pub fn waiting_ticket_of(&self, owner: u16) -> Option<Ticket>
        ensures number { option_map (λ t. t.number) result ≡
            option_map (λ x. x.number) (find (is_of owner) self.now.waiting) }
        ensures live { IfSome result (λ t. is_live self.now.tickets t ≡ true) }
    {
        self.queues.recall_invariant();
        let mut next = self.queues.oldest();
        while let Some(key) = next {
            if let Some(call) = self.table.at(key) {
                if call.owner == owner {
                    return Some(Ticket {
                        key,
                        number: call.number,
                    });
                }
            }
            next = self.queues.next(key);
        }
        None
    }

    /// Returns the waiting calls with the places at which they arrived, in order of arrival.
    pub fn arrivals(&self) -> Result<Vec<Arrival<V>>, AllocError>
        ensures calls { IfOk result (λ list. map (λ a. a.call) list.items ≡ self.now.waiting) }
        ensures places { IfOk result (λ list. map (λ a. a.place) list.items ≡ self.now.places) }
    {
        self.queues.recall_invariant();
        let mut list = Vec::new(*self.ended_now.allocator());
        let mut next = self.queues.oldest();
        while let Some(key) = next {
            if let Some(call) = self.table.at(key) {
                if let Some(place) = self.queues.stamp(key) {
                    list.push(Arrival { call: *call, place })?;
                }
            }
            next = self.queues.next(key);
        }
        Ok(list)
    }

    /// Returns each entry's queue, of keys in the order of the waiting calls.
    pub fn by_entry(&self) -> &Queues
        ensures entries { map (λ i. i.entry) result.now.items ≡ map (λ x. x.entry) self.now.waiting }
        ensures total { result.now.total ≡ self.now.total }
    {
        self.queues.by_entry()
    }

    /// Returns how many calls wait on each entry, in the order of entries (9.9).
    pub fn counts(&self) -> &[u64]
        ensures counts { result.now ≡ counts_of self.now.total self.now.waiting }
        ensures one_each { length result.now ≡ self.now.total }
    {
        self.queues.counts()
    }

    /// Returns how many calls wait on the entry (9.9).
    pub fn count(&self, entry: u16) -> u64
        requires { entry < self.now.total }
        ensures { result ≡ count_by (is_on entry) self.now.waiting }
    {
        self.queues.count(entry)
    }

    /// Returns the calls that have ended, in the order in which they ended. Known to proofs alone.
    pub fn ended(&self) -> &Trace<Ended<V>>
        ensures { result.now.items ≡ self.now.ended }
    {
        &self.ended
    }

    /// Returns the calls that have ended since the command began, in the order in which they ended.
    pub fn ended_now(&self) -> &[Ended<V>]
        ensures { result.now ≡ drop self.now.ended_before self.now.ended }
    {
        &self.ended_now
    }

    /// Returns the number that the next call gets.
    pub fn next_number(&self) -> u64
        ensures { result ≡ self.now.next }
    {
        self.next
    }

    /// Returns how many calls may be uncollected at once, if that number is fixed.
    pub fn capacity(&self) -> Option<usize>
        ensures { result ≡ (if self.now.is_fixed then Some self.now.capacity else None) }
    {
        if self.is_fixed {
            Some(self.capacity)
        } else {
            None
        }
    }

    /// Returns the clock.
    pub fn clock(&self) -> u64
        ensures { result ≡ self.now.clock }
    {
        self.queues.clock()
    }
}
