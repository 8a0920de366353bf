// SPDX-License-Identifier: MIT
//! The table of the calls that aren't collected.

ghost use Rattle.std.specs.Prelude.{ℕ, [], ◌≡◌, ◌<◌, ◌≤◌, ◌+◌, ◌↔◌, Ok, None, Some, IfOk, OnOk, OnSome, IfNone, IsTrue, option_copied, true};
ghost use Rattle.slab.specs.Slab.{get, slab_len, HasRoomFor, Updates};
ghost use Rattle.po_calls.specs.declared.ticket.Ticket.{Ticket};
ghost use Rattle.po_calls.specs.declared.call.Call.{Call};
ghost use Rattle.po_calls.specs.declared.end.CallStatus.TheVariants.{Waiting};
ghost use Rattle.po_calls.specs.Calls.{kept, status_of, waiting_call, end_of, Sets, KeepsRoom, numbers_of, IsAbove, IsSpent, KeepsSpent};

use crate::call::{Call, Deadline};
use crate::end::{CallStatus, End};
use crate::kept::Kept;
use crate::ticket::Ticket;
use slab::Slab;
use std::alloc::{AllocError, Global};
use std::marker::Model;

/// The calls of an object that aren't collected, each found by its ticket.
///
/// A ticket is `Unknown` if its key holds no call, or one with another number. Only `with_capacity`, `copy` and `reserve_one`
/// take memory.
#[derive(Drop)]
pub struct Table<V: Copy> {
    calls: Slab<Kept<V>>,
    /// The greatest number of all calls put so far.
    last: Option<u64>,
}

impl<V: Copy> Model for Table<V> {
    ghost use Rattle.po_calls.specs.Calls.{CallTable, AreReached};

    ghost Value = { CallTable V };

    ghost view = { λ t. record { calls = t.calls; last = t.last } };

    ghost invariant = { λ t. AreReached (record { calls = t.calls; last = t.last }) };
}

impl<V: Copy> Table<V> {
    /// Makes a table with no call. A call of any number can be put into it.
    pub fn new(alloc: Global) -> Table<V>
        ensures kept { (ticket : Ticket) → kept result ticket ≡ None }
        ensures vacant { (key : ℕ) → get result.calls key ≡ None }
        ensures numbers { numbers_of result ≡ [] }
        ensures next_key { result.calls.vacant_key ≡ 0 }
        ensures last { result.last ≡ None }
    {
        Table {
            calls: Slab::new(alloc),
            last: None,
        }
    }

    /// Makes a table with no call, and with room for `capacity` of them.
    pub fn with_capacity(alloc: Global, capacity: usize) -> Result<Table<V>, AllocError>
        ensures kept { IfOk result (λ t. (ticket : Ticket) → kept t ticket ≡ None) }
        ensures vacant { IfOk result (λ t. (key : ℕ) → get t.calls key ≡ None) }
        ensures numbers { IfOk result (λ t. numbers_of t ≡ []) }
        ensures len { IfOk result (λ t. slab_len t.calls ≡ 0) }
        ensures room { IfOk result (λ t. HasRoomFor t.calls capacity) }
        ensures last { IfOk result (λ t. t.last ≡ None) }
    {
        let calls = Slab::with_capacity(alloc, capacity)?;
        Ok(Table { calls, last: None })
    }

    /// Makes a table that keeps the same calls under the same keys, and has room for `capacity` calls, those that are kept included.
    ///
    /// Fails only if memory runs out. The next key of the copy is that of this table.
    pub fn copy(&self, capacity: usize) -> Result<Table<V>, AllocError>
        ensures same { IfOk result (λ copy. copy ≡ record self.now {
          calls = record self.now.calls { capacity = copy.calls.capacity };
        }) }
        ensures room { IfOk result (λ copy. capacity ≤ copy.calls.capacity) }
    {
        let mut calls = self.calls.clone()?;
        calls.reserve(capacity.saturating_sub(self.calls.len()))?;
        Ok(Table {
            calls,
            last: self.last,
        })
    }

    /// Makes room for one more call. No room is lost, even if this fails.
    pub fn reserve_one(&mut self) -> Result<(), AllocError>
        ensures room { OnOk result (HasRoomFor self.new.calls 1) }
        ensures grows { self.old.calls.capacity ≤ self.new.calls.capacity }
        ensures stays { self.new ≡ record self.old {
          calls = record self.old.calls { capacity = self.new.calls.capacity };
        } }
        ensures succeeds { HasRoomFor self.old.calls 1 → result ≡ Ok tt }
        ensures had_room { HasRoomFor self.old.calls 1 → self.new ≡ self.old }
        ensures numbers { numbers_of self.new ≡ numbers_of self.old }
    {
        self.calls.reserve(1)
    }

    /// Returns whether there is room to put one more call.
    pub fn has_room(&self) -> bool
        ensures { IsTrue result ↔ HasRoomFor self.now.calls 1 }
    {
        self.calls.len() < self.calls.capacity()
    }

    /// Returns how many calls are kept.
    pub fn len(&self) -> usize
        ensures { result ≡ slab_len self.now.calls }
    {
        self.calls.len()
    }

    /// Returns for how many calls there is memory, those that are kept included. All keys are below it.
    pub fn capacity(&self) -> usize
        ensures { result ≡ self.now.calls.capacity }
    {
        self.calls.capacity()
    }

    /// Returns the greatest number of all calls put so far, if there is one. The next call that is put has to have a greater
    /// one.
    pub fn last(&self) -> Option<u64>
        ensures { result ≡ self.now.last }
    {
        self.last
    }

    /// Returns the key that a `put` would give now.
    pub fn next_key(&self) -> usize
        ensures exact { result ≡ self.now.calls.vacant_key }
        ensures vacant { get self.now.calls result ≡ None }
    {
        self.calls.vacant_key()
    }

    /// Keeps a waiting call. There has to be room, and its number has to be above those of all calls put before: `has_room` and
    /// `last` let the caller check both.
    pub fn put(&mut self, call: Call<V>) -> Ticket
        requires room { HasRoomFor self.old.calls 1 }
        requires number { IsAbove self.old.last call.number }
        ensures ticket { result ≡ record { key = self.old.calls.vacant_key; number = call.number } }
        ensures was_vacant { get self.old.calls result.key ≡ None }
        ensures sets { Sets self.old self.new result (Some (record { call = call; end = None })) }
        ensures updates { Updates self.old.calls self.new.calls result.key (Some (record { call = call; end = None })) }
        ensures len { slab_len self.new.calls ≡ slab_len self.old.calls + 1 }
        ensures capacity { self.new.calls.capacity ≡ self.old.calls.capacity }
        ensures key_in_range { result.key < self.new.calls.capacity }
        ensures last { self.new.last ≡ Some call.number }
        ensures spent { KeepsSpent self.old self.new }
    {
        let number = call.number;
        let key = self.calls.insert_reserved(Kept { call, end: None });
        self.last = Some(number);
        Ticket { key, number }
    }

    /// Returns the call of the ticket, if it waits.
    pub fn get(&self, ticket: Ticket) -> Option<&Call<V>>
        ensures { option_copied result ≡ waiting_call (kept self.now ticket) }
    {
        match self.calls.get(ticket.key) {
            Some(found) if found.call.number == ticket.number && found.end.is_none() => Some(
                &found.call,
            ),
            _ => None,
        }
    }

    /// Returns the waiting call that has this key, if there is one.
    pub fn at(&self, key: usize) -> Option<&Call<V>>
        ensures { option_copied result ≡ waiting_call (get self.now.calls key) }
    {
        match self.calls.get(key) {
            Some(found) if found.end.is_none() => Some(&found.call),
            _ => None,
        }
    }

    /// Returns the status of the ticket's call.
    pub fn status(&self, ticket: Ticket) -> CallStatus<V>
        ensures { result ≡ status_of (kept self.now ticket) }
    {
        match self.calls.get(ticket.key) {
            Some(found) if found.call.number == ticket.number => match found.end {
                None => CallStatus::Waiting,
                Some(end) => CallStatus::Ended(end),
            },
            _ => CallStatus::Unknown,
        }
    }

    /// Ends a waiting call in this way.
    pub fn finish(&mut self, ticket: Ticket, end: End<V>)
        requires { status_of (kept self.old ticket) ≡ Waiting }
        ensures sets { (call : Call V) → waiting_call (kept self.old ticket) ≡ Some call
            → Sets self.old self.new ticket (Some (record { call = call; end = Some end })) }
        ensures updates { (call : Call V) → waiting_call (kept self.old ticket) ≡ Some call
            → Updates self.old.calls self.new.calls ticket.key (Some (record { call = call; end = Some end })) }
        ensures room { KeepsRoom self.old self.new }
        ensures numbers { numbers_of self.new ≡ numbers_of self.old }
        ensures spent { KeepsSpent self.old self.new }
    {
        if let Some(ended) = self.calls.get_mut(ticket.key) {
            ended.end = Some(end);
        }
    }

    /// Takes out the call of the ticket and returns its end, if it has ended. The ticket is then `Unknown` for good.
    pub fn collect(&mut self, ticket: Ticket) -> Option<End<V>>
        ensures exact { result ≡ end_of (kept self.old ticket) }
        ensures otherwise { IfNone result (self.new ≡ self.old) }
        ensures sets { OnSome result (Sets self.old self.new ticket None) }
        ensures updates { OnSome result (Updates self.old.calls self.new.calls ticket.key None) }
        ensures next_key { OnSome result (self.new.calls.vacant_key ≡ ticket.key) }
        ensures len { OnSome result (slab_len self.new.calls + 1 ≡ slab_len self.old.calls) }
        ensures room { OnSome result (HasRoomFor self.new.calls 1) }
        ensures capacity { self.new.calls.capacity ≡ self.old.calls.capacity }
        ensures last { self.new.last ≡ self.old.last }
        ensures for_good { OnSome result (IsSpent self.new ticket) }
        ensures spent { KeepsSpent self.old self.new }
    {
        let end = match self.calls.get(ticket.key) {
            Some(found) if found.call.number == ticket.number => found.end?,
            _ => return None,
        };
        self.calls.try_remove(ticket.key);
        Some(end)
    }

    /// Takes out a waiting call, whose end nobody collects. The ticket is then `Unknown` for good.
    pub fn take_out(&mut self, ticket: Ticket)
        requires { status_of (kept self.old ticket) ≡ Waiting }
        ensures sets { Sets self.old self.new ticket None }
        ensures updates { Updates self.old.calls self.new.calls ticket.key None }
        ensures next_key { self.new.calls.vacant_key ≡ ticket.key }
        ensures len { slab_len self.new.calls + 1 ≡ slab_len self.old.calls }
        ensures room { HasRoomFor self.new.calls 1 }
        ensures capacity { self.new.calls.capacity ≡ self.old.calls.capacity }
        ensures last { self.new.last ≡ self.old.last }
        ensures for_good { IsSpent self.new ticket }
        ensures spent { KeepsSpent self.old self.new }
    {
        self.calls.remove(ticket.key);
    }

    /// Gives a waiting call another entry and value, and sets whether it is protected against cancellation.
    pub fn requeue(&mut self, ticket: Ticket, entry: u16, value: V, without_abort: bool)
        requires { status_of (kept self.old ticket) ≡ Waiting }
        ensures sets { (call : Call V) → waiting_call (kept self.old ticket) ≡ Some call
            → Sets self.old self.new ticket (Some (record {
              call = record call { entry = entry; value = value; without_abort = without_abort };
              end = None;
            })) }
        ensures updates { (call : Call V) → waiting_call (kept self.old ticket) ≡ Some call
            → Updates self.old.calls self.new.calls ticket.key (Some (record {
              call = record call { entry = entry; value = value; without_abort = without_abort };
              end = None;
            })) }
        ensures room { KeepsRoom self.old self.new }
        ensures numbers { numbers_of self.new ≡ numbers_of self.old }
        ensures spent { KeepsSpent self.old self.new }
    {
        if let Some(requeued) = self.calls.get_mut(ticket.key) {
            requeued.call.entry = entry;
            requeued.call.value = value;
            requeued.call.without_abort = without_abort;
        }
    }

    /// Gives a waiting call another deadline.
    pub fn set_deadline(&mut self, ticket: Ticket, deadline: Deadline)
        requires { status_of (kept self.old ticket) ≡ Waiting }
        ensures sets { (call : Call V) → waiting_call (kept self.old ticket) ≡ Some call
            → Sets self.old self.new ticket (Some (record { call = record call { deadline = deadline }; end = None })) }
        ensures updates { (call : Call V) → waiting_call (kept self.old ticket) ≡ Some call
            → Updates self.old.calls self.new.calls ticket.key
            (Some (record { call = record call { deadline = deadline }; end = None })) }
        ensures room { KeepsRoom self.old self.new }
        ensures numbers { numbers_of self.new ≡ numbers_of self.old }
        ensures spent { KeepsSpent self.old self.new }
    {
        if let Some(changed) = self.calls.get_mut(ticket.key) {
            changed.call.deadline = deadline;
        }
    }

    /// Marks a waiting call as aborted.
    pub fn mark(&mut self, ticket: Ticket)
        requires { status_of (kept self.old ticket) ≡ Waiting }
        ensures sets { (call : Call V) → waiting_call (kept self.old ticket) ≡ Some call
            → Sets self.old self.new ticket (Some (record { call = record call { aborted = true }; end = None })) }
        ensures updates { (call : Call V) → waiting_call (kept self.old ticket) ≡ Some call
            → Updates self.old.calls self.new.calls ticket.key
            (Some (record { call = record call { aborted = true }; end = None })) }
        ensures room { KeepsRoom self.old self.new }
        ensures numbers { numbers_of self.new ≡ numbers_of self.old }
        ensures spent { KeepsSpent self.old self.new }
    {
        if let Some(marked) = self.calls.get_mut(ticket.key) {
            marked.call.aborted = true;
        }
    }
}
