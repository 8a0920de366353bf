// SPDX-License-Identifier: MIT
//! The calls of an object: those that wait, on their queues, and those that have just ended.

ghost use Rattle.std.specs.Prelude.{◌≡◌, ◌<◌, ◌≤◌, ◌+◌, [], ℕ, map, length, Some, None, true, false, IfOk, IsOk, OnOk, OnErr, find, vec_len, vec_capacity};
ghost use Rattle.slab.specs.Slab.{slab_len};
ghost use Rattle.po_engine.specs.WaitingCalls.{has_number};
ghost use Rattle.po_engine.specs.Tickets.{number_at, uncollected};
ghost use Rattle.po_engine.specs.Calls.{AreCallsSound, HasTicket, key_of, expires_at as time_of_expiration};
ghost use Rattle.po_calls.specs.declared.call.Call.{Call};

mod changes;
mod looks;

use crate::ended::Ended;
use po_calls::{Call, Deadline, Table};
use po_history::Trace;
use po_queues::EntryQueues;
use std::alloc::{AllocError, Global};
use std::marker::Model;

/// The calls of an object: a table of those that aren't collected, queues of the keys of those that wait, and a list of those
/// that ended in the last command.
///
/// A call that is being served is in service: it waits, but isn't queued. The number of calls that may be uncollected at once
/// is either fixed when this is made, and then no call needs more memory; or `reserve` makes room for each further call.
#[derive(Drop)]
pub struct Calls<V: Copy> {
    table: Table<V>,
    queues: EntryQueues,
    /// The key of each call, at the call's number minus `first`. Known to proofs alone.
    keys: Trace<usize>,
    /// The calls that have ended, in the order in which they ended. Known to proofs alone.
    ended: Trace<Ended<V>>,
    /// Those that had ended before the command began. Known to proofs alone.
    before: Trace<Ended<V>>,
    /// Those that have ended since the command began.
    ended_now: Vec<Ended<V>>,
    /// The number of the first call.
    first: u64,
    /// The number of the next call.
    next: u64,
    /// The key of the call in service.
    serving: Option<usize>,
    /// How many calls may be uncollected at once.
    capacity: usize,
    /// Whether `capacity` never changes.
    is_fixed: bool,
}

impl<V: Copy> Model for Calls<V> {
    ghost use Rattle.std.specs.Prelude.{map, length};
    ghost use Rattle.po_calls.specs.Calls.{numbers_of};
    ghost use Rattle.po_engine.specs.Calls.{CallsView, KeepsCalls, call_at, waiting_in, of_key};

    ghost Value = { CallsView V };

    ghost view = { λ c. record {
      waiting = waiting_in (call_at c.table.calls) c.queues.items;
      places = map (λ i. i.stamp) c.queues.items;
      serving = of_key (call_at c.table.calls) c.serving;
      ended = c.ended.items;
      ended_before = length c.before.items;
      tickets = numbers_of c.table;
      keys = c.keys.items;
      first = c.first;
      next = c.next;
      total = c.queues.total;
      clock = c.queues.clock;
      capacity = c.capacity;
      is_fixed = c.is_fixed;
    } };

    ghost invariant = { λ c. KeepsCalls c.table c.queues c.keys.items c.ended.items c.before.items c.ended_now c.first c.next c.serving c.capacity c.is_fixed };
}

/// Returns when a call expires, if it does. One that is queued by a requeue without abort doesn't (9.5.4, 9.7.2).
fn expires_at<V: Copy>(call: &Call<V>) -> Option<u64>
    ensures { result ≡ time_of_expiration call.now }
{
    match call.deadline {
        Deadline::At(time) if !call.without_abort => Some(time),
        _ => None,
    }
}

/// Reserves all keys below `keys`.
fn reserve_below(queues: &mut EntryQueues, keys: usize) -> Result<(), AllocError>
    ensures ok { OnOk result (keys ≤ queues.new.reserved) }
    ensures only_room { queues.new ≡ record queues.old { reserved = queues.new.reserved } }
    ensures grows { queues.old.reserved ≤ queues.new.reserved }
{
    if keys > 0 {
        queues.reserve(keys - 1)?;
    }
    Ok(())
}

/// Returns how many calls there is room for after one has left the table: as many as before, if each key that the table may give can
/// be queued, and otherwise those that are left.
fn room_left<V: Copy>(capacity: usize, table: &Table<V>, queues: &EntryQueues) -> usize
    ensures all { table.now.calls.capacity ≤ queues.now.reserved → result ≡ capacity }
    ensures none { queues.now.reserved < table.now.calls.capacity → result ≡ slab_len table.now.calls }
{
    if table.capacity() <= queues.reserved() {
        capacity
    } else {
        table.len()
    }
}

/// Makes a list of the same calls, with room for as many.
fn copied<V: Copy>(ended: &Vec<Ended<V>>) -> Result<Vec<Ended<V>>, AllocError>
    ensures same { IfOk result (λ copy. copy.items ≡ ended.now.items) }
    ensures len { IfOk result (λ copy. vec_len copy ≡ vec_len ended.now) }
    ensures room { IfOk result (λ copy. vec_capacity ended.now ≤ vec_capacity copy) }
{
    let mut copy = Vec::with_capacity(*ended.allocator(), ended.capacity())?;
    copy.extend_from_slice(ended.as_slice())?;
    Ok(copy)
}

impl<V: Copy> Calls<V> {
    /// Makes empty queues for `total` entries, at clock 0. The first call will have the number `first`. There is room for no
    /// call yet.
    pub fn new(alloc: Global, total: u16, first: u64) -> Result<Calls<V>, AllocError>
        ensures { IfOk result (λ c. c ≡ record {
          waiting = [];
          places = [];
          serving = None;
          ended = [];
          ended_before = 0;
          tickets = [];
          keys = [];
          first = first;
          next = first;
          total = total;
          clock = 0;
          capacity = 0;
          is_fixed = false;
        }) }
    {
        Ok(Calls {
            table: Table::new(alloc),
            queues: EntryQueues::new(alloc, total)?,
            keys: Trace::new(),
            ended: Trace::new(),
            before: Trace::new(),
            ended_now: Vec::new(alloc),
            first,
            next: first,
            serving: None,
            capacity: 0,
            is_fixed: false,
        })
    }

    /// Like `new`, but with all memory for `capacity` uncollected calls at once.
    pub fn with_capacity(
        alloc: Global,
        total: u16,
        first: u64,
        capacity: usize,
    ) -> Result<Calls<V>, AllocError>
        ensures { IfOk result (λ c. c ≡ record {
          waiting = [];
          places = [];
          serving = None;
          ended = [];
          ended_before = 0;
          tickets = [];
          keys = [];
          first = first;
          next = first;
          total = total;
          clock = 0;
          capacity = capacity;
          is_fixed = true;
        }) }
    {
        let table = Table::with_capacity(alloc, capacity)?;
        let mut queues = EntryQueues::new(alloc, total)?;
        reserve_below(&mut queues, table.capacity())?;
        Ok(Calls {
            table,
            queues,
            keys: Trace::new(),
            ended: Trace::new(),
            before: Trace::new(),
            ended_now: Vec::with_capacity(alloc, capacity)?,
            first,
            next: first,
            serving: None,
            capacity,
            is_fixed: true,
        })
    }

    /// Makes equal calls, with memory for as many. Fails only if memory runs out.
    pub fn copy(&self) -> Result<Calls<V>, AllocError>
        ensures { IfOk result (λ copy. copy ≡ self.now) }
    {
        let table = self.table.copy(self.capacity)?;
        let mut queues = self.queues.copy()?;
        reserve_below(&mut queues, table.capacity())?;
        Ok(Calls {
            table,
            queues,
            keys: self.keys.copy(),
            ended: self.ended.copy(),
            before: self.before.copy(),
            ended_now: copied(&self.ended_now)?,
            first: self.first,
            next: self.next,
            serving: self.serving,
            capacity: self.capacity,
            is_fixed: self.is_fixed,
        })
    }

    /// Makes room for one more call if there is none. A call that is collected while there is room leaves its own to another.
    pub fn reserve(&mut self) -> Result<(), AllocError>
        requires { self.old.is_fixed ≡ false }
        ensures same { self.new ≡ record self.old { capacity = self.new.capacity } }
        ensures ok { OnOk result (uncollected self.new.tickets < self.new.capacity) }
        ensures err { OnErr result (self.new ≡ self.old) }
        ensures had_room { uncollected self.old.tickets < self.old.capacity → IsOk result × (self.new ≡ self.old) }
    {
        if self.has_room() {
            return Ok(());
        }
        self.table.reserve_one()?;
        reserve_below(&mut self.queues, self.table.capacity())?;
        let capacity = self.table.len().checked_add(1).ok_or(AllocError)?;
        let more = capacity.saturating_sub(self.ended_now.len());
        self.ended_now.reserve(more)?;
        self.capacity = capacity;
        Ok(())
    }

    /// Begins a command: no call has ended in it yet.
    pub fn begin(&mut self)
        ensures { self.new ≡ record self.old { ended_before = length self.old.ended } }
    {
        self.before = self.ended.copy();
        self.ended_now.clear();
    }

    /// Recalls for proofs what always holds: waiting calls are uncollected; no more than `capacity` calls are uncollected; each
    /// accepted call waits, is in service or has ended; the number of a waiting call leads to its ticket, and that of a ticket to
    /// the ticket's key.
    pub fn recall_invariant(&self)
        ensures sound { AreCallsSound self.now }
        ensures waiting { length self.now.waiting ≤ uncollected self.now.tickets }
        ensures capacity { uncollected self.now.tickets ≤ self.now.capacity }
        ensures each { self.now.serving ≡ None → length self.now.ended + length self.now.waiting ≡ length self.now.keys }
        ensures tickets { (n : ℕ) (x : Call V) → find (has_number n) self.now.waiting ≡ Some x
            → HasTicket self.now.first self.now.keys self.now.tickets n }
        ensures leads { (k n : ℕ) → number_at self.now.tickets k ≡ Some n → key_of self.now.first self.now.keys n ≡ Some k }
    {
        self.queues.recall_invariant();
    }
}
