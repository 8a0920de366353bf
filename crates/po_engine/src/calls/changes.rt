// SPDX-License-Identifier: MIT
//! How the calls of an object change.

ghost use Rattle.std.specs.Prelude.{◌≡◌, ◌<◌, ◌+◌, ◌∷◌, ◌++◌, [], max, map, length, Some, None, true, OnSome, IfNone, find, All, drop};
ghost use Rattle.std.specs.List.{slice_get};
ghost use Rattle.po_calls.specs.declared.end.End.TheVariants.{ProgramError};
ghost use Rattle.po_engine.specs.WaitingCalls.{is_on, has_number, mark};
ghost use Rattle.po_engine.specs.Finding.{without_first};
ghost use Rattle.po_engine.specs.Ending.{ended_as};
ghost use Rattle.po_engine.specs.Tickets.{number_at, SetsTicket, status_among, end_at, is_live, uncollected};
ghost use Rattle.po_engine.specs.Calls.{places_without};
ghost use Rattle.po_calls.specs.declared.call.Call.{Call};

use crate::calls::{Calls, expires_at, room_left};
use crate::ended::Ended;
use po_calls::{Call, Deadline, End, Ticket};

impl<V: Copy> Calls<V> {
    /// Takes a new call into service. There is memory for it if the calls that the command has ended so far and those that wait
    /// are together fewer than `capacity`. As `recall_invariant` says, that holds when a command begins.
    pub fn add(&mut self, call: Call<V>) -> Ticket
        requires serving { self.old.serving ≡ None }
        requires room { uncollected self.old.tickets < self.old.capacity }
        requires memory { length (drop self.old.ended_before self.old.ended) + length self.old.waiting < self.old.capacity }
        requires number { call.number ≡ self.old.next }
        requires few { self.old.next < u64.MAX }
        ensures after { self.new ≡ record self.old {
          serving = Some call;
          next = self.old.next + 1;
          tickets = self.new.tickets;
          keys = self.old.keys ++ result.key ∷ [];
        } }
        ensures number { result.number ≡ call.number }
        // No uncollected call had the key of the ticket.
        ensures key { number_at self.old.tickets result.key ≡ None }
        ensures ticket { SetsTicket self.old.tickets self.new.tickets result.key (Some call.number) }
    {
        let ticket = self.table.put(call);
        self.keys = self.keys.then(&ticket.key);
        self.next += 1;
        self.serving = Some(ticket.key);
        ticket
    }

    /// Puts the call in service at the end of its entry's queue. It arrives there at `place` in the history.
    pub fn queue(&mut self, call: Call<V>, place: u128)
        requires in_service { self.old.serving ≡ Some call }
        requires entry { call.entry < self.old.total }
        requires later { All (λ k. k < place) self.old.places }
        ensures { self.new ≡ record self.old {
          waiting = self.old.waiting ++ call ∷ [];
          places = self.old.places ++ place ∷ [];
          serving = None;
        } }
    {
        let Some(key) = self.serving else {
            return;
        };
        self.queues
            .append(call.entry, key, place, expires_at(&call));
        self.serving = None;
    }

    /// Gives the call in service another entry and value, and sets whether it may be cancelled.
    pub fn requeue(&mut self, call: Call<V>, entry: u16, value: V, without_abort: bool) -> Call<V>
        requires in_service { self.old.serving ≡ Some call }
        ensures call { result ≡ record call { entry = entry; value = value; without_abort = without_abort } }
        ensures after { self.new ≡ record self.old { serving = Some result } }
    {
        let moved = Call {
            entry,
            value,
            without_abort,
            ..call
        };
        let Some(key) = self.serving else {
            return moved;
        };
        let number = call.number;
        self.table
            .requeue(Ticket { key, number }, entry, value, without_abort);
        moved
    }

    /// Gives the call in service another deadline.
    pub fn set_deadline(&mut self, call: Call<V>, deadline: Deadline) -> Call<V>
        requires in_service { self.old.serving ≡ Some call }
        ensures call { result ≡ record call { deadline = deadline } }
        ensures after { self.new ≡ record self.old { serving = Some result } }
    {
        let moved = Call { deadline, ..call };
        let Some(key) = self.serving else {
            return moved;
        };
        let number = call.number;
        self.table.set_deadline(Ticket { key, number }, deadline);
        moved
    }

    /// Ends the call in service.
    pub fn end(&mut self, call: Call<V>, end: End<V>)
        requires { self.old.serving ≡ Some call }
        ensures { self.new ≡ record self.old {
          serving = None;
          ended = self.old.ended ++ ended_as end call ∷ [];
        } }
    {
        let Some(key) = self.serving else {
            return;
        };
        let number = call.number;
        self.table.finish(Ticket { key, number }, end);
        let over = Ended {
            number,
            owner: call.owner,
            end,
        };
        self.ended = self.ended.then(&over);
        self.ended_now.push_reserved(over);
        self.serving = None;
    }

    /// Ends the call in service and gives up its ticket, in a command of its own: nobody collects its end.
    pub fn end_collected(&mut self, call: Call<V>, end: End<V>) -> Ticket
        requires { self.old.serving ≡ Some call }
        ensures after { self.new ≡ record self.old {
          serving = None;
          ended = self.old.ended ++ ended_as end call ∷ [];
          ended_before = length self.old.ended + 1;
          tickets = self.new.tickets;
          capacity = self.new.capacity;
        } }
        ensures number { result.number ≡ call.number }
        ensures live { is_live self.old.tickets result ≡ true }
        ensures taken { SetsTicket self.old.tickets self.new.tickets result.key None }
        ensures room { self.old.is_fixed ≡ true → self.new.capacity ≡ self.old.capacity }
        ensures kept_room { uncollected self.old.tickets < self.old.capacity → self.new.capacity ≡ self.old.capacity }
    {
        let number = call.number;
        let Some(key) = self.serving else {
            return Ticket { key: 0, number };
        };
        let ticket = Ticket { key, number };
        self.table.take_out(ticket);
        let over = Ended {
            number,
            owner: call.owner,
            end,
        };
        self.ended = self.ended.then(&over);
        self.before = self.ended.copy();
        self.ended_now.clear();
        self.serving = None;
        self.capacity = room_left(self.capacity, &self.table, &self.queues);
        ticket
    }

    /// Gives a new call its number and ends it, in a command of its own. The call was never in service or queued, so it takes no
    /// room and gets no ticket.
    pub fn end_at_once(&mut self, call: Call<V>, end: End<V>)
        requires serving { self.old.serving ≡ None }
        requires number { call.number ≡ self.old.next }
        requires few { self.old.next < u64.MAX }
        ensures { self.new ≡ record self.old {
          next = self.old.next + 1;
          ended = self.old.ended ++ ended_as end call ∷ [];
          ended_before = length self.old.ended + 1;
          keys = self.old.keys ++ 0 ∷ [];
        } }
    {
        let over = Ended {
            number: call.number,
            owner: call.owner,
            end,
        };
        self.keys = self.keys.then(&0);
        self.next += 1;
        self.ended = self.ended.then(&over);
        self.before = self.ended.copy();
        self.ended_now.clear();
    }

    /// Takes the first call on the entry into service.
    pub fn take_on(&mut self, entry: u16) -> Option<Call<V>>
        requires serving { self.old.serving ≡ None }
        requires entry { entry < self.old.total }
        ensures found { result ≡ find (is_on entry) self.old.waiting }
        ensures taken { self.new ≡ record self.old {
          waiting = without_first (is_on entry) self.old.waiting;
          places = places_without (is_on entry) self.old.waiting self.old.places;
          serving = result;
        } }
    {
        self.queues.recall_invariant();
        let key = self.queues.take_first(entry)?;
        self.serving = Some(key);
        self.in_service()
    }

    /// Takes the waiting call of the ticket into service.
    pub fn take_ticket(&mut self, ticket: Ticket) -> Option<Call<V>>
        requires serving { self.old.serving ≡ None }
        requires live { is_live self.old.tickets ticket ≡ true }
        ensures found { result ≡ find (has_number ticket.number) self.old.waiting }
        ensures taken { self.new ≡ record self.old {
          waiting = without_first (has_number ticket.number) self.old.waiting;
          places = places_without (has_number ticket.number) self.old.waiting self.old.places;
          serving = result;
        } }
    {
        let call = *self.table.get(ticket)?;
        self.queues.recall_invariant();
        self.queues.remove(ticket.key);
        self.serving = Some(ticket.key);
        Some(call)
    }

    /// Takes the call that arrived first into service.
    pub fn take_oldest(&mut self) -> Option<Call<V>>
        requires serving { self.old.serving ≡ None }
        ensures found { result ≡ slice_get self.old.waiting 0 }
        ensures taken { self.new ≡ record self.old {
          waiting = drop 1 self.old.waiting;
          places = drop 1 self.old.places;
          serving = result;
        } }
        ensures none_placed { IfNone result (self.old.places ≡ []) }
    {
        let key = self.queues.oldest()?;
        self.queues.recall_invariant();
        self.queues.remove(key);
        self.serving = Some(key);
        self.in_service()
    }

    /// Ends all waiting calls by Program_Error, in order of arrival.
    pub fn end_all(&mut self)
        requires { self.old.serving ≡ None }
        ensures { self.new ≡ record self.old {
          waiting = [];
          places = [];
          ended = self.old.ended ++ map (ended_as ProgramError) self.old.waiting;
        } }
    {
        while let Some(call) = self.take_oldest() {
            self.end(call, End::ProgramError);
        }
    }

    /// Marks the waiting call of the ticket as aborted.
    pub fn mark(&mut self, ticket: Ticket)
        requires serving { self.old.serving ≡ None }
        requires live { is_live self.old.tickets ticket ≡ true }
        ensures { self.new ≡ record self.old { waiting = map (mark ticket.number) self.old.waiting } }
    {
        let Some(found) = self.table.get(ticket).copied() else {
            return;
        };
        let number = found.number;
        self.table.mark(Ticket {
            key: ticket.key,
            number,
        });
    }

    /// Raises the clock to `time` if it is lower.
    pub fn rise(&mut self, time: u64)
        ensures { self.new ≡ record self.old { clock = max self.old.clock time } }
    {
        self.queues.rise(time);
    }

    /// Takes the end of the call of the ticket, if it has ended, and makes the ticket Unknown for good.
    pub fn collect(&mut self, ticket: Ticket) -> Option<End<V>>
        requires { self.old.serving ≡ None }
        ensures end { result ≡ end_at (status_among self.old.waiting self.old.ended self.old.tickets ticket) }
        ensures taken { OnSome result (SetsTicket self.old.tickets self.new.tickets ticket.key None) }
        ensures rest { self.new ≡ record self.old { tickets = self.new.tickets; capacity = self.new.capacity } }
        ensures room { self.old.is_fixed ≡ true → self.new.capacity ≡ self.old.capacity }
        ensures kept_room { uncollected self.old.tickets < self.old.capacity → self.new.capacity ≡ self.old.capacity }
        ensures left { IfNone result (self.new ≡ self.old) }
    {
        let end = self.table.collect(ticket)?;
        self.capacity = room_left(self.capacity, &self.table, &self.queues);
        Some(end)
    }
}
