// SPDX-License-Identifier: MIT
//! The history of a protected object since it was last cut.
//!
//! An object can be replayed from it: it has each event in order, with its place in the whole history, and how each call ended.
//! All memory is taken before an event happens. Room is reserved for the event and is then owed to it, so the events that
//! follow by themselves never run out of memory. An owner who wants the memory back cuts off the events so far as a volume.
//! Places continue from volume to volume, and outcomes stay.

ghost use Rattle.std.specs.Prelude.{ℕ, ◌≡◌, ◌≢◌, ◌<◌, ◌≤◌, ◌+◌, ◌-◌, ◌^◌, List, [], ◌∷◌, ◌++◌, length, slice_set};
ghost use Rattle.std.specs.Prelude.{◌↔◌, IfOk, OnOk, OnErr, IsTrue};
ghost use Rattle.po_history.specs.Histories.{VolumeView, next_place, outcome_of, AreVolumesOf, all_events};

use crate::event::Event;
use crate::volume::Volume;
use po_calls::End;
use std::alloc::{AllocError, Global};
use std::marker::Model;
use std::mem;

/// The events of an object since its history was last cut, with room for those that are owed, and how its calls ended.
#[derive(Debug, Drop)]
pub struct History<V: Copy> {
    /// The number of the first call.
    first_number: u64,
    /// The place of the first of the events in the whole history.
    place: u64,
    events: Vec<Event<V>>,
    /// How each call ended, if it has. The index is its number minus the first.
    outcomes: Vec<Option<End<V>>>,
    /// For how many further events room is reserved.
    owed: usize,
}

impl<V: Copy> Model for History<V> {
    ghost use Rattle.std.specs.Prelude.{◌≤◌, ◌+◌, vec_capacity, vec_len};
    ghost use Rattle.po_history.specs.Histories.{HistoryView};

    ghost Value = { HistoryView V };

    ghost view = { λ h. record {
      first_number = h.first_number;
      place = h.place;
      events = h.events.items;
      owed = h.owed;
      outcomes = h.outcomes.items;
    } };

    ghost invariant = { λ h. vec_len h.events + h.owed ≤ vec_capacity h.events };
}

impl<V: Copy> History<V> {
    /// Makes a history with no event, whose first call gets this number and whose first event this place.
    ///
    /// One event is owed: the finalization of the object, which takes no memory (9.4).
    pub fn new(alloc: Global, first_number: u64, first_place: u64) -> Result<History<V>, AllocError>
        ensures { IfOk result (λ history. history ≡ record {
          first_number = first_number;
          place = first_place;
          events = [];
          owed = 1;
          outcomes = [];
        }) }
    {
        let events = Vec::with_capacity(alloc, 1)?;
        Ok(History {
            first_number,
            place: first_place,
            events,
            outcomes: Vec::new(alloc),
            owed: 1,
        })
    }

    /// Makes room for a call whose entry has this rank: for its outcome, for the event that issues it, and for all its further
    /// events.
    ///
    /// A call is served at most `rank + 1` times, since each requeue lowers the rank (9.5.4). At most one event attempts it or
    /// lets it expire.
    pub fn reserve_for(&mut self, rank: u8) -> Result<(), AllocError>
        ensures ok { OnOk result (self.new ≡ record self.old {
          owed = self.old.owed + rank + 3;
          outcomes = self.old.outcomes ++ None ∷ [];
        }) }
        ensures err { OnErr result (self.new ≡ self.old) }
    {
        let more = usize::from(rank) + 3;
        self.events.reserve(self.owed + more)?;
        self.outcomes.reserve(1)?;
        self.outcomes.push_reserved(None);
        self.owed += more;
        Ok(())
    }

    /// Makes room for one event that belongs to no call.
    pub fn reserve_event(&mut self) -> Result<(), AllocError>
        ensures ok { OnOk result (self.new ≡ record self.old { owed = self.old.owed + 1 }) }
        ensures err { OnErr result (self.new ≡ self.old) }
    {
        self.events.reserve(self.owed + 1)?;
        self.owed += 1;
        Ok(())
    }

    /// Adds an event at the end. There is room for it as long as some are `owed`.
    pub fn push_owed(&mut self, event: Event<V>)
        requires { 0 < self.old.owed }
        ensures exact { self.new ≡ record self.old {
          events = self.old.events ++ event ∷ [];
          owed = self.old.owed - 1;
        } }
        ensures owed { self.new.owed + 1 ≡ self.old.owed }
        ensures grows { (volumes : List (VolumeView V)) →
            all_events volumes self.new ≡ all_events volumes self.old ++ event ∷ [] }
    {
        self.owed -= 1;
        self.events.push_reserved(event);
    }

    /// Gives up the room for this many owed events, which won't come.
    pub fn release(&mut self, events: usize)
        requires { events ≤ self.old.owed }
        ensures { self.new ≡ record self.old { owed = self.old.owed - events } }
    {
        self.owed -= events;
    }

    /// Notes how a call ended. It has to be one that was issued and hasn't ended so far: `is_reserved_for` and `outcome` let
    /// the caller check that.
    pub fn set_outcome(&mut self, n: u64, end: End<V>)
        requires issued { self.old.first_number ≤ n }
        requires reserved { n - self.old.first_number < length self.old.outcomes }
        requires unset { outcome_of self.old n ≡ None }
        ensures outcome { outcome_of self.new n ≡ Some end }
        ensures others { (m : ℕ) → m ≢ n → outcome_of self.new m ≡ outcome_of self.old m }
        ensures rest { self.new ≡ record self.old { outcomes = self.new.outcomes } }
        ensures len { length self.new.outcomes ≡ length self.old.outcomes }
        ensures exact { self.new.outcomes ≡
            slice_set self.old.outcomes (n - self.old.first_number) (Some end) }
    {
        let index = (n - self.first_number) as usize;
        self.outcomes[index] = Some(end);
    }

    /// Returns the events since the last cut, in order.
    pub fn events(&self) -> &[Event<V>]
        ensures { result.now ≡ self.now.events }
    {
        self.events.as_slice()
    }

    /// Returns how the call with this number ended, if it has.
    pub fn outcome(&self, n: u64) -> Option<End<V>>
        ensures { result ≡ outcome_of self.now n }
    {
        let index = n.checked_sub(self.first_number)? as usize;
        self.outcomes.get(index).copied().flatten()
    }

    /// Returns whether there is room for the outcome of the call with this number.
    pub fn is_reserved_for(&self, n: u64) -> bool
        ensures { IsTrue result
            ↔ (self.now.first_number ≤ n) × (n - self.now.first_number < length self.now.outcomes) }
    {
        n >= self.first_number && n - self.first_number < self.outcomes.len() as u64
    }

    /// Returns for how many further events room is reserved.
    pub fn owed(&self) -> usize
        ensures { result ≡ self.now.owed }
    {
        self.owed
    }

    /// Returns the place of the next event in the whole history.
    pub fn place(&self) -> u128
        ensures { result ≡ next_place self.now }
    {
        u128::from(self.place) + self.events.len() as u128
    }

    /// Returns the place of the first event since the last cut.
    pub fn first_place(&self) -> u64
        ensures { result ≡ self.now.place }
    {
        self.place
    }

    /// Cuts off the events since the last cut, as a volume. The outcomes stay, and so does the room for events that are owed.
    pub fn cut(&mut self) -> Result<Volume<V>, AllocError>
        requires { next_place self.old < 2 ^ 64 }
        ensures volume { IfOk result (λ volume. volume ≡
            record { first_place = self.old.place; events = self.old.events }) }
        ensures after { OnOk result (self.new ≡ record self.old {
          place = self.old.place + length self.old.events;
          events = [];
        }) }
        ensures joined { IfOk result (λ volume. (from : ℕ) (volumes : List (VolumeView V)) →
            AreVolumesOf from volumes self.old →
            AreVolumesOf from (volumes ++ volume ∷ []) self.new
            × (all_events (volumes ++ volume ∷ []) self.new ≡ all_events volumes self.old)) }
        ensures err { OnErr result (self.new ≡ self.old) }
    {
        let room = Vec::with_capacity(*self.events.allocator(), self.owed)?;
        let first_place = self.place;
        self.place += self.events.len() as u64;
        let events = mem::replace(&mut self.events, room);
        Ok(Volume::new(first_place, events))
    }
}
