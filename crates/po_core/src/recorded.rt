// SPDX-License-Identifier: MIT
//! A record in memory.

ghost use Rattle.std.specs.Prelude.{ℕ, ◌≡◌, ◌+◌, ◌≤◌, ◌<◌, ◌∷◌, ◌++◌, [], None, Some, true, false, length, vec_len, vec_capacity, MatchOption, IfOk, OnOk, if◌then◌else◌};
ghost use Rattle.po_engine.specs.Calls.{key_of};
ghost use Rattle.po_engine.specs.ObjectState.{opening_state};
ghost use Rattle.po_core.specs.Base.{is_ran};
ghost use Rattle.po_core.specs.Setup.{Setup as WhatWasMade};
ghost use Rattle.po_core.specs.Tracking.{opening_of};
ghost use Rattle.po_core.specs.Noting.{Known, MayPush, calls_of, keys_on};
ghost use Rattle.po_core.specs.Recording.{IsRecording};

use crate::Setup;
use crate::base::Base;
use crate::noting::note_calls;
use crate::record::Record;
use crate::refusal::Refusal;
use po_calls::Ticket;
use po_engine::{Ended, State};
use po_history::{Event, History};
use po_unit::Unit;
use std::alloc::{AllocError, Global};

/// A record in memory: the history since the base, a key for each number, and the calls that have ended.
#[derive(Drop)]
pub struct Recorded<U: Unit> {
    /// What the history replays from.
    pub(crate) base: Base<U>,
    pub(crate) history: History<U::Value>,
    /// The key of each call's ticket, at the call's number minus the first one.
    pub(crate) keys: Vec<usize>,
    /// The calls that have ended, in the order in which they ended.
    pub(crate) ended: Vec<Ended<U::Value>>,
    /// How many procedures have run.
    pub(crate) ran: u64,
}

/// Makes room for the key of one more call, and for the ends of all calls that then have a key.
fn reserve_lists<V>(keys: &mut Vec<usize>, ended: &mut Vec<Ended<V>>) -> Result<(), AllocError>
    ensures key { OnOk result (vec_len keys.new + 1 ≤ vec_capacity keys.new) }
    ensures ends { OnOk result (vec_len keys.new + 1 ≤ vec_capacity ended.new) }
    ensures keys { (keys.new.items ≡ keys.old.items) × (vec_len keys.new ≡ vec_len keys.old) }
    ensures ended { (ended.new.items ≡ ended.old.items) × (vec_len ended.new ≡ vec_len ended.old) }
    ensures grows { vec_capacity ended.old ≤ vec_capacity ended.new }
{
    keys.reserve(1)?;
    let more = (keys.len() + 1).saturating_sub(ended.len());
    ended.reserve(more)
}

/// Notes the key of the call that an event issued, if it issued one.
fn push_key(keys: &mut Vec<usize>, ticket: Option<Ticket>)
    requires { vec_len keys.old + calls_of ticket ≤ vec_capacity keys.old }
    ensures items { keys.new.items ≡ keys_on keys.old.items ticket }
    ensures len { vec_len keys.new ≡ vec_len keys.old + calls_of ticket }
    ensures capacity { vec_capacity keys.new ≡ vec_capacity keys.old }
{
    if let Some(ticket) = ticket {
        keys.push_reserved(ticket.key);
    }
}

/// Returns how many procedures have run after one more event.
fn counted<V: Copy>(ran: u64, event: Event<V>) -> u64
    requires { is_ran event ≡ true → ran < u64.MAX }
    ensures { result ≡ ran + (if is_ran event then 1 else 0) }
{
    match event {
        Event::Procedure { .. } => ran + 1,
        _ => ran,
    }
}

/// Recalls for proofs that a place fits 64 bits, and so does the number of events in memory.
fn recall_place<U: Unit>(base: &Base<U>, history: &History<U::Value>)
    ensures { base.now.place + length history.now.events < 36_893_488_147_419_103_232 }
{
    // Only for the prover: brings the bounds of both numbers into the proof.
    let (_place, _events) = (base.place(), history.events().len());
}

impl<U: Unit + Drop> Recorded<U> {
    /// Makes the record of an object without events.
    pub(crate) fn new(alloc: Global, setup: &Setup<U>) -> Result<Recorded<U>, AllocError>
        ensures base { IfOk result (λ r. r.base ≡ opening_of setup.now) }
        ensures events { IfOk result (λ r. r.history.events ≡ []) }
        ensures has { IfOk result (λ r. (s : Known U U.Value) → s.state ≡ opening_state setup.now.opening setup.now.first_number
            → s.keys ≡ [] → s.first ≡ setup.now.first_number → s.is_fixed ≡ false
            → IsRecording setup.now s 1 0 r.base r.history r.keys r.ended r.ran) }
    {
        let unit = setup.opening().copy()?;
        let (first_number, first_place) = (setup.first_number(), setup.first_place());
        let history = History::new(alloc, first_number, first_place)?;
        Ok(Recorded {
            base: Base::new(alloc, unit, first_number, first_place),
            history,
            keys: Vec::new(alloc),
            ended: Vec::new(alloc),
            ran: 0,
        })
    }
}

impl<U: Unit> Recorded<U> {
    /// Returns the ticket of the call with number n, given the number of the first call.
    pub(crate) fn ticket_of(&self, first: u64, n: u64) -> Option<Ticket>
        ensures { MatchOption result (key_of first self.now.keys.items n ≡ None)
            (λ t. (key_of first self.now.keys.items n ≡ Some t.key) × (t.number ≡ n)) }
    {
        if n < first {
            return None;
        }
        let key = *self.keys.get((n - first) as usize)?;
        Some(Ticket { key, number: n })
    }
}

impl<U: Unit> Record<U> for Recorded<U> {
    ghost base = { λ setup r. r.base };

    ghost events = { λ r. r.history.events };

    ghost IsOf = { λ setup r s room calls. IsRecording setup s room calls r.base r.history r.keys r.ended r.ran };

    ghost is_bounded = { false };

    fn recall_kind(&self, _setup: &Setup<U>, _state: &State<U>) {}

    fn reserve_call(
        &mut self,
        _setup: &Setup<U>,
        state: &mut State<U>,
        rank: u8,
    ) -> Result<(), Refusal> {
        state.reserve()?;
        reserve_lists(&mut self.keys, &mut self.ended)?;
        self.history.reserve_for(rank)?;
        Ok(())
    }

    fn reserve_event(
        &mut self,
        _setup: &Setup<U>,
        _state: &State<U>,
        _place: u128,
    ) -> Result<(), Refusal> {
        recall_place(&self.base, &self.history);
        self.history.reserve_event()?;
        Ok(())
    }

    fn push(&mut self, event: Event<U::Value>)
        requires { MayPush U.meaning (λ setup s room calls. IsRecording setup s room calls self.old.base self.old.history self.old.keys self.old.ended self.old.ran) (λ setup. self.old.base) self.old.history.events event }
        ensures base { (setup : WhatWasMade U) → self.new.base ≡ self.old.base }
        ensures events { self.new.history.events ≡ self.old.history.events ++ event ∷ [] }
        ensures has { (setup : WhatWasMade U) (s : Known U U.Value) (room calls : ℕ) → IsRecording setup s (room + 1) calls self.old.base self.old.history self.old.keys self.old.ended self.old.ran → IsRecording setup s room calls self.new.base self.new.history self.new.keys self.new.ended self.new.ran }
    {
        self.ran = counted(self.ran, event);
        self.history.push_owed(event);
    }

    fn note_calls(
        &mut self,
        _setup: &Setup<U>,
        state: &State<U>,
        noted: usize,
        ticket: Option<Ticket>,
    ) {
        push_key(&mut self.keys, ticket);
        note_calls(&mut self.history, &mut self.ended, state, noted);
    }
}
