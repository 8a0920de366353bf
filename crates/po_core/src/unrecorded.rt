// SPDX-License-Identifier: MIT
//! No record: what has happened is known to proofs alone.

ghost use Rattle.std.specs.Prelude.{◌≡◌, ◌∷◌, ◌++◌, [], true};
ghost use Rattle.po_core.specs.Tracking.{opening_of};
ghost use Rattle.po_core.specs.Noting.{MayPush};

use crate::Setup;
use crate::record::Record;
use crate::refusal::Refusal;
use po_calls::Ticket;
use po_engine::State;
use po_history::{Event, Trace};
use po_unit::Unit;

/// A record that keeps nothing: the object takes all its memory when it is made, and only proofs know what happens.
#[derive(Drop)]
pub struct Unrecorded<U: Unit> {
    events: Trace<Event<U::Value>>,
}

impl<U: Unit> Unrecorded<U> {
    /// Makes the record of an object without events.
    pub(crate) fn new() -> Unrecorded<U>
        ensures { result.events.items ≡ [] }
    {
        Unrecorded {
            events: Trace::new(),
        }
    }

    /// Makes an equal record.
    pub(crate) fn copy(&self) -> Unrecorded<U>
        ensures { result.events.items ≡ self.now.events.items }
    {
        Unrecorded {
            events: self.events.copy(),
        }
    }
}

impl<U: Unit> Record<U> for Unrecorded<U> {
    ghost base = { λ setup _. opening_of setup };

    ghost events = { λ r. r.events.items };

    ghost IsOf = { λ setup r s room calls. s.is_fixed ≡ true };

    ghost is_bounded = { true };

    fn recall_kind(&self, _setup: &Setup<U>, _state: &State<U>) {}

    fn reserve_call(
        &mut self,
        _setup: &Setup<U>,
        state: &mut State<U>,
        _rank: u8,
    ) -> Result<(), Refusal> {
        if state.has_room() {
            Ok(())
        } else {
            Err(Refusal::TooManyCalls)
        }
    }

    fn reserve_event(
        &mut self,
        _setup: &Setup<U>,
        _state: &State<U>,
        place: u128,
    ) -> Result<(), Refusal> {
        if place < u128::from(u64::MAX) {
            Ok(())
        } else {
            Err(Refusal::NumbersSpent)
        }
    }

    fn push(&mut self, event: Event<U::Value>)
        requires { MayPush U.meaning (λ setup s room calls. s.is_fixed ≡ true) (λ setup. opening_of setup) self.old.events.items event }
        ensures events { self.new.events.items ≡ self.old.events.items ++ event ∷ [] }
    {
        self.events = self.events.then(&event);
    }

    fn note_calls(
        &mut self,
        _setup: &Setup<U>,
        _state: &State<U>,
        _noted: usize,
        _ticket: Option<Ticket>,
    ) {}
}
