// SPDX-License-Identifier: MIT
//! A core with a record in memory: how it is made, what can be read off its record, how a call is cancelled by its number, and
//! how the history is cut.

ghost use Rattle.std.specs.Prelude.{◌≡◌, ◌≢◌, ◌∷◌, ◌++◌, [], ◌↔◌, unwrap_or, None, Some, find, option_map, is_some, List, IfOk, IfErr, MatchResult, OnOk, OnErr};
ghost use Rattle.po_unit.specs.Numbering.{entry_count};
ghost use Rattle.po_engine.specs.WaitingCalls.{has_number};
ghost use Rattle.po_engine.specs.Ending.{has_ended};
ghost use Rattle.po_history.specs.Histories.{VolumeView};
ghost use Rattle.po_core.specs.View.{opening_view, base_state};
ghost use Rattle.po_core.specs.ProtectedAction.{IsAttemptOf, after_attempt, attempt_answer};
ghost use Rattle.po_core.specs.Cutting.{cut, cut_off, Leads, KeepsArrivals, KeepsVolumes, procedures_run, AreVolumes};
ghost use Rattle.po_core.specs.Refusals.{cancel_number_refusal, cut_refusal};
ghost use Rattle.po_core.specs.declared.refusal.Refusal.{Refusal};

use crate::base::Base;
use crate::core_in_action::CoreInAction;
use crate::object_core::Core;
use crate::recorded::Recorded;
use crate::refusal::Refusal;
use crate::{Attempt, MakeError, Setup, Start};
use po_calls::End;
use po_engine::{Ended, State};
use po_history::{Event, Volume};
use po_queues::Order;
use po_unit::{Shape, Unit};
use std::alloc::Global;

impl<U: Unit + Drop> Core<U, Recorded<U>> {
    /// Makes an object with this unit, whose calls are numbered from `first_number` and whose queues have no greatest length.
    ///
    /// Fails as `start` does.
    pub fn new(
        alloc: Global,
        unit: U,
        shape: Shape,
        order: Order,
        first_number: u64,
    ) -> Result<Core<U, Recorded<U>>, MakeError>
        ensures core { IfOk result (λ c. c ≡ record {
          object = opening_view (record {
            opening = unit;
            shape = shape;
            order = order;
            max_queue = None;
            first_number = first_number;
            first_place = 0;
          });
          tickets = [];
          capacity = None;
        }) }
        ensures mismatch { (result ≡ Err MakeError.ShapeMismatch) ↔
            (U.meaning.entries unit ≢ entry_count shape) }
        // No event came before.
        ensures volumes { IfOk result (λ c. AreVolumes U.meaning c.object []) }
    {
        Self::start(
            alloc,
            unit,
            shape,
            order,
            Start {
                first_number,
                first_place: 0,
                max_queue: None,
            },
        )
    }

    /// Makes an object with this unit, from the given numbers.
    ///
    /// Fails if the unit and the shape have different numbers of entries, or if memory runs out.
    pub fn start(
        alloc: Global,
        unit: U,
        shape: Shape,
        order: Order,
        start: Start,
    ) -> Result<Core<U, Recorded<U>>, MakeError>
        ensures core { IfOk result (λ c. c ≡ record {
          object = opening_view (record {
            opening = unit;
            shape = shape;
            order = order;
            max_queue = start.max_queue;
            first_number = start.first_number;
            first_place = start.first_place;
          });
          tickets = [];
          capacity = None;
        }) }
        ensures mismatch { (result ≡ Err MakeError.ShapeMismatch) ↔
            (U.meaning.entries unit ≢ entry_count shape) }
        // No event came before.
        ensures volumes { IfOk result (λ c. AreVolumes U.meaning c.object []) }
    {
        if unit.entries() != shape.total() {
            return Err(MakeError::ShapeMismatch);
        }
        let setup = Setup::new(unit, shape, order, start);
        let now = setup.opening().copy()?;
        let state = State::new(alloc, now, setup.first_number())?;
        let kept = Recorded::new(alloc, &setup)?;
        Ok(Core {
            in_action: CoreInAction::new(setup, state, kept),
        })
    }

    /// Cuts the history: returns the events since the last cut, or since the object was made, as a volume. The present picture
    /// becomes the base that the history replays from. The place of the next event, the outcomes, the tickets and the calls
    /// that the last command ended stay.
    ///
    /// Refused as `NumbersSpent` or `OutOfMemory`. The history of a finalized object can be cut too.
    pub fn cut(&mut self) -> Result<Volume<U::Value>, Refusal>
        ensures volume { IfOk result (λ volume. volume ≡ cut_off self.old.object) }
        ensures after { OnOk result (self.new ≡ record self.old { object = cut U.meaning self.old.object }) }
        // The volume replays from the old base to the new one.
        ensures leads { IfOk result (λ volume. Leads U.meaning self.old.object.setup volume.events
            (base_state self.old.object) (base_state self.new.object)) }
        // A waiting call keeps the place at which it arrived.
        ensures arrivals { OnOk result (KeepsArrivals U.meaning self.old.object self.new.object) }
        // The number of procedures that have run, before the base and since, stays.
        ensures procedures { OnOk result (procedures_run self.new.object ≡ procedures_run self.old.object) }
        // The volumes so far, with this one, are the history before the new base.
        ensures joins { IfOk result (λ volume. (volumes : List (VolumeView U.Value)) →
            AreVolumes U.meaning self.old.object volumes → AreVolumes U.meaning self.new.object (volumes ++ volume ∷ [])) }
        ensures allowed { OnOk result (cut_refusal self.old.object ≡ None) }
        ensures refused { IfErr result (λ r.
            r ≡ unwrap_or (cut_refusal self.old.object) Refusal.OutOfMemory) }
        ensures unchanged { OnErr result (self.new ≡ self.old) }
    {
        if self.place() >= u128::from(u64::MAX) {
            return Err(Refusal::NumbersSpent);
        }
        self.in_action.recall_invariant();
        let volume = self.in_action.cut()?;
        Ok(volume)
    }
}

impl<U: Unit> Core<U, Recorded<U>> {
    /// Attempts to cancel the call with number n (9.5.3, 9.5.4). No memory is taken.
    ///
    /// Refused as `UnknownCall` or `AlreadyEnded`.
    pub fn cancel_number(&mut self, n: u64) -> Result<Attempt, Refusal>
        ensures after { OnOk result (self.new ≡ record self.old {
          object = after_attempt U.meaning self.old.object n;
        }) }
        ensures answer { IfOk result (λ aborted. aborted ≡ attempt_answer self.old.object n) }
        ensures volumes { OnOk result (KeepsVolumes U.meaning self.old.object self.new.object) }
        ensures action { OnOk result (IsAttemptOf U.meaning self.old.object self.new.object n) }
        ensures refused { MatchResult result
            (λ _. cancel_number_refusal self.old.object n ≡ None)
            (λ r. cancel_number_refusal self.old.object n ≡ Some r) }
        ensures unchanged { OnErr result (self.new ≡ self.old) }
    {
        if n < self.first_number() || n >= self.next_number() {
            return Err(Refusal::UnknownCall);
        }
        let Some((ticket, call)) = self.in_action.waiting_call(n) else {
            return Err(Refusal::AlreadyEnded);
        };
        Ok(self.cancel_waiting(ticket, call))
    }

    /// Returns the base that the history replays from: the opening of the object, or the picture at the last cut.
    pub fn base(&self) -> &Base<U>
        ensures { result.now ≡ self.now.object.base }
    {
        self.in_action.base()
    }

    /// Returns the calls that had ended at the base, in the order in which they ended.
    pub fn ended_at_base(&self) -> &[Ended<U::Value>]
        ensures { result.now ≡ (base_state self.now.object).ended }
    {
        self.in_action.ended_at_base()
    }

    /// Returns the events of the history since the base.
    pub fn events(&self) -> &[Event<U::Value>]
        ensures { result.now ≡ self.now.object.events }
    {
        self.in_action.events()
    }

    /// Returns how the call with number n ended, if it has, even after it was collected.
    pub fn outcome(&self, n: u64) -> Option<End<U::Value>>
        ensures { result ≡ option_map (λ x. x.end) (find (has_ended n) self.now.object.state.ended) }
    {
        self.in_action.outcome(n)
    }

    /// Returns whether the call with number n is queued.
    pub fn is_waiting(&self, n: u64) -> bool
        ensures { result ≡ is_some (find (has_number n) self.now.object.state.waiting) }
    {
        self.in_action.waiting_call(n).is_some()
    }

    /// Returns how many procedures have run in the whole history, before the base and since.
    pub fn procedures_run(&self) -> u64
        ensures { result ≡ procedures_run self.now.object }
    {
        self.in_action.procedures_run()
    }

    /// Recalls for proofs that memory is taken for each call, so the number of calls isn't fixed.
    pub fn recall_unbounded(&self)
        ensures { self.now.capacity ≡ None }
    {
        self.in_action.recall_unbounded();
    }
}
