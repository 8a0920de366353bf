// SPDX-License-Identifier: MIT
//! A core that takes all its memory when it is made: how it is made and copied, and how many calls were issued.

ghost use Rattle.std.specs.Prelude.{◌≡◌, ◌≢◌, ◌+◌, [], ◌↔◌, count_by, Some, IfOk};
ghost use Rattle.po_unit.specs.Numbering.{entry_count};
ghost use Rattle.po_core.specs.Base.{is_issue};
ghost use Rattle.po_core.specs.View.{opening_view};
ghost use Rattle.po_core.specs.Cutting.{AreVolumes};

use crate::core_in_action::CoreInAction;
use crate::object_core::Core;
use crate::unrecorded::Unrecorded;
use crate::{MakeError, Setup, Start};
use po_engine::State;
use po_queues::Order;
use po_unit::{Shape, Unit};
use std::alloc::{AllocError, Global};

impl<U: Unit + Drop> Core<U, Unrecorded<U>> {
    /// Makes an object with this unit, from the given numbers, with all memory for `capacity` uncollected calls at once.
    ///
    /// Fails if the unit and the shape have different numbers of entries, or if memory runs out.
    pub fn with_capacity(
        alloc: Global,
        unit: U,
        shape: Shape,
        order: Order,
        start: Start,
        capacity: usize,
    ) -> Result<Core<U, Unrecorded<U>>, MakeError>
        ensures core { IfOk result (λ c. c ≡ record {
          object = opening_view (record {
            opening = unit;
            shape = shape;
            order = order;
            max_queue = start.max_queue;
            first_number = start.first_number;
            first_place = start.first_place;
          });
          tickets = [];
          capacity = Some capacity;
        }) }
        ensures mismatch { (result ≡ Err MakeError.ShapeMismatch) ↔
            (U.meaning.entries unit ≢ entry_count shape) }
        // No event came before.
        ensures volumes { IfOk result (λ c. AreVolumes U.meaning c.object []) }
    {
        if unit.entries() != shape.total() {
            return Err(MakeError::ShapeMismatch);
        }
        let setup = Setup::new(unit, shape, order, start);
        let now = setup.opening().copy()?;
        let state = State::with_capacity(alloc, now, setup.first_number(), capacity)?;
        Ok(Core {
            in_action: CoreInAction::new(setup, state, Unrecorded::new()),
        })
    }

    /// Makes an equal core: an object in the same state, after the same history. Tickets of calls of this core are good for the
    /// same calls of the copy.
    ///
    /// Takes all memory for as many uncollected calls as this core has memory for, and fails only if memory runs out. From then
    /// on nothing that is done with one of the two changes the other.
    pub fn copy(&self) -> Result<Core<U, Unrecorded<U>>, AllocError>
        ensures { IfOk result (λ copy. copy ≡ self.now) }
    {
        Ok(Core {
            in_action: self.in_action.copy()?,
        })
    }
}

impl<U: Unit + Drop> CoreInAction<U, Unrecorded<U>> {
    /// Makes an equal object, with memory for as many calls. Fails only if memory runs out.
    fn copy(&self) -> Result<CoreInAction<U, Unrecorded<U>>, AllocError>
        ensures { IfOk result (λ copy. copy ≡ self.now) }
    {
        let setup = self.setup.copy()?;
        let state = self.state.copy()?;
        Ok(CoreInAction {
            setup,
            state,
            kept: self.kept.copy(),
            place: self.place,
            last: self.last,
        })
    }
}

impl<U: Unit> CoreInAction<U, Unrecorded<U>> {
    /// Returns how many calls were issued. The history, which only proofs know, has as many.
    fn issued(&self) -> u64
        ensures counted { result ≡ count_by is_issue self.now.object.events }
        ensures numbered { self.now.object.state.next ≡ self.now.object.setup.first_number + result }
    {
        self.state.next_number() - self.setup.first_number()
    }
}

impl<U: Unit> Core<U, Unrecorded<U>> {
    /// Returns how many calls were issued. The history, which only proofs know, has as many.
    pub fn issued(&self) -> u64
        ensures counted { result ≡ count_by is_issue self.now.object.events }
        // They are numbered from the first number on.
        ensures numbered { self.now.object.state.next ≡ self.now.object.setup.first_number + result }
    {
        self.in_action.issued()
    }
}
