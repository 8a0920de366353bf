// SPDX-License-Identifier: MIT
//! What an object was made with.

ghost use Rattle.std.specs.Prelude.{◌≡◌, IfOk};

use crate::start::Start;
use po_engine::Queueing;
use po_queues::Order;
use po_unit::{Shape, Unit};
use std::alloc::AllocError;
use std::marker::Model;

/// What an object was made with. Nothing changes it.
#[derive(Drop)]
pub struct Setup<U: Unit> {
    opening: U,
    shape: Shape,
    order: Order,
    start: Start,
}

impl<U: Unit> Model for Setup<U> {
    ghost use Rattle.po_core.specs.Setup.{Setup as WhatWasMade};

    ghost Value = { WhatWasMade U };

    ghost view = { λ made. record {
      opening = made.opening;
      shape = made.shape;
      order = made.order;
      max_queue = made.start.max_queue;
      first_number = made.start.first_number;
      first_place = made.start.first_place;
    } };
}

impl<U: Unit> Setup<U> {
    /// Makes the setup of an object: its data, its entries, the order of service, and the numbers from which it starts.
    pub fn new(opening: U, shape: Shape, order: Order, start: Start) -> Setup<U>
        ensures { result ≡ record {
          opening = opening;
          shape = shape;
          order = order;
          max_queue = start.max_queue;
          first_number = start.first_number;
          first_place = start.first_place;
        } }
    {
        Setup {
            opening,
            shape,
            order,
            start,
        }
    }

    /// Makes an equal setup. Fails only if memory runs out.
    pub(crate) fn copy(&self) -> Result<Setup<U>, AllocError>
        ensures { IfOk result (λ copy. copy ≡ self.now) }
    {
        let shape = self.shape.copy()?;
        let opening = self.opening.copy()?;
        Ok(Setup {
            opening,
            shape,
            order: self.order,
            start: self.start,
        })
    }

    /// Returns the data.
    pub fn opening(&self) -> &U
        ensures { result.now ≡ self.now.opening }
    {
        &self.opening
    }

    /// Returns the entries.
    pub fn shape(&self) -> &Shape
        ensures { result.now ≡ self.now.shape }
    {
        &self.shape
    }

    /// Returns the order in which entries are served.
    pub fn order(&self) -> Order
        ensures { result ≡ self.now.order }
    {
        self.order
    }

    /// Returns how many calls may be queued on an entry, if there is a limit (D.7).
    pub fn max_queue(&self) -> Option<u64>
        ensures { result ≡ self.now.max_queue }
    {
        self.start.max_queue
    }

    /// Returns what applies to a call that the event at this place queues.
    pub fn queueing(&self, place: u128) -> Queueing
        ensures { result ≡ record { max_length = self.now.max_queue; place = place } }
    {
        Queueing {
            max_length: self.max_queue(),
            place,
        }
    }

    /// Returns the number of the first call.
    pub fn first_number(&self) -> u64
        ensures { result ≡ self.now.first_number }
    {
        self.start.first_number
    }

    /// Returns the place of the first event.
    pub fn first_place(&self) -> u64
        ensures { result ≡ self.now.first_place }
    {
        self.start.first_place
    }
}
