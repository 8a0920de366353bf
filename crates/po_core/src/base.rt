// SPDX-License-Identifier: MIT
//! The base that the present history of an object replays from.

ghost use Rattle.std.specs.Prelude.{◌≡◌, map, IfOk};
ghost use Rattle.po_core.specs.Base.{opening_base};

use po_engine::Arrival;
use po_unit::Unit;
use std::alloc::{AllocError, Global};
use std::marker::Model;

/// The picture of an object after all events before the present ones: at first the opening of the object, later the picture at
/// the last cut of its history. The ends of the calls that had ended by then stay with the object: `Core::ended_at_base`
/// returns them.
#[derive(Drop)]
pub struct Base<U: Unit> {
    pub(crate) unit: U,
    pub(crate) waiting: Vec<Arrival<U::Value>>,
    /// How many calls had ended.
    pub(crate) ended: usize,
    pub(crate) next: u64,
    pub(crate) clock: u64,
    pub(crate) finalized: bool,
    pub(crate) place: u64,
    pub(crate) ran: u64,
    pub(crate) last: Option<u16>,
}

impl<U: Unit> Model for Base<U> {
    ghost use Rattle.std.specs.Prelude.{map};
    ghost use Rattle.po_core.specs.Base.{Base as BaseView};

    ghost Value = { BaseView U U.Value };

    ghost view = { λ b. record {
      unit = b.unit;
      waiting = map (λ a. a.call) b.waiting.items;
      arrivals = map (λ a. a.place) b.waiting.items;
      ended = b.ended;
      next = b.next;
      clock = b.clock;
      finalized = b.finalized;
      place = b.place;
      ran = b.ran;
      last = b.last;
    } };
}

impl<U: Unit> Base<U> {
    /// Makes the base of a new object: no call waits, and the first call and event have these numbers.
    pub(crate) fn new(alloc: Global, unit: U, first_number: u64, first_place: u64) -> Base<U>
        ensures { result ≡ opening_base unit first_number first_place }
    {
        Base {
            unit,
            waiting: Vec::new(alloc),
            ended: 0,
            next: first_number,
            clock: 0,
            finalized: false,
            place: first_place,
            ran: 0,
            last: None,
        }
    }

    /// Returns the data of the object.
    pub fn unit(&self) -> &U
        ensures { result.now ≡ self.now.unit }
    {
        &self.unit
    }

    /// Returns the calls that waited, with the places at which they arrived, in order of arrival.
    pub fn waiting(&self) -> &[Arrival<U::Value>]
        ensures calls { map (λ a. a.call) result.now ≡ self.now.waiting }
        ensures places { map (λ a. a.place) result.now ≡ self.now.arrivals }
    {
        &self.waiting
    }

    /// Returns how many calls had ended.
    pub fn ended(&self) -> usize
        ensures { result ≡ self.now.ended }
    {
        self.ended
    }

    /// Returns the number that the next call was to get.
    pub fn next_number(&self) -> u64
        ensures { result ≡ self.now.next }
    {
        self.next
    }

    /// Returns the clock.
    pub fn clock(&self) -> u64
        ensures { result ≡ self.now.clock }
    {
        self.clock
    }

    /// Returns whether the object was finalized.
    pub fn is_finalized(&self) -> bool
        ensures { result ≡ self.now.finalized }
    {
        self.finalized
    }

    /// Returns the place in the whole history of the first event since then.
    pub fn place(&self) -> u64
        ensures { result ≡ self.now.place }
    {
        self.place
    }

    /// Returns how many procedures had run.
    pub fn ran(&self) -> u64
        ensures { result ≡ self.now.ran }
    {
        self.ran
    }

    /// Returns the entry that had been served last, if any had been.
    pub fn last(&self) -> Option<u16>
        ensures { result ≡ self.now.last }
    {
        self.last
    }
}
