// SPDX-License-Identifier: MIT
//! A part of a history that was cut off.

ghost use Rattle.std.specs.Prelude.{◌≡◌, ◌<◌, ◌+◌, ◌^◌, length};

use crate::event::Event;
use std::marker::Model;

/// A part of a history that was cut off, to be kept elsewhere or let go.
#[derive(Debug, Drop)]
pub struct Volume<V: Copy> {
    first_place: u64,
    events: Vec<Event<V>>,
}

impl<V: Copy> Model for Volume<V> {
    ghost use Rattle.std.specs.Prelude.{◌<◌, ◌+◌, ◌^◌, vec_len};
    ghost use Rattle.po_history.specs.Histories.{VolumeView};

    ghost Value = { VolumeView V };

    ghost view = { λ v. record { first_place = v.first_place; events = v.events.items } };

    ghost invariant = { λ v. v.first_place + vec_len v.events < 2 ^ 64 };
}

impl<V: Copy> Volume<V> {
    /// Makes the volume of these events, the first of which has this place.
    pub(crate) fn new(first_place: u64, events: Vec<Event<V>>) -> Volume<V>
        requires { first_place + length events.items < 2 ^ 64 }
        ensures { result ≡ record { first_place = first_place; events = events.items } }
    {
        Volume {
            first_place,
            events,
        }
    }

    /// Returns the place of its first event in the whole history, counted from the place at which the object was started.
    pub fn first_place(&self) -> u64
        ensures { result ≡ self.now.first_place }
    {
        self.first_place
    }

    /// Returns its events, in order.
    pub fn events(&self) -> &[Event<V>]
        ensures { result.now ≡ self.now.events }
    {
        self.events.as_slice()
    }

    /// Returns the place of the event that came next. It fits into 64 bits, since a history is cut only at such places.
    pub fn place_after(&self) -> u64
        ensures { result ≡ self.now.first_place + length self.now.events }
    {
        self.events.len() as u64 + self.first_place
    }
}
