// SPDX-License-Identifier: MIT
//! The history of a protected object: its events, how its calls ended, and the volumes that are cut off from it.
//!
//! `History` keeps the events since the last cut. Room for an event is reserved before the event happens, so adding it takes no
//! memory. `Event` lists what can happen; an object can be replayed from its events. A `Volume` has the events that a cut took
//! out, to be stored elsewhere or dropped. `Trace` is a list that only proofs read: it takes no memory and no time.
//!
//! Begin with `event.rt`, then the head of `history.rt`. `specs/Histories.antt` says how volumes and history join.
#![tactic(auto)]

mod event;
mod history;
mod trace;
mod volume;

pub use crate::trace::Trace;
pub use event::Event;
pub use history::History;
pub use volume::Volume;
