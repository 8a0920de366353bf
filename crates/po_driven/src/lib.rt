// SPDX-License-Identifier: MIT
//! A protected object whose client evaluates the barriers and runs the bodies: the object asks for one thing after the other,
//! until it is at rest.
//!
//! `DrivenObject` is the main type. Most of its methods return an `Action`: what the client is to do next. A `NamedCall` says which
//! call the action is about. `DrivenCalls` holds the object's calls, and for proofs what has happened to them. The engine under
//! it is `State` of `po_engine`, with a unit (`ClientUnit`) of which only the number of entries is known.
//!
//! `po_c` makes a library for C of it. Begin with src/action.rt and src/words.rt, which say what an object and its client tell
//! each other, and then read src/driven_object.rt and the files of its methods: arrivals.rt, bodies.rt, servicing.rt, and passing.rt,
//! whose functions do several steps.
#![tactic(auto)]

mod action;
mod client_unit;
mod driven_calls;
mod driven_object;
mod happening;
mod phase;
mod words;

pub use action::Action;
pub use client_unit::ClientUnit;
pub use driven_calls::DrivenCalls;
pub use driven_object::DrivenObject;
pub use happening::Happening;
pub use phase::Phase;
pub use po_calls::{Deadline, Ticket};
pub use po_engine::Arriving;
pub use words::{Barrier, BodyEnd, Cancellation, NamedCall, Requeue};
