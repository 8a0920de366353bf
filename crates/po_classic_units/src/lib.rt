// SPDX-License-Identifier: MIT
//! The units that come with the runtime: a bounded buffer, a signal, a broadcast, a pulse, a meeting, an allocator, a relay and
//! a trap.
//!
//! Each unit has a module, whose head comment shows it as an Ada protected type, over the one type of values
//! `type Value is mod 2 ** 64;`. Its meaning is in the definitions of the same name: that of `Buffer` is `buffer_meaning` of
//! specs/Buffer.antt.
//!
//! Each is also a `ScriptUnit`, which has what scripts know of a unit: its `UnitNames`, its opening and its shape.
//!
//! Begin with buffer.rt and specs/Buffer.antt, then read script_unit.rt.
#![tactic(auto)]

mod allocator;
mod broadcast;
mod buffer;
mod declarations;
mod meeting;
mod names;
mod pulse;
mod relay;
mod script_unit;
mod signal;
mod trap;

pub use allocator::Allocator;
pub use broadcast::Broadcast;
pub use buffer::Buffer;
pub use meeting::Meeting;
pub use pulse::Pulse;
pub use relay::Relay;
pub use script_unit::{ScriptUnit, UnitNames};
pub use signal::Signal;
pub use trap::Trap;
