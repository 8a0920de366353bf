// SPDX-License-Identifier: MIT
//! Laws of four of the classic units, which hold of every core, and of a driven object whose client has a unit.
//!
//! `buffer_law`, `allocator_law`, `pulse_law` and `meeting_law` speak of a core and the volumes that were cut off from its
//! history. Those that end in `_of_log` say the same of the whole history of a closed object. `client_law` says that a client
//! of the engine whose barriers and bodies are a unit's does what the serial object of that unit does.
//!
//! The functions do nothing at run time: call one to have its law in a proof.
//!
//! Begin with specs/BufferLaw.antt and laws.rt; client.rt and specs/Serial.antt come last.
#![tactic(auto)]

mod client;
mod laws;
mod logs;

pub use client::{client_law, pulse_client_law};
pub use laws::{allocator_law, buffer_law, meeting_law, pulse_law};
pub use logs::{allocator_law_of_log, buffer_law_of_log, meeting_law_of_log, pulse_law_of_log};
