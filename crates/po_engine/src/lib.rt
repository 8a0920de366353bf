// SPDX-License-Identifier: MIT
//! The engine of one protected object: its data, its calls, and the steps that its protected actions consist of.
//!
//! `State` is the main type: the data of a unit (`po_unit`) and its calls. Its methods in src/state/steps.rt are the steps:
//! `issue` takes a call, `procedure` runs a procedure, and `perform` carries out an inner event, which `pick` has chosen. `Calls`
//! holds the calls for it: a table of the uncollected ones, queues of the keys of those that wait, and the ends of the last
//! command.
//!
//! `po_core` makes whole protected actions of these steps. `po_driven` uses them for objects whose clients run the bodies.
//! Begin with specs/Step.antt, which says what each event needs and does, and then read src/state.rt and src/state/steps.rt.
#![tactic(auto)]

mod arrival;
mod arriving;
mod calls;
mod ended;
mod queueing;
mod state;

pub use arrival::Arrival;
pub use arriving::Arriving;
pub use calls::Calls;
pub use ended::Ended;
pub use queueing::Queueing;
pub use state::{State, served_by};
