// SPDX-License-Identifier: MIT
//! The core of a protected object: it carries out every operation on one object, and keeps a record or none.
//!
//! `Core` is the main type. It is made with a unit (`po_unit`), and each of its commands (`issue`, `procedure`, `cancel`, `tick`,
//! `finalize`) is one whole protected action of one thread. Its `Record` says what it keeps of what has happened: with
//! `Recorded` the history is in memory and can be read and cut; with `Unrecorded` (a `BoundedCore`) the object takes all its
//! memory when it is made, and only proofs know the history. `Refusal` lists why a command is refused.
//!
//! Begin with src/object_core.rt: its method `headline` says what holds of every core between two commands. Then read
//! specs/ProtectedAction.antt and src/core_in_action.rt, which makes protected actions of the steps of `po_engine`.
#![tactic(auto)]

mod attempt;
mod base;
mod bounded_core;
mod core_in_action;
mod error;
mod noting;
mod object_core;
mod record;
mod recorded;
mod recorded_core;
mod recorded_object;
mod refusal;
mod setup;
mod start;
mod unrecorded;

pub use attempt::Attempt;
pub use base::Base;
pub use error::MakeError;
pub use object_core::{BoundedCore, Core};
pub use po_calls::{Call, CallStatus, Deadline, End, Ticket};
pub use po_engine::{Arrival, Ended};
pub use po_history::{Event, Volume};
pub use po_queues::Order;
pub use record::Record;
pub use recorded::Recorded;
pub use refusal::Refusal;
pub use setup::Setup;
pub use start::Start;
pub use unrecorded::Unrecorded;
