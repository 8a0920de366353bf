// SPDX-License-Identifier: MIT
//! Calls on entries, their tickets and their ends, and the table of the calls that aren't collected.
//!
//! A `Call` waits on the queue of an entry, at most until its `Deadline`, and ends in one of the ways that `End` lists. Its
//! caller holds a `Ticket`, which finds the call as long as its end isn't collected: `CallStatus` says whether it still waits.
//! `Table` keeps the calls. It turns a ticket into a call in constant time, and once a call is collected its ticket stays
//! unknown for good.
//!
//! Begin with `call.rt` and `end.rt`. The contracts of `table.rt` take the table as a map from tickets: `specs/Calls.antt`.
#![tactic(auto)]

mod call;
mod end;
mod kept;
mod table;
mod ticket;

pub use call::{Call, Deadline};
pub use end::{CallStatus, End};
pub use table::Table;
pub use ticket::Ticket;
