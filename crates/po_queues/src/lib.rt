// SPDX-License-Identifier: MIT
//! The entry queues of a protected object, and which entry is serviced next.
//!
//! A key stands for a call. `EntryQueues` keeps the keys by entry and in order of arrival (9.5.3, D.4), and by the times at
//! which their calls expire (9.7.2). It puts together `Queues`, a linked queue for each entry, and `Expirations`, which finds
//! the calls whose time has come. `examine` evaluates barriers in a service `Order` and returns a `Selection`: which entry is
//! serviced next. Except for `new`, `copy` and `reserve`, nothing here takes memory.
//!
//! Begin with `entry_queues.rt` and `specs/Arrived.antt`, which says what contracts see of it; then `examination.rt` and
//! `specs/Turns.antt`.
#![tactic(auto)]

mod arrivals;
mod bits;
mod busy;
mod busy_words;
mod chain;
mod copies;
mod entry_queues;
mod examination;
mod expiration;
mod expirations;
mod link;
mod minima;
mod neighbours;
mod order;
mod queues;
mod room;
mod selection;
mod stamped;
mod writes;

pub use entry_queues::EntryQueues;
pub use examination::examine;
pub use expirations::Expirations;
pub use order::Order;
pub use queues::Queues;
pub use selection::Selection;
