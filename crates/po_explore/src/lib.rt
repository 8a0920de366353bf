// SPDX-License-Identifier: MIT
//! Explores a scene: every order in which its callers can make their commands.
//!
//! A situation is how far a scene is: how many commands each caller has made, and the state of each object. `explore` looks at
//! every situation that some order leads to, those with the fewest commands first, and notes what it finds: callers that wait for
//! ever, exceptions, an invariant that doesn't hold. Situations that differ only in which of several callers with the same commands
//! has done what count as one. Each finding has an order with the fewest commands that lead to it, which
//! `report_of` carries out again on new objects, and writes as a script.
//!
//! Begin with stage.rt, then states.rt and search.rt.
#![tactic(auto)]

mod answer;
mod ending;
mod exchange;
mod explored;
mod finding;
mod invariants;
mod key;
mod news;
mod object;
mod report;
mod script;
mod search;
mod stage;
mod states;
mod walk;

pub use crate::explored::Explored;
pub use crate::finding::{Found, Kind};
pub use crate::invariants::invariant_of;
pub use crate::report::{Report, Verdict, report_of};
pub use crate::search::{Options, Search, explore, most_looks};
pub use crate::walk::Walk;
