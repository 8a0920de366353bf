// SPDX-License-Identifier: MIT
//! Runs scripts: reads lines of commands to a protected object, carries them out, and writes lines
//! that answer them.
//!
//! `run_script` does it all. Its contract says what was written and how the run ended, by the bytes
//! that were read. Below it, `Cutter` cuts bytes into lines, and `Session` carries out one command
//! at a time on the object that the latest `unit` line began. `Units` lists the units that scripts
//! know, and a new unit is added there. `UnitFacts` says which operations an object refuses in any
//! state; `po_check` reports them.
//!
//! Begin with operate.rt, which carries out one operation, and specs/Operations.antt, which says
//! what it does and how it is answered. Then read run.rt and specs/Ends.antt.
#![tactic(auto)]

pub mod chunk;
pub mod collection;
pub mod cutter;
pub mod facts;
mod interpreter;
pub mod lines;
mod object;
mod operate;
pub mod run;
pub mod session;
pub mod tickets;
pub mod units;

pub use crate::facts::UnitFacts;
pub use crate::run::run_script;
pub use crate::units::{ScriptObject, Units};
