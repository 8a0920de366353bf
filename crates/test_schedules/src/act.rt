// SPDX-License-Identifier: MIT
//! What a thread of a scene does.

use crate::station::{CHANGE, GET, NEVER, OPEN, PASS, PUT, RELEASE, SIGNAL, STAY};
use std::fmt;

/// One act of a thread of a scene. Each thread begins with a pass of its own.
#[derive(Clone, Copy)]
pub(crate) enum Act {
    /// Calls the entry with the value.
    Call(u16, u64),
    /// Calls the entry until this deadline.
    Timed(u16, u64),
    /// Calls the entry, and gives up if the call isn't selected at once.
    Conditional(u16),
    /// Runs the procedure.
    Procedure(u16),
    /// Calls the function.
    Function,
    /// Asks how many calls wait on the entry.
    Count(u16),
    /// Raises the clock.
    Tick(u64),
    /// Finalizes the object.
    Finalize,
    /// Cancels the call of the seat.
    Cancel(u16),
    /// Cuts the history, if there is one.
    Cut,
    /// Hands its pass over.
    HandOver,
    /// Takes over the pass that another thread hands over, and calls with it from then on.
    TakeOver,
}

impl Act {
    /// Returns whether the act needs a pass.
    pub(crate) fn needs_pass(self) -> bool {
        matches!(
            self,
            Act::Call(..) | Act::Timed(..) | Act::Conditional(..) | Act::Procedure(..)
        )
    }
}

/// Returns the name of an entry of the station.
fn entry_name(entry: u16) -> &'static str {
    match entry {
        PUT => "Put",
        GET => "Get",
        PASS => "Pass",
        OPEN => "Open",
        RELEASE => "Release",
        NEVER => "Never",
        CHANGE => "Change",
        STAY => "Stay",
        _ => "another entry",
    }
}

/// Returns the name of a procedure of the station.
fn procedure_name(procedure: u16) -> &'static str {
    if procedure == SIGNAL {
        "Signal"
    } else {
        "Spoil"
    }
}

impl fmt::Display for Act {
    fn fmt<W: fmt::Write>(&self, f: &mut fmt::Formatter<W>) -> fmt::Result {
        match *self {
            Act::Call(entry, value) => write!(f, "calls {} with {value}", entry_name(entry)),
            Act::Timed(entry, time) => write!(f, "calls {} until {time}", entry_name(entry)),
            Act::Conditional(entry) => write!(f, "tries {}", entry_name(entry)),
            Act::Procedure(procedure) => write!(f, "runs {}", procedure_name(procedure)),
            Act::Function => f.write_str("asks Last"),
            Act::Count(entry) => write!(f, "counts {}", entry_name(entry)),
            Act::Tick(time) => write!(f, "raises the clock to {time}"),
            Act::Finalize => f.write_str("finalizes"),
            Act::Cancel(seat) => write!(f, "cancels the call of seat {seat}"),
            Act::Cut => f.write_str("cuts the history"),
            Act::HandOver => f.write_str("hands its pass over"),
            Act::TakeOver => f.write_str("takes a pass over"),
        }
    }
}
