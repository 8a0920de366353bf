// SPDX-License-Identifier: MIT
//! The commands of a script, each on one line.

use po_calls::Deadline;
use po_queues::Order;
use po_unit::EntryRef;
use thiserror::Error;

/// A unit that a script can begin.
#[derive(Clone, Copy, Debug, PartialEq, Eq)]
pub struct UnitChoice {
    /// Its number in the list of units.
    pub number: u16,
    /// Its size, or 0 if it has none.
    pub size: u16,
}

/// What a `unit` line begins: an object with this unit, a service order, and perhaps a greatest queue length.
#[derive(Clone, Copy, Debug, PartialEq, Eq)]
pub struct Beginning {
    pub unit: UnitChoice,
    pub order: Order,
    pub max_queue: Option<u64>,
}

/// A command of a script.
#[derive(Clone, Copy, Debug, PartialEq, Eq)]
pub enum Command {
    /// Begins the object.
    Begin(Beginning),
    /// Carries out an operation on the object.
    Operate(Operation),
}

/// An operation on the object of a script.
#[derive(Clone, Copy, Debug, PartialEq, Eq)]
pub enum Operation {
    /// Calls an entry (9.5.3): simply, conditionally (9.7.3) or timed (9.7.2), by its deadline.
    Call {
        entry: EntryRef,
        value: u64,
        deadline: Deadline,
    },
    /// Runs a protected procedure (9.5.1).
    Procedure {
        op: u16,
        value: u64,
    },
    /// Calls a protected function (9.5.1).
    Function {
        op: u16,
        value: u64,
    },
    /// Tries to cancel the call with this number (9.5.3).
    Cancel(u64),
    /// Raises the clock to this time, unless it is already later.
    Tick(u64),
    /// Finalizes the object (9.4).
    Finalize,
    /// Shows how many calls are queued on each entry (9.9), the clock, and the number of the next call.
    Show,
}

/// What is wrong with a line.
#[derive(Clone, Copy, Debug, PartialEq, Eq, Error)]
pub enum FaultKind {
    /// There are more bytes than a script may have.
    #[error("script too long")]
    ScriptTooLong,
    /// There are more bytes than a line may have.
    #[error("too long")]
    LineTooLong,
    /// The first word names no command.
    #[error("unknown command")]
    UnknownCommand,
    /// A command before the `unit` line.
    #[error("no unit")]
    NoUnit,
    /// A second `unit` line.
    #[error("second unit")]
    SecondUnit,
    /// A `unit` line that begins no unit.
    #[error("bad unit")]
    BadUnit,
    /// Too few or too many words, or one of the wrong form.
    #[error("bad argument")]
    BadArgument,
}
