// SPDX-License-Identifier: MIT
//! What is wrong with a line, and at which word.

ghost use Rattle.std.specs.Prelude.{◌≡◌};

use crate::command::FaultKind;
use crate::span::Span;

/// A part of a `unit` line.
#[derive(Clone, Copy, Debug, PartialEq, Eq)]
pub enum UnitPart {
    /// The name of a unit.
    Name,
    /// The size of a unit that has one: a number from 1 to 1,024.
    Size,
    /// A service order, or `max`.
    OrderOrMax,
    /// The number after `max`.
    Limit,
    /// Nothing more.
    End,
}

/// A part of any other line.
#[derive(Clone, Copy, Debug, PartialEq, Eq)]
pub enum Argument {
    /// The name of an entry, followed by the index of a family's member in parentheses (9.5.2).
    Entry,
    /// The name of a procedure.
    Procedure,
    /// The name of a function.
    Function,
    /// The value of a parameter.
    Value,
    /// A time of the clock.
    Time,
    /// The number of a call.
    CallNumber,
    /// Nothing more.
    End,
}

/// Why a line is no command: what was expected at a word.
#[derive(Clone, Copy, Debug, PartialEq, Eq)]
pub enum Reason {
    /// No more bytes than a script may have.
    ScriptTooLong,
    /// No more bytes than a line may have.
    LineTooLong,
    /// The word of a command.
    UnknownCommand,
    /// `unit`, since no unit was begun.
    NoUnit,
    /// A command other than `unit`, since a unit was begun.
    SecondUnit,
    /// This part of a `unit` line.
    BadUnit(UnitPart),
    /// This part of any other line.
    BadArgument(Argument),
}

impl Reason {
    ghost use Rattle.po_language.specs.Faults.{kind_of};

    /// Returns the kind of the fault.
    pub fn kind(self) -> FaultKind
        ensures { result ≡ kind_of self }
    {
        match self {
            Reason::ScriptTooLong => FaultKind::ScriptTooLong,
            Reason::LineTooLong => FaultKind::LineTooLong,
            Reason::UnknownCommand => FaultKind::UnknownCommand,
            Reason::NoUnit => FaultKind::NoUnit,
            Reason::SecondUnit => FaultKind::SecondUnit,
            Reason::BadUnit(_) => FaultKind::BadUnit,
            Reason::BadArgument(_) => FaultKind::BadArgument,
        }
    }
}

/// The fault of a line.
#[derive(Clone, Copy, Debug, PartialEq, Eq)]
pub struct LineError {
    /// What was expected.
    pub reason: Reason,
    /// The number of the word at which it was expected, counted from 0.
    pub word: usize,
    /// The place of that word; the end of the line if there is none.
    pub span: Span,
}

impl LineError {
    ghost use Rattle.po_language.specs.Faults.{kind_of};

    /// Returns the kind of the fault.
    pub fn kind(self) -> FaultKind
        ensures { result ≡ kind_of self.reason }
    {
        self.reason.kind()
    }
}

/// What is wrong at a word of a line. The word's number is counted from 0.
#[derive(Clone, Copy, Debug, PartialEq, Eq)]
pub(crate) struct WordError {
    pub(crate) word: usize,
    pub(crate) reason: Reason,
}

impl WordError {
    /// Makes the fault for a part of a `unit` line that was expected.
    pub(crate) fn unit(word: usize, part: UnitPart) -> WordError
        ensures { result.reason ≡ Reason.BadUnit part }
    {
        WordError {
            word,
            reason: Reason::BadUnit(part),
        }
    }

    /// Makes the fault for a part of another line that was expected.
    pub(crate) fn argument(word: usize, argument: Argument) -> WordError
        ensures { result.reason ≡ Reason.BadArgument argument }
    {
        WordError {
            word,
            reason: Reason::BadArgument(argument),
        }
    }
}
