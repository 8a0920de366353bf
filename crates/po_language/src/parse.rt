// SPDX-License-Identifier: MIT
//! The command of a line.

ghost use Rattle.std.specs.Prelude.{◌≡◌, IfOk, IfErr, IfSome};
ghost use Rattle.po_language.specs.Words.{words};
ghost use Rattle.po_language.specs.Commands.{CanBegin, IsOperation, is_comment, verb_of, first_command, later_command, form_command, command_of, form_of};
ghost use Rattle.po_language.specs.Faults.{known_command};
ghost use Rattle.po_language.specs.Faults.{by_kind, word_kind};
ghost use Rattle.po_language.specs.Spans.{IsSpanOf};

use crate::command::{Command, UnitChoice};
use crate::error::{LineError, Reason, WordError};
use crate::operation_line::operation_of;
use crate::span::span_of;
use crate::unit_line::beginning_of;
use crate::unit_list::UnitList;
use crate::words::cut_word;
use po_classic_units::UnitNames;

/// What the first word of a line asks for.
#[derive(Clone, Copy, Debug, PartialEq, Eq)]
pub enum Verb {
    /// `unit`
    Begin,
    /// `call`
    Call,
    /// `cond`
    Cond,
    /// `timed`
    Timed,
    /// `proc`
    Proc,
    /// `func`
    Func,
    /// `cancel`
    Cancel,
    /// `tick`
    Tick,
    /// `final`
    Final,
    /// `show`
    Show,
}

/// What is known about the unit that was begun.
#[derive(Clone, Copy, Debug, PartialEq, Eq)]
enum Known {
    /// None was begun.
    Nothing,
    /// This one was begun.
    Begun(UnitChoice),
    /// It isn't known whether one was begun, and which.
    Unclear,
}

/// Returns whether the first word of a line makes it a comment.
pub fn is_comment(word: &[u8]) -> bool
    ensures { result ≡ is_comment word.now }
{
    word.first() == Some(&b'#')
}

/// Returns what the first word of a line asks for, if it is known.
pub fn verb_of(word: &[u8]) -> Option<Verb>
    ensures { result ≡ verb_of word.now }
{
    if word == b"unit".as_slice() {
        Some(Verb::Begin)
    } else if word == b"call".as_slice() {
        Some(Verb::Call)
    } else if word == b"cond".as_slice() {
        Some(Verb::Cond)
    } else if word == b"timed".as_slice() {
        Some(Verb::Timed)
    } else if word == b"proc".as_slice() {
        Some(Verb::Proc)
    } else if word == b"func".as_slice() {
        Some(Verb::Func)
    } else if word == b"cancel".as_slice() {
        Some(Verb::Cancel)
    } else if word == b"tick".as_slice() {
        Some(Verb::Tick)
    } else if word == b"final".as_slice() {
        Some(Verb::Final)
    } else if word == b"show".as_slice() {
        Some(Verb::Show)
    } else {
        None
    }
}

/// Returns the command that the words after a line's first ask for, before a unit is begun.
fn first_command<L: UnitList>(verb: Verb, arguments: &[u8]) -> Result<Command, WordError>
    ensures exact { word_kind result ≡ first_command L.listed verb (words arguments.now) }
    ensures valid { IfOk result (CanBegin L.listed) }
{
    if verb != Verb::Begin {
        return Err(WordError {
            word: 0,
            reason: Reason::NoUnit,
        });
    }
    let beginning = beginning_of::<L>(arguments)?;
    Ok(Command::Begin(beginning))
}

/// Returns the command that the words after a line's first ask for, once the unit is begun.
fn later_command(names: &UnitNames, verb: Verb, arguments: &[u8]) -> Result<Command, WordError>
    ensures exact { word_kind result ≡ later_command names.now verb (words arguments.now) }
    ensures operation { IfOk result IsOperation }
{
    if verb == Verb::Begin {
        return Err(WordError {
            word: 0,
            reason: Reason::SecondUnit,
        });
    }
    let operation = operation_of(names, verb, arguments)?;
    Ok(Command::Operate(operation))
}

/// Returns the command that the words after a line's first ask for, if it isn't known which unit was begun. Then no name of an
/// entry, a procedure or a function is known.
fn form_command<L: UnitList>(verb: Verb, arguments: &[u8]) -> Result<Command, WordError>
    ensures exact { word_kind result ≡ form_command L.listed verb (words arguments.now) }
    ensures valid { IfOk result (CanBegin L.listed) }
{
    let none = UnitNames {
        unit: "",
        is_sized: false,
        entries: &[],
        procedures: &[],
        functions: &[],
    };
    match verb {
        Verb::Begin => first_command::<L>(verb, arguments),
        _ => later_command(&none, verb, arguments),
    }
}

/// Returns the fault of the line, given the fault at one of its words.
fn placed(line: &[u8], fault: WordError) -> LineError
    ensures span { IsSpanOf line.now result.word result.span }
    ensures reason { result.reason ≡ fault.reason }
{
    LineError {
        reason: fault.reason,
        word: fault.word,
        span: span_of(line, fault.word),
    }
}

/// Returns the command of the line, if it isn't skipped, given what is known about the unit that was begun.
fn known_command<L: UnitList>(known: Known, line: &[u8]) -> Result<Option<Command>, WordError>
    ensures exact { word_kind result ≡ known_command L.listed known (words line.now) }
    ensures valid { IfOk result (λ command. IfSome command (CanBegin L.listed)) }
{
    let Some((first, arguments)) = cut_word(line) else {
        return Ok(None);
    };
    if is_comment(first) {
        return Ok(None);
    }
    let Some(verb) = verb_of(first) else {
        return Err(WordError {
            word: 0,
            reason: Reason::UnknownCommand,
        });
    };
    let command = match known {
        Known::Begun(unit) => later_command(&L::names_at(unit.number), verb, arguments)?,
        Known::Nothing => first_command::<L>(verb, arguments)?,
        Known::Unclear => form_command::<L>(verb, arguments)?,
    };
    Ok(Some(command))
}

/// Returns the command of the line, if it isn't skipped. `begun` is the unit of the list that an earlier line began.
pub fn command_of<L: UnitList>(
    begun: Option<UnitChoice>,
    line: &[u8],
) -> Result<Option<Command>, LineError>
    ensures exact { by_kind result ≡ command_of L.listed begun line.now }
    ensures valid { IfOk result (λ command. IfSome command (CanBegin L.listed)) }
    ensures placed { IfErr result (λ fault. IsSpanOf line.now fault.word fault.span) }
{
    let known = match begun {
        Some(unit) => Known::Begun(unit),
        None => Known::Nothing,
    };
    match known_command::<L>(known, line) {
        Ok(command) => Ok(command),
        Err(fault) => Err(placed(line, fault)),
    }
}

/// Returns the command of the line by its form alone, if it isn't known which unit was begun. In an operation, the numbers of
/// entries, procedures and functions then mean nothing.
pub fn form_of<L: UnitList>(line: &[u8]) -> Result<Option<Command>, LineError>
    ensures exact { by_kind result ≡ form_of L.listed line.now }
    ensures valid { IfOk result (λ command. IfSome command (CanBegin L.listed)) }
    ensures placed { IfErr result (λ fault. IsSpanOf line.now fault.word fault.span) }
{
    match known_command::<L>(Known::Unclear, line) {
        Ok(command) => Ok(command),
        Err(fault) => Err(placed(line, fault)),
    }
}
