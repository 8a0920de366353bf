// SPDX-License-Identifier: MIT
//! The words of the lines that ask for an operation.

ghost use Rattle.std.specs.Prelude.{◌≡◌, IfErr, MatchResult, Some, None};
ghost use Rattle.std.specs.Result.{result_ok};
ghost use Rattle.po_language.specs.Words.{words};
ghost use Rattle.po_language.specs.Commands.{entry_of, call_of, timed_of, number_alone, name_and_value, procedure_of, function_of, alone, operation_of};
ghost use Rattle.po_language.specs.Faults.{kind_of};

use crate::command::{FaultKind, Operation};
use crate::error::{Argument, WordError};
use crate::parse::Verb;
use crate::words::{entry_word, is_name, next_word, no_word, number};
use po_calls::Deadline;
use po_classic_units::UnitNames;
use po_unit::EntryRef;

/// Returns the entry of the unit that the word names.
fn entry_of(names: &UnitNames, word: &[u8]) -> Option<EntryRef>
    ensures { result ≡ entry_of names.now word.now }
{
    let parts = entry_word(word)?;
    Some(EntryRef {
        declaration: names.entry_named(parts.name),
        index: parts.index,
    })
}

/// Returns the call that the words ask for: an entry and a value. The first word has number `first`.
fn call_of(
    names: &UnitNames,
    deadline: Deadline,
    first: usize,
    arguments: &[u8],
) -> Result<Operation, WordError>
    ensures exact { result_ok result ≡ call_of names.now deadline (words arguments.now) }
    ensures kind { IfErr result (λ fault. kind_of fault.reason ≡ FaultKind.BadArgument) }
{
    let second = first.saturating_add(1);
    let no_entry = WordError::argument(first, Argument::Entry);
    let no_value = WordError::argument(second, Argument::Value);
    let (entry, rest) = next_word(arguments, no_entry)?;
    let Some(entry) = entry_of(names, entry) else {
        return Err(no_entry);
    };
    let (value, rest) = next_word(rest, no_value)?;
    let Some(value) = number(value) else {
        return Err(no_value);
    };
    no_word(
        rest,
        WordError::argument(second.saturating_add(1), Argument::End),
    )?;
    Ok(Operation::Call {
        entry,
        value,
        deadline,
    })
}

/// Returns the timed call that the words ask for: a deadline, an entry and a value.
fn timed_of(names: &UnitNames, arguments: &[u8]) -> Result<Operation, WordError>
    ensures exact { result_ok result ≡ timed_of names.now (words arguments.now) }
    ensures kind { IfErr result (λ fault. kind_of fault.reason ≡ FaultKind.BadArgument) }
{
    let no_time = WordError::argument(1, Argument::Time);
    let (time, rest) = next_word(arguments, no_time)?;
    let Some(time) = number(time) else {
        return Err(no_time);
    };
    call_of(names, Deadline::At(time), 2, rest)
}

/// Returns the name of an operation of this kind and the value after it, if these are all words.
fn name_and_value(kind: Argument, arguments: &[u8]) -> Result<(&[u8], u64), WordError>
    ensures exact { MatchResult result
        (λ both. name_and_value (words arguments.now) ≡ Some (both.0.now, both.1))
        (λ _. name_and_value (words arguments.now) ≡ None) }
    ensures kind { IfErr result (λ fault. kind_of fault.reason ≡ FaultKind.BadArgument) }
{
    let no_name = WordError::argument(1, kind);
    let (name, rest) = next_word(arguments, no_name)?;
    if !is_name(name) {
        return Err(no_name);
    }
    let value = number_alone(2, Argument::Value, rest)?;
    Ok((name, value))
}

/// Returns the run of a procedure that the words ask for: a procedure and a value.
fn procedure_of(names: &UnitNames, arguments: &[u8]) -> Result<Operation, WordError>
    ensures exact { result_ok result ≡ procedure_of names.now (words arguments.now) }
    ensures kind { IfErr result (λ fault. kind_of fault.reason ≡ FaultKind.BadArgument) }
{
    let (name, value) = name_and_value(Argument::Procedure, arguments)?;
    let op = names.procedure_named(name);
    Ok(Operation::Procedure { op, value })
}

/// Returns the read by a function that the words ask for: a function and a value.
fn function_of(names: &UnitNames, arguments: &[u8]) -> Result<Operation, WordError>
    ensures exact { result_ok result ≡ function_of names.now (words arguments.now) }
    ensures kind { IfErr result (λ fault. kind_of fault.reason ≡ FaultKind.BadArgument) }
{
    let (name, value) = name_and_value(Argument::Function, arguments)?;
    let op = names.function_named(name);
    Ok(Operation::Function { op, value })
}

/// Returns the number that the only word writes. In the line, that word has number `word`.
fn number_alone(word: usize, form: Argument, arguments: &[u8]) -> Result<u64, WordError>
    ensures exact { result_ok result ≡ number_alone (words arguments.now) }
    ensures kind { IfErr result (λ fault. kind_of fault.reason ≡ FaultKind.BadArgument) }
{
    let wanting = WordError::argument(word, form);
    let (value, rest) = next_word(arguments, wanting)?;
    let Some(value) = number(value) else {
        return Err(wanting);
    };
    no_word(
        rest,
        WordError::argument(word.saturating_add(1), Argument::End),
    )?;
    Ok(value)
}

/// Returns the operation, if no words follow.
fn alone(operation: Operation, arguments: &[u8]) -> Result<Operation, WordError>
    ensures exact { result_ok result ≡ alone operation (words arguments.now) }
    ensures kind { IfErr result (λ fault. kind_of fault.reason ≡ FaultKind.BadArgument) }
{
    no_word(arguments, WordError::argument(1, Argument::End))?;
    Ok(operation)
}

/// Returns the operation that the words after a line's first ask for, if the first isn't `unit`.
pub(crate) fn operation_of(
    names: &UnitNames,
    verb: Verb,
    arguments: &[u8],
) -> Result<Operation, WordError>
    ensures exact { result_ok result ≡ operation_of names.now verb (words arguments.now) }
    ensures kind { IfErr result (λ fault. kind_of fault.reason ≡ FaultKind.BadArgument) }
{
    match verb {
        Verb::Begin => Err(WordError::argument(1, Argument::End)),
        Verb::Call => call_of(names, Deadline::Never, 1, arguments),
        Verb::Cond => call_of(names, Deadline::At(0), 1, arguments),
        Verb::Timed => timed_of(names, arguments),
        Verb::Proc => procedure_of(names, arguments),
        Verb::Func => function_of(names, arguments),
        Verb::Cancel => {
            let n = number_alone(1, Argument::CallNumber, arguments)?;
            Ok(Operation::Cancel(n))
        }
        Verb::Tick => {
            let time = number_alone(1, Argument::Time, arguments)?;
            Ok(Operation::Tick(time))
        }
        Verb::Final => alone(Operation::Finalize, arguments),
        Verb::Show => alone(Operation::Show, arguments),
    }
}
