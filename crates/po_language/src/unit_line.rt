// SPDX-License-Identifier: MIT
//! The words of a `unit` line.

ghost use Rattle.std.specs.Prelude.{◌≡◌, IfSome, IfOk, IfErr, MatchResult, Some, None};
ghost use Rattle.std.specs.Result.{result_ok};
ghost use Rattle.po_language.specs.Faults.{kind_of};
ghost use Rattle.po_language.specs.Words.{words};
ghost use Rattle.po_classic_units.specs.Sizes.{IsSize};
ghost use Rattle.po_language.specs.Commands.{HasSize, size_of, unit_of, order_of, with_order, limit_of, beginning_of};

use crate::command::{Beginning, FaultKind, UnitChoice};
use crate::error::{UnitPart, WordError};
use crate::unit_list::UnitList;
use crate::words::{cut_word, next_word, no_word, number};
use po_queues::Order;

/// Returns the size of a unit: a number from 1 to 1,024.
fn size(word: &[u8]) -> Option<u16>
    ensures exact { result ≡ size_of word.now }
    ensures valid { IfSome result IsSize }
{
    match number(word) {
        Some(n) if 1 <= n && n <= 1024 => Some(n as u16),
        _ => None,
    }
}

/// Returns the unit that the words begin with, and the words after it. If the unit has a size, that is one of its words.
fn unit_of<L: UnitList>(arguments: &[u8]) -> Result<(UnitChoice, &[u8]), WordError>
    ensures exact { MatchResult result
        (λ chosen. unit_of L.listed (words arguments.now) ≡ Some (chosen.0, words chosen.1.now))
        (λ _. unit_of L.listed (words arguments.now) ≡ None) }
    ensures valid { IfOk result (λ chosen. HasSize L.listed chosen.0) }
    ensures kind { IfErr result (λ fault. kind_of fault.reason ≡ FaultKind.BadUnit) }
{
    let no_name = WordError::unit(1, UnitPart::Name);
    let no_size = WordError::unit(2, UnitPart::Size);
    let (name, rest) = next_word(arguments, no_name)?;
    let Some(number) = L::unit_number(name) else {
        return Err(no_name);
    };
    if !L::names_at(number).is_sized {
        return Ok((UnitChoice { number, size: 0 }, rest));
    }
    let (word, rest) = next_word(rest, no_size)?;
    let Some(size) = size(word) else {
        return Err(no_size);
    };
    Ok((UnitChoice { number, size }, rest))
}

/// Returns the service order of this name.
pub fn order_of(word: &[u8]) -> Option<Order>
    ensures { result ≡ order_of word.now }
{
    if word == b"textual".as_slice() {
        Some(Order::Textual)
    } else if word == b"oldest".as_slice() {
        Some(Order::Oldest)
    } else if word == b"rotating".as_slice() {
        Some(Order::Rotating)
    } else {
        None
    }
}

/// Returns the service order that the words begin with, and the words after it. It is textual if they begin with none.
fn with_order(arguments: &[u8]) -> (Order, &[u8])
    ensures { with_order (words arguments.now) ≡ (result.0, words result.1.now) }
{
    let Some((word, rest)) = cut_word(arguments) else {
        return (Order::Textual, arguments);
    };
    match order_of(word) {
        Some(order) => (order, rest),
        None => (Order::Textual, arguments),
    }
}

/// Returns the greatest queue length that the words state, or none if there are no words. The first word has number `first`.
fn limit_of(first: usize, arguments: &[u8]) -> Result<Option<u64>, WordError>
    ensures exact { result_ok result ≡ limit_of (words arguments.now) }
    ensures kind { IfErr result (λ fault. kind_of fault.reason ≡ FaultKind.BadUnit) }
{
    let Some((word, rest)) = cut_word(arguments) else {
        return Ok(None);
    };
    if word != b"max".as_slice() {
        return Err(WordError::unit(first, UnitPart::OrderOrMax));
    }
    let second = first.saturating_add(1);
    let no_limit = WordError::unit(second, UnitPart::Limit);
    let (most, rest) = next_word(rest, no_limit)?;
    let Some(most) = number(most) else {
        return Err(no_limit);
    };
    let end = WordError::unit(second.saturating_add(1), UnitPart::End);
    no_word(rest, end)?;
    Ok(Some(most))
}

/// Returns the number of the first word after the order. The first word after the unit has number `first`; it is the order if
/// fewer bytes are left after the order than after the unit.
fn word_after_order(first: usize, after_unit: usize, after_order: usize) -> usize {
    if after_order < after_unit {
        first.saturating_add(1)
    } else {
        first
    }
}

/// Returns what the words after `unit` begin.
pub(crate) fn beginning_of<L: UnitList>(arguments: &[u8]) -> Result<Beginning, WordError>
    ensures exact { result_ok result ≡ beginning_of L.listed (words arguments.now) }
    ensures valid { IfOk result (λ beginning. HasSize L.listed beginning.unit) }
    ensures kind { IfErr result (λ fault. kind_of fault.reason ≡ FaultKind.BadUnit) }
{
    let (unit, after_unit) = unit_of::<L>(arguments)?;
    let (order, rest) = with_order(after_unit);
    let first = if unit.size == 0 { 2 } else { 3 };
    let first = word_after_order(first, after_unit.len(), rest.len());
    let max_queue = limit_of(first, rest)?;
    Ok(Beginning {
        unit,
        order,
        max_queue,
    })
}
