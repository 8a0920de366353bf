// SPDX-License-Identifier: MIT
//! The words of a `unit` line.

use crate::fault::{Stop, bad_unit, no_object};
use crate::texts::{FileChoice, Settings};
use crate::values::{value_of, wanted_value};
use po_ada_names::{Discriminant, Heading, Subtype, Types};
use po_language::unit_line::order_of;
use po_language::words::{cut_word, number};
use po_queues::Order;
use std::alloc::Global;

/// What can follow the discriminants.
const ORDER: &str = "an order, 'max', or the end of the line";

/// What can follow the order.
const MAX: &str = "'max' or the end of the line";

/// What follows `max`.
const LIMIT: &str = "the greatest number of calls in a queue";

/// What follows the limit.
const END: &str = "the end of the line";

/// What follows `file`.
const FILE: &str = "the name of a file between quotes, \"NAME.adb\"";

/// What follows `unit`.
const NAME: &str = "the name of the protected unit, or 'file' and the name of a file";

/// Returns the name between quotes that the bytes begin with, after spaces, and the bytes after it.
fn quoted(bytes: &[u8]) -> Option<(&[u8], &[u8])> {
    let spaces = bytes.iter().take_while(|b| **b == b' ').count();
    let [b'"', rest @ ..] = &bytes[spaces..] else {
        return None;
    };
    let (name, rest) = rest.split_at(rest.iter().take_while(|b| **b != b'"').count());
    match rest {
        [b'"', rest @ ..] => Some((name, rest)),
        _ => None,
    }
}

/// Returns the file that the words after `unit` choose, and the words after those that do.
pub fn choice_of(alloc: Global, words: &[u8]) -> Result<(FileChoice<'_>, &[u8]), Stop> {
    let Some((word, rest)) = cut_word(words) else {
        return Err(bad_unit(alloc, NAME, None));
    };
    if word != b"file".as_slice() {
        return Ok((FileChoice::Given(Some(word)), rest));
    }
    match quoted(rest) {
        Some((name, rest)) => Ok((FileChoice::Named(name), rest)),
        None => Err(bad_unit(alloc, FILE, None)),
    }
}

/// Returns whether the word begins what follows the discriminants.
fn is_setting(word: &[u8]) -> bool {
    order_of(word).is_some() || word == b"max".as_slice()
}

/// Returns the value of the discriminant, which the words begin with, and the words after it. It is the default if they don't,
/// and there is one.
fn given<'a>(
    alloc: Global,
    types: &Types,
    discriminant: &Discriminant,
    subtype: &Subtype,
    words: &'a [u8],
) -> Result<(i128, &'a [u8]), Stop> {
    let cut = cut_word(words);
    if let Some((word, rest)) = cut
        && let Some(value) = value_of(types, subtype, word)
    {
        return Ok((value, rest));
    }
    let word = match cut {
        Some((word, _)) => Some(word),
        None => None,
    };
    if word.is_none_or(is_setting)
        && let Some(value) = discriminant.default
    {
        return Ok((value, words));
    }
    let wanted = wanted_value(alloc, types, discriminant.name.as_str(), subtype)?;
    Err(bad_unit(alloc, wanted.as_str(), word))
}

/// Returns the value of the discriminant, and the words after those that say it.
fn discriminant_of<'a>(
    alloc: Global,
    types: &Types,
    discriminant: &Discriminant,
    words: &'a [u8],
) -> Result<(i128, &'a [u8]), Stop> {
    match types.subtypes.get(usize::from(discriminant.subtype)) {
        Some(subtype) => given(alloc, types, discriminant, subtype, words),
        None => Err(no_object(alloc, discriminant.name.as_str())),
    }
}

/// Adds the values of the discriminants, in order, and returns the words after them.
fn push_discriminants<'a>(
    alloc: Global,
    heading: &Heading,
    words: &'a [u8],
    values: &mut Vec<i128>,
) -> Result<&'a [u8], Stop> {
    let mut rest = words;
    for discriminant in heading.discriminants.iter() {
        let (value, others) = discriminant_of(alloc, &heading.types, discriminant, rest)?;
        values.push(value)?;
        rest = others;
    }
    Ok(rest)
}

/// Returns the greatest length of a queue that the words state, if they do.
fn limit_of(alloc: Global, expected: &str, words: &[u8]) -> Result<Option<u64>, Stop> {
    let Some((word, rest)) = cut_word(words) else {
        return Ok(None);
    };
    if word != b"max".as_slice() {
        return Err(bad_unit(alloc, expected, Some(word)));
    }
    let Some((word, rest)) = cut_word(rest) else {
        return Err(bad_unit(alloc, LIMIT, None));
    };
    let Some(limit) = number(word) else {
        return Err(bad_unit(alloc, LIMIT, Some(word)));
    };
    match cut_word(rest) {
        Some((word, _)) => Err(bad_unit(alloc, END, Some(word))),
        None => Ok(Some(limit)),
    }
}

/// Returns the service order and the greatest length of a queue that the words state. The order is textual if they state none.
fn service_of(alloc: Global, words: &[u8]) -> Result<(Order, Option<u64>), Stop> {
    let Some((word, rest)) = cut_word(words) else {
        return Ok((Order::Textual, None));
    };
    match order_of(word) {
        Some(order) => Ok((order, limit_of(alloc, MAX, rest)?)),
        None => Ok((Order::Textual, limit_of(alloc, ORDER, words)?)),
    }
}

/// Returns what the words of a `unit` line state of an object with this heading: its discriminants, and how its calls are served.
pub fn settings_of(alloc: Global, heading: &Heading, words: &[u8]) -> Result<Settings, Stop> {
    let mut discriminants = Vec::new(alloc);
    let rest = push_discriminants(alloc, heading, words, &mut discriminants)?;
    let (order, max_queue) = service_of(alloc, rest)?;
    Ok(Settings {
        discriminants,
        order,
        max_queue,
    })
}
