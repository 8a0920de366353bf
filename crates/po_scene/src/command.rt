// SPDX-License-Identifier: MIT
//! The words of a command, which can begin with the name of its object.

use crate::scene::{Action, SceneObject};
use po_ada_language::{Operation, Stop, bad_argument, operation_of};
use po_ada_unit::AdaUnit;
use po_language::parse::Verb;
use po_language::words::cut_word;
use std::alloc::{AllocError, Global};

/// What an operation is of, if there are several objects.
const OPERATION: &str = "OBJECT.OPERATION, with the name of an object of the scene";

/// What is finalized, if there are several objects.
const OBJECT: &str = "the name of an object of the scene";

/// The words of a command for one object.
#[derive(Drop)]
pub(crate) struct Addressed {
    /// The object's position.
    pub(crate) object: u16,
    /// The words, without the object's name.
    pub(crate) words: Vec<u8>,
}

/// Returns the position of the object with this name, if there is one.
fn object_position(objects: &[SceneObject], name: &[u8]) -> Option<u16> {
    for (position, object) in objects.iter().enumerate() {
        if object.name.as_bytes() == name {
            return u16::try_from(position).ok();
        }
    }
    None
}

/// Returns the bytes before the first point, and those after it. A point after a parenthesis is none.
fn split_name(word: &[u8]) -> Option<(&[u8], &[u8])> {
    let (name, rest) = word.split_at(
        word.iter()
            .take_while(|b| **b != b'.' && **b != b'(')
            .count(),
    );
    match rest {
        [b'.', operation @ ..] => Some((name, operation)),
        _ => None,
    }
}

/// Returns the words of an operation, as they come after `call` in a script with one object: a time, or none, the operation's name,
/// and what follows that.
fn joined(
    alloc: Global,
    time: &[u8],
    operation: &[u8],
    others: &[u8],
) -> Result<Vec<u8>, AllocError> {
    let mut words = Vec::new(alloc);
    if !time.is_empty() {
        words.extend_from_slice(b" ")?;
        words.extend_from_slice(time)?;
    }
    words.extend_from_slice(b" ")?;
    words.extend_from_slice(operation)?;
    words.extend_from_slice(others)?;
    Ok(words)
}

/// Returns the words of an operation that come before its name, and those from its name on.
fn split_time(verb: Verb, words: &[u8]) -> (&[u8], &[u8]) {
    if verb == Verb::Timed
        && let Some((time, rest)) = cut_word(words)
    {
        return (time, rest);
    }
    (&[], words)
}

/// Returns the words of an operation, and the object that it is of. If there is one object, its name can be left out.
fn operation_words(
    alloc: Global,
    objects: &[SceneObject],
    verb: Verb,
    words: &[u8],
) -> Result<Addressed, Stop> {
    let (time, rest) = split_time(verb, words);
    let Some((word, others)) = cut_word(rest) else {
        return Err(bad_argument(alloc, OPERATION, None));
    };
    if let Some((name, operation)) = split_name(word)
        && let Some(object) = object_position(objects, name)
    {
        let words = joined(alloc, time, operation, others)?;
        return Ok(Addressed { object, words });
    }
    if objects.len() != 1 {
        return Err(bad_argument(alloc, OPERATION, Some(word)));
    }
    let words = joined(alloc, time, word, others)?;
    Ok(Addressed { object: 0, words })
}

/// Returns the object that the words name. If there is one object, its name can be left out.
fn finalized(alloc: Global, objects: &[SceneObject], words: &[u8]) -> Result<Addressed, Stop> {
    let Some((word, rest)) = cut_word(words) else {
        if objects.len() == 1 {
            let words = Vec::new(alloc);
            return Ok(Addressed { object: 0, words });
        }
        return Err(bad_argument(alloc, OBJECT, None));
    };
    match object_position(objects, word) {
        Some(object) => {
            let mut words = Vec::new(alloc);
            words.extend_from_slice(rest)?;
            Ok(Addressed { object, words })
        }
        None => Err(bad_argument(alloc, OBJECT, Some(word))),
    }
}

/// Returns the words of a command, and the object that it is of. A `tick` is of all objects: it has the first one's position.
pub(crate) fn addressed_of(
    alloc: Global,
    objects: &[SceneObject],
    verb: Verb,
    words: &[u8],
) -> Result<Addressed, Stop> {
    match verb {
        Verb::Final => finalized(alloc, objects, words),
        Verb::Tick => Ok(Addressed {
            object: 0,
            words: words.to_vec(alloc)?,
        }),
        _ => operation_words(alloc, objects, verb, words),
    }
}

/// Returns what the command asks for.
pub(crate) fn action_of(
    alloc: Global,
    objects: &[SceneObject],
    verb: Verb,
    words: &Addressed,
) -> Result<Action, Stop> {
    let Some(object) = objects.get(usize::from(words.object)) else {
        return Err(bad_argument(alloc, OBJECT, None));
    };
    let operation = operation_of::<AdaUnit>(alloc, &object.names, verb, words.words.as_slice())?;
    match operation {
        Operation::Tick(time) => Ok(Action::Tick(time)),
        operation => Ok(Action::Operate {
            object: words.object,
            operation,
        }),
    }
}
