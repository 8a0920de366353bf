// SPDX-License-Identifier: MIT
//! What a line of a scene asks for.

use po_language::parse::{Verb, verb_of};

/// What the first word of a line asks for.
#[derive(Clone, Copy, Debug, PartialEq, Eq)]
pub(crate) enum Line {
    /// `object`: an object with a name.
    Object,
    /// `unit`: the only object.
    Unit,
    /// `caller`: the caller that the following commands are of.
    Caller,
    /// `repeat`: how often the following commands come.
    Repeat,
    /// `abort`: an attempt to cancel another caller's call.
    Abort,
    /// An operation, as in scripts.
    Operation(Verb),
}

/// Returns what the first word of a line asks for, if a scene can have such a line.
pub(crate) fn line_of(word: &[u8]) -> Option<Line> {
    if word == b"object".as_slice() {
        Some(Line::Object)
    } else if word == b"caller".as_slice() {
        Some(Line::Caller)
    } else if word == b"repeat".as_slice() {
        Some(Line::Repeat)
    } else if word == b"abort".as_slice() {
        Some(Line::Abort)
    } else {
        match verb_of(word)? {
            Verb::Begin => Some(Line::Unit),
            Verb::Cancel | Verb::Show => None,
            verb => Some(Line::Operation(verb)),
        }
    }
}
