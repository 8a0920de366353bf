// SPDX-License-Identifier: MIT
//! The values of discrete subtypes, as scripts write them.

ghost use Rattle.std.specs.Prelude.{◌≡◌, ◌≤ℤ◌, ◌<ℤ◌, pos, IfSome};

use po_ada_names::{Form, Subtype, Types};
use po_language::words::number;
use std::alloc::{AllocError, Global};
use std::fmt::Write;

/// Returns the integer that the word writes: one to twenty digits, perhaps after a minus.
fn integer(word: &[u8]) -> Option<i128> {
    match word {
        [b'-', digits @ ..] => Some(-i128::from(number(digits)?)),
        _ => Some(i128::from(number(word)?)),
    }
}

/// Returns the literals of the enumeration with this number; none if there is no such enumeration.
fn literals(types: &Types, enumeration: u16) -> &[String] {
    match types.enumerations.get(usize::from(enumeration)) {
        Some(enumeration) => enumeration.literals.as_slice(),
        None => &[],
    }
}

/// Returns the position of the literal that is this word (3.5.1).
fn position(literals: &[String], word: &[u8]) -> Option<i128> {
    for (position, literal) in literals.iter().enumerate() {
        if literal.as_bytes() == word {
            return Some(position as i128);
        }
    }
    None
}

/// Returns the position of this Boolean literal (3.5.3).
fn truth(word: &[u8]) -> Option<i128> {
    if word == b"False".as_slice() {
        Some(0)
    } else if word == b"True".as_slice() {
        Some(1)
    } else {
        None
    }
}

/// Returns the value of a type of this form that the word writes, whatever the range.
pub(crate) fn unchecked_value(types: &Types, form: Form, word: &[u8]) -> Option<i128> {
    match form {
        Form::Integer => integer(word),
        Form::Boolean => truth(word),
        Form::Enumeration(number) => position(literals(types, number), word),
    }
}

/// Returns the value of the subtype that the word writes.
pub(crate) fn value_of(types: &Types, subtype: &Subtype, word: &[u8]) -> Option<i128>
    ensures low { IfSome result (λ v. subtype.now.low ≤ℤ v) }
    ensures high { IfSome result (λ v. v ≤ℤ subtype.now.high) }
{
    let value = unchecked_value(types, subtype.form, word)?;
    if value < subtype.low || subtype.high < value {
        return None;
    }
    Some(value)
}

/// Returns the literal at this position (3.5.1).
fn literal_at(literals: &[String], position: i128) -> Option<&str> {
    if position < 0 || literals.len() as i128 <= position {
        return None;
    }
    Some(literals[position as usize].as_str())
}

/// Returns the literal of a value of a type of this form, if its values have literals.
fn literal_of(types: &Types, form: Form, value: i128) -> Option<&str> {
    match form {
        Form::Integer => None,
        Form::Boolean => Some(if value == 0 { "False" } else { "True" }),
        Form::Enumeration(number) => literal_at(literals(types, number), value),
    }
}

/// Adds a value of a type of this form.
pub fn push_formed(
    text: &mut String,
    types: &Types,
    form: Form,
    value: i128,
) -> Result<(), AllocError> {
    match literal_of(types, form, value) {
        Some(literal) => text.push_str(literal),
        None => write!(text, "{value}"),
    }
}

/// Adds a value of the subtype with this number.
pub fn push_value(
    text: &mut String,
    types: &Types,
    subtype: u16,
    value: i128,
) -> Result<(), AllocError> {
    let form = match types.subtypes.get(usize::from(subtype)) {
        Some(subtype) => subtype.form,
        None => Form::Integer,
    };
    push_formed(text, types, form, value)
}

/// Returns what a script writes for a value of this subtype, which is called by this name.
pub(crate) fn wanted_value(
    alloc: Global,
    types: &Types,
    name: &str,
    subtype: &Subtype,
) -> Result<String, AllocError> {
    let mut text = String::from_str(alloc, name)?;
    text.push_str(", a value of ")?;
    text.push_str(subtype.name.as_str())?;
    text.push_str(" from ")?;
    push_formed(&mut text, types, subtype.form, subtype.low)?;
    text.push_str(" to ")?;
    push_formed(&mut text, types, subtype.form, subtype.high)?;
    Ok(text)
}

/// Returns the value that a parameter of mode `out` has before the call: 0, or the subtype's first value if 0 isn't in it.
pub fn value_before(subtype: &Subtype) -> i128
    ensures zero { subtype.now.low ≤ℤ pos 0 → pos 0 ≤ℤ subtype.now.high → result ≡ pos 0 }
    ensures above { pos 0 <ℤ subtype.now.low → result ≡ subtype.now.low }
    ensures below { subtype.now.high <ℤ pos 0 → result ≡ subtype.now.low }
    ensures bounds { subtype.now.low ≤ℤ subtype.now.high → (subtype.now.low ≤ℤ result) × (result ≤ℤ subtype.now.high) }
{
    if subtype.low <= 0 && 0 <= subtype.high {
        0
    } else {
        subtype.low
    }
}
