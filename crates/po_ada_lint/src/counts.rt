// SPDX-License-Identifier: MIT
//! Tests of an entry's own `'Count` in its barrier (9.9).

use crate::entities::Operation;
use po_ada_tree::tree::{Association, Attribute, Expression, Form, Infix};
use std::alloc::{AllocError, Global};

/// What a test of the number of waiting calls means.
#[derive(Clone, Copy, Debug, PartialEq, Eq)]
pub enum Test {
    NoneWaits,
    SomeWaits,
}

/// What it means that the number of waiting calls and this number are in a relation.
fn meaning(relation: Infix, number: u64) -> Option<Test> {
    match (relation, number) {
        (Infix::Equal, 0) | (Infix::AtMost, 0) | (Infix::Less, 1) => Some(Test::NoneWaits),
        (Infix::Unequal, 0) | (Infix::Greater, 0) | (Infix::AtLeast, 1) => Some(Test::SomeWaits),
        _ => None,
    }
}

/// The relation with its operands exchanged.
fn exchanged(relation: Infix) -> Infix {
    match relation {
        Infix::Less => Infix::Greater,
        Infix::AtMost => Infix::AtLeast,
        Infix::Greater => Infix::Less,
        Infix::AtLeast => Infix::AtMost,
        other => other,
    }
}

/// Whether the index is the one of the entry's own body.
fn is_own_index(operation: &Operation<'_>, list: &Vec<Association>) -> bool {
    match (operation.index, list.first()) {
        (Some(index), Some(association)) => {
            matches!(&association.value.form, Form::Name(name) if *name == index.number)
        }
        _ => false,
    }
}

/// Whether the expression names the entry itself, with the index of its own body.
fn names_entry(operation: &Operation<'_>, expression: &Expression) -> bool {
    let own = operation.profile.name.number;
    match &expression.form {
        Form::Name(name) => *name == own && operation.index.is_none(),
        Form::Applied(prefix, list) => {
            matches!(&prefix.form, Form::Name(name) if *name == own)
                && is_own_index(operation, list)
        }
        _ => false,
    }
}

/// Whether the expression is the entry's own `'Count`.
fn is_own_count(operation: &Operation<'_>, expression: &Expression) -> bool {
    match &expression.form {
        Form::Attribute(prefix, Attribute::Count, _) => names_entry(operation, prefix),
        _ => false,
    }
}

/// What a comparison of the entry's own `'Count` means; nothing of another expression.
fn test_of(operation: &Operation<'_>, expression: &Expression) -> Option<Test> {
    let Form::Infix(relation, left, right) = &expression.form else {
        return None;
    };
    match (&left.form, &right.form) {
        (_, Form::Number(number)) if is_own_count(operation, left) => meaning(*relation, *number),
        (Form::Number(number), _) if is_own_count(operation, right) => meaning(
            exchanged(*relation),
            *number,
        ),
        _ => None,
    }
}

/// The first test of the entry's own `'Count` that has to hold for its barrier to be true, and its place.
pub fn own_test(
    alloc: Global,
    operation: &Operation<'_>,
    barrier: &Expression,
) -> Result<Option<(usize, Test)>, AllocError> {
    let mut open = Vec::new(alloc);
    open.push(barrier)?;
    for _ in 0..u64::MAX {
        let Some(part) = open.pop() else {
            break;
        };
        if let Form::Infix(Infix::And | Infix::AndThen, left, right) = &part.form {
            open.push(right)?;
            open.push(left)?;
        } else if let Some(test) = test_of(operation, part) {
            return Ok(Some((part.place, test)));
        }
    }
    Ok(None)
}
