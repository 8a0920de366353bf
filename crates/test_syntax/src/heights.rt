// SPDX-License-Identifier: MIT
//! How high expressions are, as the reader has to count it: an expression is one higher than the highest part of it.

use po_ada_tree::tree::{Arm, Association, CaseArm, Choice, Expression, Form, Iteration};

/// How high a choice is.
fn choice_height(choice: &Choice) -> usize {
    match choice {
        Choice::Value(value) => value.height,
        Choice::Range(low, high) => low.height.max(high.height),
        Choice::Constrained(mark, low, high) => mark.height.max(low.height).max(high.height),
        Choice::Others(_) => 0,
    }
}

/// How high the highest of these choices is.
fn choices_height(choices: &[Choice]) -> usize {
    let mut height = 0;
    for choice in choices {
        height = choice_height(choice).max(height);
    }
    height
}

/// How high the highest part of these associations is.
fn list_height(list: &[Association]) -> usize {
    let mut height = 0;
    for association in list {
        let choices = choices_height(association.choices.as_slice());
        height = association.value.height.max(choices).max(height);
    }
    height
}

/// How high the expression is, if there is one.
fn optional_height(expression: &Option<Box<Expression>>) -> usize {
    match expression {
        Some(found) => found.height,
        None => 0,
    }
}

/// How high the parts of an if expression are, if each arm adds a level.
fn if_height(arms: &[Arm], otherwise: &Option<Box<Expression>>) -> usize {
    let mut height = optional_height(otherwise);
    for arm in arms {
        height = arm.condition.height.max(arm.value.height).max(height);
    }
    arms.len().saturating_add(height)
}

/// How high the parts of a case expression are, if each arm adds a level.
fn case_height(subject: &Expression, arms: &[CaseArm]) -> usize {
    let mut height = subject.height;
    for arm in arms {
        let choices = choices_height(arm.choices.as_slice());
        height = arm.value.height.max(choices).max(height);
    }
    arms.len().saturating_add(height)
}

/// How high the range or the array is that a quantified expression goes over.
fn iteration_height(iteration: &Iteration) -> usize {
    match iteration {
        Iteration::In(_, range) => choice_height(range),
        Iteration::Of(_, array) => array.height,
    }
}

/// How high the highest part of a form is.
fn height_below(form: &Form) -> usize {
    match form {
        Form::Selected(prefix, _) => prefix.height,
        Form::Applied(prefix, list) | Form::Attribute(prefix, _, list) => {
            prefix.height.max(list_height(list.as_slice()))
        }
        Form::Qualified(mark, operand) => mark.height.max(operand.height),
        Form::Aggregate(list) => list_height(list.as_slice()),
        Form::Prefix(_, operand) => operand.height,
        Form::Infix(_, left, right) => left.height.max(right.height),
        Form::Member(operand, choices) => operand.height.max(choices_height(choices.as_slice())),
        Form::If(arms, otherwise) => if_height(arms.as_slice(), otherwise),
        Form::Case(subject, arms) => case_height(subject, arms.as_slice()),
        Form::Quantified(_, _, iteration, condition) => {
            iteration_height(iteration).max(condition.height)
        }
        Form::Raise(exception, message) => exception.height.max(optional_height(message)),
        _ => 0,
    }
}

/// The expression of this form.
pub fn expression_of(form: Form) -> Expression {
    let height = height_below(&form).saturating_add(1);
    Expression {
        place: 0,
        height,
        form,
    }
}
