// SPDX-License-Identifier: MIT
//! Makes expressions of what was read, each with its height.

use crate::reader::{MOST_LEVELS, Reader};
use crate::statements::go_on;
use po_ada_tree::fault::Stop;
use po_ada_tree::tree::{
    Arm, Association, Attribute, CaseArm, Choice, Expression, Form, Infix, Iteration, Name, Prefix,
};
use std::alloc::AllocError;

/// What comes after a name in an expression (4.1).
#[derive(Clone, Copy, Debug)]
pub enum Suffix {
    /// `.B`
    Component(Name),
    /// `(..)`
    List,
    /// `'(..)`
    Operand,
    /// `'B`, and perhaps `(..)`
    Attribute(Attribute),
}

/// How high the highest of these expressions is.
fn height_of(list: &[Association]) -> usize {
    let mut height = 0;
    for association in list {
        let choices = choices_height(association.choices.as_slice());
        height = association.value.height.max(height).max(choices);
    }
    height
}

fn choice_height(choice: &Choice) -> usize {
    match choice {
        Choice::Value(value) => value.height,
        Choice::Range(low, high) => low.height.max(high.height),
        Choice::Constrained(mark, low, high) => mark.height.max(low.height).max(high.height),
        Choice::Others(_) => 0,
    }
}

fn choices_height(choices: &[Choice]) -> usize {
    let mut height = 0;
    for choice in choices {
        height = choice_height(choice).max(height);
    }
    height
}

/// How high the arms of an if expression are, with each in those before it.
fn arms_height(arms: &[Arm]) -> usize {
    let mut height = 0;
    for arm in arms {
        height = arm.condition.height.max(arm.value.height).max(height);
    }
    arms.len().saturating_add(height)
}

/// How high the arms of a case expression are, with each in those before it.
fn case_height(arms: &[CaseArm]) -> usize {
    let mut height = 0;
    for arm in arms {
        let choices = choices_height(arm.choices.as_slice());
        height = arm.value.height.max(height).max(choices);
    }
    arms.len().saturating_add(height)
}

fn iteration_height(iteration: &Iteration) -> usize {
    match iteration {
        Iteration::In(_, range) => choice_height(range),
        Iteration::Of(_, array) => array.height,
    }
}

impl<'a> Reader<'a> {
    /// The fault of what is nested too deep.
    pub fn too_deep(&mut self, place: usize) -> Stop {
        self.refuse(
            place,
            "nested deeper than 100, or more than 100 operators in a row: give a part of it a name",
        )
    }

    /// An expression of this form, unless it is too high.
    pub fn node(&mut self, place: usize, below: usize, form: Form) -> Result<Expression, Stop> {
        if below >= MOST_LEVELS {
            return Err(self.too_deep(place));
        }
        Ok(Expression {
            place,
            height: below + 1,
            form,
        })
    }

    fn boxed(&self, expression: Expression) -> Result<Box<Expression>, AllocError> {
        Ok(Box::new(self.alloc, expression)?)
    }

    /// `A + B`
    pub fn infix(
        &mut self,
        place: usize,
        operator: Infix,
        left: Expression,
        right: Expression,
    ) -> Result<Expression, Stop> {
        let below = left.height.max(right.height);
        let left = self.boxed(left)?;
        let right = self.boxed(right)?;
        self.node(place, below, Form::Infix(operator, left, right))
    }

    /// `- A`
    pub fn prefix(
        &mut self,
        place: usize,
        operator: Prefix,
        operand: Expression,
    ) -> Result<Expression, Stop> {
        let below = operand.height;
        let operand = self.boxed(operand)?;
        self.node(place, below, Form::Prefix(operator, operand))
    }

    /// Tells a fault if a subtype with a range is among the choices after `in` (4.4).
    fn needs_members(&mut self, choices: &[Choice]) -> Result<(), Stop> {
        for choice in choices {
            if let Choice::Constrained(mark, _, _) = choice {
                go_on(self.refuse(
                    mark.place,
                    "after 'in' a range stands without a subtype: write 'A .. B' alone (4.4)",
                ))?;
            }
        }
        Ok(())
    }

    /// `A in B | C`, or `A not in B | C` (4.5.2).
    pub fn membership(
        &mut self,
        place: usize,
        negated: bool,
        operand: Expression,
        choices: Vec<Choice>,
    ) -> Result<Expression, Stop> {
        self.needs_members(choices.as_slice())?;
        let below = operand.height.max(choices_height(choices.as_slice()));
        let operand = self.boxed(operand)?;
        let test = self.node(place, below, Form::Member(operand, choices))?;
        if negated {
            return self.prefix(place, Prefix::Not, test);
        }
        Ok(test)
    }

    /// An aggregate (4.3).
    pub fn aggregate(&mut self, place: usize, list: Vec<Association>) -> Result<Expression, Stop> {
        let below = height_of(list.as_slice());
        self.node(place, below, Form::Aggregate(list))
    }

    /// What stands in parentheses: an expression, or an aggregate (4.3).
    pub fn enclosed(
        &mut self,
        place: usize,
        mut list: Vec<Association>,
    ) -> Result<Expression, Stop> {
        let Some(last) = list.pop() else {
            return self.aggregate(place, list);
        };
        if list.is_empty() && last.choices.is_empty() {
            return Ok(last.value);
        }
        list.push(last)?;
        self.aggregate(place, list)
    }

    /// A part of a list that has no name: one expression.
    pub fn unnamed(&mut self, place: usize, mut choices: Vec<Choice>) -> Result<Association, Stop> {
        let only = choices.pop();
        if !choices.is_empty() {
            return Err(self.expected("'=>'"));
        }
        match only {
            Some(Choice::Value(value)) => Ok(Association {
                place,
                choices,
                value,
            }),
            Some(Choice::Range(_, _)) => {
                Err(self.refuse(
                    place,
                    "slices aren't in this subset: write a loop over the components (4.1.2)",
                ))
            }
            _ => Err(self.expected("'=>'")),
        }
    }

    /// A name with what comes after it. The place is that of the list's beginning.
    pub fn with_suffix(
        &mut self,
        name: Expression,
        suffix: Suffix,
        place: usize,
        list: Vec<Association>,
    ) -> Result<Expression, Stop> {
        match suffix {
            Suffix::Component(component) => self.selected(name, component),
            Suffix::List => self.applied(name, list),
            Suffix::Operand => {
                let operand = self.enclosed(place, list)?;
                self.qualified(name, operand)
            }
            Suffix::Attribute(attribute) => self.attributed(name, attribute, list),
        }
    }

    /// `A.B`
    fn selected(&mut self, prefix: Expression, component: Name) -> Result<Expression, Stop> {
        let (place, below) = (prefix.place, prefix.height);
        let prefix = self.boxed(prefix)?;
        self.node(place, below, Form::Selected(prefix, component))
    }

    /// `A (..)`
    fn applied(&mut self, prefix: Expression, list: Vec<Association>) -> Result<Expression, Stop> {
        let place = prefix.place;
        let below = prefix.height.max(height_of(list.as_slice()));
        let prefix = self.boxed(prefix)?;
        self.node(place, below, Form::Applied(prefix, list))
    }

    /// `A'(B)`
    fn qualified(&mut self, prefix: Expression, operand: Expression) -> Result<Expression, Stop> {
        let place = prefix.place;
        let below = prefix.height.max(operand.height);
        let prefix = self.boxed(prefix)?;
        let operand = self.boxed(operand)?;
        self.node(place, below, Form::Qualified(prefix, operand))
    }

    /// `A'B`, `A'B (..)`
    fn attributed(
        &mut self,
        prefix: Expression,
        attribute: Attribute,
        list: Vec<Association>,
    ) -> Result<Expression, Stop> {
        let place = prefix.place;
        let below = prefix.height.max(height_of(list.as_slice()));
        let prefix = self.boxed(prefix)?;
        self.node(place, below, Form::Attribute(prefix, attribute, list))
    }

    /// An if expression with no `else` (4.5.7).
    pub fn if_form(&mut self, place: usize, arms: Vec<Arm>) -> Result<Expression, Stop> {
        let below = arms_height(arms.as_slice());
        self.node(place, below, Form::If(arms, None))
    }

    /// An if expression with `else` (4.5.7).
    pub fn if_else_form(
        &mut self,
        place: usize,
        arms: Vec<Arm>,
        otherwise: Expression,
    ) -> Result<Expression, Stop> {
        let last = arms.len().saturating_add(otherwise.height);
        let below = arms_height(arms.as_slice()).max(last);
        let otherwise = self.boxed(otherwise)?;
        self.node(place, below, Form::If(arms, Some(otherwise)))
    }

    /// A case expression (4.5.7).
    pub fn case_form(
        &mut self,
        place: usize,
        subject: Expression,
        arms: Vec<CaseArm>,
    ) -> Result<Expression, Stop> {
        let first = arms.len().saturating_add(subject.height);
        let below = case_height(arms.as_slice()).max(first);
        let subject = self.boxed(subject)?;
        self.node(place, below, Form::Case(subject, arms))
    }

    /// `in A .. B` of a loop (5.5).
    pub fn over_range(&self, reversed: bool, range: Choice) -> Result<Iteration, Stop> {
        Ok(Iteration::In(reversed, Box::new(self.alloc, range)?))
    }

    /// `of A` of a loop (5.5.2).
    pub fn over_elements(&self, reversed: bool, array: Expression) -> Result<Iteration, Stop> {
        Ok(Iteration::Of(reversed, self.boxed(array)?))
    }

    /// A quantified expression (4.5.8).
    pub fn quantified_form(
        &mut self,
        place: usize,
        is_all: bool,
        name: Name,
        iteration: Iteration,
        condition: Expression,
    ) -> Result<Expression, Stop> {
        let below = condition.height.max(iteration_height(&iteration));
        let condition = self.boxed(condition)?;
        self.node(
            place,
            below,
            Form::Quantified(is_all, name, iteration, condition),
        )
    }

    /// A raise expression with no message (11.3).
    pub fn raise_form(&mut self, place: usize, exception: Expression) -> Result<Expression, Stop> {
        let below = exception.height;
        let exception = self.boxed(exception)?;
        self.node(place, below, Form::Raise(exception, None))
    }

    /// A raise expression with a message (11.3).
    pub fn raise_with_form(
        &mut self,
        place: usize,
        exception: Expression,
        message: Expression,
    ) -> Result<Expression, Stop> {
        let below = exception.height.max(message.height);
        let exception = self.boxed(exception)?;
        let message = self.boxed(message)?;
        self.node(place, below, Form::Raise(exception, Some(message)))
    }
}
