// SPDX-License-Identifier: MIT
//! Makes random expressions (4.4).

use crate::heights::expression_of;
use crate::maker::Maker;
use po_ada_tree::tree::{
    Arm, Association, CaseArm, Choice, Expression, Form, Infix, Iteration, Prefix,
};
use std::alloc::AllocError;

/// The operators between two operands.
const INFIXES: [Infix; 19] = [
    Infix::And,
    Infix::AndThen,
    Infix::Or,
    Infix::OrElse,
    Infix::Xor,
    Infix::Equal,
    Infix::Unequal,
    Infix::Less,
    Infix::AtMost,
    Infix::Greater,
    Infix::AtLeast,
    Infix::Plus,
    Infix::Minus,
    Infix::Concatenate,
    Infix::Times,
    Infix::Divide,
    Infix::Mod,
    Infix::Rem,
    Infix::Power,
];

/// Whether these choices are `others`.
pub fn are_others(choices: &[Choice]) -> bool {
    choices
        .iter()
        .any(|choice| matches!(choice, Choice::Others(_)))
}

impl Maker {
    /// An expression.
    pub fn expression(&mut self) -> Result<Expression, AllocError> {
        let most = if self.one_in(6) { 10 } else { 3 };
        for _ in 0..self.draw(most) {
            let made = self.composed()?;
            self.expressions.push(made)?;
        }
        self.made_expression()
    }

    /// An expression, or none.
    pub fn optional_expression(&mut self) -> Result<Option<Expression>, AllocError> {
        if self.one_in(2) {
            return Ok(None);
        }
        Ok(Some(self.expression()?))
    }

    /// An expression that has parts.
    fn composed(&mut self) -> Result<Expression, AllocError> {
        match self.draw(16) {
            0 => self.prefixed(),
            1 | 2 => self.member(),
            3 => self.if_expression(),
            4 => self.case_expression(),
            5 => self.quantified(),
            6 => self.raise_expression(),
            7 => Ok(expression_of(Form::Aggregate(self.associations()?))),
            8 => self.suffixed(Form::Target),
            9 | 10 | 11 => self.name_expression(),
            _ => self.infixed(),
        }
    }

    /// `A + B`
    fn infixed(&mut self) -> Result<Expression, AllocError> {
        let infix = match INFIXES.get(self.draw(INFIXES.len())) {
            Some(found) => *found,
            None => Infix::And,
        };
        let left = self.boxed()?;
        let right = self.boxed()?;
        Ok(expression_of(Form::Infix(infix, left, right)))
    }

    /// `- A`
    fn prefixed(&mut self) -> Result<Expression, AllocError> {
        let prefix = match self.draw(4) {
            0 => Prefix::Plus,
            1 => Prefix::Minus,
            2 => Prefix::Abs,
            _ => Prefix::Not,
        };
        Ok(expression_of(Form::Prefix(prefix, self.boxed()?)))
    }

    /// `A in B | C`, or `A not in B | C` (4.5.2).
    fn member(&mut self) -> Result<Expression, AllocError> {
        let tested = self.boxed()?;
        let choices = self.members()?;
        let test = expression_of(Form::Member(tested, choices));
        if self.one_in(2) {
            return Ok(test);
        }
        let test = Box::new(self.alloc, test)?;
        Ok(expression_of(Form::Prefix(Prefix::Not, test)))
    }

    /// An if expression (4.5.7).
    fn if_expression(&mut self) -> Result<Expression, AllocError> {
        let mut arms = Vec::new(self.alloc);
        for _ in 0..self.few() {
            let condition = self.operand()?;
            let value = self.operand()?;
            arms.push(Arm { condition, value })?;
        }
        let otherwise = self.optional_boxed()?;
        Ok(expression_of(Form::If(arms, otherwise)))
    }

    /// A case expression (4.5.7).
    fn case_expression(&mut self) -> Result<Expression, AllocError> {
        let subject = self.boxed()?;
        let mut arms = Vec::new(self.alloc);
        for _ in 0..self.few() {
            let choices = self.choices()?;
            let value = self.operand()?;
            let is_last = are_others(choices.as_slice());
            arms.push(CaseArm {
                place: 0,
                choices,
                value,
            })?;
            if is_last {
                break;
            }
        }
        Ok(expression_of(Form::Case(subject, arms)))
    }

    /// A quantified expression (4.5.8).
    fn quantified(&mut self) -> Result<Expression, AllocError> {
        let is_all = self.one_in(2);
        let name = self.name()?;
        let iteration = self.iteration()?;
        let condition = self.boxed()?;
        Ok(expression_of(Form::Quantified(is_all, name, iteration, condition)))
    }

    /// A raise expression (11.3).
    fn raise_expression(&mut self) -> Result<Expression, AllocError> {
        let name = self.name_expression()?;
        let exception = Box::new(self.alloc, name)?;
        let message = self.optional_boxed()?;
        Ok(expression_of(Form::Raise(exception, message)))
    }

    /// What a loop or a quantified expression goes over (5.5).
    pub fn iteration(&mut self) -> Result<Iteration, AllocError> {
        let reversed = self.one_in(3);
        if self.one_in(2) {
            let array = self.name_expression()?;
            return Ok(Iteration::Of(reversed, Box::new(self.alloc, array)?));
        }
        let range = self.choice()?;
        Ok(Iteration::In(reversed, Box::new(self.alloc, range)?))
    }

    /// A value or a range, for `in` (4.4).
    fn member_choice(&mut self) -> Result<Choice, AllocError> {
        let first = self.operand()?;
        if self.one_in(2) {
            return Ok(Choice::Range(first, self.operand()?));
        }
        Ok(Choice::Value(first))
    }

    /// One to three values or ranges, for `in` (4.4).
    fn members(&mut self) -> Result<Vec<Choice>, AllocError> {
        let mut list = Vec::new(self.alloc);
        for _ in 0..self.few() {
            let choice = self.member_choice()?;
            list.push(choice)?;
        }
        Ok(list)
    }

    /// A choice other than `others`, or a discrete range (3.6.1, 3.8.1).
    pub fn choice(&mut self) -> Result<Choice, AllocError> {
        if !self.one_in(8) {
            return self.member_choice();
        }
        let mark = self.operand()?;
        let low = self.operand()?;
        let high = self.operand()?;
        Ok(Choice::Constrained(mark, low, high))
    }

    /// One to three choices, or `others` (3.8.1).
    pub fn choices(&mut self) -> Result<Vec<Choice>, AllocError> {
        let mut list = Vec::new(self.alloc);
        if self.one_in(8) {
            list.push(Choice::Others(0))?;
            return Ok(list);
        }
        for _ in 0..self.few() {
            let choice = self.choice()?;
            list.push(choice)?;
        }
        Ok(list)
    }

    /// A part of an aggregate or of actual parameters: `A`, `B => A`, `B => <>` (4.3, 6.4).
    fn association(&mut self, named: bool) -> Result<Association, AllocError> {
        let mut choices = Vec::new(self.alloc);
        if named {
            choices = self.choices()?;
        }
        let value = if self.one_in(8) {
            expression_of(Form::Anything)
        } else {
            self.operand()?
        };
        Ok(Association {
            place: 0,
            choices,
            value,
        })
    }

    /// One to three parts of an aggregate or of actual parameters: those without names first, `others` last.
    pub fn associations(&mut self) -> Result<Vec<Association>, AllocError> {
        let mut list = Vec::new(self.alloc);
        let mut named = false;
        for _ in 0..self.few() {
            named = named || self.one_in(2);
            let association = self.association(named)?;
            let is_last = are_others(association.choices.as_slice());
            list.push(association)?;
            if is_last {
                break;
            }
        }
        Ok(list)
    }
}
