// SPDX-License-Identifier: MIT
//! Writes expressions, with no more parentheses than they need (4.4).

use crate::precedence::{
    CONDITIONAL, LOGICAL, PRIMARY, PRODUCT, SUM, attribute_text, infix_text, left_precedence,
    precedence, prefix_text,
};
use crate::printer::{Piece, Printer};
use po_ada_tree::tree::{
    Arm, Association, CaseArm, Choice, Expression, Form, Infix, Iteration, Name, Prefix,
};
use std::alloc::AllocError;

/// The word after `in` or `of` of a loop.
fn reverse_text(reversed: bool) -> &'static str {
    if reversed { "reverse " } else { "" }
}

/// Whether these stand for themselves between parentheses, and not for an expression.
fn is_list(list: &Vec<Association>) -> bool {
    match list.first() {
        Some(first) => list.len() > 1 || !first.choices.is_empty(),
        None => false,
    }
}

impl<'a> Printer<'a> {
    /// Writes an expression, in parentheses unless its operator binds at least this tight.
    pub fn whole(&mut self, expression: &'a Expression, least: u32) -> Result<(), AllocError> {
        if precedence(&expression.form) >= least {
            return self.form(&expression.form);
        }
        self.put("(")?;
        self.form(&expression.form)?;
        self.put(")")
    }

    /// Writes an expression between parentheses that are there.
    pub fn enclosed(&mut self, expression: &'a Expression) -> Result<(), AllocError> {
        match &expression.form {
            Form::Aggregate(list) if is_list(list) => self.associations(list),
            _ => self.expression(expression, CONDITIONAL),
        }
    }

    /// Writes a primary that isn't a name, or an operation.
    fn form(&mut self, form: &'a Form) -> Result<(), AllocError> {
        match form {
            Form::Number(number) => self.add(Piece::Number(*number)),
            Form::Character(byte) => self.add(Piece::Character(*byte)),
            Form::Text(from, to) => self.string(*from, *to),
            Form::Null => self.put("null"),
            Form::Anything => self.put("<>"),
            Form::Aggregate(list) => {
                self.put("[")?;
                self.associations(list)?;
                self.put("]")
            }
            Form::Prefix(_, _) | Form::Infix(_, _, _) | Form::Member(_, _) => self.operation(form),
            Form::If(_, _) | Form::Case(_, _) | Form::Quantified(_, _, _, _) | Form::Raise(_, _) =>
                self.worded(form),
            _ => self.named(form),
        }
    }

    /// Writes the string whose content stands in the bytes from here to there.
    fn string(&mut self, from: usize, to: usize) -> Result<(), AllocError> {
        let bytes: &'a [u8] = self.bytes;
        self.put("\"")?;
        self.add(Piece::Bytes(bytes.get(from..to).unwrap_or(&[])))?;
        self.put("\"")
    }

    /// Writes a name with what comes after it (4.1).
    fn named(&mut self, form: &'a Form) -> Result<(), AllocError> {
        match form {
            Form::Name(number) => self.add(Piece::Name(*number)),
            Form::Selected(prefix, component) => {
                self.expression(prefix, PRIMARY)?;
                self.put(".")?;
                self.name(*component)
            }
            Form::Applied(prefix, list) => {
                self.expression(prefix, PRIMARY)?;
                self.arguments(list)
            }
            Form::Attribute(prefix, attribute, list) => {
                self.expression(prefix, PRIMARY)?;
                self.put(attribute_text(*attribute))?;
                self.arguments(list)
            }
            Form::Qualified(mark, operand) => {
                self.expression(mark, PRIMARY)?;
                self.put("'(")?;
                self.add(Piece::Enclosed(operand))?;
                self.put(")")
            }
            _ => self.put("@"),
        }
    }

    /// Writes an operation (4.5).
    fn operation(&mut self, form: &'a Form) -> Result<(), AllocError> {
        match form {
            Form::Prefix(Prefix::Not, operand) => self.negation(operand),
            Form::Prefix(Prefix::Abs, operand) => self.after("abs ", operand, PRIMARY),
            Form::Prefix(prefix, operand) => {
                self.after(prefix_text(*prefix).0, operand, PRODUCT)
            }
            Form::Infix(infix, left, right) => self.infix(*infix, left, right),
            Form::Member(operand, choices) => self.member(operand, " in ", choices),
            _ => Ok(()),
        }
    }

    /// Writes `not A`, or `A not in B`.
    fn negation(&mut self, operand: &'a Expression) -> Result<(), AllocError> {
        match &operand.form {
            Form::Member(tested, choices) => self.member(tested, " not in ", choices),
            _ => self.after("not ", operand, PRIMARY),
        }
    }

    /// Writes `A + B`.
    fn infix(
        &mut self,
        infix: Infix,
        left: &'a Expression,
        right: &'a Expression,
    ) -> Result<(), AllocError> {
        let (words, precedence) = infix_text(infix);
        self.expression(left, left_precedence(infix, &left.form))?;
        self.after(words, right, precedence.saturating_add(1))
    }

    /// Writes `A in B | C` (4.5.2).
    fn member(
        &mut self,
        operand: &'a Expression,
        words: &'a str,
        choices: &'a Vec<Choice>,
    ) -> Result<(), AllocError> {
        self.expression(operand, SUM)?;
        self.put(words)?;
        self.choices(choices, SUM)
    }

    /// Writes a conditional, quantified or raise expression (4.5.7, 4.5.8, 11.3).
    fn worded(&mut self, form: &'a Form) -> Result<(), AllocError> {
        match form {
            Form::If(arms, otherwise) => self.if_form(arms, otherwise),
            Form::Case(subject, arms) => self.case_form(subject, arms),
            Form::Quantified(is_all, name, iteration, condition) => {
                self.quantified(*is_all, *name, iteration)?;
                self.after(" => ", condition, LOGICAL)
            }
            Form::Raise(exception, message) => {
                self.after("raise ", exception, PRIMARY)?;
                if let Some(found) = message {
                    self.after(" with ", found, SUM)?;
                }
                Ok(())
            }
            _ => Ok(()),
        }
    }

    /// Writes an if expression (4.5.7).
    fn if_form(
        &mut self,
        arms: &'a Vec<Arm>,
        otherwise: &'a Option<Box<Expression>>,
    ) -> Result<(), AllocError> {
        let mut word = "if ";
        for arm in arms.iter() {
            self.after(word, &arm.condition, LOGICAL)?;
            self.after(" then ", &arm.value, LOGICAL)?;
            word = " elsif ";
        }
        match otherwise {
            Some(found) => self.after(" else ", found, LOGICAL),
            None => Ok(()),
        }
    }

    /// Writes a case expression (4.5.7).
    fn case_form(
        &mut self,
        subject: &'a Expression,
        arms: &'a Vec<CaseArm>,
    ) -> Result<(), AllocError> {
        self.after("case ", subject, LOGICAL)?;
        let mut word = " is when ";
        for arm in arms.iter() {
            self.put(word)?;
            self.choices(&arm.choices, SUM)?;
            self.after(" => ", &arm.value, LOGICAL)?;
            word = ", when ";
        }
        Ok(())
    }

    /// Writes a quantified expression, up to its condition (4.5.8).
    fn quantified(
        &mut self,
        is_all: bool,
        name: Name,
        iteration: &'a Iteration,
    ) -> Result<(), AllocError> {
        self.put(if is_all { "for all " } else { "for some " })?;
        self.name(name)?;
        self.iteration(iteration)
    }

    /// Writes what a loop or a quantified expression goes over (5.5).
    pub fn iteration(&mut self, iteration: &'a Iteration) -> Result<(), AllocError> {
        match iteration {
            Iteration::In(reversed, range) => {
                self.put(" in ")?;
                self.put(reverse_text(*reversed))?;
                self.range(range)
            }
            Iteration::Of(reversed, array) => {
                self.put(" of ")?;
                self.after(reverse_text(*reversed), array, PRIMARY)
            }
        }
    }

    /// Writes associations in parentheses, if there are any (6.4).
    pub fn arguments(&mut self, list: &'a Vec<Association>) -> Result<(), AllocError> {
        if list.is_empty() {
            return Ok(());
        }
        self.put(" (")?;
        self.associations(list)?;
        self.put(")")
    }

    /// Writes associations with commas between them (4.3, 6.4). Only if there is one, without a name, its value can be a conditional
    /// expression without parentheses of its own (4.5.7).
    fn associations(&mut self, list: &'a Vec<Association>) -> Result<(), AllocError> {
        let least = match list.as_slice() {
            [only] if only.choices.is_empty() => CONDITIONAL,
            _ => LOGICAL,
        };
        let mut before = "";
        for association in list.iter() {
            self.put(before)?;
            if !association.choices.is_empty() {
                self.choices(&association.choices, LOGICAL)?;
                self.put(" => ")?;
            }
            self.expression(&association.value, least)?;
            before = ", ";
        }
        Ok(())
    }

    /// Writes choices with bars between them. A membership test before a bar, `..` or `range` needs parentheses.
    pub fn choices(&mut self, choices: &'a Vec<Choice>, least: u32) -> Result<(), AllocError> {
        let mut before = "";
        let mut left = choices.len();
        for choice in choices.iter() {
            left = left.saturating_sub(1);
            self.put(before)?;
            self.add(Piece::Choice(choice, if left > 0 { SUM } else { least }))?;
            before = " | ";
        }
        Ok(())
    }

    /// Writes a choice or a discrete range (3.6.1, 3.8.1).
    pub fn choice(&mut self, choice: &'a Choice, least: u32) -> Result<(), AllocError> {
        match choice {
            Choice::Value(value) => self.expression(value, least),
            Choice::Range(low, high) => {
                self.expression(low, SUM)?;
                self.after(" .. ", high, SUM)
            }
            Choice::Constrained(mark, low, high) => {
                self.expression(mark, SUM)?;
                self.after(" range ", low, SUM)?;
                self.after(" .. ", high, SUM)
            }
            Choice::Others(_) => self.put("others"),
        }
    }
}
