// SPDX-License-Identifier: MIT
//! If and case expressions, and raise expressions, of parts that were evaluated (4.5.7, 11.3).

use crate::choices::Chosen;
use crate::lowering::{Lowering, sequence};
use crate::values::{Lowered, Operand, Value, computed, slot_cell};
use po_ada_tree::Stop;
use po_ada_tree::tree::{Arm, CaseArm, Expression, Form};
use po_ada_types::{BOOLEAN, Meaning, Sub, UNIVERSAL};
use po_program::{Area, Expr, Range, Stmt};

/// A test and what is evaluated after it, with the statements before each.
#[derive(Drop)]
pub struct Branching {
    pub test_code: Vec<Stmt>,
    pub test: Expr,
    pub code: Vec<Stmt>,
    pub value: Expr,
}

/// Tests with their values, and the type of the values.
#[derive(Drop)]
struct Branches {
    list: Vec<Branching>,
    kind: Option<usize>,
}

/// What a case is about: the slot of its value, and the subtype whose values have to have choices.
#[derive(Clone, Copy, Debug)]
pub struct Subject {
    pub slot: u16,
    pub sub: Sub,
}

impl<'a> Lowering<'a> {
    /// Statements before an if or case expression, or none, and its value.
    pub fn branches(
        &mut self,
        place: usize,
        list: Vec<Branching>,
        code: Vec<Stmt>,
        value: Expr,
    ) -> Result<Expr, Stop> {
        let mut list = list;
        let is_pure = code.is_empty()
            && list.iter().all(|branching| branching.code.is_empty()
                && branching.test_code.is_empty());
        let mut value = value;
        if is_pure {
            for _ in 0..list.len() {
                if let Some(branching) = list.pop() {
                    value = Expr::If(
                        self.boxed(branching.test)?,
                        self.boxed(branching.value)?,
                        self.boxed(value)?,
                    );
                }
            }
            return Ok(value);
        }
        let slot = self.take_slots(place, 1)?;
        let mut code = code;
        code.push(Stmt::Assign(Area::Frame, slot, value))?;
        for _ in 0..list.len() {
            if let Some(branching) = list.pop() {
                code = self.branch(slot, branching, code)?;
            }
        }
        for statement in code {
            self.emit(statement)?;
        }
        Ok(slot_cell(slot))
    }

    /// The statements of one branch, before those of the rest.
    pub fn branch(
        &mut self,
        slot: u16,
        branching: Branching,
        rest: Vec<Stmt>,
    ) -> Result<Vec<Stmt>, Stop> {
        let Branching {
            test_code,
            test,
            code,
            value,
        } = branching;
        let mut inner = code;
        inner.push(Stmt::Assign(Area::Frame, slot, value))?;
        let yes = sequence(self.known.alloc, inner)?;
        let no = sequence(self.known.alloc, rest)?;
        let mut list = test_code;
        list.push(Stmt::If(test, self.boxed_statement(yes)?, self.boxed_statement(no)?))?;
        Ok(list)
    }

    /// The type of dependent expressions: a raise expression fits any type.
    fn dependent_kind(
        &mut self,
        place: usize,
        before: Option<usize>,
        value: &Value,
    ) -> Result<Option<usize>, Stop> {
        if value.raises {
            return Ok(before);
        }
        match before {
            Some(kind) => Ok(Some(self.known.unify(place, kind, value.kind)?)),
            None => Ok(Some(value.kind)),
        }
    }

    /// The operands of an if expression: each condition and its value, and the value after `else`, which is True if there is none.
    pub fn if_operands(
        &self,
        place: usize,
        arms: &'a [Arm],
        otherwise: &'a Option<Box<Expression>>,
    ) -> Result<Vec<Operand<'a>>, Stop> {
        let mut list = Vec::new(self.known.alloc);
        for arm in arms {
            list.push(Operand::Written(&arm.condition))?;
            list.push(Operand::Written(&arm.value))?;
        }
        match otherwise {
            Some(expression) => list.push(Operand::Written(expression))?,
            None => list.push(Operand::Number(place, BOOLEAN, 1))?,
        }
        Ok(list)
    }

    /// An if expression: the values of its operands, in turn (4.5.7).
    pub fn if_value(&mut self, place: usize, values: Vec<Lowered>) -> Result<Value, Stop> {
        let mut values = values;
        let Some(last) = values.pop() else {
            return Err(
                self.known
                    .refuse(place, "an if expression has a condition (4.5.7)"),
            );
        };
        let Branches { list, kind } = self.if_branches(values)?;
        let kind = self.dependent_kind(place, kind, &last.value)?;
        let value = self.branches(place, list, last.code, last.value.code)?;
        Ok(computed(kind.unwrap_or(BOOLEAN), value))
    }

    fn if_branches(&mut self, values: Vec<Lowered>) -> Result<Branches, Stop> {
        let mut list = Vec::new(self.known.alloc);
        let mut kind = None;
        let mut condition: Option<Lowered> = None;
        for lowered in values {
            condition = match condition {
                None => Some(lowered),
                Some(test) => {
                    self.known.unify(test.place, BOOLEAN, test.value.kind)?;
                    kind = self.dependent_kind(lowered.place, kind, &lowered.value)?;
                    list.push(Branching {
                        test_code: test.code,
                        test: test.value.code,
                        code: lowered.code,
                        value: lowered.value.code,
                    })?;
                    None
                }
            };
        }
        Ok(Branches { list, kind })
    }

    /// The value of a case is in a slot from here on.
    pub fn subject(&mut self, subject: &'a Expression, value: Value) -> Result<Subject, Stop> {
        let kind = value.kind;
        let slot = self.take_slots(subject.place, 1)?;
        self.emit(Stmt::Assign(Area::Frame, slot, value.code))?;
        let sub = match &subject.form {
            Form::Name(name) => match self.known.look_up(*name) {
                Some(Meaning::Variable(variable)) => variable.sub,
                _ => self.known.whole(kind),
            },
            _ => self.known.whole(kind),
        };
        Ok(Subject { slot, sub })
    }

    /// A case expression (4.5.7).
    pub fn case_value(
        &mut self,
        place: usize,
        subject: Subject,
        arms: &'a [CaseArm],
        choices: Vec<Chosen>,
        values: Vec<Lowered>,
    ) -> Result<Value, Stop> {
        let mut ranges = Vec::new(self.known.alloc);
        self.add_ranges(subject.sub.kind, choices, &mut ranges)?;
        let Branches { list, kind } = self.case_branches(
            subject.slot,
            arms,
            ranges.as_slice(),
            values,
        )?;
        self.covered(place, subject.sub, ranges.as_slice())?;
        let mut list = list;
        let Some(last) = list.pop() else {
            return Err(
                self.known
                    .refuse(place, "a case expression has an alternative (4.5.7)"),
            );
        };
        let value = self.branches(place, list, last.code, last.value)?;
        Ok(computed(kind.unwrap_or(BOOLEAN), value))
    }

    fn case_branches(
        &mut self,
        slot: u16,
        arms: &'a [CaseArm],
        ranges: &[Range],
        values: Vec<Lowered>,
    ) -> Result<Branches, Stop> {
        let mut list = Vec::new(self.known.alloc);
        let mut kind = None;
        let (mut position, mut from) = (0usize, 0usize);
        for lowered in values {
            let count = arms.get(position).map_or(0, |arm| arm.choices.len());
            let to = from.saturating_add(count);
            let test = self.case_test(slot, ranges.get(from..to).unwrap_or(&[]))?;
            kind = self.dependent_kind(lowered.place, kind, &lowered.value)?;
            list.push(Branching {
                test_code: Vec::new(self.known.alloc),
                test,
                code: lowered.code,
                value: lowered.value.code,
            })?;
            position = position.saturating_add(1);
            from = to;
        }
        Ok(Branches { list, kind })
    }

    /// Whether the value in the slot is in one of the ranges.
    pub fn case_test(&mut self, slot: u16, ranges: &[Range]) -> Result<Expr, Stop> {
        let mut test: Option<Expr> = None;
        for range in ranges {
            let here = Expr::In(*range, self.boxed(slot_cell(slot))?);
            test = Some(self.either(test, here)?);
        }
        Ok(test.unwrap_or(Expr::Number(0)))
    }

    /// Whether one of two tests holds.
    pub fn either(&self, first: Option<Expr>, second: Expr) -> Result<Expr, Stop> {
        match first {
            None => Ok(second),
            Some(before) => Ok(Expr::OrElse(self.boxed(before)?, self.boxed(second)?)),
        }
    }

    /// Each value of the subtype has to have a choice (5.4).
    pub fn covered(&mut self, place: usize, sub: Sub, ranges: &[Range]) -> Result<(), Stop> {
        let mut next = sub.low;
        for _ in 0..ranges.len() {
            for range in ranges {
                if range.low <= next && next <= range.high {
                    next = range.high.saturating_add(1);
                }
            }
        }
        if next <= sub.high {
            return Err(
                self.known.refuse(
                    place,
                    "a value has no alternative: write 'when others' (5.4)",
                ),
            );
        }
        Ok(())
    }

    /// A raise expression (11.3).
    pub fn raised_value(
        &mut self,
        exception: &'a Expression,
        message: &'a Option<Box<Expression>>,
    ) -> Result<Value, Stop> {
        let number = self.exception(exception)?;
        let number = match message {
            Some(text) => self.with_message(number, text)?,
            None => number,
        };
        Ok(Value {
            code: Expr::Raise(number),
            kind: UNIVERSAL,
            fixed: None,
            raises: true,
        })
    }
}
