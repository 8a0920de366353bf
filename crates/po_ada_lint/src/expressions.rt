// SPDX-License-Identifier: MIT
//! Visits expressions: what is read, changed, called, counted and raised.

use crate::entities::Sort;
use crate::uses::How;
use crate::walker::{Task, Walker};
use po_ada_tree::tree::{
    Arm, Association, Attribute, CaseArm, Choice, Expression, Form, Iteration, Mode, Name, Profile,
};
use std::alloc::AllocError;

/// The highest tree of an expression.
const MOST_LEVELS: usize = 100;

/// How a call of an operation uses its actual parameter (6.2).
fn use_by_mode(mode: Option<Mode>) -> How {
    match mode {
        Some(Mode::In) => How::Read,
        _ => How::Received,
    }
}

/// The name before `=>`, if there is only one.
fn formal_name(association: &Association) -> Option<u32> {
    match association.choices.first() {
        Some(Choice::Value(choice)) => match &choice.form {
            Form::Name(name) => Some(*name),
            _ => None,
        },
        _ => None,
    }
}

/// The mode of the parameter of this name.
fn mode_by_name(profile: &Profile, name: u32) -> Option<Mode> {
    for group in profile.parameters.iter() {
        for found in group.variables.names.iter() {
            if found.number == name {
                return Some(group.mode);
            }
        }
    }
    None
}

/// The mode of the parameter at this position.
fn mode_at(profile: &Profile, position: usize) -> Option<Mode> {
    let mut left = position;
    for group in profile.parameters.iter() {
        let count = group.variables.names.len();
        if left < count {
            return Some(group.mode);
        }
        left -= count;
    }
    None
}

/// How a call uses an actual parameter.
fn use_of_actual(profile: &Profile, position: usize, association: &Association) -> How {
    if profile.family.is_some() {
        return How::Read;
    }
    use_by_mode(match formal_name(association) {
        Some(name) => mode_by_name(profile, name),
        None => mode_at(profile, position),
    })
}

/// How a call of what may be no operation uses its prefix.
fn use_of_prefix(how: How) -> How {
    match how {
        How::Called => How::Received,
        other => other,
    }
}

impl<'a> Walker<'a> {
    /// Visits an expression.
    pub fn expression(&mut self, expression: &'a Expression, how: How) -> Result<(), AllocError> {
        let place = expression.place;
        match &expression.form {
            Form::Name(name) => self.use_of(self.look_up(*name), place, how),
            Form::Target => self.note(self.target, place, How::Read),
            Form::Selected(prefix, name) => self.selected(place, prefix, *name, how),
            Form::Applied(prefix, list) => self.applied(place, prefix, list, how),
            Form::Attribute(prefix, attribute, list) => self.attribute(prefix, *attribute, list),
            Form::Raise(exception, message) => self.raise_expression(exception, message),
            other => self.operands(other),
        }
    }

    /// Visits the operands of an operator or of a conditional expression.
    fn operands(&mut self, form: &'a Form) -> Result<(), AllocError> {
        match form {
            Form::Qualified(_, operand) => self.read(operand),
            Form::Prefix(_, operand) => self.read(operand),
            Form::Infix(_, left, right) => {
                self.read(left)?;
                self.read(right)
            }
            Form::Aggregate(list) => self.aggregate(list),
            Form::Member(operand, choices) => {
                self.read(operand)?;
                self.choices(choices)
            }
            Form::If(arms, otherwise) => self.if_expression(arms, otherwise),
            Form::Case(subject, arms) => self.case_expression(subject, arms),
            Form::Quantified(_, name, iteration, condition) => self.quantified(
                *name, iteration, condition,
            ),
            _ => Ok(()),
        }
    }

    /// The value of the expression is read next.
    pub fn read(&mut self, expression: &'a Expression) -> Result<(), AllocError> {
        self.visit(expression, How::Read)
    }

    /// The expression is visited next.
    pub fn visit(&mut self, expression: &'a Expression, how: How) -> Result<(), AllocError> {
        self.next.push(Task::Expression(expression, how))?;
        Ok(())
    }

    /// The expression is read next, if there is one.
    pub fn read_optional(&mut self, expression: &'a Option<Expression>) -> Result<(), AllocError> {
        match expression {
            Some(found) => self.read(found),
            None => Ok(()),
        }
    }

    /// Uses what a name means. A change of a component changes its array.
    fn use_of(&mut self, entity: Option<usize>, place: usize, how: How) -> Result<(), AllocError> {
        let how = match (self.sort_of(entity), how) {
            (Some(Sort::Operation(_)), How::Read) => How::Called,
            (Some(Sort::Operation(_)), _) => how,
            _ => use_of_prefix(how),
        };
        self.note(entity, place, how)?;
        if how == How::Changed || how == How::Received {
            self.change_array(entity, place)?;
        }
        Ok(())
    }

    /// The array whose components a loop parameter stands for may be changed.
    fn change_array(&mut self, entity: Option<usize>, place: usize) -> Result<(), AllocError> {
        let array = match entity {
            Some(number) => self.facts.entity(number).and_then(|found| found.array),
            None => None,
        };
        if array.is_some() {
            self.note(array, place, How::Received)?;
        }
        Ok(())
    }

    /// `A.B`: what a package has, or a component.
    fn selected(
        &mut self,
        place: usize,
        prefix: &'a Expression,
        name: Name,
        how: How,
    ) -> Result<(), AllocError> {
        if self.is_package(prefix) {
            return self.use_of(self.look_up_outside(name.number), place, how);
        }
        self.visit(prefix, use_of_prefix(how))
    }

    /// `A (..)`: a call, a conversion or a component.
    fn applied(
        &mut self,
        place: usize,
        prefix: &'a Expression,
        list: &'a Vec<Association>,
        how: How,
    ) -> Result<(), AllocError> {
        let entity = self.denoted(prefix);
        match self.sort_of(entity) {
            Some(Sort::Operation(number)) => {
                self.use_of(entity, place, how)?;
                self.actuals(number, list)
            }
            Some(Sort::Scalar) | Some(Sort::Composite) => self.associations(list, how),
            _ => {
                let used = if how == How::Called {
                    How::Received
                } else {
                    How::Read
                };
                self.associations(list, used)?;
                self.visit(prefix, how)
            }
        }
    }

    /// The actual parameters of a call (6.4.1).
    fn actuals(&mut self, operation: usize, list: &'a Vec<Association>) -> Result<(), AllocError> {
        let Some(called) = self.facts.operation(operation) else {
            return Ok(());
        };
        let mut position = 0usize;
        for association in list {
            let how = use_of_actual(called.profile, position, association);
            self.visit(&association.value, how)?;
            position = position.saturating_add(1);
        }
        Ok(())
    }

    /// Visits the values of associations.
    pub fn associations(&mut self, list: &'a Vec<Association>, how: How) -> Result<(), AllocError> {
        for association in list {
            self.visit(&association.value, how)?;
        }
        Ok(())
    }

    /// Visits an aggregate. Its choices may be names of components (4.3.1).
    fn aggregate(&mut self, list: &'a Vec<Association>) -> Result<(), AllocError> {
        for association in list {
            if formal_name(association).is_none() {
                self.choices(&association.choices)?;
            }
            self.read(&association.value)?;
        }
        Ok(())
    }

    /// Visits `A'B (..)`.
    fn attribute(
        &mut self,
        prefix: &'a Expression,
        attribute: Attribute,
        list: &'a Vec<Association>,
    ) -> Result<(), AllocError> {
        let how = match attribute {
            Attribute::Count => How::Counted,
            Attribute::Image | Attribute::Old => How::Read,
            _ => How::Mentioned,
        };
        self.visit(prefix, how)?;
        self.associations(list, How::Read)
    }

    fn raise_expression(
        &mut self,
        exception: &'a Expression,
        message: &'a Option<Box<Expression>>,
    ) -> Result<(), AllocError> {
        self.visit(exception, How::Raised)?;
        match message {
            Some(found) => self.read(found),
            None => Ok(()),
        }
    }

    /// Visits the choices of an alternative or a membership test.
    pub fn choices(&mut self, list: &'a Vec<Choice>) -> Result<(), AllocError> {
        for choice in list {
            self.next.push(Task::Choice(choice))?;
        }
        Ok(())
    }

    /// Visits a choice or a range.
    pub fn choice(&mut self, choice: &'a Choice) -> Result<(), AllocError> {
        match choice {
            Choice::Value(value) => self.read(value),
            Choice::Range(low, high) | Choice::Constrained(_, low, high) => {
                self.read(low)?;
                self.read(high)
            }
            Choice::Others(_) => Ok(()),
        }
    }

    fn if_expression(
        &mut self,
        arms: &'a Vec<Arm>,
        otherwise: &'a Option<Box<Expression>>,
    ) -> Result<(), AllocError> {
        for arm in arms {
            self.read(&arm.condition)?;
            self.read(&arm.value)?;
        }
        match otherwise {
            Some(value) => self.read(value),
            None => Ok(()),
        }
    }

    fn case_expression(
        &mut self,
        subject: &'a Expression,
        arms: &'a Vec<CaseArm>,
    ) -> Result<(), AllocError> {
        self.read(subject)?;
        for arm in arms {
            self.choices(&arm.choices)?;
            self.read(&arm.value)?;
        }
        Ok(())
    }

    /// Visits a quantified expression: its parameter has its meaning in the condition alone (4.5.8).
    fn quantified(
        &mut self,
        name: Name,
        iteration: &'a Iteration,
        condition: &'a Expression,
    ) -> Result<(), AllocError> {
        let mark = self.mark();
        self.iteration(name, iteration)?;
        self.read(condition)?;
        self.next.push(Task::Leave(mark))?;
        Ok(())
    }

    /// Visits what a loop goes over; then its parameter gets its meaning.
    pub fn iteration(&mut self, name: Name, iteration: &'a Iteration) -> Result<(), AllocError> {
        match iteration {
            Iteration::In(_, range) => {
                self.next.push(Task::Choice(range))?;
                self.next.push(Task::LoopName(name, None))?;
            }
            Iteration::Of(_, array) => {
                let whole = self.whole_array(array);
                self.read(array)?;
                self.next.push(Task::LoopName(name, whole))?;
            }
        }
        Ok(())
    }

    /// The variable of which the expression names a part.
    pub fn variable_of(&self, expression: &Expression) -> Option<usize> {
        let mut part = expression;
        for _ in 0..MOST_LEVELS {
            match &part.form {
                Form::Applied(prefix, _) => part = prefix,
                Form::Selected(prefix, _) if !self.is_package(prefix) => part = prefix,
                _ => break,
            }
        }
        self.denoted(part)
    }
}
