// SPDX-License-Identifier: MIT
//! Expressions get their meaning (4.4): the functions that call one another, each with what is left to be nested.
//!
//! A call of a function is a statement before its expression.

use crate::choices::{Chosen, index_number, range_prefix};
use crate::loops::Opened;
use crate::lowering::{LEVELS, Lowering};
use crate::values::{Denoted, Lowered, Operand, Value, choice_place, fixed_value, positional};
use po_ada_tree::Stop;
use po_ada_tree::tree::{Association, Attribute, Choice, Expression, Form, Iteration, Kind, Name};
use po_ada_types::{CHARACTER, Sub, UNIVERSAL};
use po_program::{Expr, Range};

impl<'a> Lowering<'a> {
    /// The meaning of an expression.
    #[cycle(values)]
    pub fn value(&mut self, expression: &'a Expression, levels: usize) -> Result<Value, Stop> {
        let place = expression.place;
        if levels == 0 {
            return Err(self.known.refuse(place, "nested deeper than 100"));
        }
        match &expression.form {
            Form::Name(_) | Form::Selected(_, _) | Form::Applied(_, _) | Form::Attribute(_, _, _) =>
                self.named_value(expression, levels - 1),
            Form::Member(subject, _) | Form::Case(subject, _) => {
                self.tested(place, subject, &expression.form, levels - 1)
            }
            Form::Quantified(is_all, name, iteration, condition) => {
                self.quantified(*is_all, *name, iteration, condition, levels - 1)
            }
            _ => {
                let operands = self.operands(place, &expression.form)?;
                let values = self.values(operands.as_slice(), levels - 1)?;
                self.composed(place, &expression.form, values)
            }
        }
    }

    /// Operands, each with the statements before it.
    #[cycle(values)]
    pub fn values(
        &mut self,
        operands: &[Operand<'a>],
        levels: usize,
    ) -> Result<Vec<Lowered>, Stop> {
        let mut values = Vec::new(self.known.alloc);
        for operand in operands {
            let before = self.begin_list();
            let made = match *operand {
                Operand::Written(expression) => self.value(expression, levels),
                Operand::Default(expression, before) => {
                    let inner = self.hide_names(before)?;
                    let made = self.value(expression, levels);
                    self.show_names(inner)?;
                    made
                }
                Operand::Number(_, kind, number) => Ok(fixed_value(kind, number)),
            };
            let code = self.end_list(before);
            values.push(Lowered {
                place: operand.place(),
                code,
                value: made?,
            })?;
        }
        Ok(values)
    }

    /// The value that a name with what comes after it denotes; a function without parentheses is called.
    #[cycle(values)]
    fn named_value(&mut self, expression: &'a Expression, levels: usize) -> Result<Value, Stop> {
        let place = expression.place;
        let denoted = self.denoted(expression, levels)?;
        let whole = if self.is_called(&denoted) {
            self.applied(place, denoted, &[], levels)?
        } else {
            denoted
        };
        self.as_value(place, whole)
    }

    /// What a name with what comes after it stands for.
    #[cycle(values)]
    pub fn denoted(&mut self, expression: &'a Expression, levels: usize) -> Result<Denoted, Stop> {
        let place = expression.place;
        if levels == 0 {
            return Err(self.known.refuse(place, "nested deeper than 100"));
        }
        match &expression.form {
            Form::Name(name) => self.named(place, *name),
            Form::Selected(prefix, component) => {
                let denoted = self.denoted(prefix, levels - 1)?;
                self.selected(denoted, *component)
            }
            Form::Applied(prefix, list) => {
                let denoted = self.denoted(prefix, levels - 1)?;
                self.applied(place, denoted, list, levels - 1)
            }
            Form::Attribute(prefix, Attribute::Old, _) => {
                let values = self.values(&[Operand::Written(prefix)], levels - 1)?;
                Ok(Denoted::Value(self.old_value(place, values)?))
            }
            Form::Attribute(prefix, attribute, list) => {
                let denoted = self.denoted(prefix, levels - 1)?;
                let operands = positional(self.known.alloc, list)?;
                let values = self.values(operands.as_slice(), levels - 1)?;
                Ok(Denoted::Value(self.attribute(place, denoted, *attribute, values)?))
            }
            _ => Ok(Denoted::Value(self.value(expression, levels - 1)?)),
        }
    }

    /// `A (..)`: a component, a conversion, a call or an entry of a family.
    #[cycle(values)]
    fn applied(
        &mut self,
        place: usize,
        denoted: Denoted,
        list: &'a [Association],
        levels: usize,
    ) -> Result<Denoted, Stop> {
        let operands = self.arguments(place, &denoted, list)?;
        let values = self.values(operands.as_slice(), levels)?;
        self.with_values(place, denoted, values)
    }

    /// A case expression or a membership test.
    #[cycle(values)]
    fn tested(
        &mut self,
        place: usize,
        subject: &'a Expression,
        form: &'a Form,
        levels: usize,
    ) -> Result<Value, Stop> {
        let value = self.value(subject, levels)?;
        let kept = self.subject(subject, value)?;
        let choices = self.choices_of(form)?;
        let choices = self.choices(choices.as_slice(), levels)?;
        let operands = self.arm_values(form)?;
        let values = self.values(operands.as_slice(), levels)?;
        match form {
            Form::Case(_, arms) => self.case_value(place, kept, arms, choices, values),
            _ => self.member(kept, choices),
        }
    }

    /// A quantified expression: a loop before it (4.5.8).
    #[cycle(values)]
    fn quantified(
        &mut self,
        is_all: bool,
        name: Name,
        iteration: &'a Iteration,
        condition: &'a Expression,
        levels: usize,
    ) -> Result<Value, Stop> {
        let result = self.open_quantified(is_all, name)?;
        let scope = self.known.scope.len();
        let opened = self.open_for(name, iteration, levels)?;
        let conditions = self.values(&[Operand::Written(condition)], levels)?;
        self.known.scope.truncate(scope);
        self.close_quantified(is_all, result, opened, conditions)
    }

    /// Begins a loop over a range or the components of an array, with its parameter (5.5, 5.5.2).
    #[cycle(values)]
    pub fn open_for(
        &mut self,
        name: Name,
        iteration: &'a Iteration,
        levels: usize,
    ) -> Result<Opened, Stop> {
        match iteration {
            Iteration::In(reversed, range) => {
                self.admit_range(range)?;
                let chosen = self.chosen(range, levels)?;
                self.open_range(name, chosen, *reversed)
            }
            Iteration::Of(reversed, array) => {
                let denoted = self.denoted(array, levels)?;
                self.open_components(name, denoted, *reversed)
            }
        }
    }

    /// Choices whose parts are evaluated.
    #[cycle(values)]
    pub fn choices(&mut self, list: &[&'a Choice], levels: usize) -> Result<Vec<Chosen>, Stop> {
        let mut choices = Vec::new(self.known.alloc);
        for choice in list {
            choices.push(self.chosen(choice, levels)?)?;
        }
        Ok(choices)
    }

    /// A choice whose parts are evaluated.
    #[cycle(values)]
    pub fn chosen(&mut self, choice: &'a Choice, levels: usize) -> Result<Chosen, Stop> {
        match range_prefix(choice) {
            Some((prefix, list)) => {
                let denoted = self.denoted(prefix, levels)?;
                self.chosen_range(choice_place(choice), denoted, index_number(list))
            }
            None => {
                let operands = self.choice_operands(choice)?;
                let values = self.values(operands.as_slice(), levels)?;
                self.chosen_of(choice, values)
            }
        }
    }

    /// Whether a name stands for a call: of a function without parentheses.
    fn is_called(&self, denoted: &Denoted) -> bool {
        match denoted {
            Denoted::Operation(operation) => self.kind_of(*operation) != Kind::Entry,
            _ => false,
        }
    }

    /// The operands of a form all of which are evaluated in turn.
    fn operands(&self, place: usize, form: &'a Form) -> Result<Vec<Operand<'a>>, Stop> {
        let mut list = Vec::new(self.known.alloc);
        match form {
            Form::Prefix(_, operand) | Form::Qualified(_, operand) => {
                list.push(Operand::Written(operand))?;
            }
            Form::Infix(_, left, right) => {
                list.push(Operand::Written(left))?;
                list.push(Operand::Written(right))?;
            }
            Form::If(arms, otherwise) => return self.if_operands(place, arms, otherwise),
            _ => {}
        }
        Ok(list)
    }

    /// A form whose operands have these values.
    fn composed(
        &mut self,
        place: usize,
        form: &'a Form,
        values: Vec<Lowered>,
    ) -> Result<Value, Stop> {
        match form {
            Form::Prefix(_, _) | Form::Qualified(_, _) => self.of_one(place, form, values),
            Form::Infix(operator, _, _) => self.infixed(place, *operator, values),
            Form::If(_, _) => self.if_value(place, values),
            Form::Raise(exception, message) => self.raised_value(exception, message),
            _ => self.literal(place, form),
        }
    }

    /// A form with one operand.
    fn of_one(
        &mut self,
        place: usize,
        form: &'a Form,
        values: Vec<Lowered>,
    ) -> Result<Value, Stop> {
        let values = self.emitted(values)?;
        let Some(operand) = crate::values::only_value(values) else {
            return Err(self.known.refuse(place, "expected one value"));
        };
        match form {
            Form::Prefix(operator, _) => self.prefixed(place, *operator, operand.value),
            Form::Qualified(mark, _) => {
                let sub = self.known.subtype_mark(mark)?;
                self.qualified(operand.place, operand.value, sub)
            }
            _ => Err(self.known.refuse(place, "expected one value")),
        }
    }

    /// A literal; what has no value in the subset is refused.
    fn literal(&mut self, place: usize, form: &'a Form) -> Result<Value, Stop> {
        let message = match form {
            Form::Number(number) => return Ok(fixed_value(UNIVERSAL, i128::from(*number))),
            Form::Character(byte) => return Ok(fixed_value(CHARACTER, i128::from(*byte))),
            Form::Text(_, _) => {
                "a string stands as the message of an exception alone: there are no strings (3.6.3)"
            }
            Form::Null => "'null' has no meaning as a value: access types aren't in this subset",
            Form::Anything => "'<>' isn't in this subset as a value: write the value (4.3)",
            Form::Target => "'@' isn't in this subset: write the variable's name (5.2.1)",
            _ => "an aggregate stands as the value of a variable alone (4.3)",
        };
        Err(self.known.refuse(place, message))
    }

    /// A condition (4.5.7, 5.3).
    pub fn condition(&mut self, expression: &'a Expression) -> Result<Expr, Stop> {
        let value = self.value(expression, LEVELS)?;
        self.truth(expression.place, value)
    }

    /// The value of a static expression, and its type.
    pub fn fixed(&mut self, expression: &'a Expression) -> Result<(i128, usize), Stop> {
        let value = self.value(expression, LEVELS)?;
        let number = self.static_number(expression.place, &value)?;
        Ok((number, value.kind))
    }

    /// A range whose bounds are static (4.9.1).
    pub fn static_range(&mut self, choice: &'a Choice) -> Result<Sub, Stop> {
        self.admit_range(choice)?;
        let chosen = self.chosen(choice, LEVELS)?;
        self.static_bounds(chosen)
    }

    /// A range of a type whose bounds are static (4.9.1).
    pub fn static_range_in(&mut self, choice: &'a Choice, kind: usize) -> Result<Sub, Stop> {
        self.admit_range(choice)?;
        let chosen = self.chosen(choice, LEVELS)?;
        self.static_bounds_in(kind, chosen)
    }

    /// The static range of a choice of values of a type.
    pub fn choice_range(&mut self, choice: &'a Choice, kind: usize) -> Result<Range, Stop> {
        let chosen = self.chosen(choice, LEVELS)?;
        self.static_choice(kind, &chosen)
    }

    /// Adds the static ranges of an alternative's choices to those of a case.
    pub fn alternative_ranges(
        &mut self,
        kind: usize,
        list: &'a [Choice],
        ranges: &mut Vec<Range>,
    ) -> Result<(), Stop> {
        let mut choices = Vec::new(self.known.alloc);
        for choice in list {
            choices.push(self.chosen(choice, LEVELS)?)?;
        }
        self.add_ranges(kind, choices, ranges)
    }

    /// A call of an operation: the slot of its first parameter (6.4).
    pub fn call(
        &mut self,
        place: usize,
        operation: usize,
        list: &'a [Association],
    ) -> Result<u16, Stop> {
        let operands = self.actuals(place, operation, list)?;
        let values = self.values(operands.as_slice(), LEVELS)?;
        let values = self.emitted(values)?;
        self.made_call(place, operation, values)
    }
}
