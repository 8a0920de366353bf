// SPDX-License-Identifier: MIT
//! Calls of operations: which actual belongs to which parameter, and what a call is made into (6.4).

use crate::lowering::Lowering;
use crate::values::{
    Operand, Placed, Value, body_number, computed, first_value, is_name, slot_cell,
};
use po_ada_tree::Stop;
use po_ada_tree::tree::{Association, Expression, Kind, Mode};
use po_ada_types::Sub;
use po_program::{Area, Expr, Stmt};

impl<'a> Lowering<'a> {
    /// The actual of a parameter: by its position, by its name, or the default (6.4.1).
    pub fn actual(
        &mut self,
        place: usize,
        operation: usize,
        position: usize,
        list: &'a [Association],
    ) -> Result<&'a Expression, Stop> {
        let Some(parameter) = self
            .operations
            .get(operation)
            .and_then(|declared| declared.parameters.get(position).copied())
        else {
            return Err(self.known.refuse(place, "there is no such parameter"));
        };
        if let Some(association) = list.get(position) {
            if association.choices.is_empty() {
                return Ok(&association.value);
            }
        }
        for association in list {
            if association
                .choices
                .iter()
                .any(|choice| is_name(choice, parameter.name))
            {
                return Ok(&association.value);
            }
        }
        match parameter.default {
            Some(default) => Ok(default),
            None => Err(
                self.known.refuse_name(
                    place,
                    "there is no actual for the parameter ",
                    parameter.name,
                    " (6.4.1)",
                ),
            ),
        }
    }

    /// Whether each actual is of some parameter.
    fn admit_actuals(
        &mut self,
        place: usize,
        operation: usize,
        list: &'a [Association],
    ) -> Result<(), Stop> {
        let count = match self.operations.get(operation) {
            Some(declared) => declared.parameters.len(),
            None => 0,
        };
        if list.len() > count {
            return Err(
                self.known
                    .refuse(place, "there are more actuals than parameters (6.4.1)"),
            );
        }
        for association in list {
            for choice in association.choices.iter() {
                let known = match self.operations.get(operation) {
                    Some(declared) => declared
                        .parameters
                        .iter()
                        .any(|parameter| is_name(choice, parameter.name)),
                    None => false,
                };
                if !known {
                    return Err(
                        self.known
                            .refuse(association.place, "no parameter has this name (6.4.1)"),
                    );
                }
            }
        }
        Ok(())
    }

    /// The subtype of the result of a function.
    pub fn result_of(&mut self, place: usize, operation: usize) -> Result<Sub, Stop> {
        let returns = match self.operations.get(operation) {
            Some(declared) if declared.profile.kind == Kind::Function => declared.returns,
            Some(declared) if declared.profile.kind == Kind::Entry => {
                return Err(
                    self.known.refuse(
                        place,
                        "an entry gives no value; its Count is written 'Count (9.9)",
                    ),
                );
            }
            _ => return Err(self.known.refuse(place, "a procedure gives no value (6.4)")),
        };
        match returns {
            Some(sub) => Ok(sub),
            None => Err(
                self.known.refuse(place, "this function has no result that is in this subset"),
            ),
        }
    }

    /// The values that the parameters have at first, as operands.
    pub fn actuals(
        &mut self,
        place: usize,
        operation: usize,
        list: &'a [Association],
    ) -> Result<Vec<Operand<'a>>, Stop> {
        self.admit_actuals(place, operation, list)?;
        let mut operands = Vec::new(self.known.alloc);
        for position in 0..self.parameter_count(operation) {
            operands.push(self.actual_operand(place, operation, position, list)?)?;
        }
        Ok(operands)
    }

    /// The value that a parameter has at first, as an operand.
    fn actual_operand(
        &mut self,
        place: usize,
        operation: usize,
        position: usize,
        list: &'a [Association],
    ) -> Result<Operand<'a>, Stop> {
        let actual = self.actual(place, operation, position, list)?;
        match self.parameter(operation, position) {
            Some(parameter) if parameter.mode == Mode::Out => Ok(Operand::Number(
                actual.place,
                parameter.sub.kind,
                first_value(parameter.sub),
            )),
            _ if list.iter().any(|given| given.value.place == actual.place) => Ok(Operand::Written(
                actual,
            )),
            _ => Ok(Operand::Default(actual, self.before_operation(operation))),
        }
    }

    /// The values of actuals, each in the range of its parameter.
    fn fitted(&mut self, operation: usize, values: Vec<Placed>) -> Result<Vec<Expr>, Stop> {
        let mut list = Vec::new(self.known.alloc);
        let mut position = 0usize;
        for placed in values {
            let Some(parameter) = self.parameter(operation, position) else {
                return Err(
                    self.known
                        .refuse(placed.place, "there is no such parameter"),
                );
            };
            list.push(self.fit(placed.place, placed.value, parameter.sub)?)?;
            position = position.saturating_add(1);
        }
        Ok(list)
    }

    /// A call: the values get into slots from the one that is returned on, and the operation is executed.
    pub fn made_call(
        &mut self,
        place: usize,
        operation: usize,
        values: Vec<Placed>,
    ) -> Result<u16, Stop> {
        let values = self.fitted(operation, values)?;
        let slots = u16::try_from(values.len()).unwrap_or(0).max(1);
        let first = self.take_slots(place, slots)?;
        let mut slot = first;
        for value in values {
            self.emit(Stmt::Assign(Area::Frame, slot, value))?;
            slot = slot.saturating_add(1);
        }
        if let Some(declared) = self.operations.get_mut(operation) {
            declared.used = true;
        }
        self.emit(Stmt::Call(body_number(operation), first))?;
        Ok(first)
    }

    /// Whether a call of the operation can change its actuals: it has a parameter of mode `out` or `in out` (6.1).
    fn changes_actuals(&self, operation: usize) -> bool {
        match self.operations.get(operation) {
            Some(declared) => declared
                .parameters
                .iter()
                .any(|parameter| parameter.mode != Mode::In),
            None => false,
        }
    }

    /// A call of a function: the statements before it, and the slot with its result.
    pub fn call_result(
        &mut self,
        place: usize,
        operation: usize,
        values: Vec<Placed>,
    ) -> Result<Value, Stop> {
        let sub = self.result_of(place, operation)?;
        if self.changes_actuals(operation) {
            return Err(
                self.known.refuse(
                    place,
                    "a function with parameters of mode 'out' isn't in this subset: write a procedure (6.4.1)",
                ),
            );
        }
        let slot = self.made_call(place, operation, values)?;
        Ok(computed(sub.kind, slot_cell(slot)))
    }
}
