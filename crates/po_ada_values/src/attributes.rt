// SPDX-License-Identifier: MIT
//! Attributes of parts that were evaluated (4.1.4).

use crate::choices::NO_INDEX;
use crate::lowering::Lowering;
use crate::values::{
    Denoted, Lowered, Placed, Value, computed, fixed_value, only_value, range_of, slot_cell,
    two_values,
};
use po_ada_tree::Stop;
use po_ada_tree::tree::{Attribute, Kind};
use po_ada_types::{Structure, Sub, UNIVERSAL};
use po_program::{Area, Base, Binary, Expr, Stmt};

impl<'a> Lowering<'a> {
    /// An attribute with the values in its parentheses.
    pub fn attribute(
        &mut self,
        place: usize,
        denoted: Denoted,
        attribute: Attribute,
        values: Vec<Lowered>,
    ) -> Result<Value, Stop> {
        let operands = self.emitted(values)?;
        match (denoted, attribute) {
            (Denoted::Type(sub), _) => self.type_attribute(place, sub, attribute, operands),
            (Denoted::Part(part), _) => self.array_attribute(place, part.sub, attribute, operands),
            (Denoted::Operation(operation), Attribute::Count) => {
                self.entry_count(place, operation, None)
            }
            (Denoted::Member(operation, distance), Attribute::Count) => {
                self.entry_count(place, operation, Some(distance))
            }
            _ => Err(
                self.known.refuse(
                    place,
                    "this attribute comes after a type, an array or an entry alone (4.1.4)",
                ),
            ),
        }
    }

    /// `A'Old`: the value that the operand has before the body (6.1.1).
    pub fn old_value(&mut self, place: usize, values: Vec<Lowered>) -> Result<Value, Stop> {
        let mut values = values;
        let (Some(lowered), true) = (values.pop(), self.in_postcondition) else {
            return Err(
                self.known
                    .refuse(place, "'Old stands in a postcondition alone (6.1.1)"),
            );
        };
        let Lowered { code, value, .. } = lowered;
        let slot = self.take_slots(place, 1)?;
        for statement in code {
            self.olds.push(statement)?;
        }
        self.olds.push(Stmt::Assign(Area::Frame, slot, value.code))?;
        Ok(computed(value.kind, slot_cell(slot)))
    }

    /// The number of calls that wait on an entry (9.9).
    fn entry_count(
        &mut self,
        place: usize,
        operation: usize,
        distance: Option<Expr>,
    ) -> Result<Value, Stop> {
        let entry = match self.operations.get(operation) {
            Some(declared)
                if declared.profile.kind == Kind::Entry
                    && declared.family.is_some() == distance.is_some() => declared.entry,
            _ => return Err(
                self.known.refuse(
                    place,
                    "'Count comes after an entry, and after a family with its index (9.9)",
                ),
            ),
        };
        let code = match distance {
            None => Expr::Count(entry),
            Some(distance) => Expr::CountAt(entry, self.boxed(distance)?),
        };
        Ok(computed(UNIVERSAL, code))
    }

    /// First, Last and Length of an array, perhaps of the index whose number is in parentheses (3.6.2).
    fn array_attribute(
        &mut self,
        place: usize,
        sub: Sub,
        attribute: Attribute,
        operands: Vec<Placed>,
    ) -> Result<Value, Stop> {
        let number = match operands.is_empty() {
            true => Some(1),
            false => only_value(operands).and_then(|operand| operand.value.fixed),
        };
        let Some(sub) = self.with_index(sub, number) else {
            return Err(self.known.refuse(place, NO_INDEX));
        };
        let Some((index, _, _)) = self.known.array_parts(sub) else {
            return Err(
                self.known.refuse(
                    place,
                    "this attribute comes after an array or a type alone (3.6.2)",
                ),
            );
        };
        match attribute {
            Attribute::First => Ok(fixed_value(index, sub.low)),
            Attribute::Last => Ok(fixed_value(index, sub.high)),
            Attribute::Length => Ok(fixed_value(
                UNIVERSAL,
                sub.high.saturating_sub(sub.low).saturating_add(1).max(0),
            )),
            _ => Err(
                self.known.refuse(
                    place,
                    "of an array this subset has First, Last, Length, and Range in loops (3.6.2)",
                ),
            ),
        }
    }

    /// An attribute of a type.
    fn type_attribute(
        &mut self,
        place: usize,
        sub: Sub,
        attribute: Attribute,
        operands: Vec<Placed>,
    ) -> Result<Value, Stop> {
        if !self.known.is_discrete(sub.kind) {
            return self.array_attribute(place, sub, attribute, operands);
        }
        match attribute {
            Attribute::First => Ok(fixed_value(sub.kind, sub.low)),
            Attribute::Last => Ok(fixed_value(sub.kind, sub.high)),
            Attribute::Length => Err(
                self.known.refuse(
                    place,
                    "'Length comes after an array: of a type take its range (3.6.2)",
                ),
            ),
            Attribute::Modulus => self.modulus(place, sub.kind),
            Attribute::Pos | Attribute::Val | Attribute::Succ | Attribute::Pred => {
                self.unary_attribute(place, sub, attribute, operands)
            }
            Attribute::Min | Attribute::Max => self.extreme(place, sub, attribute, operands),
            _ => Err(
                self.known.refuse(
                    place,
                    "this attribute has no value in this subset; Image stands in messages, Range in loops (3.5)",
                ),
            ),
        }
    }

    pub fn modulus(&mut self, place: usize, kind: usize) -> Result<Value, Stop> {
        let found = match self.known.kinds.get(kind) {
            Some(declared) => match declared.structure {
                Structure::Modular(modulus) => i128::try_from(modulus).ok(),
                _ => None,
            },
            None => None,
        };
        match found {
            Some(modulus) => Ok(fixed_value(UNIVERSAL, modulus)),
            None => Err(
                self.known
                    .refuse(place, "'Modulus comes after a modular type (3.5.4)"),
            ),
        }
    }

    /// Pos, Val, Succ and Pred (3.5.5, 3.5).
    fn unary_attribute(
        &mut self,
        place: usize,
        sub: Sub,
        attribute: Attribute,
        operands: Vec<Placed>,
    ) -> Result<Value, Stop> {
        let Some(operand) = only_value(operands) else {
            return Err(
                self.known
                    .refuse(place, "this attribute has one value in parentheses (3.5)"),
            );
        };
        let Placed { place, value } = operand;
        let whole = self.known.whole(sub.kind);
        if attribute == Attribute::Val {
            return self.value_at(place, value, whole);
        }
        self.known.unify(place, sub.kind, value.kind)?;
        match attribute {
            Attribute::Pos => Ok(Value {
                code: value.code,
                kind: UNIVERSAL,
                fixed: value.fixed,
                raises: value.raises,
            }),
            Attribute::Succ => self.neighbour(place, value, whole, 1),
            _ => self.neighbour(place, value, whole, -1),
        }
    }

    /// The value at a position (3.5.5).
    fn value_at(&mut self, place: usize, value: Value, whole: Sub) -> Result<Value, Stop> {
        if !self.known.is_integer(value.kind) {
            self.known.unify(place, UNIVERSAL, value.kind)?;
        }
        self.within_type(place, value, whole)
    }

    /// A value that has to be one of a type.
    fn within_type(&mut self, place: usize, value: Value, whole: Sub) -> Result<Value, Stop> {
        let fixed = value.fixed;
        let value = Value {
            code: value.code,
            kind: whole.kind,
            fixed,
            raises: value.raises,
        };
        self.qualified(place, value, whole)
    }

    /// The next or the previous value (3.5(22), 3.5(25)).
    fn neighbour(
        &mut self,
        place: usize,
        value: Value,
        whole: Sub,
        step: i128,
    ) -> Result<Value, Stop> {
        if let Some(number) = value.fixed {
            return self.within_type(
                place,
                fixed_value(whole.kind, number.saturating_add(step)),
                whole,
            );
        }
        let base = match self.known.base(whole.kind) {
            Some(Base::Modular(modulus)) => Base::Modular(modulus),
            _ => Base::Signed(range_of(whole)),
        };
        let operator = if step > 0 {
            Binary::Add(base)
        } else {
            Binary::Subtract(base)
        };
        let code = self.binary(operator, value.code, Expr::Number(1))?;
        Ok(computed(whole.kind, code))
    }

    /// Min and Max (3.5).
    fn extreme(
        &mut self,
        place: usize,
        sub: Sub,
        attribute: Attribute,
        operands: Vec<Placed>,
    ) -> Result<Value, Stop> {
        let Some((left, right)) = two_values(operands) else {
            return Err(
                self.known.refuse(place, "'Min and 'Max have two values in parentheses (3.5)"),
            );
        };
        self.known.unify(left.place, sub.kind, left.value.kind)?;
        self.known.unify(right.place, sub.kind, right.value.kind)?;
        let (first, second) = (left.value, right.value);
        if let (Some(a), Some(b)) = (first.fixed, second.fixed) {
            let number = if attribute == Attribute::Min {
                a.min(b)
            } else {
                a.max(b)
            };
            return Ok(fixed_value(sub.kind, number));
        }
        let operator = if attribute == Attribute::Min {
            Binary::Min
        } else {
            Binary::Max
        };
        let code = self.binary(operator, first.code, second.code)?;
        Ok(computed(sub.kind, code))
    }
}
