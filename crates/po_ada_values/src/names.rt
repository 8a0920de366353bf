// SPDX-License-Identifier: MIT
//! Names and what comes after them: variables, components, conversions (4.1, 4.6).

ghost use Rattle.std.specs.Prelude.{◌≡◌, ◌≤ℤ◌, ◌+ℤ◌, pos, IfSome, Some};

use crate::lowering::Lowering;
use crate::values::{
    Denoted, Lowered, Operand, Part, Placed, Value, computed, fixed_value, only_value, positional,
    range_of, slot_cell,
};
use po_ada_tree::Stop;
use po_ada_tree::tree::{Association, Name};
use po_ada_types::{Meaning, Structure, Sub, Symbol, Variable};
use po_program::{Expr, Range};

impl<'a> Lowering<'a> {
    /// What is in a denoted part: a value of a discrete type.
    pub fn as_value(&mut self, place: usize, denoted: Denoted) -> Result<Value, Stop> {
        match denoted {
            Denoted::Value(value) => Ok(value),
            Denoted::Part(part) => self.read(place, part),
            Denoted::Operation(_) => Err(
                self.known.refuse(
                    place,
                    "an entry gives no value; its Count is written 'Count (9.9)",
                ),
            ),
            Denoted::Type(_) => Err(
                self.known
                    .refuse(place, "expected a value, and here is a type"),
            ),
            Denoted::Exception(_) => Err(
                self.known
                    .refuse(place, "expected a value, and here is an exception"),
            ),
            Denoted::Member(_, _) => Err(
                self.known
                    .refuse(place, "expected a value, and here is an entry (9.5.2)"),
            ),
            Denoted::Package(_) => Err(
                self.known.refuse(
                    place,
                    "expected a value, and here is a package or a protected unit",
                ),
            ),
        }
    }

    /// The value of a variable or a component.
    pub fn read(&mut self, place: usize, part: Part) -> Result<Value, Stop> {
        if !self.known.is_discrete(part.sub.kind) {
            return Err(
                self.known.refuse(
                    place,
                    "an array or a record as a whole stands at the right of ':=' alone (5.2)",
                ),
            );
        }
        let Part {
            area,
            first,
            distance,
            sub,
            ..
        } = part;
        let code = match distance {
            None => Expr::Cell(area, first),
            Some(distance) => Expr::CellAt(area, first, self.boxed(distance)?),
        };
        Ok(computed(sub.kind, code))
    }

    /// What a name of the text stands for by itself.
    pub fn named(&mut self, place: usize, name: u32) -> Result<Denoted, Stop> {
        let meaning = self.known.look_up(name);
        self.meant(place, name, meaning)
    }

    /// What a name with this meaning stands for.
    fn meant(
        &mut self,
        place: usize,
        name: u32,
        meaning: Option<Meaning>,
    ) -> Result<Denoted, Stop> {
        match meaning {
            Some(Meaning::Type(sub)) => Ok(Denoted::Type(sub)),
            Some(Meaning::Number(number, kind)) => Ok(Denoted::Value(fixed_value(kind, number))),
            Some(Meaning::Variable(variable)) => Ok(Denoted::Part(self.part(variable))),
            Some(Meaning::Exception(exception)) => Ok(Denoted::Exception(exception)),
            Some(Meaning::Operation(operation)) => Ok(Denoted::Operation(operation)),
            Some(Meaning::Package) => Ok(Denoted::Package(self.place_of(name))),
            Some(Meaning::Unread(reason)) => Err(
                self.known.refuse_unread(
                    reason,
                    place,
                    "",
                    name,
                    " isn't in this subset: an operation uses its own object alone, beside constants and functions",
                ),
            ),
            Some(Meaning::Hidden) => Err(
                self.known.refuse(
                    place,
                    "a barrier doesn't use the entry's parameters: take a family, or test in the body and requeue (9.5.2)",
                ),
            ),
            Some(Meaning::Faulty) => Err(Stop::Fault),
            None => Err(self.known.unknown(place, name)),
        }
    }

    /// The whole variable.
    pub fn part(&self, variable: Variable) -> Part {
        Part {
            area: variable.area,
            first: variable.first,
            distance: variable.distance.map(slot_cell),
            sub: variable.sub,
            constant: variable.constant,
        }
    }

    /// Takes the names off the scope that don't stand before this place, and returns them.
    pub fn hide_names(&mut self, place: usize) -> Result<Vec<Symbol>, Stop> {
        let mut inner = Vec::new(self.known.alloc);
        for symbol in self.known.scope.iter().skip(place) {
            inner.push(*symbol)?;
        }
        self.known.scope.truncate(place);
        Ok(inner)
    }

    /// Puts these names back.
    pub fn show_names(&mut self, inner: Vec<Symbol>) -> Result<(), Stop> {
        self.known.scope.extend_from_slice(inner.as_slice())?;
        Ok(())
    }

    /// How many names of the scope stand before the declaration of this type.
    pub fn before_type(&self, kind: usize) -> usize {
        for (place, symbol) in (0usize..).zip(self.known.scope.iter()) {
            if matches!(symbol.meaning, Meaning::Type(sub) if sub.kind == kind) {
                return place;
            }
        }
        self.known.scope.len()
    }

    /// How many names of the scope stand before the declaration of this operation.
    pub fn before_operation(&self, operation: usize) -> usize {
        for (place, symbol) in (0usize..).zip(self.known.scope.iter()) {
            if matches!(symbol.meaning, Meaning::Operation(number) if number == operation) {
                return place;
            }
        }
        self.known.scope.len()
    }

    /// The place of the innermost declaration of this name in the scope.
    fn place_of(&self, name: u32) -> usize {
        let mut found = 0;
        for (place, symbol) in (0usize..).zip(self.known.scope.iter()) {
            if symbol.name == name {
                found = place;
            }
        }
        found
    }

    /// The meaning of a name that the protected unit declares: inner declarations don't hide it (4.1.3, 8.3). It is faulty if the
    /// object's variables can't be used here.
    fn declared_in_unit(&self, name: u32) -> Option<Meaning> {
        let mut found = None;
        for symbol in self.known.scope.iter().skip(self.outside) {
            if symbol.name == name
                && (found.is_none() || matches!(symbol.meaning, Meaning::Faulty))
            {
                found = Some(symbol.meaning);
            }
        }
        found
    }

    /// The meaning of a name that a package declares whose own name has this place: the first one after it, or else any other
    /// outside of the protected unit.
    fn declared_in_package(&self, package: usize, name: u32) -> Option<Meaning> {
        let scope = self.known.scope.as_slice();
        let outer = match self.unit {
            Some(_) => scope.get(..self.outside).unwrap_or(scope),
            None => scope,
        };
        let mut found = None;
        for (place, symbol) in (0usize..).zip(outer.iter()) {
            if symbol.name == name {
                found = Some(symbol.meaning);
                if place > package {
                    break;
                }
            }
        }
        found
    }

    /// `A.B`
    pub fn selected(&mut self, denoted: Denoted, component: Name) -> Result<Denoted, Stop> {
        match denoted {
            Denoted::Package(package) => {
                let meaning = if self.unit == Some(package) {
                    self.declared_in_unit(component.number)
                } else {
                    self.declared_in_package(package, component.number)
                };
                self.meant(component.place, component.number, meaning)
            }
            Denoted::Part(part) => Ok(Denoted::Part(self.component(part, component)?)),
            _ => Err(
                self.known.refuse(
                    component.place,
                    "'.' comes after a record or a package alone",
                ),
            ),
        }
    }

    /// A component of a record.
    pub fn component(&mut self, part: Part, name: Name) -> Result<Part, Stop> {
        let mut found = None;
        if let Some(kind) = self.known.kinds.get(part.sub.kind) {
            if let Structure::Record(fields) = &kind.structure {
                found = fields
                    .iter()
                    .find(|field| field.name == name.number)
                    .map(|field| (field.sub, field.first));
            }
        }
        let Some((sub, first)) = found else {
            return Err(
                self.known.refuse_name(name.place, "the record has no component ", name.number, ""),
            );
        };
        Ok(Part {
            first: part.first.saturating_add(first),
            sub,
            ..part
        })
    }

    /// The one value in parentheses, as an operand.
    fn only(&mut self, place: usize, list: &'a [Association]) -> Result<Vec<Operand<'a>>, Stop> {
        match list.first() {
            Some(association) if list.len() == 1 && association.choices.is_empty() => Ok(positional(
                self.known.alloc,
                list,
            )?),
            _ => Err(
                self.known
                    .refuse(place, "expected one value in parentheses"),
            ),
        }
    }

    /// `T (A)` (4.6).
    fn conversion(&mut self, place: usize, sub: Sub, values: Vec<Placed>) -> Result<Value, Stop> {
        let Some(operand) = only_value(values) else {
            return Err(
                self.known
                    .refuse(place, "expected one value in parentheses"),
            );
        };
        let value = operand.value;
        let is_numeric = self.known.is_integer(value.kind) && self.known.is_integer(sub.kind);
        if value.kind != sub.kind && !is_numeric {
            return Err(
                self.known.refuse(
                    place,
                    "a conversion is between integer types: of an enumeration take Pos and Val (4.6)",
                ),
            );
        }
        let fixed = value.fixed;
        let code = self.checked(operand.place, value, sub)?;
        Ok(Value {
            code,
            kind: sub.kind,
            fixed,
            raises: false,
        })
    }

    /// The entry of a family with this index (9.5.2).
    fn family_member(
        &mut self,
        place: usize,
        operation: usize,
        values: Vec<Placed>,
    ) -> Result<Denoted, Stop> {
        let family = match self.operations.get(operation) {
            Some(declared) => declared.family,
            None => None,
        };
        let (Some(sub), Some(index)) = (family, only_value(values)) else {
            return Err(self.known.refuse(place, "this is no entry family (9.5.2)"));
        };
        self.known.unify(index.place, sub.kind, index.value.kind)?;
        let distance = Expr::Index(range_of(sub), 1, self.boxed(index.value.code)?);
        Ok(Denoted::Member(operation, distance))
    }

    /// The component of an array with these indices (4.1.1).
    fn indexed(&mut self, part: Part, values: Vec<Placed>) -> Result<Part, Stop> {
        let mut part = part;
        for index in values {
            part = self.at_index(index.place, part, index.value)?;
        }
        Ok(part)
    }

    /// The indices of an array, as operands.
    fn index_operands(
        &mut self,
        place: usize,
        sub: Sub,
        list: &'a [Association],
    ) -> Result<Vec<Operand<'a>>, Stop> {
        let dimensions = self.known.dimensions(sub);
        if dimensions == 0 {
            return Err(
                self.known
                    .refuse(place, "this is no array, so it has no index (4.1.1)"),
            );
        }
        if dimensions != list.len() {
            return Err(
                self.known
                    .refuse(place, "the array has another number of indices (4.1.1)"),
            );
        }
        for association in list {
            if !association.choices.is_empty() {
                return Err(
                    self.known
                        .refuse(association.place, "an index has no name (4.1.1)"),
                );
            }
        }
        Ok(positional(self.known.alloc, list)?)
    }

    /// What is evaluated in the parentheses after a name.
    pub fn arguments(
        &mut self,
        place: usize,
        denoted: &Denoted,
        list: &'a [Association],
    ) -> Result<Vec<Operand<'a>>, Stop> {
        match denoted {
            Denoted::Part(part) => self.index_operands(place, part.sub, list),
            Denoted::Type(_) => self.only(place, list),
            Denoted::Operation(operation) if self.is_family(*operation) => self.only(place, list),
            Denoted::Operation(operation) => {
                self.result_of(place, *operation)?;
                self.actuals(place, *operation, list)
            }
            _ => Err(
                self.known.refuse(
                    place,
                    "parentheses come after an array, a function, a type or an entry family alone",
                ),
            ),
        }
    }

    /// `A (..)` with the values in its parentheses: a component, a conversion, an entry of a family or the result of a call.
    pub fn with_values(
        &mut self,
        place: usize,
        denoted: Denoted,
        values: Vec<Lowered>,
    ) -> Result<Denoted, Stop> {
        let values = self.emitted(values)?;
        match denoted {
            Denoted::Part(part) => Ok(Denoted::Part(self.indexed(part, values)?)),
            Denoted::Type(sub) => Ok(Denoted::Value(self.conversion(place, sub, values)?)),
            Denoted::Operation(operation) if self.is_family(operation) => {
                self.family_member(place, operation, values)
            }
            Denoted::Operation(operation) => Ok(Denoted::Value(self.call_result(
                place, operation, values,
            )?)),
            other => Ok(other),
        }
    }

    /// Adds the statements before operands, in turn, to those that were made.
    pub fn emitted(&mut self, list: Vec<Lowered>) -> Result<Vec<Placed>, Stop> {
        let mut values = Vec::new(self.known.alloc);
        for lowered in list {
            self.emit_all(lowered.code)?;
            values.push(Placed {
                place: lowered.place,
                value: lowered.value,
            })?;
        }
        Ok(values)
    }

    /// The component of an array with this index.
    fn at_index(&mut self, place: usize, part: Part, value: Value) -> Result<Part, Stop> {
        let Some((index, element, width)) = self.known.array_parts(part.sub) else {
            return Err(
                self.known
                    .refuse(place, "this is no array, so it has no index (4.1.1)"),
            );
        };
        self.known.unify(place, index, value.kind)?;
        let range = range_of(part.sub);
        let part = Part {
            sub: element,
            ..part
        };
        match steps_to(range, value.fixed) {
            Some(steps) => Ok(Part {
                first: part.first.saturating_add(steps.saturating_mul(width)),
                ..part
            }),
            None => {
                let here = Expr::Index(range, width, self.boxed(value.code)?);
                self.further(part, here)
            }
        }
    }

    /// A part that is this much further from its first cell.
    fn further(&mut self, part: Part, distance: Expr) -> Result<Part, Stop> {
        let Part {
            area,
            first,
            distance: before,
            sub,
            constant,
        } = part;
        let distance = match before {
            None => distance,
            Some(before) => self.sum(before, distance)?,
        };
        Ok(Part {
            area,
            first,
            distance: Some(distance),
            sub,
            constant,
        })
    }
}

/// How far a static index is from the first one, if it is in the range.
fn steps_to(range: Range, index: Option<i128>) -> Option<u16>
    ensures steps { IfSome result (λ steps. index ≡ Some (range.low +ℤ pos steps)) }
    ensures within { IfSome result (λ steps. (range.low +ℤ pos steps) ≤ℤ range.high) }
{
    let number = index?;
    if number < range.low || number > range.high {
        return None;
    }
    u16::try_from(number.checked_sub(range.low)?).ok()
}
