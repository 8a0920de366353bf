// SPDX-License-Identifier: MIT
//! Declarations get their meaning: types, variables, constants and exceptions (3.1).

use crate::making::{MOST_CELLS, Making};
use po_ada_tree::Stop;
use po_ada_tree::tree::{
    ArrayIndex, Choice, Constraint, Declaration, Expression, Form, Name, Pragma, Subtype, TypeForm,
    Variables,
};
use po_ada_types::{Field, GREATEST, LEAST, Meaning, Structure, Sub, Variable, base_range};
use po_ada_values::{LEVELS, Part};
use po_program::{Area, FIRST_DECLARED, MESSAGES};

impl<'a> Making<'a> {
    /// The meaning of declarations of a body or a block. After a fault, goes on with the next one.
    pub fn locals(&mut self, list: &'a [Declaration]) -> Result<(), Stop> {
        for declaration in list {
            self.declared(declaration, true)?;
        }
        Ok(())
    }

    /// The meaning of a declaration. After a fault, its names are known, so that they cause no other fault.
    pub fn declared(&mut self, declaration: &'a Declaration, in_frame: bool) -> Result<(), Stop> {
        match self.declaration(declaration, in_frame) {
            Ok(()) => Ok(()),
            Err(Stop::OutOfMemory) => Err(Stop::OutOfMemory),
            Err(Stop::Fault) => self.faulty(declaration),
        }
    }

    fn faulty(&mut self, declaration: &'a Declaration) -> Result<(), Stop> {
        match declaration {
            Declaration::Type(name, _) | Declaration::Subtype(name, _) => self.faulty_name(*name),
            Declaration::Variables(variables) => self.faulty_names(variables.names.as_slice()),
            Declaration::Numbers(names, _) | Declaration::Exceptions(names) => self.faulty_names(
                names.as_slice(),
            ),
            Declaration::Pragma(_) => Ok(()),
        }
    }

    fn faulty_names(&mut self, names: &'a [Name]) -> Result<(), Stop> {
        for name in names {
            self.faulty_name(*name)?;
        }
        Ok(())
    }

    fn faulty_name(&mut self, name: Name) -> Result<(), Stop> {
        self.lowering.known.define(name, Meaning::Faulty)
    }

    /// The meaning of a declaration; variables are in the frame or in the object.
    fn declaration(&mut self, declaration: &'a Declaration, in_frame: bool) -> Result<(), Stop> {
        match declaration {
            Declaration::Type(name, form) => self.type_declaration(*name, form),
            Declaration::Subtype(name, subtype) => {
                let sub = self.subtype(subtype)?;
                self.lowering.known.define(*name, Meaning::Type(sub))
            }
            Declaration::Variables(variables) => self.variables(variables, in_frame),
            Declaration::Numbers(names, value) => {
                let (number, kind) = self.lowering.fixed(value)?;
                for name in names.iter() {
                    self.lowering
                        .known
                        .define(*name, Meaning::Number(number, kind))?;
                }
                Ok(())
            }
            Declaration::Exceptions(names) => {
                for name in names.iter() {
                    self.new_exception(*name)?;
                }
                Ok(())
            }
            Declaration::Pragma(pragma) => self.declared_pragma(pragma),
        }
    }

    /// Pragmas among declarations are passed over, but Assertion_Policy is Check alone (11.4.2).
    fn declared_pragma(&mut self, pragma: &'a Pragma) -> Result<(), Stop> {
        let names = self.lowering.known.names;
        if names.find("assertion_policy") != Some(pragma.name.number) {
            return Ok(());
        }
        for argument in pragma.arguments.iter() {
            let is_check = match argument.value.form {
                Form::Name(name) => names.find("check") == Some(name),
                _ => false,
            };
            if !is_check {
                return Err(
                    self.lowering.known.refuse(
                        argument.place,
                        "assertions are checked here: the policy is Check, or no assertion stands in the text (11.4.2)",
                    ),
                );
            }
        }
        Ok(())
    }

    fn new_exception(&mut self, name: Name) -> Result<(), Stop> {
        let position = u32::try_from(self.exceptions.len()).unwrap_or(0);
        if position >= 200 {
            return Err(
                self.lowering
                    .known
                    .refuse(name.place, "a text declares at most 200 exceptions"),
            );
        }
        self.exceptions.push(name.number)?;
        let number = FIRST_DECLARED.saturating_add(position.saturating_mul(MESSAGES));
        self.lowering.known.define(name, Meaning::Exception(number))
    }

    /// Variables or constants with one subtype (3.3.1).
    pub fn variables(&mut self, variables: &'a Variables, in_frame: bool) -> Result<(), Stop> {
        let sub = self.variable_subtype(variables)?;
        for name in variables.names.iter() {
            if variables.constant && self.constant(*name, sub, &variables.value)? {
                continue;
            }
            let variable = self.new_variable(*name, sub, variables.constant, in_frame)?;
            let part = Part {
                constant: false,
                ..self.lowering.part(variable)
            };
            match &variables.value {
                Some(value) => self.lowering.give(part, value)?,
                None => self.lowering.give_first(part)?,
            }
            self.lowering
                .known
                .define(*name, Meaning::Variable(variable))?;
        }
        Ok(())
    }

    /// The subtype of variables; an open array has the bounds of its value.
    fn variable_subtype(&mut self, variables: &'a Variables) -> Result<Sub, Stop> {
        let sub = self.subtype(&variables.subtype)?;
        let is_open = match self.lowering.known.kinds.get(sub.kind) {
            Some(kind) => matches!(kind.structure, Structure::Array(_, _, true, _)),
            None => false,
        };
        if is_open
            && sub.high < sub.low
            && matches!(variables.subtype.constraint, Constraint::Absent)
            && !self.is_bounded(&variables.subtype.mark)
        {
            return Err(
                self.lowering.known.refuse(
                    variables.subtype.mark.place,
                    "this array needs bounds in parentheses (3.6.1)",
                ),
            );
        }
        Ok(sub)
    }

    /// Whether the mark names a subtype with bounds: a name of its own for an array type.
    fn is_bounded(&self, mark: &'a Expression) -> bool {
        match &mark.form {
            Form::Name(name) => match self.lowering.known.look_up(*name) {
                Some(Meaning::Type(sub)) => self.lowering.known.kind_name(sub.kind) != *name,
                _ => false,
            },
            _ => false,
        }
    }

    /// A constant with a static value is a number. Says whether it is one.
    fn constant(
        &mut self,
        name: Name,
        sub: Sub,
        value: &'a Option<Expression>,
    ) -> Result<bool, Stop> {
        let Some(expression) = value else {
            return Err(
                self.lowering
                    .known
                    .refuse(name.place, "a constant needs a value here (3.3.1)"),
            );
        };
        if !self.lowering.known.is_discrete(sub.kind) {
            return Ok(false);
        }
        let before = self.lowering.begin_list();
        let slots = self.lowering.slots;
        let found = self.lowering.value(expression, LEVELS);
        let code = self.lowering.end_list(before);
        self.lowering.slots = slots;
        let found = found?;
        let Some(number) = found.fixed else {
            return Ok(false);
        };
        if !code.is_empty() {
            return Ok(false);
        }
        self.lowering.fit(expression.place, found, sub)?;
        self.lowering
            .known
            .define(name, Meaning::Number(number, sub.kind))?;
        Ok(true)
    }

    fn new_variable(
        &mut self,
        name: Name,
        sub: Sub,
        constant: bool,
        in_frame: bool,
    ) -> Result<Variable, Stop> {
        let width = self.lowering.known.width(sub);
        let (area, first) = if in_frame {
            (Area::Frame, self.lowering.take_slots(name.place, width)?)
        } else {
            (Area::Object, self.take_cells(name.place, width)?)
        };
        Ok(Variable {
            area,
            first,
            distance: None,
            sub,
            constant,
        })
    }

    /// The meaning of a subtype with its constraint (3.2.2).
    pub fn subtype(&mut self, subtype: &'a Subtype) -> Result<Sub, Stop> {
        let sub = self.lowering.known.subtype_mark(&subtype.mark)?;
        match &subtype.constraint {
            Constraint::Absent => Ok(sub),
            Constraint::Range(range) => {
                let found = self.lowering.static_range_in(range, sub.kind)?;
                self.lowering
                    .admit_within(subtype.mark.place, found, Some(sub))
            }
            Constraint::Index(list) => self.index_constraint(
                subtype.mark.place,
                sub,
                list.as_slice(),
            ),
        }
    }

    fn index_constraint(
        &mut self,
        place: usize,
        sub: Sub,
        list: &'a [Choice],
    ) -> Result<Sub, Stop> {
        let index = match self.lowering.known.kinds.get(sub.kind) {
            Some(kind) => match kind.structure {
                Structure::Array(index, _, true, _) => Some(index),
                _ => None,
            },
            None => None,
        };
        let (Some(index), Some(choice)) = (index, list.first()) else {
            return Err(
                self.lowering.known.refuse(
                    place,
                    "an index constraint comes after an array type with 'range <>' (3.6.1)",
                ),
            );
        };
        if list.len() != 1 {
            return Err(
                self.lowering
                    .known
                    .refuse(place, "an open array has one index here (3.6)"),
            );
        }
        let found = self.lowering.static_range_in(choice, index)?;
        Ok(Sub {
            kind: sub.kind,
            low: found.low,
            high: found.high,
        })
    }

    /// The declaration of a type (3.2.1).
    fn type_declaration(&mut self, name: Name, form: &'a TypeForm) -> Result<(), Stop> {
        match form {
            TypeForm::Range(low, high) => self.integer_type(name, low, high),
            TypeForm::Modular(modulus) => self.modular_type(name, modulus),
            TypeForm::Enumeration(literals) => self.enumeration_type(name, literals.as_slice()),
            TypeForm::Array(indices, element) => self.array_type(name, indices.as_slice(), element),
            TypeForm::Record(components) => self.record_type(name, components.as_slice()),
            TypeForm::Derived(parent) => self.derived_type(name, parent),
            TypeForm::Formal => {
                let (low, high) = (-2_147_483_648, 2_147_483_647);
                let kind = self
                    .lowering
                    .known
                    .add_kind(name.number, 1, Structure::Integer(low, high))?;
                self.lowering
                    .known
                    .define(name, Meaning::Type(Sub { kind, low, high }))
            }
        }
    }

    fn integer_type(
        &mut self,
        name: Name,
        low: &'a Expression,
        high: &'a Expression,
    ) -> Result<(), Stop> {
        let (first, _) = self.lowering.fixed(low)?;
        let (last, _) = self.lowering.fixed(high)?;
        if first < LEAST || last > GREATEST {
            return Err(
                self.lowering
                    .known
                    .refuse(low.place, "a range of integers is within 64 bits (3.5.4)"),
            );
        }
        let (least, greatest) = base_range(first, last);
        let kind = self
            .lowering
            .known
            .add_kind(name.number, 1, Structure::Integer(least, greatest))?;
        self.lowering.known.define(
            name,
            Meaning::Type(Sub {
                kind,
                low: first,
                high: last,
            }),
        )
    }

    fn modular_type(&mut self, name: Name, modulus: &'a Expression) -> Result<(), Stop> {
        let (number, _) = self.lowering.fixed(modulus)?;
        if !(1..=18_446_744_073_709_551_616).contains(&number) {
            return Err(
                self.lowering.known.refuse(
                    modulus.place,
                    "a modulus is from 1 to 2 ** 64 here (3.5.4)",
                ),
            );
        }
        let kind = self.lowering.known.add_kind(
            name.number,
            1,
            Structure::Modular(u128::try_from(number).unwrap_or(1)),
        )?;
        let high = number.saturating_sub(1);
        self.lowering
            .known
            .define(name, Meaning::Type(Sub { kind, low: 0, high }))
    }

    fn enumeration_type(&mut self, name: Name, literals: &'a [Name]) -> Result<(), Stop> {
        let kind = self.lowering.known.kinds.len();
        let mut position = 0i128;
        for literal in literals {
            if let Some(Meaning::Number(_, _)) = self.lowering.known.look_up(literal.number) {
                return Err(
                    self.lowering.known.refuse(
                        literal.place,
                        "two literals of one name aren't in this subset: rename one (3.5.1)",
                    ),
                );
            }
            self.lowering
                .known
                .define(*literal, Meaning::Number(position, kind))?;
            self.lowering.known.literals.push((literal.number, kind))?;
            position = position.saturating_add(1);
        }
        let high = position.saturating_sub(1);
        self.lowering
            .known
            .add_kind(name.number, 1, Structure::Enumeration(high))?;
        self.lowering
            .known
            .define(name, Meaning::Type(Sub { kind, low: 0, high }))
    }

    /// A type derived from a discrete one: its literals are those of the parent (3.4).
    fn derived_type(&mut self, name: Name, parent: &'a Subtype) -> Result<(), Stop> {
        let sub = self.subtype(parent)?;
        let structure = match self.lowering.known.kinds.get(sub.kind) {
            Some(kind) => match kind.structure {
                Structure::Integer(low, high) => Some(Structure::Integer(low, high)),
                Structure::Modular(modulus) => Some(Structure::Modular(modulus)),
                _ => None,
            },
            None => None,
        };
        let Some(structure) = structure else {
            return Err(
                self.lowering.known.refuse(
                    parent.mark.place,
                    "a derived type has an integer type as its parent here (3.4)",
                ),
            );
        };
        let kind = self.lowering.known.add_kind(name.number, 1, structure)?;
        self.lowering
            .known
            .define(name, Meaning::Type(Sub { kind, ..sub }))
    }

    /// An array type: one with two indices is an array of arrays (3.6).
    fn array_type(
        &mut self,
        name: Name,
        indices: &'a [ArrayIndex],
        element: &'a Subtype,
    ) -> Result<(), Stop> {
        if indices.len() > 4 {
            return Err(
                self.lowering
                    .known
                    .refuse(name.place, "an array has at most 4 indices here (3.6)"),
            );
        }
        let mut sub = self.subtype(element)?;
        let mut left = indices.len();
        for index in indices.iter().rev() {
            left = left.saturating_sub(1);
            let dimensions = indices.len().saturating_sub(left);
            sub = self.array_kind(name, index, sub, dimensions, indices.len())?;
        }
        self.lowering.known.define(name, Meaning::Type(sub))
    }

    fn array_kind(
        &mut self,
        name: Name,
        index: &'a ArrayIndex,
        element: Sub,
        dimensions: usize,
        all: usize,
    ) -> Result<Sub, Stop> {
        let width = self.lowering.known.width(element);
        let (range, open) = match index {
            ArrayIndex::Constrained(choice) => (self.lowering.static_range(choice)?, false),
            ArrayIndex::Open(mark) => (self.lowering.known.subtype_mark(mark)?, true),
        };
        if open && all > 1 {
            return Err(
                self.lowering.known.refuse(
                    name.place,
                    "an array with 'range <>' has one index here (3.6)",
                ),
            );
        }
        let kind = self.lowering.known.add_kind(
            name.number,
            width,
            Structure::Array(range.kind, dimensions, open, element),
        )?;
        if open {
            return Ok(Sub {
                kind,
                low: 1,
                high: 0,
            });
        }
        let sub = Sub {
            kind,
            low: range.low,
            high: range.high,
        };
        if self.lowering.known.width(sub) > MOST_CELLS {
            return Err(
                self.lowering
                    .known
                    .refuse(name.place, "an array takes at most 16,384 cells"),
            );
        }
        Ok(sub)
    }

    /// A record type (3.8).
    fn record_type(&mut self, name: Name, components: &'a [Variables]) -> Result<(), Stop> {
        let mut fields = Vec::new(self.lowering.known.alloc);
        let mut first = 0u16;
        for component in components {
            let sub = self.variable_subtype(component)?;
            for found in component.names.iter() {
                fields.push(Field {
                    name: found.number,
                    sub,
                    first,
                    default: component.value.as_ref(),
                })?;
                first = first.saturating_add(self.lowering.known.width(sub));
            }
        }
        if first > MOST_CELLS {
            return Err(
                self.lowering
                    .known
                    .refuse(name.place, "a record takes at most 16,384 cells"),
            );
        }
        let kind = self
            .lowering
            .known
            .add_kind(name.number, first, Structure::Record(fields))?;
        self.lowering.known.define(
            name,
            Meaning::Type(Sub {
                kind,
                low: 0,
                high: -1,
            }),
        )
    }
}
