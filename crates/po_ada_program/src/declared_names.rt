// SPDX-License-Identifier: MIT
//! The names that scripts use: operations, parameters, types, exceptions.

use crate::making::Making;
use po_ada_names::{
    Discriminant, Entry, Enumeration, Family, Form, Heading, Mode, ObjectNames, Operation,
    Parameter, Subtype, Types,
};
use po_ada_tree::tree::{Kind, Name, Protected};
use po_ada_tree::{Stop, tree};
use po_ada_types::{BOOLEAN, Sub};
use po_ada_values::Declared;
use std::alloc::AllocError;

/// The types that were named so far, and the numbers of those that are enumerations.
#[derive(Drop)]
pub struct Table {
    types: Types,
    enumerations: Vec<usize>,
}

impl<'a> Making<'a> {
    fn table(&self) -> Table {
        Table {
            types: Types {
                enumerations: Vec::new(self.lowering.known.alloc),
                subtypes: Vec::new(self.lowering.known.alloc),
            },
            enumerations: Vec::new(self.lowering.known.alloc),
        }
    }

    /// How the text writes a name.
    pub fn text(&self, name: u32) -> Result<String, AllocError> {
        String::from_str(
            self.lowering.known.alloc,
            self.lowering.known.names.written(name),
        )
    }

    fn literals_of(&self, kind: usize) -> Result<Enumeration, AllocError> {
        let mut literals = Vec::new(self.lowering.known.alloc);
        for (name, found) in self.lowering.known.literals.iter() {
            if *found == kind {
                literals.push(self.text(*name)?)?;
            }
        }
        Ok(Enumeration { literals })
    }

    /// How values of the type are written.
    pub fn form(&self, table: &mut Table, kind: usize) -> Result<Form, AllocError> {
        if kind == BOOLEAN {
            return Ok(Form::Boolean);
        }
        let is_enumeration = self
            .lowering
            .known
            .literals
            .iter()
            .any(|(_, found)| *found == kind);
        if !is_enumeration {
            return Ok(Form::Integer);
        }
        let number = match table.enumerations.iter().position(|found| *found == kind) {
            Some(number) => number,
            None => {
                table.enumerations.push(kind)?;
                table.types.enumerations.push(self.literals_of(kind)?)?;
                table.enumerations.len().saturating_sub(1)
            }
        };
        Ok(Form::Enumeration(u16::try_from(number).unwrap_or(0)))
    }

    /// The number of a subtype in the table.
    fn subtype_number(
        &self,
        table: &mut Table,
        mark: Option<&tree::Expression>,
        sub: Sub,
    ) -> Result<u16, AllocError> {
        let form = self.form(table, sub.kind)?;
        let name = match mark.map(|found| &found.form) {
            Some(tree::Form::Name(name)) => self.text(*name)?,
            _ => self.text(self.lowering.known.kind_name(sub.kind))?,
        };
        let number = table.types.subtypes.len();
        table.types.subtypes.push(Subtype {
            name,
            form,
            low: sub.low,
            high: sub.high,
        })?;
        Ok(u16::try_from(number).unwrap_or(0))
    }

    fn parameter_names(
        &self,
        table: &mut Table,
        declared: &Declared<'a>,
    ) -> Result<Vec<Parameter>, AllocError> {
        let mut list = Vec::new(self.lowering.known.alloc);
        let mut position = 0usize;
        for group in declared.profile.parameters.iter() {
            for _ in group.variables.names.iter() {
                if let Some(parameter) = declared.parameters.get(position) {
                    let subtype = self.subtype_number(
                        table,
                        Some(&group.variables.subtype.mark),
                        parameter.sub,
                    )?;
                    list.push(Parameter {
                        name: self.text(parameter.name)?,
                        mode: mode_of(parameter.mode),
                        subtype,
                        default: static_number(parameter.default),
                    })?;
                }
                position = position.saturating_add(1);
            }
        }
        Ok(list)
    }

    fn operation_names(
        &self,
        table: &mut Table,
        declared: &Declared<'a>,
    ) -> Result<Operation, AllocError> {
        let parameters = self.parameter_names(table, declared)?;
        let mark = declared
            .profile
            .returns
            .as_ref()
            .map(|subtype| &subtype.mark);
        let result = match declared.returns {
            Some(sub) => Some(self.subtype_number(table, mark, sub)?),
            None => None,
        };
        Ok(Operation {
            name: self.text(declared.profile.name.number)?,
            parameters,
            result,
        })
    }

    fn entry_names(
        &self,
        table: &mut Table,
        number: usize,
        declared: &Declared<'a>,
    ) -> Result<Entry, AllocError> {
        let operation = self.operation_names(table, declared)?;
        let family = match declared.family {
            Some(sub) => Some(Family {
                subtype: self.subtype_number(table, None, sub)?,
                low: i32::try_from(sub.low).unwrap_or(0),
                high: i32::try_from(sub.high).unwrap_or(-1),
            }),
            None => None,
        };
        Ok(Entry {
            operation,
            public: declared.public,
            family,
            precondition: self.precondition_function(number),
        })
    }
}

fn mode_of(mode: tree::Mode) -> Mode {
    match mode {
        tree::Mode::In => Mode::In,
        tree::Mode::Out => Mode::Out,
        tree::Mode::InOut => Mode::InOut,
    }
}

/// The number of a default that is a literal.
fn static_number(default: Option<&tree::Expression>) -> Option<i128> {
    match default?.form {
        tree::Form::Number(number) => Some(i128::from(number)),
        _ => None,
    }
}

/// What scripts know of the object.
pub fn object_names(making: &Making<'_>, unit: Name) -> Result<ObjectNames, AllocError> {
    let mut table = making.table();
    let mut entries = Vec::new(making.lowering.known.alloc);
    let mut procedures = Vec::new(making.lowering.known.alloc);
    let mut functions = Vec::new(making.lowering.known.alloc);
    for (number, declared) in making.lowering.operations.iter().enumerate() {
        match declared.profile.kind {
            Kind::Entry => entries.push(making.entry_names(&mut table, number, declared)?)?,
            Kind::Procedure if declared.public => procedures.push(making.operation_names(
                &mut table, declared,
            )?)?,
            Kind::Function if declared.public => functions.push(making.operation_names(
                &mut table, declared,
            )?)?,
            _ => {}
        }
    }
    let mut exceptions = Vec::new(making.lowering.known.alloc);
    for name in making.exceptions.iter() {
        exceptions.push(making.text(*name)?)?;
    }
    let mut messages = Vec::new(making.lowering.known.alloc);
    for message in making.lowering.messages.iter() {
        messages.push(message.clone()?)?;
    }
    let variables = making.variable_names(&mut table)?;
    let Table { types, .. } = table;
    Ok(ObjectNames {
        unit: making.text(unit.number)?,
        types,
        entries,
        procedures,
        functions,
        variables,
        exceptions,
        messages,
        max_queue: making.max_queue,
    })
}

/// The unit's name and its discriminants.
pub fn heading_names<'a>(making: &mut Making<'a>, unit: &'a Protected) -> Result<Heading, Stop> {
    let mut table = making.table();
    let mut discriminants = Vec::new(making.lowering.known.alloc);
    for variables in unit.discriminants.iter() {
        let sub = making.subtype(&variables.subtype)?;
        let default = match &variables.value {
            Some(value) => Some(making.lowering.fixed(value)?.0),
            None => None,
        };
        for name in variables.names.iter() {
            let subtype = making.subtype_number(&mut table, Some(&variables.subtype.mark), sub)?;
            discriminants.push(Discriminant {
                name: making.text(name.number)?,
                subtype,
                default,
            })?;
        }
    }
    let Table { types, .. } = table;
    Ok(Heading {
        unit: making.text(unit.name.number)?,
        types,
        discriminants,
    })
}
