// SPDX-License-Identifier: MIT
//! The names of an object's variables, and of the components of small ones.

use crate::declared_names::Table;
use crate::making::Making;
use po_ada_names::Variable;
use po_ada_types::{Meaning, Sub, count};
use po_program::Area;
use std::alloc::AllocError;
use std::fmt::Write;

/// The components of a variable have names if it takes at most this many cells.
const MOST_CELLS: u16 = 16;
/// Components of components have names to this depth.
const DEPTH: usize = 4;

/// A variable or a component, by its first cell.
#[derive(Drop)]
struct Place {
    name: String,
    first: u16,
    sub: Sub,
}

impl<'a> Making<'a> {
    /// Returns the literal of this type at a position, if the type has literals (3.5.1).
    fn literal_at(&self, kind: usize, position: i128) -> Option<u32> {
        let mut number = 0i128;
        for (name, found) in self.lowering.known.literals.iter() {
            if *found == kind {
                if number == position {
                    return Some(*name);
                }
                number = number.saturating_add(1);
            }
        }
        None
    }

    /// Adds an index in parentheses (4.1.1).
    fn push_index(&self, name: &mut String, kind: usize, index: i128) -> Result<(), AllocError> {
        match self.literal_at(kind, index) {
            Some(literal) => {
                let literal = self.lowering.known.names.written(literal);
                write!(name, "({literal})")
            }
            None => write!(name, "({index})"),
        }
    }

    /// Adds the components of an array, whose index has this type (4.1.1).
    fn push_elements(
        &self,
        places: &mut Vec<Place>,
        array: &Place,
        index: usize,
        element: Sub,
        width: u16,
    ) -> Result<(), AllocError> {
        for number in 0..count(array.sub) {
            let mut name = array.name.clone()?;
            let position = array.sub.low.saturating_add(i128::from(number));
            self.push_index(&mut name, index, position)?;
            let first = array.first.saturating_add(number.saturating_mul(width));
            places.push(Place {
                name,
                first,
                sub: element,
            })?;
        }
        Ok(())
    }

    /// Adds the components of a record (4.1.3).
    fn push_fields(&self, places: &mut Vec<Place>, record: &Place) -> Result<(), AllocError> {
        for position in 0..self.lowering.known.field_count(record.sub) {
            if let Some((field, sub, distance)) = self.lowering.known.field(record.sub, position) {
                let mut name = record.name.clone()?;
                name.push_str(".")?;
                name.push_str(self.lowering.known.names.written(field))?;
                let first = record.first.saturating_add(distance);
                places.push(Place { name, first, sub })?;
            }
        }
        Ok(())
    }

    /// Adds the components of a place, or the place itself if it is of a discrete type.
    fn push_parts(&self, places: &mut Vec<Place>, place: Place) -> Result<(), AllocError> {
        if self.lowering.known.is_discrete(place.sub.kind) {
            places.push(place)?;
            return Ok(());
        }
        match self.lowering.known.array_parts(place.sub) {
            Some((index, element, width)) => self.push_elements(
                places, &place, index, element, width,
            ),
            None => self.push_fields(places, &place),
        }
    }

    /// Adds a variable with the components that it is made of.
    fn push_variable(
        &self,
        table: &mut Table,
        variables: &mut Vec<Variable>,
        place: Place,
    ) -> Result<(), AllocError> {
        let mut places = Vec::new(self.lowering.known.alloc);
        places.push(place)?;
        for _ in 0..DEPTH {
            let mut parts = Vec::new(self.lowering.known.alloc);
            for place in places {
                self.push_parts(&mut parts, place)?;
            }
            places = parts;
        }
        for place in places {
            if self.lowering.known.is_discrete(place.sub.kind) {
                variables.push(Variable {
                    form: self.form(table, place.sub.kind)?,
                    name: place.name,
                    cell: place.first,
                })?;
            }
        }
        Ok(())
    }

    /// The variables of the object, in the order of their declarations. An array or a record stands for its components, if it isn't
    /// large.
    pub fn variable_names(&self, table: &mut Table) -> Result<Vec<Variable>, AllocError> {
        let mut variables = Vec::new(self.lowering.known.alloc);
        for symbol in self.lowering.known.scope.iter() {
            if let Meaning::Variable(variable) = symbol.meaning
                && variable.area == Area::Object
                && !variable.constant
                && self.lowering.known.width(variable.sub) <= MOST_CELLS
            {
                let place = Place {
                    name: self.text(symbol.name)?,
                    first: variable.first,
                    sub: variable.sub,
                };
                self.push_variable(table, &mut variables, place)?;
            }
        }
        Ok(variables)
    }
}
