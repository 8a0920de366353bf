// SPDX-License-Identifier: MIT
//! What types are made of, and which fit together.

use crate::known::Known;
use crate::types::{
    BOOLEAN, GREATEST, INTEGER, Kind, LEAST, Structure, Sub, UNIVERSAL, base_of, count,
};
use po_ada_tree::Stop;
use po_ada_tree::tree::{Choice, Expression, Form};
use po_program::Base;
use std::alloc::AllocError;

impl<'a> Known<'a> {
    /// Adds a type, and returns its number.
    pub fn add_kind(
        &mut self,
        name: u32,
        width: u16,
        structure: Structure<'a>,
    ) -> Result<usize, Stop> {
        let number = self.kinds.len();
        self.kinds.push(Kind {
            name,
            width,
            structure,
        })?;
        Ok(number)
    }

    /// What the results of a type's operators can be; none if it has none.
    pub fn base(&self, kind: usize) -> Option<Base> {
        match self.kinds.get(kind) {
            Some(found) => base_of(&found.structure),
            None => None,
        }
    }

    /// Whether the type is discrete: its values take one cell each.
    pub fn is_discrete(&self, kind: usize) -> bool {
        self.base(kind).is_some()
    }

    /// Whether the type is an integer type.
    pub fn is_integer(&self, kind: usize) -> bool {
        match self.kinds.get(kind) {
            Some(found) => matches!(
                found.structure,
                Structure::Universal | Structure::Integer(_, _) | Structure::Modular(_)
            ),
            None => false,
        }
    }

    /// The name of a type.
    pub fn kind_name(&self, kind: usize) -> u32 {
        match self.kinds.get(kind) {
            Some(found) => found.name,
            None => u32::MAX,
        }
    }

    /// How many cells a variable of the subtype takes, up to 65,535.
    pub fn width(&self, sub: Sub) -> u16 {
        match self.kinds.get(sub.kind) {
            Some(found) => match found.structure {
                Structure::Array(_, _, _, _) => count(sub).saturating_mul(found.width),
                _ => found.width,
            },
            None => 1,
        }
    }

    /// The subtype with all values of a type.
    pub fn whole(&self, kind: usize) -> Sub {
        let mut found = Sub {
            kind,
            low: LEAST,
            high: GREATEST,
        };
        if let Some(declared) = self.kinds.get(kind) {
            match declared.structure {
                Structure::Integer(low, high) => {
                    found.low = low;
                    found.high = high;
                }
                Structure::Modular(modulus) => {
                    found.low = 0;
                    found.high = i128::try_from(modulus).unwrap_or(1).saturating_sub(1);
                }
                Structure::Enumeration(last) => {
                    found.low = 0;
                    found.high = last;
                }
                _ => {}
            }
        }
        found
    }

    /// How many indices an array has; 0 if it is none.
    pub fn dimensions(&self, sub: Sub) -> usize {
        match self.kinds.get(sub.kind) {
            Some(kind) => match kind.structure {
                Structure::Array(_, dimensions, _, _) => dimensions,
                _ => 0,
            },
            None => 0,
        }
    }

    /// The index type, the component's subtype and its width of an array.
    pub fn array_parts(&self, sub: Sub) -> Option<(usize, Sub, u16)> {
        match self.kinds.get(sub.kind) {
            Some(kind) => match kind.structure {
                Structure::Array(index, _, _, element) => Some((index, element, kind.width)),
                _ => None,
            },
            None => None,
        }
    }

    pub fn field_count(&self, sub: Sub) -> usize {
        match self.kinds.get(sub.kind) {
            Some(kind) => match &kind.structure {
                Structure::Record(fields) => fields.len(),
                _ => 0,
            },
            None => 0,
        }
    }

    /// The name, subtype and offset of a record's component.
    pub fn field(&self, sub: Sub, position: usize) -> Option<(u32, Sub, u16)> {
        match &self.kinds.get(sub.kind)?.structure {
            Structure::Record(fields) => fields
                .get(position)
                .map(|field| (field.name, field.sub, field.first)),
            _ => None,
        }
    }

    pub fn field_default(&self, sub: Sub, position: usize) -> Option<&'a Expression> {
        match &self.kinds.get(sub.kind)?.structure {
            Structure::Record(fields) => fields.get(position)?.default,
            _ => None,
        }
    }

    pub fn is_component(&self, sub: Sub, choice: &Choice) -> bool {
        let name = match choice {
            Choice::Others(_) => return true,
            Choice::Value(value) => match value.form {
                Form::Name(name) => name,
                _ => return false,
            },
            _ => return false,
        };
        match self.kinds.get(sub.kind) {
            Some(kind) => match &kind.structure {
                Structure::Record(fields) => fields.iter().any(|field| field.name == name),
                _ => false,
            },
            None => false,
        }
    }

    /// The one type that operands of these types are of.
    pub fn unify(&mut self, place: usize, left: usize, right: usize) -> Result<usize, Stop> {
        if left == right || right == UNIVERSAL && self.is_integer(left) {
            return Ok(left);
        }
        if left == UNIVERSAL && self.is_integer(right) {
            return Ok(right);
        }
        match self.mismatch(left, right) {
            Ok(message) => Err(self.refuse_by(place, message)),
            Err(_) => Err(Stop::OutOfMemory),
        }
    }

    fn mismatch(&self, left: usize, right: usize) -> Result<String, AllocError> {
        let mut message = String::from_str(self.alloc, "the types ")?;
        message.push_str(self.kind_text(left))?;
        message.push_str(" and ")?;
        message.push_str(self.kind_text(right))?;
        message.push_str(" don't fit together: write a conversion (4.6)")?;
        Ok(message)
    }

    /// The name of a type, for a message.
    fn kind_text(&self, kind: usize) -> &str {
        match kind {
            UNIVERSAL => "universal_integer",
            BOOLEAN => "Boolean",
            INTEGER => "Integer",
            _ => self.names.written(self.kind_name(kind)),
        }
    }

    pub fn out_of_range(&mut self, place: usize, number: i128, sub: Sub) -> Stop {
        let (low, high) = (sub.low, sub.high);
        let name = self.kind_name(sub.kind);
        match format!(in self.alloc; "{number} isn't in the range {low} .. {high} of ") {
            Ok(before) => self.refuse_name(
                place,
                before.as_str(),
                name,
                ": Constraint_Error (3.5)",
            ),
            Err(_) => Stop::OutOfMemory,
        }
    }
}
