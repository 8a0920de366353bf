// SPDX-License-Identifier: MIT
//! Makes random declarations (3.1).

use crate::heights::expression_of;
use crate::maker::Maker;
use po_ada_tree::tree::{
    ArrayIndex, Constraint, Declaration, Expression, Form, Name, Pragma, Subtype, TypeForm,
    Variables,
};
use std::alloc::AllocError;

impl Maker {
    /// A type's name. The reader leaves out the packages before it.
    fn mark(&mut self) -> Result<Expression, AllocError> {
        let number = self.number()?;
        Ok(expression_of(Form::Name(number)))
    }

    /// A subtype (3.2.2).
    pub fn subtype(&mut self) -> Result<Subtype, AllocError> {
        let mark = self.mark()?;
        let constraint = match self.draw(6) {
            0 => Constraint::Range(self.choice()?),
            1 => Constraint::Index(self.choices()?),
            _ => Constraint::Absent,
        };
        Ok(Subtype { mark, constraint })
    }

    /// These names, with a subtype and perhaps a value.
    pub fn typed(&mut self, names: Vec<Name>, constant: bool) -> Result<Variables, AllocError> {
        let subtype = self.subtype()?;
        let value = self.optional_expression()?;
        Ok(Variables {
            names,
            constant,
            subtype,
            value,
        })
    }

    /// Names with one subtype, and perhaps a value.
    pub fn variables(&mut self, constant: bool) -> Result<Variables, AllocError> {
        let names = self.name_list()?;
        self.typed(names, constant)
    }

    /// An integer type (3.5.4).
    fn range_type(&mut self) -> Result<TypeForm, AllocError> {
        let low = self.expression()?;
        let high = self.expression()?;
        Ok(TypeForm::Range(low, high))
    }

    /// An array type (3.6).
    fn array_type(&mut self) -> Result<TypeForm, AllocError> {
        let mut indices = Vec::new(self.alloc);
        for _ in 0..self.few() {
            let index = if self.one_in(2) {
                ArrayIndex::Open(self.mark()?)
            } else {
                ArrayIndex::Constrained(self.choice()?)
            };
            indices.push(index)?;
        }
        let component = self.subtype()?;
        Ok(TypeForm::Array(indices, component))
    }

    /// A record type (3.8).
    fn record_type(&mut self) -> Result<TypeForm, AllocError> {
        let mut components = Vec::new(self.alloc);
        for _ in 0..self.few() {
            let variables = self.variables(false)?;
            components.push(variables)?;
        }
        Ok(TypeForm::Record(components))
    }

    /// What a type is that isn't a generic formal one (3.2.1).
    fn type_form(&mut self) -> Result<TypeForm, AllocError> {
        match self.draw(6) {
            0 => self.range_type(),
            1 => Ok(TypeForm::Modular(self.expression()?)),
            2 => Ok(TypeForm::Enumeration(self.name_list()?)),
            3 => self.array_type(),
            4 => self.record_type(),
            _ => Ok(TypeForm::Derived(self.subtype()?)),
        }
    }

    /// A declaration of a type.
    fn type_declaration(&mut self) -> Result<Declaration, AllocError> {
        let name = self.name()?;
        let form = self.type_form()?;
        Ok(Declaration::Type(name, form))
    }

    /// A declaration of a subtype (3.2.2).
    fn subtype_declaration(&mut self) -> Result<Declaration, AllocError> {
        let name = self.name()?;
        let subtype = self.subtype()?;
        Ok(Declaration::Subtype(name, subtype))
    }

    /// A declaration of named numbers (3.3.2).
    fn numbers(&mut self) -> Result<Declaration, AllocError> {
        let names = self.name_list()?;
        let value = self.expression()?;
        Ok(Declaration::Numbers(names, value))
    }

    /// A pragma (2.8).
    pub fn pragma(&mut self) -> Result<Pragma, AllocError> {
        let name = self.name()?;
        let mut arguments = Vec::new(self.alloc);
        if self.one_in(2) {
            arguments = self.associations()?;
        }
        Ok(Pragma { name, arguments })
    }

    /// A declaration that isn't of an operation (3.1).
    pub fn declaration(&mut self) -> Result<Declaration, AllocError> {
        match self.draw(8) {
            0 | 1 => self.type_declaration(),
            2 => self.subtype_declaration(),
            3 => self.numbers(),
            4 => Ok(Declaration::Exceptions(self.name_list()?)),
            5 => Ok(Declaration::Pragma(self.pragma()?)),
            _ => {
                let constant = self.one_in(2);
                Ok(Declaration::Variables(self.variables(constant)?))
            }
        }
    }

    /// Up to two declarations.
    pub fn declarations(&mut self) -> Result<Vec<Declaration>, AllocError> {
        let mut list = Vec::new(self.alloc);
        for _ in 0..self.draw(3) {
            let declaration = self.declaration()?;
            list.push(declaration)?;
        }
        Ok(list)
    }
}
