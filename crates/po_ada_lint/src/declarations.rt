// SPDX-License-Identifier: MIT
//! Visits declarations (3.1). Names get their meaning after the expressions in their declaration.

use crate::entities::{Entity, Sort};
use crate::uses::How;
use crate::walker::{Task, Walker};
use po_ada_tree::tree::{
    ArrayIndex, Choice, Constraint, Declaration, Expression, Form, Name, Subtype, TypeForm,
    Variables,
};
use std::alloc::AllocError;

/// The scalar types of package Standard that the subset has (A.1).
const PREDEFINED: [&str; 10] = [
    "boolean",
    "integer",
    "natural",
    "positive",
    "character",
    "short_integer",
    "long_integer",
    "long_long_integer",
    "priority",
    "duration",
];

impl<'a> Walker<'a> {
    /// Declares a predefined name, if the text has it.
    fn predefine(&mut self, text: &str, sort: Sort) -> Result<(), AllocError> {
        if let Some(number) = self.names.find(text) {
            self.define_name(Name { number, place: 0 }, sort)?;
        }
        Ok(())
    }

    /// Declares the predefined names that the text has.
    pub fn predefine_all(&mut self) -> Result<(), AllocError> {
        for text in PREDEFINED.iter() {
            self.predefine(*text, Sort::Scalar)?;
        }
        self.predefine("false", Sort::Value)?;
        self.predefine("true", Sort::Value)
    }

    /// Visits declarations in their order.
    pub fn declarations(&mut self, list: &'a Vec<Declaration>) -> Result<(), AllocError> {
        for declaration in list {
            self.next.push(Task::Declaration(declaration))?;
        }
        Ok(())
    }

    /// Visits a declaration.
    pub fn declaration(&mut self, declaration: &'a Declaration) -> Result<(), AllocError> {
        match declaration {
            Declaration::Type(name, form) => self.type_declaration(*name, form),
            Declaration::Subtype(name, subtype) => {
                self.constraint(subtype)?;
                self.define_name(*name, self.sort_of_mark(&subtype.mark))?;
                Ok(())
            }
            Declaration::Variables(variables) => self.variables(variables, self.variable_sort),
            Declaration::Numbers(names, value) => {
                self.read(value)?;
                self.define_names(names, Sort::Value)
            }
            Declaration::Exceptions(names) => self.define_names(names, Sort::Exception),
            Declaration::Pragma(pragma) => self.associations(&pragma.arguments, How::Mentioned),
        }
    }

    fn define_names(&mut self, names: &'a Vec<Name>, sort: Sort) -> Result<(), AllocError> {
        for name in names {
            self.define_name(*name, sort)?;
        }
        Ok(())
    }

    /// Visits a declaration of variables or constants (3.3.1).
    pub fn variables(&mut self, variables: &'a Variables, sort: Sort) -> Result<(), AllocError> {
        let sort = if variables.constant {
            Sort::Value
        } else {
            sort
        };
        self.constraint(&variables.subtype)?;
        self.read_optional(&variables.value)?;
        self.next.push(Task::Variables(variables, sort))?;
        Ok(())
    }

    /// Names of variables get their meaning.
    pub fn define_variables(
        &mut self,
        variables: &'a Variables,
        sort: Sort,
    ) -> Result<(), AllocError> {
        let is_scalar = self.sort_of_mark(&variables.subtype.mark) == Sort::Scalar;
        let loops = self.paths.loops();
        for name in variables.names.iter() {
            self.define(Entity {
                name: *name,
                sort,
                is_bare: is_scalar && variables.value.is_none(),
                loops,
                array: None,
            })?;
        }
        Ok(())
    }

    /// A loop parameter gets its meaning: a value, or a name for the components of an array.
    pub fn define_loop_name(&mut self, name: Name, array: Option<usize>) -> Result<(), AllocError> {
        let loops = self.paths.loops();
        self.define(Entity {
            name,
            sort: Sort::Value,
            is_bare: false,
            loops,
            array,
        })?;
        Ok(())
    }

    /// The array that an expression names a part of, also through another loop parameter.
    pub fn whole_array(&self, expression: &Expression) -> Option<usize> {
        let found = self.variable_of(expression)?;
        match self.facts.entity(found)?.array {
            Some(whole) => Some(whole),
            None => Some(found),
        }
    }

    /// Whether the mark names a scalar type.
    fn sort_of_mark(&self, mark: &Expression) -> Sort {
        let entity = match &mark.form {
            Form::Name(name) => self.look_up(*name),
            _ => None,
        };
        match self.sort_of(entity) {
            Some(Sort::Scalar) => Sort::Scalar,
            _ => Sort::Composite,
        }
    }

    /// Visits the constraint of a subtype (3.2.2).
    fn constraint(&mut self, subtype: &'a Subtype) -> Result<(), AllocError> {
        match &subtype.constraint {
            Constraint::Absent => Ok(()),
            Constraint::Range(range) => self.one_choice(range),
            Constraint::Index(list) => self.choices(list),
        }
    }

    /// Visits one choice next.
    pub fn one_choice(&mut self, choice: &'a Choice) -> Result<(), AllocError> {
        self.next.push(Task::Choice(choice))?;
        Ok(())
    }

    /// Visits the declaration of a type (3.2.1).
    fn type_declaration(&mut self, name: Name, form: &'a TypeForm) -> Result<(), AllocError> {
        let sort = match form {
            TypeForm::Range(_, _) | TypeForm::Modular(_) | TypeForm::Enumeration(_) => Sort::Scalar,
            TypeForm::Derived(parent) => self.sort_of_mark(&parent.mark),
            _ => Sort::Composite,
        };
        self.define_name(name, sort)?;
        self.type_form(form)
    }

    /// Visits what a type is.
    fn type_form(&mut self, form: &'a TypeForm) -> Result<(), AllocError> {
        match form {
            TypeForm::Range(low, high) => {
                self.read(low)?;
                self.read(high)
            }
            TypeForm::Modular(modulus) => self.read(modulus),
            TypeForm::Enumeration(literals) => self.define_names(literals, Sort::Value),
            TypeForm::Array(indices, element) => self.array_type(indices, element),
            TypeForm::Record(components) => self.record_type(components),
            TypeForm::Derived(parent) => self.constraint(parent),
            TypeForm::Formal => Ok(()),
        }
    }

    fn array_type(
        &mut self,
        indices: &'a Vec<ArrayIndex>,
        element: &'a Subtype,
    ) -> Result<(), AllocError> {
        for index in indices {
            if let ArrayIndex::Constrained(range) = index {
                self.one_choice(range)?;
            }
        }
        self.constraint(element)
    }

    fn record_type(&mut self, components: &'a Vec<Variables>) -> Result<(), AllocError> {
        for component in components {
            self.constraint(&component.subtype)?;
            self.read_optional(&component.value)?;
        }
        Ok(())
    }
}
