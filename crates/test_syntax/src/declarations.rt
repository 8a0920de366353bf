// SPDX-License-Identifier: MIT
//! Writes declarations (3.1).

use crate::precedence::{LOGICAL, PRIMARY, SUM};
use crate::printer::Printer;
use po_ada_tree::tree::{
    ArrayIndex, Choice, Constraint, Declaration, Name, Pragma, Subtype, TypeForm, Variables,
};
use std::alloc::AllocError;

impl<'a> Printer<'a> {
    /// Writes a subtype (3.2.2).
    pub fn subtype(&mut self, subtype: &'a Subtype) -> Result<(), AllocError> {
        self.expression(&subtype.mark, PRIMARY)?;
        match &subtype.constraint {
            Constraint::Absent => Ok(()),
            Constraint::Range(range) => {
                self.put(" range ")?;
                self.range(range)
            }
            Constraint::Index(ranges) => self.ranges(ranges),
        }
    }

    /// Writes discrete ranges in parentheses (3.6.1).
    fn ranges(&mut self, ranges: &'a Vec<Choice>) -> Result<(), AllocError> {
        let mut before = " (";
        for range in ranges.iter() {
            self.put(before)?;
            self.range(range)?;
            before = ", ";
        }
        self.put(")")
    }

    /// Writes `A, B : T := V`, with a word before the subtype.
    pub fn variables(&mut self, variables: &'a Variables, word: &'a str) -> Result<(), AllocError> {
        self.name_list(variables.names.as_slice())?;
        self.put(" : ")?;
        self.put(word)?;
        self.subtype(&variables.subtype)?;
        self.optional(" := ", &variables.value, LOGICAL)
    }

    /// Writes variables or constants.
    pub fn objects(&mut self, variables: &'a Variables) -> Result<(), AllocError> {
        let word = if variables.constant { "constant " } else { "" };
        self.variables(variables, word)
    }

    /// Writes an array type (3.6).
    fn array_type(
        &mut self,
        indices: &'a Vec<ArrayIndex>,
        component: &'a Subtype,
    ) -> Result<(), AllocError> {
        let mut before = "array (";
        for index in indices.iter() {
            self.put(before)?;
            self.index(index)?;
            before = ", ";
        }
        self.put(") of ")?;
        self.subtype(component)
    }

    /// Writes an index of an array type (3.6).
    fn index(&mut self, index: &'a ArrayIndex) -> Result<(), AllocError> {
        match index {
            ArrayIndex::Constrained(range) => self.range(range),
            ArrayIndex::Open(mark) => {
                self.expression(mark, PRIMARY)?;
                self.put(" range <>")
            }
        }
    }

    /// Writes a record type (3.8).
    fn record_type(&mut self, components: &'a Vec<Variables>) -> Result<(), AllocError> {
        self.put("record ")?;
        for variables in components.iter() {
            self.variables(variables, "")?;
            self.put("; ")?;
        }
        self.put("end record")
    }

    /// Writes an enumeration type (3.5.1).
    fn enumeration(&mut self, literals: &'a Vec<Name>) -> Result<(), AllocError> {
        self.put("(")?;
        self.name_list(literals.as_slice())?;
        self.put(")")
    }

    /// Writes what a type is (3.2.1).
    fn type_form(&mut self, form: &'a TypeForm) -> Result<(), AllocError> {
        match form {
            TypeForm::Range(low, high) => {
                self.after("range ", low, SUM)?;
                self.after(" .. ", high, SUM)
            }
            TypeForm::Modular(modulus) => self.after("mod ", modulus, LOGICAL),
            TypeForm::Enumeration(literals) => self.enumeration(literals),
            TypeForm::Array(indices, component) => self.array_type(indices, component),
            TypeForm::Record(components) => self.record_type(components),
            TypeForm::Derived(parent) => {
                self.put("new ")?;
                self.subtype(parent)
            }
            TypeForm::Formal => self.put("private"),
        }
    }

    /// Writes a pragma, up to its semicolon (2.8).
    pub fn pragma(&mut self, pragma: &'a Pragma) -> Result<(), AllocError> {
        self.put("pragma ")?;
        self.name(pragma.name)?;
        self.arguments(&pragma.arguments)
    }

    /// Writes words, a name and `is`.
    pub fn heading(&mut self, words: &'a str, name: Name) -> Result<(), AllocError> {
        self.put(words)?;
        self.name(name)?;
        self.put(" is ")
    }

    /// Writes a declaration that isn't of an operation (3.1).
    pub fn declaration(&mut self, declaration: &'a Declaration) -> Result<(), AllocError> {
        match declaration {
            Declaration::Type(name, form) => {
                self.heading("type ", *name)?;
                self.type_form(form)?;
            }
            Declaration::Subtype(name, subtype) => {
                self.heading("subtype ", *name)?;
                self.subtype(subtype)?;
            }
            Declaration::Variables(variables) => self.objects(variables)?,
            Declaration::Numbers(names, value) => {
                self.name_list(names.as_slice())?;
                self.after(" : constant := ", value, LOGICAL)?;
            }
            Declaration::Exceptions(names) => {
                self.name_list(names.as_slice())?;
                self.put(" : exception")?;
            }
            Declaration::Pragma(pragma) => self.pragma(pragma)?,
        }
        self.put(";\n")
    }

    /// Writes declarations.
    pub fn declarations(&mut self, list: &'a Vec<Declaration>) -> Result<(), AllocError> {
        for declaration in list.iter() {
            self.declaration(declaration)?;
        }
        Ok(())
    }
}
