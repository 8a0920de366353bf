// SPDX-License-Identifier: MIT
//! Writes protected units, the operations in them, and whole texts (9.4).

use crate::precedence::LOGICAL;
use crate::printer::{Piece, Printer};
use po_ada_tree::Text;
use po_ada_tree::tree::{
    Aspect, Body, Content, Family, Item, Kind, Mode, Name, Parameters, Part, Profile, Protected,
    ProtectedBody, Variables,
};
use std::alloc::{AllocError, Global};

/// The word that begins an operation.
fn kind_text(kind: Kind) -> &'static str {
    match kind {
        Kind::Entry => "entry ",
        Kind::Procedure => "procedure ",
        Kind::Function => "function ",
    }
}

/// The words of a mode.
fn mode_text(mode: Mode) -> &'static str {
    match mode {
        Mode::In => "in ",
        Mode::Out => "out ",
        Mode::InOut => "in out ",
    }
}

impl<'a> Printer<'a> {
    /// Writes an entry's index (9.5.2).
    fn family(&mut self, family: &'a Family) -> Result<(), AllocError> {
        self.put(" (")?;
        if let Some(name) = &family.name {
            self.put("for ")?;
            self.name(*name)?;
            self.put(" in ")?;
        }
        self.range(&family.range)?;
        self.put(")")
    }

    /// Writes parameters in parentheses, if there are any (6.1).
    fn parameters(&mut self, list: &'a Vec<Parameters>) -> Result<(), AllocError> {
        let mut before = " (";
        for parameters in list.iter() {
            self.put(before)?;
            self.variables(&parameters.variables, mode_text(parameters.mode))?;
            before = "; ";
        }
        self.put(if list.is_empty() { "" } else { ")" })
    }

    /// Writes discriminants in parentheses, if there are any (3.7).
    fn discriminants(&mut self, list: &'a Vec<Variables>) -> Result<(), AllocError> {
        let mut before = " (";
        for variables in list.iter() {
            self.put(before)?;
            self.variables(variables, if variables.constant { "" } else { "out " })?;
            before = "; ";
        }
        self.put(if list.is_empty() { "" } else { ")" })
    }

    /// Writes aspects (13.1.1).
    fn aspects(&mut self, aspects: &'a Vec<Aspect>) -> Result<(), AllocError> {
        let mut before = " with ";
        for aspect in aspects.iter() {
            self.put(before)?;
            self.name(aspect.name)?;
            self.optional(" => ", &aspect.value, LOGICAL)?;
            before = ", ";
        }
        Ok(())
    }

    /// Writes the head of an operation (9.4).
    fn profile(&mut self, profile: &'a Profile) -> Result<(), AllocError> {
        self.put(kind_text(profile.kind))?;
        self.name(profile.name)?;
        if let Some(family) = &profile.family {
            self.family(family)?;
        }
        self.parameters(&profile.parameters)?;
        if let Some(subtype) = &profile.returns {
            self.put(" return ")?;
            self.subtype(subtype)?;
        }
        self.aspects(&profile.aspects)
    }

    /// Writes what a body does.
    fn content(&mut self, name: Name, content: &'a Content) -> Result<(), AllocError> {
        match content {
            Content::Declared => self.put(";\n"),
            Content::Value(value) => {
                self.put(" is (")?;
                self.add(Piece::Enclosed(value))?;
                self.put(");\n")
            }
            Content::Statements(declarations, sequence) => {
                self.put(" is\n")?;
                self.declarations(declarations)?;
                self.put("begin\n")?;
                self.sequence(sequence)?;
                self.end(name)
            }
        }
    }

    /// Writes the body of an operation.
    fn body(&mut self, body: &'a Body) -> Result<(), AllocError> {
        self.profile(&body.profile)?;
        self.optional(" when ", &body.barrier, LOGICAL)?;
        self.content(body.profile.name, &body.content)
    }

    /// Writes operations and components.
    fn parts(&mut self, parts: &'a Vec<Part>) -> Result<(), AllocError> {
        for part in parts.iter() {
            match part {
                Part::Operation(profile) => {
                    self.profile(profile)?;
                    self.put(";\n")?;
                }
                Part::Declaration(declaration) => self.declaration(declaration)?,
            }
        }
        Ok(())
    }

    /// Writes the end of a unit.
    fn end(&mut self, name: Name) -> Result<(), AllocError> {
        self.put("end ")?;
        self.name(name)?;
        self.put(";\n")
    }

    /// Writes the declaration of a protected type or object (9.4).
    fn protected(&mut self, unit: &'a Protected) -> Result<(), AllocError> {
        let word = if unit.is_type {
            "protected type "
        } else {
            "protected "
        };
        self.put(word)?;
        self.name(unit.name)?;
        self.discriminants(&unit.discriminants)?;
        self.put(" is\n")?;
        self.parts(&unit.public)?;
        if !unit.private.is_empty() {
            self.put("private\n")?;
            self.parts(&unit.private)?;
        }
        self.end(unit.name)
    }

    /// Writes the body of a protected type or object (9.4).
    fn protected_body(&mut self, unit: &'a ProtectedBody) -> Result<(), AllocError> {
        self.heading("protected body ", unit.name)?;
        self.put("\n")?;
        for body in unit.bodies.iter() {
            self.body(body)?;
        }
        self.end(unit.name)
    }

    /// Writes what has what isn't in the subset as a subprogram of its name that has that too.
    fn unread(&mut self, name: Name) -> Result<(), AllocError> {
        self.heading("procedure ", name)?;
        self.put("begin\ngoto L;\n")?;
        self.end(name)
    }

    /// Writes an item of a text.
    fn item(&mut self, item: &'a Item) -> Result<(), AllocError> {
        match item {
            Item::Package(name) => {
                self.heading("package ", *name)?;
                self.put("\n")
            }
            Item::Declaration(declaration) => self.declaration(declaration),
            Item::Operation(body) => self.body(body),
            Item::Protected(unit) => self.protected(unit),
            Item::ProtectedBody(unit) => self.protected_body(unit),
            Item::Unread(unread) => self.unread(unread.name),
        }
    }
}

/// The Ada text of a tree, whose strings stand in these bytes.
pub fn printed(alloc: Global, text: &Text, bytes: &[u8]) -> Result<Vec<u8>, AllocError> {
    let mut printer = Printer::new(alloc, &text.names, bytes);
    for item in text.items.iter() {
        printer.item(item)?;
        printer.run()?;
    }
    Ok(printer.into_text())
}
