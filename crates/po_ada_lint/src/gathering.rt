// SPDX-License-Identifier: MIT
//! Gathers what is known of a text: first what is outside of the protected unit, then the unit, then its bodies.

use crate::entities::{Operation, Origin, Sort};
use crate::uses::{Facts, How, Part};
use crate::walker::{Task, Walker};
use po_ada_tree::Text;
use po_ada_tree::tree::{
    Body, Content, Expression, Item, Kind, Mode, Name, Part as UnitPart, Profile, Protected,
    ProtectedBody,
};
use std::alloc::{AllocError, Global};

/// What is known of a text, of whose protected units this one is wanted.
pub fn gather<'a>(alloc: Global, text: &'a Text, wanted: Name) -> Result<Facts<'a>, AllocError> {
    let mut walker = Walker::new(alloc, &text.names);
    walker.predefine_all()?;
    walker.outside(&text.items)?;
    walker.keep_meanings()?;
    walker.outer_bodies(&text.items, wanted)?;
    walker.units(&text.items, wanted)?;
    walker.keep_meanings()?;
    walker.bodies(&text.items, wanted)?;
    let Walker { facts, .. } = walker;
    Ok(facts)
}

impl<'a> Walker<'a> {
    /// What the text declares outside of protected units.
    fn outside(&mut self, items: &'a Vec<Item>) -> Result<(), AllocError> {
        for item in items {
            self.outer_item(item)?;
            self.run()?;
        }
        Ok(())
    }

    fn outer_item(&mut self, item: &'a Item) -> Result<(), AllocError> {
        match item {
            Item::Package(name) => {
                self.define_name(*name, Sort::Package)?;
            }
            Item::Protected(unit) => {
                self.define_name(unit.name, Sort::Package)?;
            }
            Item::Declaration(declaration) => self.next.push(Task::Declaration(declaration))?,
            Item::Operation(body) => self.declare(&body.profile, Origin::Outer)?,
            Item::Unread(_) => self.facts.has_unread = true,
            Item::ProtectedBody(_) => {}
        }
        Ok(())
    }

    /// The number of the operation of this name that is, or isn't, outside of the protected unit.
    fn operation_of(&self, name: Name, is_outer: bool) -> Option<usize> {
        match self.sort_of(self.look_up(name.number)) {
            Some(Sort::Operation(number)) => {
                let found = self.facts.operation(number)?;
                if (found.origin == Origin::Outer) == is_outer {
                    Some(number)
                } else {
                    None
                }
            }
            _ => None,
        }
    }

    /// Declares an operation, unless it is declared already.
    fn declare(&mut self, profile: &'a Profile, origin: Origin) -> Result<(), AllocError> {
        if self
            .operation_of(profile.name, origin == Origin::Outer)
            .is_some()
        {
            return Ok(());
        }
        let number = self.facts.operations.len();
        let entity = self.define_name(profile.name, Sort::Operation(number))?;
        self.facts.operations.push(Operation {
            entity,
            profile,
            origin,
            barrier: None,
            index: None,
        })?;
        self.defaults_and_aspects(profile)
    }

    /// Visits the expressions in the declaration of an operation.
    fn defaults_and_aspects(&mut self, profile: &'a Profile) -> Result<(), AllocError> {
        for group in profile.parameters.iter() {
            self.read_optional(&group.variables.value)?;
        }
        for aspect in profile.aspects.iter() {
            self.read_optional(&aspect.value)?;
        }
        self.run()
    }

    /// Visits the bodies outside of the protected unit.
    fn outer_bodies(&mut self, items: &'a Vec<Item>, wanted: Name) -> Result<(), AllocError> {
        for item in items {
            match item {
                Item::Operation(body) => self.body(
                    body,
                    self.operation_of(body.profile.name, true),
                )?,
                Item::ProtectedBody(unit) if unit.name.number != wanted.number => self.other_unit(
                    unit,
                )?,
                _ => {}
            }
        }
        Ok(())
    }

    /// Visits the bodies of another protected unit.
    fn other_unit(&mut self, unit: &'a ProtectedBody) -> Result<(), AllocError> {
        for body in unit.bodies.iter() {
            self.body(body, None)?;
        }
        Ok(())
    }

    /// What the protected unit declares (9.4).
    fn units(&mut self, items: &'a Vec<Item>, wanted: Name) -> Result<(), AllocError> {
        self.part = Part::Elsewhere;
        self.variable_sort = Sort::Data;
        for item in items {
            match item {
                Item::Protected(unit) if unit.name.number == wanted.number => self.unit(unit)?,
                Item::ProtectedBody(unit) if unit.name.number == wanted.number => self.own_bodies(
                    unit,
                )?,
                _ => {}
            }
        }
        Ok(())
    }

    fn unit(&mut self, unit: &'a Protected) -> Result<(), AllocError> {
        for discriminants in unit.discriminants.iter() {
            self.variables(discriminants, Sort::Value)?;
        }
        self.run()?;
        self.unit_parts(&unit.public, Origin::Public)?;
        self.unit_parts(&unit.private, Origin::Private)
    }

    fn unit_parts(&mut self, parts: &'a Vec<UnitPart>, origin: Origin) -> Result<(), AllocError> {
        for part in parts {
            match part {
                UnitPart::Operation(profile) => self.declare(profile, origin)?,
                UnitPart::Declaration(declaration) => {
                    self.next.push(Task::Declaration(declaration))?;
                    self.run()?;
                }
            }
        }
        Ok(())
    }

    /// Operations that the body alone declares are private.
    fn own_bodies(&mut self, unit: &'a ProtectedBody) -> Result<(), AllocError> {
        for body in unit.bodies.iter() {
            self.declare(&body.profile, Origin::Private)?;
        }
        Ok(())
    }

    /// Visits the bodies of the protected unit.
    fn bodies(&mut self, items: &'a Vec<Item>, wanted: Name) -> Result<(), AllocError> {
        for item in items {
            match item {
                Item::ProtectedBody(unit) if unit.name.number == wanted.number => self.unit_bodies(
                    unit,
                )?,
                _ => {}
            }
        }
        Ok(())
    }

    fn unit_bodies(&mut self, unit: &'a ProtectedBody) -> Result<(), AllocError> {
        for body in unit.bodies.iter() {
            self.body(body, self.operation_of(body.profile.name, false))?;
        }
        Ok(())
    }

    /// Visits the body of an operation; of another unit's nothing is told.
    fn body(&mut self, body: &'a Body, operation: Option<usize>) -> Result<(), AllocError> {
        let mark = self.mark();
        self.variable_sort = match operation {
            Some(_) => Sort::Local,
            None => Sort::Untold,
        };
        self.family(&body.profile, operation)?;
        if let Some(barrier) = &body.barrier {
            self.barrier(barrier, operation)?;
        }
        self.part = match operation {
            Some(number) => Part::Body(number),
            None => Part::Elsewhere,
        };
        self.parameters(&body.profile)?;
        self.content(body, operation)?;
        self.leave(mark);
        Ok(())
    }

    /// The index of an entry family gets its meaning (9.5.2).
    fn family(&mut self, profile: &'a Profile, operation: Option<usize>) -> Result<(), AllocError> {
        let Some(family) = &profile.family else {
            return Ok(());
        };
        let Some(name) = family.name else {
            return Ok(());
        };
        self.define_name(name, Sort::Value)?;
        if let Some(found) = self
            .facts
            .operations
            .get_mut(operation.unwrap_or(usize::MAX))
        {
            found.index = Some(name);
        }
        Ok(())
    }

    /// Visits the barrier of an entry.
    fn barrier(
        &mut self,
        barrier: &'a Expression,
        operation: Option<usize>,
    ) -> Result<(), AllocError> {
        self.part = Part::Elsewhere;
        if let Some(number) = operation {
            self.part = Part::Barrier(number);
            if let Some(found) = self.facts.operations.get_mut(number) {
                found.barrier = Some(barrier);
            }
        }
        self.visit(barrier, How::Read)?;
        self.run()
    }

    /// Parameters get their meaning (6.1).
    fn parameters(&mut self, profile: &'a Profile) -> Result<(), AllocError> {
        for group in profile.parameters.iter() {
            let sort = match group.mode {
                Mode::In => Sort::Value,
                _ => Sort::Untold,
            };
            for name in group.variables.names.iter() {
                self.define_name(*name, sort)?;
            }
        }
        Ok(())
    }

    /// Visits what a body does. The end of a function isn't to be reached.
    fn content(&mut self, body: &'a Body, operation: Option<usize>) -> Result<(), AllocError> {
        self.paths.is_reached = true;
        match &body.content {
            Content::Declared => return Ok(()),
            Content::Value(value) => {
                self.paths.end();
                self.read(value)?;
            }
            Content::Statements(declarations, sequence) => {
                self.declarations(declarations)?;
                self.sequence(sequence)?;
            }
        }
        self.run()?;
        match operation {
            Some(number) if self.paths.is_reached && body.profile.kind == Kind::Function => self
                .facts
                .open_ends
                .push(number)?,
            _ => {}
        }
        Ok(())
    }
}
