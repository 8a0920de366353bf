// SPDX-License-Identifier: MIT
//! Makes random protected units, the operations in them, and whole texts (9.4).

use crate::maker::Maker;
use po_ada_samples::Lot;
use po_ada_tree::Text;
use po_ada_tree::tree::{
    Aspect, Body, Content, Declaration, Expression, Family, Item, Kind, Mode, Parameters, Part,
    Profile, Protected, ProtectedBody, Subtype, TypeForm, Unread, Variables,
};
use std::alloc::{AllocError, Global};

/// A random tree, and the bytes in which its strings stand.
#[derive(Drop)]
pub struct Made {
    pub text: Text,
    pub bytes: Vec<u8>,
}

impl Maker {
    /// An entry's index (9.5.2).
    fn family(&mut self, kind: Kind) -> Result<Option<Family>, AllocError> {
        if kind != Kind::Entry || self.one_in(2) {
            return Ok(None);
        }
        let name = self.optional_name()?;
        let range = self.choice()?;
        Ok(Some(Family { name, range }))
    }

    /// Parameters with one subtype (6.1).
    fn parameters(&mut self) -> Result<Parameters, AllocError> {
        let mode = match self.draw(3) {
            0 => Mode::In,
            1 => Mode::Out,
            _ => Mode::InOut,
        };
        let variables = self.variables(mode == Mode::In)?;
        Ok(Parameters { mode, variables })
    }

    /// The parameters of an operation, if it has any.
    fn parameter_list(&mut self) -> Result<Vec<Parameters>, AllocError> {
        let mut list = Vec::new(self.alloc);
        for _ in 0..self.draw(3) {
            let parameters = self.parameters()?;
            list.push(parameters)?;
        }
        Ok(list)
    }

    /// A function's result.
    fn returned(&mut self, kind: Kind) -> Result<Option<Subtype>, AllocError> {
        if kind != Kind::Function {
            return Ok(None);
        }
        Ok(Some(self.subtype()?))
    }

    /// Up to two aspects (13.1.1).
    fn aspects(&mut self) -> Result<Vec<Aspect>, AllocError> {
        let mut list = Vec::new(self.alloc);
        for _ in 0..self.draw(6).saturating_sub(3) {
            let name = self.name()?;
            let value = self.optional_expression()?;
            list.push(Aspect { name, value })?;
        }
        Ok(list)
    }

    /// The head of an operation (9.4).
    fn profile(&mut self, kind: Kind) -> Result<Profile, AllocError> {
        let name = self.name()?;
        let family = self.family(kind)?;
        let parameters = self.parameter_list()?;
        let returns = self.returned(kind)?;
        let aspects = self.aspects()?;
        Ok(Profile {
            kind,
            name,
            family,
            parameters,
            returns,
            aspects,
        })
    }

    /// What a body does.
    fn content(&mut self, kind: Kind) -> Result<Content, AllocError> {
        if self.one_in(5) {
            return Ok(Content::Declared);
        }
        if kind == Kind::Function && self.one_in(2) {
            return Ok(Content::Value(self.expression()?));
        }
        let declarations = self.declarations()?;
        let sequence = self.body_sequence()?;
        Ok(Content::Statements(declarations, sequence))
    }

    /// An entry's barrier (9.5.2).
    fn barrier(&mut self, kind: Kind) -> Result<Option<Expression>, AllocError> {
        if kind != Kind::Entry {
            return Ok(None);
        }
        Ok(Some(self.expression()?))
    }

    /// A body.
    fn body(&mut self, kind: Kind) -> Result<Body, AllocError> {
        let profile = self.profile(kind)?;
        let barrier = self.barrier(kind)?;
        let content = self.content(kind)?;
        Ok(Body {
            profile,
            barrier,
            content,
        })
    }

    /// A procedure or a function.
    fn subprogram_kind(&mut self) -> Kind {
        if self.one_in(2) {
            Kind::Procedure
        } else {
            Kind::Function
        }
    }

    /// An entry, a procedure or a function.
    fn kind(&mut self) -> Kind {
        if self.one_in(2) {
            Kind::Entry
        } else {
            self.subprogram_kind()
        }
    }

    /// Up to two operations or components.
    fn parts(&mut self) -> Result<Vec<Part>, AllocError> {
        let mut list = Vec::new(self.alloc);
        for _ in 0..self.draw(3) {
            let part = if self.one_in(2) {
                let kind = self.kind();
                Part::Operation(self.profile(kind)?)
            } else {
                Part::Declaration(self.declaration()?)
            };
            list.push(part)?;
        }
        Ok(list)
    }

    /// Discriminants, if there are any (3.7).
    fn discriminants(&mut self) -> Result<Vec<Variables>, AllocError> {
        let mut list = Vec::new(self.alloc);
        for _ in 0..self.draw(3) {
            let variables = self.variables(true)?;
            list.push(variables)?;
        }
        Ok(list)
    }

    /// The declaration of a protected type or object (9.4).
    fn protected(&mut self) -> Result<Item, AllocError> {
        let name = self.name()?;
        let is_type = self.one_in(2);
        let discriminants = self.discriminants()?;
        let public = self.parts()?;
        let private = self.parts()?;
        Ok(Item::Protected(Protected {
            name,
            is_type,
            discriminants,
            public,
            private,
        }))
    }

    /// The body of a protected type or object (9.4).
    fn protected_body(&mut self) -> Result<Item, AllocError> {
        let name = self.name()?;
        let mut bodies = Vec::new(self.alloc);
        for _ in 0..self.draw(3) {
            let kind = self.kind();
            let body = self.body(kind)?;
            bodies.push(body)?;
        }
        Ok(Item::ProtectedBody(ProtectedBody { name, bodies }))
    }

    /// A declaration outside of protected units: also of a generic formal type (12.5).
    fn outer_declaration(&mut self) -> Result<Item, AllocError> {
        if self.one_in(6) {
            let name = self.name()?;
            return Ok(Item::Declaration(Declaration::Type(name, TypeForm::Formal)));
        }
        Ok(Item::Declaration(self.declaration()?))
    }

    /// An item of a text.
    fn item(&mut self) -> Result<Item, AllocError> {
        match self.draw(12) {
            0 => Ok(Item::Package(self.name()?)),
            1 => {
                let name = self.name()?;
                Ok(Item::Unread(Unread { name, fault: None }))
            }
            2 | 3 => self.outer_declaration(),
            4 | 5 => {
                let kind = self.subprogram_kind();
                Ok(Item::Operation(self.body(kind)?))
            }
            6 | 7 | 8 => self.protected(),
            _ => self.protected_body(),
        }
    }

    /// One to three items.
    fn items(&mut self) -> Result<Vec<Item>, AllocError> {
        let mut list = Vec::new(self.alloc);
        for _ in 0..self.few() {
            let item = self.item()?;
            list.push(item)?;
        }
        Ok(list)
    }
}

/// Makes a random tree of a text.
pub fn random_tree(alloc: Global, lot: &mut Lot) -> Result<Made, AllocError> {
    let mut maker = Maker::new(alloc, *lot)?;
    let items = maker.items()?;
    *lot = maker.lot;
    let Maker { names, bytes, .. } = maker;
    Ok(Made {
        text: Text { items, names },
        bytes,
    })
}
