// SPDX-License-Identifier: MIT
//! Reads protected units and the operations in them (9.4), and operations outside of them.

use crate::lexer::Element;
use crate::reader::{MOST_LEVELS, Reader};
use crate::sign::Sign;
use crate::statements::{before, go_on};
use po_ada_tree::fault::Stop;
use po_ada_tree::reserved::Reserved;
use po_ada_tree::tree::{
    Action, Aspect, Body, Content, Expression, Family, Kind, Mode, Name, Parameters, Part, Profile,
    Protected, ProtectedBody, Sequence, Statement, Subtype, Variables,
};

/// Why a function that is an operator isn't read.
const OPERATOR: &str = "pobj doesn't read functions that are operators (6.6): give it a name";

impl<'a> Reader<'a> {
    /// Reads the word that begins an operation.
    fn kind(&mut self) -> Result<Kind, Stop> {
        if self.takes(Reserved::Not) {
            self.needs(Reserved::Overriding)?;
        } else {
            self.takes(Reserved::Overriding);
        }
        if self.takes(Reserved::Entry) {
            Ok(Kind::Entry)
        } else if self.takes(Reserved::Procedure) {
            Ok(Kind::Procedure)
        } else if self.takes(Reserved::Function) {
            Ok(Kind::Function)
        } else {
            Err(self.expected("'entry', 'procedure' or 'function'"))
        }
    }

    /// Whether the parenthesis that comes next begins a family's index, and not parameters.
    fn sees_family(&self) -> bool {
        self.sees_sign(Sign::LeftParenthesis)
            && !(matches!(self.ahead(1), Element::Name(_))
                && (self.ahead(2) == Element::Sign(Sign::Colon)
                    || self.ahead(2) == Element::Sign(Sign::Comma)))
    }

    /// Reads a family's index (9.5.2).
    fn family(&mut self) -> Result<Family, Stop> {
        self.step();
        let mut name = None;
        if self.takes(Reserved::For) {
            name = Some(self.name("the index of the family")?);
            self.needs(Reserved::In)?;
        }
        let range = self.discrete_range()?;
        self.needs_sign(Sign::RightParenthesis)?;
        Ok(Family { name, range })
    }

    fn mode(&mut self) -> Mode {
        if self.takes(Reserved::In) {
            if self.takes(Reserved::Out) {
                Mode::InOut
            } else {
                Mode::In
            }
        } else if self.takes(Reserved::Out) {
            Mode::Out
        } else {
            Mode::In
        }
    }

    /// Reads parameters with one subtype (6.1).
    fn parameters(&mut self) -> Result<Parameters, Stop> {
        let names = self.name_list("a parameter's name")?;
        self.needs_sign(Sign::Colon)?;
        self.takes(Reserved::Aliased);
        let mode = self.mode();
        let variables = self.typed(names, mode == Mode::In)?;
        Ok(Parameters { mode, variables })
    }

    /// Reads parameters in parentheses, if they come next.
    fn parameter_list(&mut self) -> Result<Vec<Parameters>, Stop> {
        let mut list = Vec::new(self.alloc);
        if !self.takes_sign(Sign::LeftParenthesis) {
            return Ok(list);
        }
        for _ in 0..self.turns() {
            list.push(self.parameters()?)?;
            if !self.takes_sign(Sign::Semicolon) {
                break;
            }
        }
        self.needs_sign(Sign::RightParenthesis)?;
        Ok(list)
    }

    /// Reads the name of an operation. Functions that are operators would change what expressions mean, so they are refused (6.6).
    pub fn operation_name(&mut self) -> Result<Name, Stop> {
        match self.peek() {
            Element::Text(_, _) => {
                let place = self.place();
                Err(self.refuse(place, OPERATOR))
            }
            _ => self.name("the operation's name"),
        }
    }

    /// Reads the head of an operation, up to its aspects.
    fn profile(&mut self) -> Result<Profile, Stop> {
        let kind = self.kind()?;
        let name = self.operation_name()?;
        let mut family = None;
        if kind == Kind::Entry && self.sees_family() {
            family = Some(self.family()?);
        }
        let parameters = self.parameter_list()?;
        let returns = self.returned(kind)?;
        let aspects = self.aspects()?;
        Ok(Profile {
            kind,
            name,
            family,
            parameters,
            returns,
            aspects,
        })
    }

    /// Reads the result's subtype of a function.
    fn returned(&mut self, kind: Kind) -> Result<Option<Subtype>, Stop> {
        if kind != Kind::Function {
            return Ok(None);
        }
        self.needs(Reserved::Return)?;
        Ok(Some(self.subtype()?))
    }

    /// Reads the barrier of an entry's body (9.5.2).
    fn barrier(&mut self, kind: Kind) -> Result<Option<Expression>, Stop> {
        if kind != Kind::Entry {
            return Ok(None);
        }
        self.needs(Reserved::When)?;
        Ok(Some(self.expression(MOST_LEVELS)?))
    }

    /// Statements that are `null` alone.
    fn null_sequence(&self, place: usize) -> Result<Sequence, Stop> {
        let mut statements = Vec::new(self.alloc);
        statements.push(Statement {
            place,
            action: Action::Null,
        })?;
        Ok(Sequence {
            statements,
            handlers: Vec::new(self.alloc),
        })
    }

    /// Adds the aspects that come after `is null` or after the expression of a function, and reads the semicolon (6.7, 6.8).
    fn later_aspects(&mut self, aspects: &mut Vec<Aspect>) -> Result<(), Stop> {
        for aspect in self.aspects()? {
            aspects.push(aspect)?;
        }
        self.semicolon()
    }

    /// Tells a fault if the operation whose body is `null` isn't a procedure (6.7).
    fn needs_procedure(&mut self, kind: Kind, place: usize) -> Result<(), Stop> {
        if kind == Kind::Procedure {
            return Ok(());
        }
        go_on(self.refuse(
            place,
            "only a procedure's body is 'null': write 'begin', statements and 'end' (6.7)",
        ))
    }

    /// Reads what comes after the head of a body, up to its semicolon. Aspects that come late are added to the others.
    fn content(
        &mut self,
        kind: Kind,
        name: Name,
        aspects: &mut Vec<Aspect>,
    ) -> Result<Content, Stop> {
        if self.takes_sign(Sign::Semicolon) {
            return Ok(Content::Declared);
        }
        self.needs(Reserved::Is)?;
        let place = self.place();
        if self.takes(Reserved::Null) {
            self.needs_procedure(kind, place)?;
            self.later_aspects(aspects)?;
            return Ok(Content::Statements(Vec::new(self.alloc), self.null_sequence(place)?));
        }
        if self.sees_sign(Sign::LeftParenthesis) || self.sees_sign(Sign::LeftBracket) {
            let value = self.expression(MOST_LEVELS)?;
            self.later_aspects(aspects)?;
            return Ok(Content::Value(value));
        }
        let declarations = self.declarations()?;
        self.inner_unit()?;
        self.needs(Reserved::Begin)?;
        let sequence = self.sequence(MOST_LEVELS)?;
        self.needs(Reserved::End)?;
        if !self.sees_sign(Sign::Semicolon) {
            self.closing_name(name, "the operation's name or ';'")?;
        }
        self.semicolon()?;
        Ok(Content::Statements(declarations, sequence))
    }

    /// Refuses a subprogram or a package in an operation.
    fn inner_unit(&mut self) -> Result<(), Stop> {
        if self.sees(Reserved::Procedure)
            || self.sees(Reserved::Function)
            || self.sees(Reserved::Package)
        {
            let place = self.place();
            return Err(self.refuse(
                place,
                "a subprogram in an operation isn't in this subset: declare it in the protected body (6.3)",
            ));
        }
        Ok(())
    }

    /// Reads the body of an operation.
    pub fn body(&mut self) -> Result<Body, Stop> {
        let mut profile = self.profile()?;
        let barrier = self.barrier(profile.kind)?;
        let content = self.content(profile.kind, profile.name, &mut profile.aspects)?;
        Ok(Body {
            profile,
            barrier,
            content,
        })
    }

    /// Whether an operation comes next.
    pub fn sees_operation(&self) -> bool {
        self.sees(Reserved::Entry)
            || self.sees(Reserved::Procedure)
            || self.sees(Reserved::Function)
            || self.sees(Reserved::Overriding)
            || self.sees(Reserved::Not)
    }

    /// Reads a protected unit's declaration after `protected` (9.4).
    pub fn protected(&mut self) -> Result<Protected, Stop> {
        let is_type = self.takes(Reserved::TypeWord);
        let name = self.name("the name of the protected unit")?;
        let discriminants = self.discriminants()?;
        self.ignored_aspects()?;
        self.needs(Reserved::Is)?;
        self.interfaces()?;
        let public = self.parts()?;
        let mut private = Vec::new(self.alloc);
        if self.takes(Reserved::Private) {
            private = self.parts()?;
        }
        self.needs(Reserved::End)?;
        if !self.sees_sign(Sign::Semicolon) {
            self.closing_name(name, "the name of the protected unit or ';'")?;
        }
        self.semicolon()?;
        Ok(Protected {
            name,
            is_type,
            discriminants,
            public,
            private,
        })
    }

    /// Passes over the interfaces that a protected unit implements, if it names any: they change no action of its object (9.4).
    fn interfaces(&mut self) -> Result<(), Stop> {
        if self.takes(Reserved::New) {
            self.skip_to(Reserved::With);
            self.needs(Reserved::With)?;
        }
        Ok(())
    }

    /// Reads discriminants in parentheses, if they come next (3.7).
    fn discriminants(&mut self) -> Result<Vec<Variables>, Stop> {
        let mut list = Vec::new(self.alloc);
        let place = self.place();
        for parameters in self.parameter_list()? {
            if parameters.mode != Mode::In {
                return Err(self.refuse(place, "a discriminant has no mode (3.7)"));
            }
            list.push(parameters.variables)?;
        }
        Ok(list)
    }

    /// Reads operations and components. After a fault, goes on after the next semicolon.
    fn parts(&mut self) -> Result<Vec<Part>, Stop> {
        let mut list = Vec::new(self.alloc);
        for _ in 0..self.turns() {
            if !self.sees_operation() && !self.begins_declaration() {
                break;
            }
            match self.part() {
                Ok(Some(part)) => list.push(part)?,
                Ok(None) => {}
                Err(stop) => {
                    go_on(stop)?;
                    self.skip_semicolon();
                }
            }
        }
        Ok(list)
    }

    /// Reads an operation or a declaration; none if it changes no meaning.
    fn part(&mut self) -> Result<Option<Part>, Stop> {
        if !self.sees_operation() {
            return Ok(self.declaration()?.map(Part::Declaration));
        }
        let profile = self.profile()?;
        before(Some(Part::Operation(profile)), self.semicolon())
    }

    /// Reads a protected unit's body after `protected body` (9.4).
    pub fn protected_body(&mut self) -> Result<ProtectedBody, Stop> {
        let name = self.name("the name of the protected unit")?;
        self.ignored_aspects()?;
        self.needs(Reserved::Is)?;
        if self.sees(Reserved::Separate) {
            let place = self.place();
            return Err(self.refuse(
                place,
                "the body is in another file, which isn't read (10.1.3): write it here",
            ));
        }
        let mut bodies = Vec::new(self.alloc);
        for _ in 0..self.turns() {
            if self.takes(Reserved::Pragma) {
                self.skip_semicolon();
            } else if self.sees_operation() {
                self.body_or_fault(&mut bodies)?;
            } else {
                break;
            }
        }
        if !self.takes(Reserved::End) {
            return Err(self.expected("the body of an entry, a procedure or a function, or 'end'"));
        }
        if !self.sees_sign(Sign::Semicolon) {
            self.closing_name(name, "the name of the protected unit or ';'")?;
        }
        self.semicolon()?;
        Ok(ProtectedBody { name, bodies })
    }

    /// Reads a body. After a fault, goes on at the next one.
    fn body_or_fault(&mut self, bodies: &mut Vec<Body>) -> Result<(), Stop> {
        match self.body() {
            Ok(body) => bodies.push(body)?,
            Err(stop) => {
                go_on(stop)?;
                self.skip_to_operation();
            }
        }
        Ok(())
    }

    /// Goes on to the next operation or protected unit.
    fn skip_to_operation(&mut self) {
        for _ in 0..self.turns() {
            if self.sees_operation() && !self.sees(Reserved::Not)
                || self.sees(Reserved::Protected)
                || self.sees(Reserved::Package)
                || self.peek() == Element::End
            {
                break;
            }
            self.step();
        }
    }
}
