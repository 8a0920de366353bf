// SPDX-License-Identifier: MIT
//! Reads a text: the declarations before protected units, and the units (9.4).

ghost use Rattle.std.specs.Prelude.{◌≡◌, ◌≤◌, vec_len, OnOk, Err};

use crate::lexer::{Element, Lexed, cut};
use crate::reader::Reader;
use crate::sign::Sign;
use crate::statements::go_on;
use po_ada_tree::fault::{Fault, Faults, Stop};
use po_ada_tree::names::Names;
use po_ada_tree::reserved::Reserved;
use po_ada_tree::tree::{Declaration, Item, Name, Text, Unread};
use std::alloc::{AllocError, Global};

/// A text has at most this many bytes.
pub const MOST_BYTES: usize = 16_777_216;

/// Why the names of an instance of a generic package aren't read.
const INSTANCE: &str = "an instance of a generic package isn't in this subset (12.3)";

/// Why the names of a renamed package aren't read.
const RENAMING: &str =
    "renaming a package isn't in this subset: write the package's own name (8.5.3)";

/// The search for protected units in main programs looks at no more than this many elements for each element of the text.
const MOST_LOOKS: usize = 16;

impl<'a> Reader<'a> {
    /// Reads a text's items. After a fault, goes on at the next item.
    fn items(&mut self) -> Result<Vec<Item>, Stop> {
        let mut list = Vec::new(self.alloc);
        for _ in 0..self.turns() {
            if self.peek() == Element::End {
                break;
            }
            let (start, told) = (self.next, self.faults.len());
            match self.item() {
                Ok(Some(item)) => list.push(item)?,
                Ok(None) => {}
                Err(stop) => {
                    go_on(stop)?;
                    self.leave(start, told, &mut list)?;
                }
            }
        }
        Ok(list)
    }

    /// Goes on after a faulty item, which began with this element and before which this many faults were told.
    fn leave(&mut self, start: usize, told: usize, list: &mut Vec<Item>) -> Result<(), Stop> {
        let faulty = self.next;
        self.next = start;
        if self.begins_outer() {
            self.pass_over(told, list)
        } else {
            self.next = faulty;
            self.skip_semicolon();
            Ok(())
        }
    }

    /// Whether a type, a subtype or an object comes next, which the protected units of the text may do without.
    fn begins_outer(&self) -> bool {
        match (self.peek(), self.ahead(1)) {
            (Element::Reserved(Reserved::TypeWord), _) => true,
            (Element::Reserved(Reserved::Subtype), _) => true,
            (Element::Name(_), Element::Sign(Sign::Colon)) => true,
            (Element::Name(_), Element::Sign(Sign::Comma)) => true,
            _ => false,
        }
    }

    /// Passes over a declaration outside of protected units that has what isn't in the subset: forgets the faults after this many.
    fn pass_over(&mut self, told: usize, list: &mut Vec<Item>) -> Result<(), Stop> {
        if self.sees(Reserved::TypeWord) || self.sees(Reserved::Subtype) {
            self.step();
        }
        let name = self.name("a name")?;
        list.push(self.unread_item(name, told)?)?;
        for _ in 0..self.turns() {
            if !self.takes_sign(Sign::Comma) {
                break;
            }
            let name = self.name("a name")?;
            list.push(self.unread_item(name, told)?)?;
        }
        self.faults.truncate(told);
        self.skip_declaration();
        Ok(())
    }

    /// An item of this name that isn't read, since a fault was told after this many.
    fn unread_item(&self, name: Name, told: usize) -> Result<Item, AllocError> {
        let fault = self.faults.nth(self.alloc, told)?;
        Ok(Item::Unread(Unread { name, fault }))
    }

    /// Reads an item; none if it changes no meaning.
    fn item(&mut self) -> Result<Option<Item>, Stop> {
        match self.peek() {
            Element::Reserved(Reserved::Protected) => Ok(Some(self.protected_item()?)),
            Element::Reserved(Reserved::Package) => self.package(),
            Element::Reserved(Reserved::Generic) => {
                self.step();
                Ok(None)
            }
            Element::Reserved(Reserved::Private) | Element::Reserved(Reserved::Limited) => {
                self.step();
                Ok(None)
            }
            // A body that stands apart from its unit: `separate (PARENT)` comes before it (10.1.3).
            Element::Reserved(Reserved::Separate) => {
                self.skip_parenthesis();
                Ok(None)
            }
            Element::Reserved(Reserved::End) => {
                self.skip_semicolon();
                Ok(None)
            }
            Element::Reserved(Reserved::Begin) => {
                self.skip_program();
                Ok(None)
            }
            Element::Reserved(Reserved::Overriding) | Element::Reserved(Reserved::Not) => {
                self.step();
                Ok(None)
            }
            Element::Reserved(Reserved::Task) => {
                self.skip_task()?;
                Ok(None)
            }
            Element::Reserved(Reserved::TypeWord) => Ok(Some(Item::Declaration(
                self.outer_type()?,
            ))),
            Element::Reserved(Reserved::Procedure) | Element::Reserved(Reserved::Function) =>
                self.subprogram(),
            _ => self.outer_declaration(),
        }
    }

    /// Reads a declaration outside of protected units; none if it changes no meaning.
    fn outer_declaration(&mut self) -> Result<Option<Item>, Stop> {
        if !self.begins_declaration() {
            let stop = self.expected("a declaration, or 'protected'");
            self.step();
            return Err(stop);
        }
        Ok(self.declaration()?.map(Item::Declaration))
    }

    /// Reads a type outside of protected units, which may be a generic formal one.
    fn outer_type(&mut self) -> Result<Declaration, Stop> {
        let is_formal = self.sees_formal_type();
        self.type_declaration(is_formal)
    }

    /// Whether a generic formal type comes next: `type T is private`, `(<>)`, `range <>` or `mod <>`.
    fn sees_formal_type(&self) -> bool {
        match (self.ahead(3), self.ahead(4)) {
            (Element::Reserved(Reserved::Private), _) => true,
            (Element::Reserved(Reserved::Limited), Element::Reserved(Reserved::Private)) => true,
            (_, Element::Sign(Sign::Anything)) => true,
            _ => false,
        }
    }

    fn protected_item(&mut self) -> Result<Item, Stop> {
        self.step();
        if self.takes(Reserved::Body) {
            Ok(Item::ProtectedBody(self.protected_body()?))
        } else {
            Ok(Item::Protected(self.protected()?))
        }
    }

    /// Reads the name of a unit, with the packages before it.
    fn unit_name(&mut self) -> Result<Name, Stop> {
        let mut name = self.name("a unit's name")?;
        for _ in 0..self.turns() {
            if !self.takes_sign(Sign::Dot) {
                break;
            }
            name = self.name("a unit's name")?;
        }
        Ok(name)
    }

    /// Opens a package: its items stand for themselves. An instance of a generic package is passed over.
    fn package(&mut self) -> Result<Option<Item>, Stop> {
        self.step();
        self.takes(Reserved::Body);
        let name = self.unit_name()?;
        if self.sees(Reserved::Renames) {
            return Ok(Some(self.brief_package(name, RENAMING)?));
        }
        self.ignored_aspects()?;
        self.needs(Reserved::Is)?;
        if self.sees(Reserved::New) {
            return Ok(Some(self.brief_package(name, INSTANCE)?));
        }
        Ok(Some(Item::Package(name)))
    }

    /// Passes over a package without items of its own, which is told if an operation uses it.
    fn brief_package(&mut self, name: Name, message: &str) -> Result<Item, AllocError> {
        let message = String::from_str(self.alloc, message)?;
        self.skip_declaration();
        let fault = Some(Fault {
            place: name.place,
            message,
        });
        Ok(Item::Unread(Unread { name, fault }))
    }

    /// Goes on past the next closing parenthesis.
    fn skip_parenthesis(&mut self) {
        for _ in 0..self.turns() {
            if self.takes_sign(Sign::RightParenthesis) || self.peek() == Element::End {
                break;
            }
            self.step();
        }
    }

    /// Whether a main program comes next, with a protected unit before its end.
    fn sees_program(&mut self) -> bool {
        let is_short = matches!(
            self.ahead(3),
            Element::Reserved(Reserved::New)
                | Element::Reserved(Reserved::Null)
                | Element::Reserved(Reserved::Separate)
        );
        self.sees(Reserved::Procedure)
            && self.ahead(2) == Element::Reserved(Reserved::Is)
            && !is_short
            && self.holds_protected()
    }

    /// Reads a subprogram, or opens a main program.
    fn subprogram(&mut self) -> Result<Option<Item>, Stop> {
        if self.sees_program() {
            self.step();
            let name = self.name("the program's name")?;
            self.step();
            return Ok(Some(Item::Package(name)));
        }
        let start = self.next;
        let told = self.faults.len();
        match self.body() {
            Ok(body) if self.faults.len() == told => Ok(Some(Item::Operation(body))),
            Ok(_) => self.unread(start, told),
            Err(stop) => {
                go_on(stop)?;
                self.unread(start, told)
            }
        }
    }

    /// Passes over a subprogram outside of protected units that has what isn't in the subset: forgets the faults after this many.
    fn unread(&mut self, start: usize, told: usize) -> Result<Option<Item>, Stop> {
        self.next = start;
        self.step();
        let name = self.operation_name()?;
        let item = self.unread_item(name, told)?;
        self.faults.truncate(told);
        if self.skip_profile() {
            self.skip_content(name);
        }
        Ok(Some(item))
    }

    /// Goes on past `is` and what comes after it in the subprogram of this name: a body, or a few words.
    fn skip_content(&mut self, name: Name) {
        self.step();
        match self.peek() {
            Element::Sign(_)
            | Element::Reserved(Reserved::Abstract)
            | Element::Reserved(Reserved::New)
            | Element::Reserved(Reserved::Null)
            | Element::Reserved(Reserved::Separate) => self.skip_declaration(),
            _ => self.skip_unit(name),
        }
    }

    /// Goes on past `end NAME;`, or to the next protected unit or package.
    fn skip_unit(&mut self, name: Name) {
        for _ in 0..self.turns() {
            if self.sees_unit() {
                break;
            }
            let ends = self.takes(Reserved::End);
            if ends && self.peek() == Element::Name(name.number) {
                self.skip_semicolon();
                break;
            }
            if !ends {
                self.open_after(0);
            }
        }
    }

    /// Passes over a task, which is no part of a protected unit (9.1).
    fn skip_task(&mut self) -> Result<(), Stop> {
        self.step();
        if !self.takes(Reserved::Body) {
            self.takes(Reserved::TypeWord);
        }
        let name = self.name("a task's name")?;
        if self.sees_sign(Sign::LeftParenthesis) {
            self.skip_parenthesis();
        }
        if self.skip_to(Reserved::Is) {
            self.skip_unit(name);
        } else {
            self.skip_semicolon();
        }
        Ok(())
    }

    /// Passes over the statements of a program or a package, up to the next protected unit or package.
    fn skip_program(&mut self) {
        for _ in 0..self.turns() {
            if self.sees_unit() {
                break;
            }
            self.open_after(0);
        }
    }

    /// Whether a protected unit comes before `end` and the name of the subprogram that comes next.
    fn holds_protected(&mut self) -> bool {
        let name = self.ahead(1);
        let mut last = name;
        for distance in 2..self.turns() {
            if self.looks == 0 {
                return false;
            }
            self.looks -= 1;
            if self.is_protected_at(distance) {
                return true;
            }
            let element = self.ahead(distance);
            let ends = last == Element::Reserved(Reserved::End) && element == name;
            if ends || element == Element::End {
                return false;
            }
            last = element;
        }
        false
    }
}

/// Reads the items of a text that is short enough.
fn read_items(alloc: Global, text: &[u8], faults: &mut Faults) -> Result<Text, Stop> {
    let Lexed { elements, names } = cut(alloc, text, faults)?;
    let looks = elements.len().saturating_mul(MOST_LOOKS);
    let mut reader = Reader {
        alloc,
        text_length: text.len(),
        elements,
        next: 0,
        names,
        faults,
        looks,
    };
    let items = reader.items()?;
    let Reader { names, .. } = reader;
    Ok(Text { items, names })
}

/// Tells that the text is too long.
fn tell_too_long(alloc: Global, faults: &mut Faults) -> Result<(), AllocError> {
    let message = String::from_str(alloc, "a text has at most 16 MiB, 16,777,216 bytes")?;
    faults.add(MOST_BYTES, message)
}

/// Reads a text into its syntax tree. What is wrong with it gets into the list of faults, which has to be empty before:
/// then the result is `Stop::Fault`.
pub fn parse(alloc: Global, text: &[u8], faults: &mut Faults) -> Result<Text, Stop>
    ensures read { OnOk result (vec_len faults.new.items ≡ 0) }
    ensures told { result ≡ Err Stop.Fault → 1 ≤ vec_len faults.new.items }
{
    if text.len() > MOST_BYTES && tell_too_long(alloc, faults).is_err() {
        return Err(Stop::OutOfMemory);
    }
    if !faults.is_empty() {
        return Err(Stop::Fault);
    }
    let read = read_items(alloc, text, faults);
    if !faults.is_empty() {
        return Err(Stop::Fault);
    }
    match read {
        Ok(text) => Ok(text),
        Err(_) => Err(Stop::OutOfMemory),
    }
}
