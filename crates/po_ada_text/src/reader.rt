// SPDX-License-Identifier: MIT
//! A cursor over the elements of a text, and the faults that reading finds.

use crate::lexer::{Element, Placed};
use crate::sign::Sign;
use po_ada_tree::fault::{Faults, Stop};
use po_ada_tree::names::Names;
use po_ada_tree::reserved::{RESERVED, Reserved};
use po_ada_tree::tree::Name;
use std::alloc::{AllocError, Global};
use strsim::levenshtein;

/// How deep expressions and statements may be nested.
pub const MOST_LEVELS: usize = 100;

/// A text that is read.
#[derive(Drop)]
pub struct Reader<'a> {
    pub alloc: Global,
    pub text_length: usize,
    pub elements: Vec<Placed>,
    pub next: usize,
    pub names: Names,
    pub faults: &'a mut Faults,
    /// How many elements may still be looked at to find a protected unit far ahead.
    pub looks: usize,
}

/// The reserved word that this name may be meant to be, at most two letters apart.
fn meant(alloc: Global, name: &str) -> Result<Option<&'static str>, AllocError> {
    let mut found = None;
    let mut least = 3;
    if name.len() < 4 || name.len() > 16 {
        return Ok(None);
    }
    for (text, _) in RESERVED.iter() {
        let distance = levenshtein(alloc, *text, name)?;
        if distance < least {
            least = distance;
            found = Some(*text);
        }
    }
    Ok(found)
}

impl<'a> Reader<'a> {
    /// The element this far ahead.
    pub fn ahead(&self, distance: usize) -> Element {
        match self.elements.get(self.next.saturating_add(distance)) {
            Some(placed) => placed.element,
            None => Element::End,
        }
    }

    /// The next element.
    pub fn peek(&self) -> Element {
        self.ahead(0)
    }

    /// How many bytes come before the next element.
    pub fn place(&self) -> usize {
        match self.elements.get(self.next) {
            Some(placed) => placed.place,
            None => self.text_length,
        }
    }

    /// Goes on by an element.
    pub fn step(&mut self) {
        if self.next < self.elements.len() {
            self.next += 1;
        }
    }

    /// How often a loop may be run that reads an element each time.
    pub fn turns(&self) -> usize {
        self.elements.len().saturating_add(1)
    }

    pub fn sees(&self, word: Reserved) -> bool {
        self.peek() == Element::Reserved(word)
    }

    pub fn sees_sign(&self, sign: Sign) -> bool {
        self.peek() == Element::Sign(sign)
    }

    /// Whether the word comes next, which is read then.
    pub fn takes(&mut self, word: Reserved) -> bool {
        let found = self.sees(word);
        if found {
            self.step();
        }
        found
    }

    /// Whether the sign comes next, which is read then.
    pub fn takes_sign(&mut self, sign: Sign) -> bool {
        let found = self.sees_sign(sign);
        if found {
            self.step();
        }
        found
    }

    /// Tells a fault.
    pub fn refuse(&mut self, place: usize, message: &str) -> Stop {
        let Ok(message) = String::from_str(self.alloc, message) else {
            return Stop::OutOfMemory;
        };
        self.refuse_by(place, message)
    }

    /// Tells a fault, whose message was made.
    pub fn refuse_by(&mut self, place: usize, message: String) -> Stop {
        match self.faults.add(place, message) {
            Ok(()) => Stop::Fault,
            Err(_) => Stop::OutOfMemory,
        }
    }

    /// What the next element is, for a message.
    fn description(&self) -> Result<String, AllocError> {
        match self.peek() {
            Element::Name(number) => {
                let name = self.names.written(number);
                match meant(self.alloc, name)? {
                    Some(word) => format!(in self.alloc; "'{name}'; did you mean '{word}'?"),
                    None => format!(in self.alloc; "'{name}'"),
                }
            }
            Element::Reserved(word) => {
                let text = word.text();
                format!(in self.alloc; "'{text}'")
            }
            Element::Number(number) => format!(in self.alloc; "{number}"),
            Element::Real => String::from_str(self.alloc, "a real number"),
            Element::Character(_) => String::from_str(self.alloc, "a character"),
            Element::Text(_, _) => String::from_str(self.alloc, "a string"),
            Element::Sign(sign) => {
                let text = sign.text();
                format!(in self.alloc; "'{text}'")
            }
            Element::End => String::from_str(self.alloc, "the end of the text"),
        }
    }

    fn expectation(&self, what: &str) -> Result<String, AllocError> {
        let mut message = String::from_str(self.alloc, "expected ")?;
        message.push_str(what)?;
        message.push_str(", and here is ")?;
        let description = self.description()?;
        message.push_str(description.as_str())?;
        Ok(message)
    }

    /// Tells that this name is no word that may stand here, if it may be meant to be one; else what is expected now.
    pub fn misspelled(&mut self, name: Name, what: &str) -> Stop {
        match self.correction(name.number) {
            Ok(Some(message)) => self.refuse_by(name.place, message),
            Ok(None) => self.expected(what),
            Err(_) => Stop::OutOfMemory,
        }
    }

    fn correction(&self, name: u32) -> Result<Option<String>, AllocError> {
        let written = self.names.written(name);
        match meant(self.alloc, written)? {
            Some(word) => Ok(Some(format!(in self.alloc;
                "'{written}' begins nothing here; did you mean '{word}'?"
            )?)),
            None => Ok(None),
        }
    }

    /// Tells that something else is expected here.
    pub fn expected(&mut self, what: &str) -> Stop {
        match self.expectation(what) {
            Ok(message) => {
                let place = self.place();
                self.refuse_by(place, message)
            }
            Err(_) => Stop::OutOfMemory,
        }
    }

    fn expected_text(&mut self, text: &str) -> Stop {
        let Ok(what) = format!(in self.alloc; "'{text}'") else {
            return Stop::OutOfMemory;
        };
        self.expected(what.as_str())
    }

    /// Reads this word.
    pub fn needs(&mut self, word: Reserved) -> Result<(), Stop> {
        if self.takes(word) {
            return Ok(());
        }
        Err(self.expected_text(word.text()))
    }

    /// Reads this sign.
    pub fn needs_sign(&mut self, sign: Sign) -> Result<(), Stop> {
        if self.takes_sign(sign) {
            return Ok(());
        }
        Err(self.expected_text(sign.text()))
    }

    /// Reads a name.
    pub fn name(&mut self, what: &str) -> Result<Name, Stop> {
        let place = self.place();
        match self.peek() {
            Element::Name(number) => {
                self.step();
                Ok(Name { number, place })
            }
            _ => Err(self.expected(what)),
        }
    }

    /// Reads names with commas between them.
    pub fn name_list(&mut self, what: &str) -> Result<Vec<Name>, Stop> {
        let mut list = Vec::new(self.alloc);
        for _ in 0..self.turns() {
            list.push(self.name(what)?)?;
            if !self.takes_sign(Sign::Comma) {
                break;
            }
        }
        Ok(list)
    }

    /// Reads the name that ends a body or a loop, which has to be this one.
    pub fn closing_name(&mut self, opened: Name, what: &str) -> Result<(), Stop> {
        let place = self.place();
        let closing = self.name(what)?;
        if closing.number == opened.number {
            return Ok(());
        }
        let Ok(message) = self.mismatch(opened) else {
            return Err(Stop::OutOfMemory);
        };
        Err(self.refuse_by(place, message))
    }

    fn mismatch(&self, opened: Name) -> Result<String, AllocError> {
        let name = self.names.written(opened.number);
        format!(in self.alloc; "expected '{name}', which ends here")
    }

    /// Goes on past the next semicolon, unless the text ends.
    pub fn skip_semicolon(&mut self) {
        for _ in 0..self.turns() {
            if self.takes_sign(Sign::Semicolon) || self.peek() == Element::End {
                break;
            }
            self.step();
        }
    }

    /// How many parentheses and records are open after the next element, if this many are before it. Reads that element.
    pub fn open_after(&mut self, open: usize) -> usize {
        let element = self.peek();
        self.step();
        match element {
            Element::Sign(Sign::LeftParenthesis) => open.saturating_add(1),
            Element::Sign(Sign::RightParenthesis) => open.saturating_sub(1),
            Element::Reserved(Reserved::Record) => open.saturating_add(1),
            Element::Reserved(Reserved::End) if self.takes(Reserved::Record) => open.saturating_sub(
                1,
            ),
            Element::Reserved(Reserved::Null) => {
                self.takes(Reserved::Record);
                open
            }
            Element::Reserved(Reserved::Access) => {
                self.takes(Reserved::Protected);
                open
            }
            _ => open,
        }
    }

    /// Whether a protected unit comes this far ahead. `protected` can also be a word of an access type or of an interface (3.9.4, 3.10).
    pub fn is_protected_at(&self, distance: usize) -> bool {
        self.ahead(distance) == Element::Reserved(Reserved::Protected)
            && !matches!(
                self.ahead(distance.saturating_add(1)),
                Element::Reserved(Reserved::Interface)
                    | Element::Reserved(Reserved::Procedure)
                    | Element::Reserved(Reserved::Function)
            )
    }

    /// Whether a package with items of its own comes next: no instance of a generic one (12.3), and no renaming (8.5.3).
    fn sees_package(&self) -> bool {
        let is_instance = self.ahead(2) == Element::Reserved(Reserved::Is)
            && self.ahead(3) == Element::Reserved(Reserved::New);
        let is_renaming = self.ahead(2) == Element::Reserved(Reserved::Renames);
        self.sees(Reserved::Package) && !is_instance && !is_renaming
    }

    /// Whether a protected unit or a package comes next, or the end of the text: no subprogram goes on past it.
    pub fn sees_unit(&self) -> bool {
        self.is_protected_at(0) || self.sees_package() || self.peek() == Element::End
    }

    /// Whether what comes next is no part of a declaration that has begun, however faulty that is.
    fn sees_other(&self) -> bool {
        self.sees_unit() || self.sees(Reserved::Begin)
    }

    /// Goes on past the semicolon that ends a declaration. Those in parentheses and records don't.
    pub fn skip_declaration(&mut self) {
        let mut open = 0;
        for _ in 0..self.turns() {
            if self.sees_other() || open == 0 && self.takes_sign(Sign::Semicolon) {
                break;
            }
            open = self.open_after(open);
        }
    }

    /// Goes on to the `is` of a subprogram, or past the semicolon of its declaration, and says whether it is `is`.
    pub fn skip_profile(&mut self) -> bool {
        let mut open = 0;
        for _ in 0..self.turns() {
            if self.sees(Reserved::Is) {
                return true;
            }
            if self.sees_other() || open == 0 && self.takes_sign(Sign::Semicolon) {
                break;
            }
            open = self.open_after(open);
        }
        false
    }

    /// Goes on to a word or a semicolon, and says whether it is the word.
    pub fn skip_to(&mut self, word: Reserved) -> bool {
        for _ in 0..self.turns() {
            if self.sees(word) {
                return true;
            }
            if self.sees_sign(Sign::Semicolon) || self.peek() == Element::End {
                break;
            }
            self.step();
        }
        false
    }

    /// Whether a word of the text is this, in any case of letters.
    pub fn is_spelled(&self, name: Name, text: &str) -> bool {
        self.names.find(text) == Some(name.number)
    }
}
