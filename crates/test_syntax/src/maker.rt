// SPDX-License-Identifier: MIT
//! What random trees are made of. They grow from their leaves: a part is made of parts that were made before, so that no function
//! calls itself.

use crate::heights::expression_of;
use po_ada_samples::Lot;
use po_ada_tree::names::{Names, Word};
use po_ada_tree::tree::{Expression, Form, Name, Statement};
use std::alloc::{AllocError, Global};

/// Other expressions are made only of those that are lower than this.
const MOST_HEIGHT: usize = 12;

/// The names: also those of attributes, and some that begin as a reserved word does.
const WORDS: [&str; 24] = [
    "A",
    "b",
    "C",
    "X1",
    "y_2",
    "T",
    "Count",
    "Image",
    "First",
    "Value",
    "Max",
    "Size",
    "Queue",
    "Last_Item",
    "Ended",
    "Iso",
    "Ranges",
    "Nullable",
    "In_Out",
    "Mod_10",
    "Pre",
    "Assert",
    "INTEGER",
    "Boolean",
];

/// The names and strings of a tree that is made, and the parts that aren't parts of others yet.
#[derive(Drop)]
pub struct Maker {
    pub alloc: Global,
    pub lot: Lot,
    pub names: Names,
    /// What stands between the quotes of each string.
    pub bytes: Vec<u8>,
    pub expressions: Vec<Expression>,
    pub statements: Vec<Statement>,
}

impl Maker {
    /// A maker that has made nothing.
    pub fn new(alloc: Global, lot: Lot) -> Result<Maker, AllocError> {
        Ok(Maker {
            alloc,
            lot,
            names: Names::new(alloc)?,
            bytes: Vec::new(alloc),
            expressions: Vec::new(alloc),
            statements: Vec::new(alloc),
        })
    }

    /// A number below this bound.
    pub fn draw(&mut self, bound: usize) -> usize {
        self.lot.below(bound)
    }

    /// Whether the number is 0 that is drawn below this bound.
    pub fn one_in(&mut self, bound: usize) -> bool {
        self.lot.below(bound) == 0
    }

    /// How many parts a list has: 1 to 3.
    pub fn few(&mut self) -> usize {
        match self.draw(6) {
            0 => 3,
            1 | 2 => 2,
            _ => 1,
        }
    }

    /// The number of a name.
    pub fn number(&mut self) -> Result<u32, AllocError> {
        let word = match WORDS.get(self.lot.below(WORDS.len())) {
            Some(found) => *found,
            None => "A",
        };
        match self.names.word(word.as_bytes())? {
            Word::Name(number) => Ok(number),
            Word::Reserved(_) => Ok(0),
        }
    }

    /// A name.
    pub fn name(&mut self) -> Result<Name, AllocError> {
        let number = self.number()?;
        Ok(Name { number, place: 0 })
    }

    /// A name, or none.
    pub fn optional_name(&mut self) -> Result<Option<Name>, AllocError> {
        if self.one_in(2) {
            return Ok(None);
        }
        Ok(Some(self.name()?))
    }

    /// One to three names.
    pub fn name_list(&mut self) -> Result<Vec<Name>, AllocError> {
        let mut list = Vec::new(self.alloc);
        for _ in 0..self.few() {
            let name = self.name()?;
            list.push(name)?;
        }
        Ok(list)
    }

    /// A character, of ASCII or Latin-1, that isn't a control character.
    fn letter(&mut self) -> u8 {
        let (first, count) = if self.one_in(8) { (160, 96) } else { (32, 95) };
        u8::try_from(self.draw(count).saturating_add(first)).unwrap_or(b' ')
    }

    /// A string of up to five characters, which are added to the bytes. A quotation mark in it stands twice (2.6).
    fn string(&mut self) -> Result<Form, AllocError> {
        let from = self.bytes.len();
        for _ in 0..self.draw(6) {
            let letter = self.letter();
            self.bytes.push(letter)?;
            if letter == b'"' {
                self.bytes.push(letter)?;
            }
        }
        Ok(Form::Text(from, self.bytes.len()))
    }

    /// A number that is small or needs almost 64 bits.
    fn numeral(&mut self) -> Form {
        let drawn = self.draw(1000) as u64;
        if self.one_in(8) {
            Form::Number(u64::MAX.saturating_sub(drawn))
        } else {
            Form::Number(drawn)
        }
    }

    /// An expression that has no parts.
    fn leaf(&mut self) -> Result<Expression, AllocError> {
        let form = match self.draw(12) {
            0 | 1 => self.numeral(),
            2 => Form::Character(self.letter()),
            3 => self.string()?,
            4 => Form::Null,
            5 => Form::Target,
            _ => Form::Name(self.number()?),
        };
        Ok(expression_of(form))
    }

    /// An expression that was made before, or one that has no parts.
    pub fn made_expression(&mut self) -> Result<Expression, AllocError> {
        if let Some(made) = self.expressions.pop() {
            if made.height < MOST_HEIGHT {
                return Ok(made);
            }
        }
        self.leaf()
    }

    /// A part of an expression.
    pub fn operand(&mut self) -> Result<Expression, AllocError> {
        if self.one_in(2) {
            return self.leaf();
        }
        self.made_expression()
    }

    /// A part of an expression, in a box.
    pub fn boxed(&mut self) -> Result<Box<Expression>, AllocError> {
        let operand = self.operand()?;
        Ok(Box::new(self.alloc, operand)?)
    }

    /// A part of an expression, in a box, or none.
    pub fn optional_boxed(&mut self) -> Result<Option<Box<Expression>>, AllocError> {
        if self.one_in(2) {
            return Ok(None);
        }
        Ok(Some(self.boxed()?))
    }
}
