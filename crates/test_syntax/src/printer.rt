// SPDX-License-Identifier: MIT
//! A text that is written from a syntax tree. What is still to be written is on an agenda, so that no function calls itself.

use crate::precedence::SUM;
use po_ada_tree::Names;
use po_ada_tree::tree::{Choice, Expression, Name, Statement};
use std::alloc::{AllocError, Global};

/// Something that is to be written.
#[derive(Clone, Copy)]
pub enum Piece<'a> {
    /// Words or signs.
    Words(&'a str),
    /// Bytes of the text that was read.
    Bytes(&'a [u8]),
    Name(u32),
    Number(u64),
    Character(u8),
    /// An expression, in parentheses unless its operator binds at least this tight.
    Expression(&'a Expression, u32),
    /// An expression between parentheses that are there.
    Enclosed(&'a Expression),
    /// A choice: a value is in parentheses unless its operator binds at least this tight.
    Choice(&'a Choice, u32),
    Statement(&'a Statement),
}

/// A text that is written, the bytes in which the tree's strings stand, and the tree's names.
#[derive(Drop)]
pub struct Printer<'a> {
    pub alloc: Global,
    pub bytes: &'a [u8],
    names: &'a Names,
    text: Vec<u8>,
    /// What comes next, in order.
    next: Vec<Piece<'a>>,
    /// What comes after it, the first one last.
    agenda: Vec<Piece<'a>>,
}

impl<'a> Printer<'a> {
    /// A printer of a tree with these names, whose strings stand in these bytes.
    pub fn new(alloc: Global, names: &'a Names, bytes: &'a [u8]) -> Printer<'a> {
        Printer {
            alloc,
            bytes,
            names,
            text: Vec::new(alloc),
            next: Vec::new(alloc),
            agenda: Vec::new(alloc),
        }
    }

    /// What was written.
    pub fn into_text(self) -> Vec<u8> {
        let Printer { text, .. } = self;
        text
    }

    /// Writes this next.
    pub fn add(&mut self, piece: Piece<'a>) -> Result<(), AllocError> {
        self.next.push(piece)?;
        Ok(())
    }

    /// Writes words or signs next.
    pub fn put(&mut self, words: &'a str) -> Result<(), AllocError> {
        self.add(Piece::Words(words))
    }

    /// Writes a name next.
    pub fn name(&mut self, name: Name) -> Result<(), AllocError> {
        self.add(Piece::Name(name.number))
    }

    /// Writes words and a name next, if there is one.
    pub fn optional_name(
        &mut self,
        before: &'a str,
        name: &Option<Name>,
    ) -> Result<(), AllocError> {
        if let Some(name) = name {
            self.put(before)?;
            self.name(*name)?;
        }
        Ok(())
    }

    /// Writes names next, with commas between them.
    pub fn name_list(&mut self, names: &[Name]) -> Result<(), AllocError> {
        let mut before = "";
        for name in names {
            self.put(before)?;
            self.name(*name)?;
            before = ", ";
        }
        Ok(())
    }

    /// Writes an expression next, in parentheses unless its operator binds at least this tight.
    pub fn expression(&mut self, expression: &'a Expression, least: u32) -> Result<(), AllocError> {
        self.add(Piece::Expression(expression, least))
    }

    /// Writes words and an expression next.
    pub fn after(
        &mut self,
        before: &'a str,
        expression: &'a Expression,
        least: u32,
    ) -> Result<(), AllocError> {
        self.put(before)?;
        self.expression(expression, least)
    }

    /// Writes words and an expression next, if there is one.
    pub fn optional(
        &mut self,
        before: &'a str,
        expression: &'a Option<Expression>,
        least: u32,
    ) -> Result<(), AllocError> {
        match expression {
            Some(found) => self.after(before, found, least),
            None => Ok(()),
        }
    }

    /// Writes a discrete range next.
    pub fn range(&mut self, range: &'a Choice) -> Result<(), AllocError> {
        self.add(Piece::Choice(range, SUM))
    }

    /// Writes statements next.
    pub fn statements(&mut self, list: &'a Vec<Statement>) -> Result<(), AllocError> {
        for statement in list.iter() {
            self.add(Piece::Statement(statement))?;
        }
        Ok(())
    }

    /// Moves what comes next to the agenda.
    fn flush(&mut self) -> Result<(), AllocError> {
        for _ in 0..self.next.len() {
            if let Some(piece) = self.next.pop() {
                self.agenda.push(piece)?;
            }
        }
        Ok(())
    }

    /// Writes all that is to be written.
    pub fn run(&mut self) -> Result<(), AllocError> {
        for _ in 0..u64::MAX {
            self.flush()?;
            let Some(piece) = self.agenda.pop() else {
                break;
            };
            self.piece(piece)?;
        }
        Ok(())
    }

    /// Writes a piece, or the pieces that it has come next.
    fn piece(&mut self, piece: Piece<'a>) -> Result<(), AllocError> {
        match piece {
            Piece::Words(words) => self.text.extend_from_slice(words.as_bytes()),
            Piece::Bytes(bytes) => self.text.extend_from_slice(bytes),
            Piece::Name(number) => self
                .text
                .extend_from_slice(self.names.written(number).as_bytes()),
            Piece::Number(number) => self.write_number(number),
            Piece::Character(byte) => self.text.extend_from_slice(&[b'\'', byte, b'\'']),
            Piece::Expression(expression, least) => self.whole(expression, least),
            Piece::Enclosed(expression) => self.enclosed(expression),
            Piece::Choice(choice, least) => self.choice(choice, least),
            Piece::Statement(statement) => self.statement(&statement.action),
        }
    }

    /// Writes a number in decimal digits.
    fn write_number(&mut self, number: u64) -> Result<(), AllocError> {
        let digits = format!(in self.alloc; "{number}")?;
        self.text.extend_from_slice(digits.as_bytes())
    }
}
