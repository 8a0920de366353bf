// SPDX-License-Identifier: MIT
//! Makes random names: `A.B (..)'Image`, `@.B` (4.1).

use crate::heights::expression_of;
use crate::maker::Maker;
use po_ada_tree::tree::{Attribute, Expression, Form};
use std::alloc::AllocError;

/// The attributes.
const ATTRIBUTES: [Attribute; 15] = [
    Attribute::Count,
    Attribute::First,
    Attribute::Image,
    Attribute::Last,
    Attribute::Length,
    Attribute::Max,
    Attribute::Min,
    Attribute::Modulus,
    Attribute::Old,
    Attribute::Pos,
    Attribute::Pred,
    Attribute::Range,
    Attribute::Succ,
    Attribute::Val,
    Attribute::Value,
];

/// Whether this is an attribute that a list in parentheses after it would belong to.
fn lacks_list(name: &Expression) -> bool {
    match &name.form {
        Form::Attribute(_, _, list) => list.is_empty(),
        _ => false,
    }
}

/// Whether `'(` can come after this name. After `@` or `'Range` it could begin a character literal, as in `@'('a')` (2.2).
fn can_qualify(name: &Expression) -> bool {
    match &name.form {
        Form::Target => false,
        Form::Attribute(_, Attribute::Range, list) => !list.is_empty(),
        _ => true,
    }
}

impl Maker {
    /// A name with up to two suffixes (4.1).
    pub fn name_expression(&mut self) -> Result<Expression, AllocError> {
        let number = self.number()?;
        self.suffixed(Form::Name(number))
    }

    /// A name or `@` with up to two suffixes.
    pub fn suffixed(&mut self, root: Form) -> Result<Expression, AllocError> {
        let mut made = expression_of(root);
        for _ in 0..self.draw(3) {
            made = self.with_suffix(made)?;
        }
        Ok(made)
    }

    /// This name with a suffix.
    fn with_suffix(&mut self, name: Expression) -> Result<Expression, AllocError> {
        match self.draw(6) {
            0 | 1 if !lacks_list(&name) => self.applied(name),
            2 => self.attributed(name),
            3 if can_qualify(&name) => self.qualified(name),
            _ => self.selected(name),
        }
    }

    /// `A.B`
    fn selected(&mut self, name: Expression) -> Result<Expression, AllocError> {
        let prefix = Box::new(self.alloc, name)?;
        let component = self.name()?;
        Ok(expression_of(Form::Selected(prefix, component)))
    }

    /// `A (..)`
    fn applied(&mut self, name: Expression) -> Result<Expression, AllocError> {
        let prefix = Box::new(self.alloc, name)?;
        let list = self.associations()?;
        Ok(expression_of(Form::Applied(prefix, list)))
    }

    /// `A'B`, `A'B (..)`
    fn attributed(&mut self, name: Expression) -> Result<Expression, AllocError> {
        let attribute = match ATTRIBUTES.get(self.draw(ATTRIBUTES.len())) {
            Some(found) => *found,
            None => Attribute::Count,
        };
        let prefix = Box::new(self.alloc, name)?;
        let mut list = Vec::new(self.alloc);
        if self.one_in(2) {
            list = self.associations()?;
        }
        Ok(expression_of(Form::Attribute(prefix, attribute, list)))
    }

    /// `A'(..)`
    fn qualified(&mut self, name: Expression) -> Result<Expression, AllocError> {
        let mark = Box::new(self.alloc, name)?;
        let operand = self.boxed()?;
        Ok(expression_of(Form::Qualified(mark, operand)))
    }
}
