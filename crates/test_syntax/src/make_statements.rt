// SPDX-License-Identifier: MIT
//! Makes random statements (5.1).

use crate::make_expressions::are_others;
use crate::maker::Maker;
use po_ada_tree::tree::{
    Action, Alternative, Branch, Expression, Handler, LoopHead, Sequence, Statement,
};
use std::alloc::AllocError;

impl Maker {
    /// The statements of a body, and its handlers.
    pub fn body_sequence(&mut self) -> Result<Sequence, AllocError> {
        self.statements.truncate(0);
        for _ in 0..self.draw(4) {
            let action = self.composed_action()?;
            self.statements.push(Statement { place: 0, action })?;
        }
        self.sequence()
    }

    /// A statement that was made before, or one that has no statements in it.
    fn statement(&mut self) -> Result<Statement, AllocError> {
        if self.one_in(2) {
            if let Some(made) = self.statements.pop() {
                return Ok(made);
            }
        }
        let action = self.simple_action()?;
        Ok(Statement { place: 0, action })
    }

    /// One to three statements.
    fn statement_list(&mut self) -> Result<Vec<Statement>, AllocError> {
        let mut list = Vec::new(self.alloc);
        for _ in 0..self.few() {
            let statement = self.statement()?;
            list.push(statement)?;
        }
        Ok(list)
    }

    /// What a statement does that has no statements in it.
    fn simple_action(&mut self) -> Result<Action, AllocError> {
        match self.draw(9) {
            0 => Ok(Action::Null),
            1 => Ok(Action::Call(self.name_expression()?)),
            2 => self.exit(),
            3 => Ok(Action::Return(self.optional_expression()?)),
            4 => self.raise(),
            5 => {
                let with_abort = self.one_in(2);
                Ok(Action::Requeue(self.name_expression()?, with_abort))
            }
            6 => Ok(Action::Pragma(self.pragma()?)),
            _ => self.assignment(),
        }
    }

    /// An assignment (5.2).
    fn assignment(&mut self) -> Result<Action, AllocError> {
        let target = self.name_expression()?;
        let value = self.expression()?;
        Ok(Action::Assign(target, value))
    }

    /// An exit statement (5.7).
    fn exit(&mut self) -> Result<Action, AllocError> {
        let name = self.optional_name()?;
        let condition = self.optional_expression()?;
        Ok(Action::Exit(name, condition))
    }

    /// A raise statement (11.3).
    fn raise(&mut self) -> Result<Action, AllocError> {
        if self.one_in(4) {
            return Ok(Action::Raise(None, None));
        }
        let exception = self.name_expression()?;
        let message = self.optional_expression()?;
        Ok(Action::Raise(Some(exception), message))
    }

    /// What a statement does that has statements in it.
    fn composed_action(&mut self) -> Result<Action, AllocError> {
        match self.draw(6) {
            0 => self.if_action(),
            1 => self.case_action(),
            2 => self.block_action(),
            3 => self.extended_return(),
            _ => self.loop_action(),
        }
    }

    /// An if statement (5.3).
    fn if_action(&mut self) -> Result<Action, AllocError> {
        let mut branches = Vec::new(self.alloc);
        for _ in 0..self.few() {
            let condition = self.expression()?;
            let statements = self.statement_list()?;
            branches.push(Branch {
                condition,
                statements,
            })?;
        }
        let mut otherwise = Vec::new(self.alloc);
        if self.one_in(2) {
            otherwise = self.statement_list()?;
        }
        Ok(Action::If(branches, otherwise))
    }

    /// A case statement (5.4).
    fn case_action(&mut self) -> Result<Action, AllocError> {
        let subject = self.expression()?;
        let mut alternatives = Vec::new(self.alloc);
        for _ in 0..self.few() {
            let choices = self.choices()?;
            let statements = self.statement_list()?;
            let is_last = are_others(choices.as_slice());
            alternatives.push(Alternative {
                place: 0,
                choices,
                statements,
            })?;
            if is_last {
                break;
            }
        }
        Ok(Action::Case(subject, alternatives))
    }

    /// How often a loop is run (5.5).
    fn loop_head(&mut self) -> Result<LoopHead, AllocError> {
        match self.draw(4) {
            0 => Ok(LoopHead::Forever),
            1 => Ok(LoopHead::While(self.expression()?)),
            _ => {
                let name = self.name()?;
                Ok(LoopHead::For(name, self.iteration()?))
            }
        }
    }

    /// A loop (5.5).
    fn loop_action(&mut self) -> Result<Action, AllocError> {
        let name = self.optional_name()?;
        let head = self.loop_head()?;
        let statements = self.statement_list()?;
        Ok(Action::Loop(name, head, statements))
    }

    /// A block (5.6).
    fn block_action(&mut self) -> Result<Action, AllocError> {
        let declarations = self.declarations()?;
        let sequence = self.sequence()?;
        Ok(Action::Block(declarations, sequence))
    }

    /// An extended return statement, with statements or without (6.5).
    fn extended_return(&mut self) -> Result<Action, AllocError> {
        let mut names = Vec::new(self.alloc);
        let name = self.name()?;
        names.push(name)?;
        let constant = self.one_in(2);
        let variables = self.typed(names, constant)?;
        let mut sequence = Sequence {
            statements: Vec::new(self.alloc),
            handlers: Vec::new(self.alloc),
        };
        if self.one_in(2) {
            sequence = self.sequence()?;
        }
        Ok(Action::ExtendedReturn(variables, sequence))
    }

    /// The exceptions of a handler, none for `others` (11.2).
    fn exceptions(&mut self) -> Result<Vec<Expression>, AllocError> {
        let mut list = Vec::new(self.alloc);
        for _ in 0..self.draw(3) {
            let exception = self.name_expression()?;
            list.push(exception)?;
        }
        Ok(list)
    }

    /// Statements with up to two handlers (11.2).
    fn sequence(&mut self) -> Result<Sequence, AllocError> {
        let statements = self.statement_list()?;
        let mut handlers = Vec::new(self.alloc);
        for _ in 0..self.draw(4).saturating_sub(1) {
            let exceptions = self.exceptions()?;
            let statements = self.statement_list()?;
            let is_last = exceptions.is_empty();
            handlers.push(Handler {
                place: 0,
                exceptions,
                statements,
            })?;
            if is_last {
                break;
            }
        }
        Ok(Sequence {
            statements,
            handlers,
        })
    }
}
