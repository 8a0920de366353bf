// SPDX-License-Identifier: MIT
//! Visits statements (5.1).

use crate::entities::Sort;
use crate::uses::{How, LoopFact};
use crate::walker::{Task, Walker};
use po_ada_tree::tree::{
    Action, Alternative, Branch, Declaration, Expression, LoopHead, Name, Sequence, Statement,
    Variables,
};
use std::alloc::AllocError;

impl<'a> Walker<'a> {
    /// Visits a statement.
    pub fn statement(&mut self, statement: &'a Statement) -> Result<(), AllocError> {
        match &statement.action {
            Action::If(branches, otherwise) => self.if_statement(branches, otherwise),
            Action::Case(subject, alternatives) => self.case_statement(subject, alternatives),
            Action::Loop(name, head, statements) => self.loop_statement(
                *name,
                statement.place,
                head,
                statements,
            ),
            Action::Block(declarations, sequence) => self.block(declarations, sequence),
            Action::ExtendedReturn(variables, sequence) => self.extended_return(
                variables, sequence,
            ),
            other => self.simple_statement(other),
        }
    }

    /// Visits a statement that has no statements in it.
    fn simple_statement(&mut self, action: &'a Action) -> Result<(), AllocError> {
        match action {
            Action::Assign(target, value) => {
                self.target = self.variable_of(target);
                self.read(value)?;
                self.visit(target, How::Changed)
            }
            Action::Call(call) => self.visit(call, How::Called),
            Action::Exit(name, condition) => {
                self.exit(*name, condition.is_some());
                self.read_optional(condition)
            }
            Action::Pragma(pragma) => {
                self.leave_loops();
                self.associations(&pragma.arguments, How::Read)
            }
            other => self.ending_statement(other),
        }
    }

    /// Visits a statement after which the next one isn't executed.
    fn ending_statement(&mut self, action: &'a Action) -> Result<(), AllocError> {
        match action {
            Action::Return(value) => {
                self.end();
                self.read_optional(value)
            }
            Action::Raise(exception, message) => {
                self.end();
                if let Some(found) = exception {
                    self.visit(found, How::Raised)?;
                }
                self.read_optional(message)
            }
            Action::Requeue(entry, _) => {
                self.end();
                self.visit(entry, How::Requeued)
            }
            _ => Ok(()),
        }
    }

    /// Visits statements in their order.
    pub fn statements(&mut self, list: &'a Vec<Statement>) -> Result<(), AllocError> {
        for statement in list {
            self.next.push(Task::Statement(statement))?;
        }
        Ok(())
    }

    /// One of several ways.
    fn way(&mut self, list: &'a Vec<Statement>) -> Result<(), AllocError> {
        self.statements(list)?;
        self.next.push(Task::Merge)?;
        Ok(())
    }

    /// Visits an if statement (5.3).
    fn if_statement(
        &mut self,
        branches: &'a Vec<Branch>,
        otherwise: &'a Vec<Statement>,
    ) -> Result<(), AllocError> {
        self.next.push(Task::Fork)?;
        for branch in branches {
            self.read(&branch.condition)?;
            self.way(&branch.statements)?;
        }
        self.way(otherwise)?;
        self.next.push(Task::Close)?;
        Ok(())
    }

    /// Visits a case statement (5.4).
    fn case_statement(
        &mut self,
        subject: &'a Expression,
        alternatives: &'a Vec<Alternative>,
    ) -> Result<(), AllocError> {
        self.read(subject)?;
        self.next.push(Task::Fork)?;
        for alternative in alternatives {
            self.choices(&alternative.choices)?;
            self.way(&alternative.statements)?;
        }
        self.next.push(Task::Close)?;
        Ok(())
    }

    /// Visits a loop statement (5.5).
    fn loop_statement(
        &mut self,
        name: Option<Name>,
        place: usize,
        head: &'a LoopHead,
        statements: &'a Vec<Statement>,
    ) -> Result<(), AllocError> {
        let mark = self.mark();
        let is_endless = matches!(head, LoopHead::Forever);
        if let LoopHead::For(parameter, iteration) = head {
            self.iteration(*parameter, iteration)?;
        }
        self.next.push(Task::OpenLoop(name, place, is_endless))?;
        if let LoopHead::While(condition) = head {
            self.read(condition)?;
        }
        self.statements(statements)?;
        self.next.push(Task::CloseLoop)?;
        self.next.push(Task::Leave(mark))?;
        Ok(())
    }

    /// A loop begins.
    pub fn open_loop(
        &mut self,
        name: Option<Name>,
        place: usize,
        is_endless: bool,
    ) -> Result<(), AllocError> {
        let number = self.facts.loops.len();
        let fact = LoopFact {
            place,
            part: self.part,
            within: self.paths.innermost(),
            is_endless,
            is_left: false,
        };
        self.facts.loops.push(fact)?;
        self.paths.open_loop(name, number, is_endless)
    }

    /// An exit statement leaves loops (5.7).
    fn exit(&mut self, name: Option<Name>, is_conditional: bool) {
        let loops = self.paths.left_by(name);
        self.paths.mark_left(loops, &mut self.facts.loops);
        self.paths.exit(loops, is_conditional);
    }

    /// All loops around the statement can be left by it.
    fn leave_loops(&mut self) {
        let loops = self.paths.loops();
        self.paths.mark_left(loops, &mut self.facts.loops);
    }

    /// The operation can be left here, and the next statement isn't executed.
    fn end(&mut self) {
        self.leave_loops();
        self.paths.end();
    }

    /// Visits a block statement (5.6).
    fn block(
        &mut self,
        declarations: &'a Vec<Declaration>,
        sequence: &'a Sequence,
    ) -> Result<(), AllocError> {
        let mark = self.mark();
        self.declarations(declarations)?;
        self.sequence(sequence)?;
        self.next.push(Task::Leave(mark))?;
        Ok(())
    }

    /// Visits an extended return statement (6.5).
    fn extended_return(
        &mut self,
        variables: &'a Variables,
        sequence: &'a Sequence,
    ) -> Result<(), AllocError> {
        let mark = self.mark();
        self.leave_loops();
        self.variables(variables, Sort::Untold)?;
        self.sequence(sequence)?;
        self.next.push(Task::Leave(mark))?;
        self.next.push(Task::End)?;
        Ok(())
    }

    /// Visits statements with their handlers of exceptions, each of which is a way of its own (11.2).
    pub fn sequence(&mut self, sequence: &'a Sequence) -> Result<(), AllocError> {
        self.next.push(Task::Fork)?;
        self.way(&sequence.statements)?;
        for handler in sequence.handlers.iter() {
            for exception in handler.exceptions.iter() {
                self.visit(exception, How::Mentioned)?;
            }
            self.way(&handler.statements)?;
        }
        self.next.push(Task::Close)?;
        Ok(())
    }
}
