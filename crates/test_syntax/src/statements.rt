// SPDX-License-Identifier: MIT
//! Writes statements (5.1).

use crate::precedence::{LOGICAL, PRIMARY, SUM};
use crate::printer::Printer;
use po_ada_tree::tree::{
    Action, Alternative, Branch, Declaration, Expression, Handler, LoopHead, Name, Sequence,
    Statement, Variables,
};
use std::alloc::AllocError;

impl<'a> Printer<'a> {
    /// Writes a statement.
    pub fn statement(&mut self, action: &'a Action) -> Result<(), AllocError> {
        match action {
            Action::If(branches, otherwise) => self.if_statement(branches, otherwise),
            Action::Case(subject, alternatives) => self.case_statement(subject, alternatives),
            Action::Loop(name, head, statements) => self.loop_statement(name, head, statements),
            Action::Block(declarations, sequence) => self.block(declarations, sequence),
            Action::ExtendedReturn(variables, sequence) => self.extended_return(
                variables, sequence,
            ),
            other => self.simple_statement(other),
        }
    }

    /// Writes a statement that has no statements in it.
    fn simple_statement(&mut self, action: &'a Action) -> Result<(), AllocError> {
        match action {
            Action::Assign(target, value) => {
                self.expression(target, PRIMARY)?;
                self.after(" := ", value, LOGICAL)?;
            }
            Action::Call(call) => self.expression(call, PRIMARY)?,
            Action::Exit(name, condition) => {
                self.put("exit")?;
                self.optional_name(" ", name)?;
                self.optional(" when ", condition, LOGICAL)?;
            }
            Action::Return(value) => {
                self.put("return")?;
                self.optional(" ", value, LOGICAL)?;
            }
            Action::Raise(exception, message) => {
                self.put("raise")?;
                self.optional(" ", exception, PRIMARY)?;
                self.optional(" with ", message, LOGICAL)?;
            }
            Action::Requeue(entry, with_abort) => self.requeue(entry, *with_abort)?,
            Action::Pragma(pragma) => self.pragma(pragma)?,
            _ => self.put("null")?,
        }
        self.put(";\n")
    }

    /// Writes a requeue statement (9.5.4).
    fn requeue(&mut self, entry: &'a Expression, with_abort: bool) -> Result<(), AllocError> {
        self.after("requeue ", entry, PRIMARY)?;
        self.put(if with_abort { " with abort" } else { "" })
    }

    /// Writes an if statement (5.3).
    fn if_statement(
        &mut self,
        branches: &'a Vec<Branch>,
        otherwise: &'a Vec<Statement>,
    ) -> Result<(), AllocError> {
        let mut word = "if ";
        for branch in branches.iter() {
            self.after(word, &branch.condition, LOGICAL)?;
            self.put(" then\n")?;
            self.statements(&branch.statements)?;
            word = "elsif ";
        }
        if !otherwise.is_empty() {
            self.put("else\n")?;
            self.statements(otherwise)?;
        }
        self.put("end if;\n")
    }

    /// Writes a case statement (5.4).
    fn case_statement(
        &mut self,
        subject: &'a Expression,
        alternatives: &'a Vec<Alternative>,
    ) -> Result<(), AllocError> {
        self.after("case ", subject, LOGICAL)?;
        self.put(" is\n")?;
        for alternative in alternatives.iter() {
            self.put("when ")?;
            self.choices(&alternative.choices, SUM)?;
            self.put(" =>\n")?;
            self.statements(&alternative.statements)?;
        }
        self.put("end case;\n")
    }

    /// Writes a loop statement (5.5).
    fn loop_statement(
        &mut self,
        name: &'a Option<Name>,
        head: &'a LoopHead,
        statements: &'a Vec<Statement>,
    ) -> Result<(), AllocError> {
        if let Some(opened) = name {
            self.name(*opened)?;
            self.put(" : ")?;
        }
        self.loop_head(head)?;
        self.put("loop\n")?;
        self.statements(statements)?;
        self.put("end loop")?;
        self.optional_name(" ", name)?;
        self.put(";\n")
    }

    /// Writes how often a loop is run (5.5).
    fn loop_head(&mut self, head: &'a LoopHead) -> Result<(), AllocError> {
        match head {
            LoopHead::Forever => Ok(()),
            LoopHead::While(condition) => {
                self.after("while ", condition, LOGICAL)?;
                self.put(" ")
            }
            LoopHead::For(name, iteration) => {
                self.put("for ")?;
                self.name(*name)?;
                self.iteration(iteration)?;
                self.put(" ")
            }
        }
    }

    /// Writes a block statement (5.6).
    fn block(
        &mut self,
        declarations: &'a Vec<Declaration>,
        sequence: &'a Sequence,
    ) -> Result<(), AllocError> {
        if !declarations.is_empty() {
            self.put("declare\n")?;
            self.declarations(declarations)?;
        }
        self.put("begin\n")?;
        self.sequence(sequence)?;
        self.put("end;\n")
    }

    /// Writes an extended return statement (6.5).
    fn extended_return(
        &mut self,
        variables: &'a Variables,
        sequence: &'a Sequence,
    ) -> Result<(), AllocError> {
        self.put("return ")?;
        self.objects(variables)?;
        if sequence.statements.is_empty() && sequence.handlers.is_empty() {
            return self.put(";\n");
        }
        self.put(" do\n")?;
        self.sequence(sequence)?;
        self.put("end return;\n")
    }

    /// Writes statements with their handlers (11.2).
    pub fn sequence(&mut self, sequence: &'a Sequence) -> Result<(), AllocError> {
        self.statements(&sequence.statements)?;
        if !sequence.handlers.is_empty() {
            self.put("exception\n")?;
        }
        for handler in sequence.handlers.iter() {
            self.handled(handler)?;
            self.statements(&handler.statements)?;
        }
        Ok(())
    }

    /// Writes `when A | B =>`, or `when others =>`.
    fn handled(&mut self, handler: &'a Handler) -> Result<(), AllocError> {
        if handler.exceptions.is_empty() {
            return self.put("when others =>\n");
        }
        let mut before = "when ";
        for exception in handler.exceptions.iter() {
            self.after(before, exception, PRIMARY)?;
            before = " | ";
        }
        self.put(" =>\n")
    }
}
