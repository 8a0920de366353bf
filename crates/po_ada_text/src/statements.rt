// SPDX-License-Identifier: MIT
//! Reads statements (5.1). The functions call one another; `levels` says how much deeper they may.

use crate::expressions::are_others;
use crate::lexer::Element;
use crate::reader::{MOST_LEVELS, Reader};
use crate::sign::Sign;
use po_ada_tree::fault::Stop;
use po_ada_tree::reserved::Reserved;
use po_ada_tree::tree::{
    Action, Alternative, Branch, Choice, Constraint, Expression, Form, Handler, LoopHead, Name,
    Pragma, Sequence, Statement, Subtype, Variables,
};

/// Why a statement isn't read; nothing if it may be.
fn refusal(word: Reserved) -> Option<&'static str> {
    match word {
        Reserved::Goto => Some("'goto' isn't in this subset: write a loop with 'exit' (5.8)"),
        Reserved::Delay => Some(
            "'delay' isn't allowed in a protected action, which must not block (9.5.1)",
        ),
        Reserved::Select => Some(
            "'select' isn't allowed in a protected action, which must not block (9.5.1)",
        ),
        Reserved::Accept => Some("'accept' stands in a task alone (9.5.2)"),
        Reserved::Abort => Some(
            "'abort' isn't allowed in a protected action, which must not block (9.5.1)",
        ),
        Reserved::Terminate => Some("'terminate' stands in a 'select' of a task alone (9.7.1)"),
        Reserved::Parallel => Some("parallel blocks and loops aren't in this subset (5.6.1)"),
        _ => None,
    }
}

/// Whether statements end before this element.
fn ends_statements(element: Element) -> bool {
    matches!(
        element,
        Element::End
            | Element::Reserved(Reserved::End)
            | Element::Reserved(Reserved::Else)
            | Element::Reserved(Reserved::Elsif)
            | Element::Reserved(Reserved::When)
            | Element::Reserved(Reserved::Exception)
            | Element::Reserved(Reserved::Entry)
            | Element::Reserved(Reserved::Procedure)
            | Element::Reserved(Reserved::Function)
            | Element::Reserved(Reserved::Protected)
            | Element::Reserved(Reserved::Package)
    )
}

/// Whether a statement begins with this element.
fn begins_statement(element: Element) -> bool {
    match element {
        Element::Name(_) => true,
        Element::Reserved(word) => {
            matches!(
                word,
                Reserved::Null
                    | Reserved::If
                    | Reserved::Case
                    | Reserved::Loop
                    | Reserved::While
                    | Reserved::For
                    | Reserved::Declare
                    | Reserved::Begin
                    | Reserved::Exit
                    | Reserved::Return
                    | Reserved::Raise
                    | Reserved::Requeue
                    | Reserved::Pragma
            )
        }
        _ => false,
    }
}

/// A fault is told, so that reading goes on; want of memory ends it.
pub fn go_on(stop: Stop) -> Result<(), Stop> {
    match stop {
        Stop::Fault => Ok(()),
        Stop::OutOfMemory => Err(stop),
    }
}

/// Both, if the second was read. What was read before a step that can fail goes through here, so that the prover meets one place
/// that lets it go.
pub fn both<A: Drop, B>(first: A, second: Result<B, Stop>) -> Result<(A, B), Stop> {
    match second {
        Ok(second) => Ok((first, second)),
        Err(stop) => Err(stop),
    }
}

/// The value, if what has to come after it was read.
pub fn before<A: Drop>(value: A, after: Result<(), Stop>) -> Result<A, Stop> {
    match after {
        Ok(()) => Ok(value),
        Err(stop) => Err(stop),
    }
}

impl<'a> Reader<'a> {
    /// An expression that stands for one that was faulty.
    fn faulty(&self) -> Expression {
        Expression {
            place: self.place(),
            height: 1,
            form: Form::Null,
        }
    }

    /// Reads the semicolon that ends a statement or a declaration. If it is missing, goes on at the next statement.
    pub fn semicolon(&mut self) -> Result<(), Stop> {
        if self.takes_sign(Sign::Semicolon) {
            return Ok(());
        }
        let stop = self.expected("';'");
        if !begins_statement(self.peek()) && !ends_statements(self.peek()) {
            self.skip_semicolon();
        }
        go_on(stop)
    }

    /// Reads an expression up to this word. After a fault, goes on at the word.
    pub fn expression_up_to(&mut self, word: Reserved) -> Result<Expression, Stop> {
        match self.expression(MOST_LEVELS) {
            Ok(expression) => {
                if let Err(stop) = self.needs(word) {
                    go_on(stop)?;
                }
                Ok(expression)
            }
            Err(stop) => {
                go_on(stop)?;
                if !self.skip_to(word) {
                    return Err(stop);
                }
                self.step();
                Ok(self.faulty())
            }
        }
    }

    /// Reads `end` and this word and a semicolon.
    fn closes(&mut self, word: Reserved) -> Result<(), Stop> {
        self.needs(Reserved::End)?;
        if let Err(stop) = self.needs(word) {
            go_on(stop)?;
            self.skip_semicolon();
            return Ok(());
        }
        self.semicolon()
    }

    /// Tells a fault if no statement comes next (5.1).
    fn needs_statement(&mut self) -> Result<(), Stop> {
        if !ends_statements(self.peek()) {
            return Ok(());
        }
        let stop = self.expected("a statement ('null;' does nothing)");
        go_on(stop)
    }

    /// Reads statements up to a word that ends them. After a fault, goes on at the next statement.
    #[cycle(blocks)]
    pub fn statements(&mut self, levels: usize) -> Result<Vec<Statement>, Stop> {
        self.needs_statement()?;
        let mut list = Vec::new(self.alloc);
        for _ in 0..self.turns() {
            if ends_statements(self.peek()) {
                break;
            }
            match self.statement(levels) {
                Ok(statement) => list.push(statement)?,
                Err(stop) => {
                    go_on(stop)?;
                    self.skip_semicolon();
                }
            }
        }
        Ok(list)
    }

    /// Reads a statement.
    #[cycle(blocks)]
    fn statement(&mut self, levels: usize) -> Result<Statement, Stop> {
        let place = self.place();
        if levels == 0 {
            return Err(self.too_deep(place));
        }
        let action = self.action(levels - 1)?;
        Ok(Statement { place, action })
    }

    /// Reads a name and its colon, if they come next: that of a loop, of a block or of an exception occurrence.
    fn name_before_colon(&mut self) -> Result<Option<Name>, Stop> {
        if self.ahead(1) != Element::Sign(Sign::Colon) {
            return Ok(None);
        }
        let Element::Name(_) = self.peek() else {
            return Ok(None);
        };
        let name = self.name("a name")?;
        self.step();
        Ok(Some(name))
    }

    /// Reads what a statement does.
    #[cycle(blocks)]
    fn action(&mut self, levels: usize) -> Result<Action, Stop> {
        let name = self.name_before_colon()?;
        match self.peek() {
            Element::Reserved(Reserved::Loop)
            | Element::Reserved(Reserved::While)
            | Element::Reserved(Reserved::For) => self.loop_statement(name, levels),
            Element::Reserved(Reserved::Declare) | Element::Reserved(Reserved::Begin) => {
                self.block(name, levels)
            }
            _ if name.is_some() => Err(self.expected(
                "'loop', 'while', 'for', 'declare' or 'begin' after a statement's name",
            )),
            Element::Reserved(Reserved::If) => self.if_statement(levels),
            Element::Reserved(Reserved::Case) => self.case_statement(levels),
            Element::Reserved(Reserved::Return) => self.return_statement(levels),
            _ => self.simple_statement(),
        }
    }

    /// Reads a statement that has no statements in it.
    fn simple_statement(&mut self) -> Result<Action, Stop> {
        match self.peek() {
            Element::Reserved(Reserved::Null) => {
                self.step();
                self.semicolon()?;
                Ok(Action::Null)
            }
            Element::Reserved(Reserved::Exit) => self.exit_statement(),
            Element::Reserved(Reserved::Raise) => self.raise_statement(),
            Element::Reserved(Reserved::Requeue) => self.requeue_statement(),
            Element::Reserved(Reserved::Pragma) => Ok(Action::Pragma(self.pragma()?)),
            Element::Reserved(word) => Err(self.no_statement(word)),
            Element::Name(_) => self.assignment_or_call(),
            Element::Sign(Sign::LeftLabel) => Err(self.no_statement(Reserved::Goto)),
            _ => Err(self.expected("a statement")),
        }
    }

    /// The fault of a word that begins no statement of the subset.
    fn no_statement(&mut self, word: Reserved) -> Stop {
        let place = self.place();
        match refusal(word) {
            Some(message) => self.refuse(place, message),
            None => self.expected("a statement"),
        }
    }

    /// Reads an assignment or a call of a procedure (5.2, 6.4).
    fn assignment_or_call(&mut self) -> Result<Action, Stop> {
        let name = self.name_expression(MOST_LEVELS)?;
        if !self.takes_sign(Sign::Becomes) {
            if self.sees_sign(Sign::Equal) {
                return Err(self.expected("':=', which assigns"));
            }
            if let Form::Name(number) = name.form {
                self.ends_call(Name {
                    number,
                    place: name.place,
                })?;
                return Ok(Action::Call(name));
            }
            self.semicolon()?;
            return Ok(Action::Call(name));
        }
        let value = self.expression(MOST_LEVELS)?;
        self.semicolon()?;
        Ok(Action::Assign(name, value))
    }

    /// Reads the semicolon after a call; another word than a procedure's name may have been meant.
    fn ends_call(&mut self, name: Name) -> Result<(), Stop> {
        if self.sees_sign(Sign::Semicolon) {
            self.step();
            return Ok(());
        }
        Err(self.misspelled(name, "';'"))
    }

    /// Reads an exit statement (5.7).
    fn exit_statement(&mut self) -> Result<Action, Stop> {
        self.step();
        let mut name = None;
        if let Element::Name(_) = self.peek() {
            name = Some(self.name("a loop's name")?);
        }
        let mut condition = None;
        if self.takes(Reserved::When) {
            condition = Some(self.expression(MOST_LEVELS)?);
        }
        self.semicolon()?;
        Ok(Action::Exit(name, condition))
    }

    /// Reads a raise statement (11.3).
    fn raise_statement(&mut self) -> Result<Action, Stop> {
        self.step();
        if self.takes_sign(Sign::Semicolon) {
            return Ok(Action::Raise(None, None));
        }
        let exception = self.name_expression(MOST_LEVELS)?;
        let mut message = None;
        if self.takes(Reserved::With) {
            message = Some(self.expression(MOST_LEVELS)?);
        }
        self.semicolon()?;
        Ok(Action::Raise(Some(exception), message))
    }

    /// Reads a requeue statement (9.5.4).
    fn requeue_statement(&mut self) -> Result<Action, Stop> {
        self.step();
        let entry = self.name_expression(MOST_LEVELS)?;
        let with_abort = self.takes(Reserved::With);
        if with_abort {
            self.needs(Reserved::Abort)?;
        }
        self.semicolon()?;
        Ok(Action::Requeue(entry, with_abort))
    }

    /// Reads a pragma (2.8).
    pub fn pragma(&mut self) -> Result<Pragma, Stop> {
        self.step();
        let name = self.name("a pragma's name")?;
        let mut arguments = Vec::new(self.alloc);
        if self.sees_sign(Sign::LeftParenthesis) {
            self.step();
            arguments = self.arguments()?;
        }
        self.semicolon()?;
        Ok(Pragma { name, arguments })
    }

    /// Reads an if statement (5.3).
    #[cycle(blocks)]
    fn if_statement(&mut self, levels: usize) -> Result<Action, Stop> {
        let mut branches = Vec::new(self.alloc);
        let mut otherwise = Vec::new(self.alloc);
        for _ in 0..self.turns() {
            if !self.takes(Reserved::If) && !self.takes(Reserved::Elsif) {
                break;
            }
            let condition = self.expression_up_to(Reserved::Then)?;
            let statements = self.statements(levels)?;
            branches.push(Branch {
                condition,
                statements,
            })?;
            if !self.sees(Reserved::Elsif) {
                break;
            }
        }
        if self.takes(Reserved::Else) {
            otherwise = self.statements(levels)?;
        }
        self.closes(Reserved::If)?;
        Ok(Action::If(branches, otherwise))
    }

    /// Reads the choices of an alternative, up to `=>`.
    fn alternative_choices(&mut self) -> Result<Vec<Choice>, Stop> {
        let choices = self.choice_list()?;
        self.needs_sign(Sign::Arrow)?;
        Ok(choices)
    }

    /// Reads a case statement (5.4).
    #[cycle(blocks)]
    fn case_statement(&mut self, levels: usize) -> Result<Action, Stop> {
        self.step();
        let subject = self.expression_up_to(Reserved::Is)?;
        let mut alternatives = Vec::new(self.alloc);
        for _ in 0..self.turns() {
            let place = self.place();
            if !self.takes(Reserved::When) {
                break;
            }
            let choices = self.alternative_choices()?;
            let statements = self.statements(levels)?;
            self.needs_last(are_others(choices.as_slice()))?;
            alternatives.push(Alternative {
                place,
                choices,
                statements,
            })?;
        }
        self.closes(Reserved::Case)?;
        Ok(Action::Case(subject, alternatives))
    }

    /// Reads what comes before `loop`.
    fn loop_head(&mut self) -> Result<LoopHead, Stop> {
        if self.takes(Reserved::While) {
            return Ok(LoopHead::While(self.expression_up_to(Reserved::Loop)?));
        }
        if self.takes(Reserved::For) {
            let name = self.name("the name of a loop parameter")?;
            let iteration = self.iteration()?;
            self.needs(Reserved::Loop)?;
            return Ok(LoopHead::For(name, iteration));
        }
        self.needs(Reserved::Loop)?;
        Ok(LoopHead::Forever)
    }

    /// Reads a loop statement (5.5).
    #[cycle(blocks)]
    fn loop_statement(&mut self, name: Option<Name>, levels: usize) -> Result<Action, Stop> {
        let head = self.loop_head()?;
        let statements = self.statements(levels)?;
        self.needs(Reserved::End)?;
        self.needs(Reserved::Loop)?;
        if let Some(opened) = name {
            self.closing_name(opened, "the loop's name")?;
        }
        self.semicolon()?;
        Ok(Action::Loop(name, head, statements))
    }

    /// Reads a block statement (5.6).
    #[cycle(blocks)]
    fn block(&mut self, name: Option<Name>, levels: usize) -> Result<Action, Stop> {
        let mut declarations = Vec::new(self.alloc);
        if self.takes(Reserved::Declare) {
            declarations = self.declarations()?;
        }
        self.needs(Reserved::Begin)?;
        let sequence = self.sequence(levels)?;
        self.needs(Reserved::End)?;
        if let Some(opened) = name {
            self.closing_name(opened, "the block's name")?;
        }
        self.semicolon()?;
        Ok(Action::Block(declarations, sequence))
    }

    /// Reads a return statement (6.5).
    #[cycle(blocks)]
    fn return_statement(&mut self, levels: usize) -> Result<Action, Stop> {
        self.step();
        if self.takes_sign(Sign::Semicolon) {
            return Ok(Action::Return(None));
        }
        let is_extended = matches!(self.peek(), Element::Name(_))
            && self.ahead(1) == Element::Sign(Sign::Colon);
        if !is_extended {
            let value = self.expression(MOST_LEVELS)?;
            self.semicolon()?;
            return Ok(Action::Return(Some(value)));
        }
        let variables = self.return_object()?;
        let mut sequence = Sequence {
            statements: Vec::new(self.alloc),
            handlers: Vec::new(self.alloc),
        };
        if self.takes(Reserved::Do) {
            sequence = self.sequence(levels)?;
            self.closes(Reserved::Return)?;
        } else {
            self.semicolon()?;
        }
        Ok(Action::ExtendedReturn(variables, sequence))
    }

    /// Reads `Name : Subtype := Value` of an extended return.
    fn return_object(&mut self) -> Result<Variables, Stop> {
        let mut names = Vec::new(self.alloc);
        names.push(self.name("a name")?)?;
        self.step();
        self.takes(Reserved::Aliased);
        let constant = self.takes(Reserved::Constant);
        let subtype = self.subtype()?;
        let value = self.initial_value()?;
        Ok(Variables {
            names,
            constant,
            subtype,
            value,
        })
    }

    /// Reads statements with handlers of exceptions (11.2).
    #[cycle(blocks)]
    pub fn sequence(&mut self, levels: usize) -> Result<Sequence, Stop> {
        let statements = self.statements(levels)?;
        let mut handlers = Vec::new(self.alloc);
        if !self.takes(Reserved::Exception) {
            return Ok(Sequence {
                statements,
                handlers,
            });
        }
        for _ in 0..self.turns() {
            let place = self.place();
            self.needs(Reserved::When)?;
            let occurrence = self.name_before_colon()?;
            let exceptions = self.handled()?;
            let start = self.next;
            let statements = self.statements(levels)?;
            self.needs_unused(occurrence, start)?;
            self.needs_last(exceptions.is_empty())?;
            handlers.push(Handler {
                place,
                exceptions,
                statements,
            })?;
            if !self.sees(Reserved::When) {
                break;
            }
        }
        Ok(Sequence {
            statements,
            handlers,
        })
    }

    /// Tells a fault if the exception occurrence of this name is used in the handler, whose statements begin with this element: what can
    /// be done with it isn't read.
    fn needs_unused(&mut self, occurrence: Option<Name>, start: usize) -> Result<(), Stop> {
        let Some(place) = occurrence.and_then(|name| self.use_of(name, start)) else {
            return Ok(());
        };
        go_on(self.refuse(
            place,
            "exception occurrences aren't in this subset: leave out what uses it (11.4.1)",
        ))
    }

    /// The place of this name between the element with this number and the next one to be read.
    fn use_of(&self, name: Name, start: usize) -> Option<usize> {
        for number in start..self.next {
            if let Some(placed) = self.elements.get(number) {
                if placed.element == Element::Name(name.number) {
                    return Some(placed.place);
                }
            }
        }
        None
    }

    /// Reads the exceptions of a handler, up to `=>`; none for `others`.
    fn handled(&mut self) -> Result<Vec<Expression>, Stop> {
        let mut list = Vec::new(self.alloc);
        if !self.takes(Reserved::Others) {
            for _ in 0..self.turns() {
                list.push(self.name_expression(MOST_LEVELS)?)?;
                if !self.takes_sign(Sign::Bar) {
                    break;
                }
            }
        }
        self.needs_sign(Sign::Arrow)?;
        Ok(list)
    }

    /// Reads `:= Value`, if it comes next.
    pub fn initial_value(&mut self) -> Result<Option<Expression>, Stop> {
        if !self.takes_sign(Sign::Becomes) {
            return Ok(None);
        }
        Ok(Some(self.expression(MOST_LEVELS)?))
    }

    /// Reads a subtype's name and its constraint (3.2.2).
    pub fn subtype(&mut self) -> Result<Subtype, Stop> {
        let mark = self.subtype_mark()?;
        let mut constraint = Constraint::Absent;
        if self.takes(Reserved::Range) {
            constraint = Constraint::Range(self.discrete_range()?);
        } else if self.takes_sign(Sign::LeftParenthesis) {
            constraint = Constraint::Index(self.index_constraint()?);
        }
        Ok(Subtype { mark, constraint })
    }

    /// Reads the ranges of an index constraint after its parenthesis (3.6.1).
    fn index_constraint(&mut self) -> Result<Vec<Choice>, Stop> {
        let mut list = Vec::new(self.alloc);
        for _ in 0..self.turns() {
            list.push(self.discrete_range()?)?;
            if !self.takes_sign(Sign::Comma) {
                break;
            }
        }
        self.needs_sign(Sign::RightParenthesis)?;
        Ok(list)
    }
}
