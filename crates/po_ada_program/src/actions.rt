// SPDX-License-Identifier: MIT
//! Statements get their meaning (5.1).

use crate::making::Making;
use po_ada_tree::Stop;
use po_ada_tree::tree::{
    Action, Alternative, Association, Attribute, Branch, Expression, Form, Handler, Kind, LoopHead,
    Mode, Name, Pragma, Sequence, Statement, Variables,
};
use po_ada_types::{Meaning, Sub};
use po_ada_values::{Denoted, LEVELS, Part, Steady, Subject, range_of, sequence, slot_cell};
use po_program::{
    ASSERTION_ERROR, Area, Expr, MESSAGES, PROGRAM_ERROR, Range, Stmt, TOO_MANY_TURNS,
};

impl<'a> Making<'a> {
    /// The meaning of statements. After a fault, goes on with the next one.
    #[cycle(actions)]
    pub fn statements(&mut self, list: &'a [Statement], levels: usize) -> Result<(), Stop> {
        for statement in list {
            let (slots, scope) = (self.lowering.slots, self.lowering.known.scope.len());
            match self.statement(statement, levels) {
                Ok(()) => {}
                Err(Stop::OutOfMemory) => return Err(Stop::OutOfMemory),
                Err(Stop::Fault) => self.lowering.known.scope.truncate(scope),
            }
            self.lowering.slots = slots;
        }
        Ok(())
    }

    /// The meaning of statements, as one.
    #[cycle(actions)]
    fn whole_sequence(&mut self, list: &'a [Statement], levels: usize) -> Result<Stmt, Stop> {
        let before = self.lowering.begin_list();
        let made = self.statements(list, levels);
        let body = self.lowering.end_sequence(before)?;
        made?;
        Ok(body)
    }

    #[cycle(actions)]
    fn statement(&mut self, statement: &'a Statement, levels: usize) -> Result<(), Stop> {
        let place = statement.place;
        if levels == 0 {
            return Err(self.lowering.known.refuse(place, "nested deeper than 100"));
        }
        match &statement.action {
            Action::Null => Ok(()),
            Action::Assign(target, value) => self.assignment(target, value),
            Action::Call(call) => self.call_statement(call),
            Action::If(branches, otherwise) => self.if_statement(branches, otherwise, levels - 1),
            Action::Case(subject, alternatives) => self.case_statement(
                place,
                subject,
                alternatives,
                levels - 1,
            ),
            Action::Loop(name, head, list) => self.loop_statement(name, head, list, levels - 1),
            Action::Exit(name, condition) => self.exit_statement(place, name, condition),
            Action::Return(value) => self.return_statement(place, value),
            Action::ExtendedReturn(variables, list) => self.extended_return(
                place,
                variables,
                list,
                levels - 1,
            ),
            Action::Raise(exception, message) => self.raise_statement(place, exception, message),
            Action::Requeue(entry, with_abort) => self.requeue_statement(place, entry, *with_abort),
            Action::Block(declarations, list) => {
                let scope = self.lowering.known.scope.len();
                self.locals(declarations)?;
                self.handled_sequence(list, levels - 1)?;
                self.lowering.known.scope.truncate(scope);
                Ok(())
            }
            Action::Pragma(pragma) => self.pragma(pragma),
        }
    }

    /// The variable that a name denotes, which may be changed here.
    pub fn target(&mut self, expression: &'a Expression) -> Result<Part, Stop> {
        let denoted = self.lowering.denoted(expression, LEVELS)?;
        let Denoted::Part(part) = denoted else {
            return Err(
                self.lowering
                    .known
                    .refuse(expression.place, "expected a variable (5.2)"),
            );
        };
        if part.constant {
            return Err(
                self.lowering.known.refuse(
                    expression.place,
                    "this is a constant, a loop parameter or a parameter of mode 'in' (3.3)",
                ),
            );
        }
        if part.area == Area::Object && self.is_function() {
            return Err(
                self.lowering.known.refuse(
                    expression.place,
                    "a protected function changes nothing of the object (9.5.1)",
                ),
            );
        }
        Ok(part)
    }

    fn is_function(&self) -> bool {
        self.current_kind() == Some(Kind::Function)
    }

    fn current_kind(&self) -> Option<Kind> {
        let declared = self.lowering.operations.get(self.current?)?;
        Some(declared.profile.kind)
    }

    /// An assignment (5.2).
    fn assignment(&mut self, target: &'a Expression, value: &'a Expression) -> Result<(), Stop> {
        let part = self.target(target)?;
        self.lowering.give(part, value)
    }

    /// A call of a procedure (6.4).
    fn call_statement(&mut self, call: &'a Expression) -> Result<(), Stop> {
        let place = call.place;
        let (operation, list) = self.called(call)?;
        let kind = self.lowering.kind_of(operation);
        if kind == Kind::Entry {
            return Err(
                self.lowering.known.refuse(
                    place,
                    "an entry call from inside would wait for itself: write 'requeue' (9.5.1)",
                ),
            );
        }
        if kind == Kind::Function {
            return Err(
                self.lowering
                    .known
                    .refuse(place, "the result of a function has to be used (6.4)"),
            );
        }
        if self.is_function() && !self.lowering.is_outside(operation) {
            return Err(
                self.lowering.known.refuse(
                    place,
                    "a protected function doesn't call a procedure of the object (9.5.1)",
                ),
            );
        }
        let targets = self.targets(place, operation, list)?;
        let first = self.lowering.call(place, operation, list)?;
        self.copy_back(targets, first)
    }

    /// The operation that a call names, and the actuals.
    fn called(&mut self, call: &'a Expression) -> Result<(usize, &'a [Association]), Stop> {
        let (prefix, list): (&'a Expression, &'a [Association]) = match &call.form {
            Form::Applied(prefix, list) => (prefix, list),
            _ => (call, &[]),
        };
        match self.lowering.denoted(prefix, LEVELS)? {
            Denoted::Operation(operation) => Ok((operation, list)),
            _ => Err(
                self.lowering.known.refuse(
                    call.place,
                    "expected a statement: a call of a procedure, or ':=' after a variable (5.1)",
                ),
            ),
        }
    }

    /// The variables of parameters `out` and `in out`, each with the parameter's position, as they are before the call (6.4.1).
    fn targets(
        &mut self,
        place: usize,
        operation: usize,
        list: &'a [Association],
    ) -> Result<Vec<(u16, Steady, Sub)>, Stop> {
        let mut targets = Vec::new(self.lowering.known.alloc);
        let mut position = 0u16;
        for index in 0..self.lowering.parameter_count(operation) {
            if let Some(parameter) = self.lowering.parameter(operation, index) {
                if parameter.mode != Mode::In {
                    let actual = self.lowering.actual(place, operation, index, list)?;
                    let part = self.target(actual)?;
                    self.lowering
                        .known
                        .unify(actual.place, parameter.sub.kind, part.sub.kind)?;
                    let sub = part.sub;
                    targets.push((position, self.lowering.steady(actual.place, part)?, sub))?;
                }
            }
            position = position.saturating_add(1);
        }
        Ok(targets)
    }

    /// The variables get the values that are in the call's slots (6.4.1).
    fn copy_back(&mut self, targets: Vec<(u16, Steady, Sub)>, first: u16) -> Result<(), Stop> {
        for (position, steady, sub) in targets {
            let slot = first.saturating_add(position);
            let value = Expr::Check(range_of(sub), self.lowering.boxed(slot_cell(slot))?);
            self.lowering.put_at(steady, 0, value)?;
        }
        Ok(())
    }

    /// An if statement (5.3): the branches from the last one on.
    #[cycle(actions)]
    fn if_statement(
        &mut self,
        branches: &'a [Branch],
        otherwise: &'a [Statement],
        levels: usize,
    ) -> Result<(), Stop> {
        let mut tests = Vec::new(self.lowering.known.alloc);
        for branch in branches {
            let before = self.lowering.begin_list();
            let test = self.lowering.condition(&branch.condition);
            let code = self.lowering.end_list(before);
            let body = self.whole_sequence(branch.statements.as_slice(), levels)?;
            tests.push((code, test?, body))?;
        }
        let mut rest = self.whole_sequence(otherwise, levels)?;
        for _ in 0..branches.len() {
            if let Some((code, test, body)) = tests.pop() {
                let mut list = code;
                list.push(Stmt::If(
                    test,
                    self.lowering.boxed_statement(body)?,
                    self.lowering.boxed_statement(rest)?,
                ))?;
                rest = sequence(self.lowering.known.alloc, list)?;
            }
        }
        self.lowering.emit(rest)
    }

    /// A case statement (5.4).
    #[cycle(actions)]
    fn case_statement(
        &mut self,
        place: usize,
        subject: &'a Expression,
        alternatives: &'a [Alternative],
        levels: usize,
    ) -> Result<(), Stop> {
        if alternatives.len() > 256 {
            return Err(
                self.lowering
                    .known
                    .refuse(place, "a case statement has at most 256 alternatives"),
            );
        }
        let value = self.lowering.value(subject, LEVELS)?;
        let subject = self.lowering.subject(subject, value)?;
        let mut ranges = Vec::new(self.lowering.known.alloc);
        let mut tests = Vec::new(self.lowering.known.alloc);
        for alternative in alternatives {
            let test = self.alternative_test(subject, alternative, &mut ranges)?;
            let body = self.whole_sequence(alternative.statements.as_slice(), levels)?;
            tests.push((test, body))?;
        }
        self.lowering
            .covered(place, subject.sub, ranges.as_slice())?;
        let mut rest = Stmt::Null;
        if let Some((_, last)) = tests.pop() {
            rest = last;
        }
        for _ in 0..alternatives.len() {
            if let Some((test, body)) = tests.pop() {
                rest = Stmt::If(
                    test,
                    self.lowering.boxed_statement(body)?,
                    self.lowering.boxed_statement(rest)?,
                );
            }
        }
        self.lowering.emit(rest)
    }

    /// Whether the subject has one of the alternative's values, whose ranges are added to the list.
    fn alternative_test(
        &mut self,
        subject: Subject,
        alternative: &'a Alternative,
        ranges: &mut Vec<Range>,
    ) -> Result<Expr, Stop> {
        let from = ranges.len();
        self.lowering
            .alternative_ranges(subject.sub.kind, alternative.choices.as_slice(), ranges)?;
        self.lowering
            .case_test(subject.slot, ranges.get(from..).unwrap_or(&[]))
    }

    /// A loop statement (5.5).
    #[cycle(actions)]
    fn loop_statement(
        &mut self,
        name: &'a Option<Name>,
        head: &'a LoopHead,
        list: &'a [Statement],
        levels: usize,
    ) -> Result<(), Stop> {
        let scope = self.lowering.known.scope.len();
        let mut opened = None;
        if let LoopHead::For(parameter, iteration) = head {
            opened = Some(self.lowering.open_for(*parameter, iteration, LEVELS)?);
        }
        self.loops.push(name.map(|found| found.number))?;
        let before = self.lowering.begin_list();
        let made = self.loop_turn(head, list, levels);
        let body = self.lowering.end_sequence(before)?;
        self.loops.pop();
        self.lowering.known.scope.truncate(scope);
        made?;
        match opened {
            Some(opened) => self.lowering.close_for(opened, body),
            None => {
                let body = self.lowering.boxed_statement(body)?;
                self.lowering.emit(Stmt::Loop(body))
            }
        }
    }

    /// One turn of a loop; of a while loop with its condition.
    #[cycle(actions)]
    fn loop_turn(
        &mut self,
        head: &'a LoopHead,
        list: &'a [Statement],
        levels: usize,
    ) -> Result<(), Stop> {
        if let LoopHead::While(condition) = head {
            let slots = self.lowering.slots;
            let test = self.lowering.condition(condition)?;
            self.lowering.slots = slots;
            let leave = self.lowering.boxed_statement(Stmt::Exit(0))?;
            let stay = self.lowering.boxed_statement(Stmt::Null)?;
            self.lowering.emit(Stmt::If(test, stay, leave))?;
        }
        self.statements(list, levels)
    }

    /// An exit statement (5.7).
    fn exit_statement(
        &mut self,
        place: usize,
        name: &'a Option<Name>,
        condition: &'a Option<Expression>,
    ) -> Result<(), Stop> {
        if self.loops.is_empty() {
            return Err(
                self.lowering
                    .known
                    .refuse(place, "'exit' stands in no loop (5.7)"),
            );
        }
        let wanted = name.map(|found| found.number);
        let around = match wanted {
            None => Some(0),
            Some(_) => self.loops.iter().rev().position(|found| *found == wanted),
        };
        let Some(around) = around else {
            return Err(
                self.lowering
                    .known
                    .refuse(place, "no loop around this has that name (5.7)"),
            );
        };
        let leave = Stmt::Exit(u16::try_from(around).unwrap_or(0));
        let Some(condition) = condition else {
            return self.lowering.emit(leave);
        };
        let test = self.lowering.condition(condition)?;
        let leave = self.lowering.boxed_statement(leave)?;
        let stay = self.lowering.boxed_statement(Stmt::Null)?;
        self.lowering.emit(Stmt::If(test, leave, stay))
    }

    /// The subtype of the result of the function whose body is read.
    fn current_result(&self) -> Option<Sub> {
        self.lowering.operations.get(self.current?)?.returns
    }

    /// The statement that ends the body: before a postcondition it leaves the loop around the body.
    pub fn leave(&mut self) -> Result<(), Stop> {
        if !self.has_postcondition {
            return self.lowering.emit(Stmt::Return);
        }
        let around = u16::try_from(self.loops.len()).unwrap_or(0);
        self.lowering.emit(Stmt::Exit(around))
    }

    /// Ends a function with a result.
    pub fn give_result(&mut self, code: Expr) -> Result<(), Stop> {
        let slot = self.result_slot;
        self.lowering.emit(Stmt::Assign(Area::Frame, slot, code))?;
        self.leave()
    }

    /// Raises Assertion_Error unless the condition holds (11.4.2).
    pub fn assertion(&mut self, condition: &'a Expression, exception: u32) -> Result<(), Stop> {
        let test = self.lowering.condition(condition)?;
        self.raise_unless(test, exception)
    }

    /// A return statement (6.5).
    fn return_statement(
        &mut self,
        place: usize,
        value: &'a Option<Expression>,
    ) -> Result<(), Stop> {
        match (value, self.current_result()) {
            (None, None) => self.leave(),
            (Some(value), Some(sub)) => {
                let result = self.lowering.value(value, LEVELS)?;
                let code = self.lowering.fit(value.place, result, sub)?;
                self.give_result(code)
            }
            (None, Some(_)) => Err(
                self.lowering
                    .known
                    .refuse(place, "a function returns a value (6.5)"),
            ),
            (Some(_), None) => Err(
                self.lowering
                    .known
                    .refuse(place, "only a function returns a value (6.5)"),
            ),
        }
    }

    /// An extended return statement (6.5).
    #[cycle(actions)]
    fn extended_return(
        &mut self,
        place: usize,
        variables: &'a Variables,
        list: &'a Sequence,
        levels: usize,
    ) -> Result<(), Stop> {
        let Some(sub) = self.current_result() else {
            return Err(
                self.lowering
                    .known
                    .refuse(place, "only a function returns a value (6.5)"),
            );
        };
        let scope = self.lowering.known.scope.len();
        self.variables(variables, true)?;
        self.handled_sequence(list, levels)?;
        let result = match variables
            .names
            .first()
            .and_then(|name| self.lowering.known.look_up(name.number))
        {
            Some(Meaning::Variable(variable)) => self.lowering.part(variable),
            _ => return Err(
                self.lowering
                    .known
                    .refuse(place, "expected a variable's name (6.5)"),
            ),
        };
        self.lowering.known.scope.truncate(scope);
        let value = self.lowering.read(place, result)?;
        let code = self.lowering.fit(place, value, sub)?;
        self.give_result(code)
    }

    /// A raise statement (11.3).
    fn raise_statement(
        &mut self,
        place: usize,
        exception: &'a Option<Expression>,
        message: &'a Option<Expression>,
    ) -> Result<(), Stop> {
        let Some(exception) = exception else {
            return match self.handled {
                Some(slot) => self.lowering.emit(Stmt::Raise(slot_cell(slot))),
                None => Err(
                    self.lowering.known.refuse(
                        place,
                        "'raise' without an exception stands in a handler alone (11.3)",
                    ),
                ),
            };
        };
        let number = self.lowering.exception(exception)?;
        let Some(message) = message else {
            return self
                .lowering
                .emit(Stmt::Raise(Expr::Number(i128::from(number))));
        };
        if let Form::Attribute(prefix, Attribute::Image, list) = &message.form {
            return self.raise_image(number, prefix, list.as_slice());
        }
        let number = self.lowering.with_message(number, message)?;
        self.lowering
            .emit(Stmt::Raise(Expr::Number(i128::from(number))))
    }

    /// `raise E with T'Image (A)`: the message is the number.
    fn raise_image(
        &mut self,
        exception: u32,
        prefix: &'a Expression,
        list: &'a [Association],
    ) -> Result<(), Stop> {
        let shown = match list.first() {
            Some(association) => &association.value,
            None => prefix,
        };
        let value = self.lowering.value(shown, LEVELS)?;
        if !self.lowering.known.is_integer(value.kind) {
            return Err(
                self.lowering.known.refuse(
                    shown.place,
                    "in a message 'Image is of an integer type here: write a string (11.3)",
                ),
            );
        }
        let slot = self.lowering.take_slots(shown.place, 1)?;
        self.lowering
            .emit(Stmt::Assign(Area::Frame, slot, value.code))?;
        let most = i128::from(MESSAGES / 2).saturating_sub(2);
        let fits = Expr::In(
            Range { low: 0, high: most },
            self.lowering.boxed(slot_cell(slot))?,
        );
        let number = self.lowering.sum(
            slot_cell(slot),
            Expr::Number(i128::from(exception).saturating_add(1)),
        )?;
        let with = self.lowering.boxed_statement(Stmt::Raise(number))?;
        let without = self
            .lowering
            .boxed_statement(Stmt::Raise(Expr::Number(i128::from(exception))))?;
        self.lowering.emit(Stmt::If(fits, with, without))
    }

    /// A requeue statement (9.5.4).
    fn requeue_statement(
        &mut self,
        place: usize,
        entry: &'a Expression,
        with_abort: bool,
    ) -> Result<(), Stop> {
        if self.current_kind() != Some(Kind::Entry) {
            return Err(
                self.lowering
                    .known
                    .refuse(place, "only the body of an entry requeues (9.5.4)"),
            );
        }
        let (operation, distance) = match self.lowering.denoted(entry, LEVELS)? {
            Denoted::Operation(operation) if self.lowering.is_family(operation) => return Err(
                self.lowering
                    .known
                    .refuse(entry.place, "an entry family needs an index (9.5.4)"),
            ),
            Denoted::Operation(operation) => (operation, Expr::Number(0)),
            Denoted::Member(operation, distance) => (operation, distance),
            _ => return Err(
                self.lowering.known.refuse(
                    entry.place,
                    "expected an entry of this object: a requeue to another object isn't in this subset (9.5.4)",
                ),
            ),
        };
        let first = match self.lowering.operations.get(operation) {
            Some(declared) if declared.profile.kind == Kind::Entry => declared.entry,
            _ => return Err(
                self.lowering
                    .known
                    .refuse(entry.place, "a requeue is to an entry (9.5.4)"),
            ),
        };
        if !self.may_requeue(operation) {
            return Err(
                self.lowering.known.refuse(
                    entry.place,
                    "the entry has to have no parameters, or those of this one (9.5.4)",
                ),
            );
        }
        self.check_requeue(entry.place, operation)?;
        self.lowering
            .emit(Stmt::Requeue(first, distance, with_abort))
    }

    /// Whether the entry has no parameters, or the types of those of the current one.
    fn may_requeue(&self, operation: usize) -> bool {
        let (Some(target), Some(own)) = (
            self.lowering.operations.get(operation),
            self.lowering
                .operations
                .get(self.current.unwrap_or(operation)),
        ) else {
            return false;
        };
        if target.parameters.is_empty() {
            return true;
        }
        target.parameters.len() == own.parameters.len()
            && target
                .parameters
                .iter()
                .zip(own.parameters.iter())
                .all(|(a, b)| a.mode == b.mode && a.sub == b.sub)
    }

    /// A pragma among statements.
    fn pragma(&mut self, pragma: &'a Pragma) -> Result<(), Stop> {
        if self.lowering.known.names.find("assert") != Some(pragma.name.number) {
            return Err(
                self.lowering.known.refuse(
                    pragma.name.place,
                    "of pragmas among statements this subset has Assert alone (11.4.2)",
                ),
            );
        }
        let Some(check) = pragma.arguments.first() else {
            return Err(
                self.lowering.known.refuse(
                    pragma.name.place,
                    "pragma Assert has a condition in parentheses (11.4.2)",
                ),
            );
        };
        let mut number = ASSERTION_ERROR;
        if let Some(message) = pragma.arguments.get(1) {
            number = self.lowering.with_message(number, &message.value)?;
        }
        self.assertion(&check.value, number)
    }

    /// Statements with handlers of exceptions (11.2, 11.4).
    #[cycle(actions)]
    pub fn handled_sequence(&mut self, list: &'a Sequence, levels: usize) -> Result<(), Stop> {
        if list.handlers.is_empty() {
            return self.statements(list.statements.as_slice(), levels);
        }
        let place = match list.handlers.first() {
            Some(handler) => handler.place,
            None => 0,
        };
        let slot = self.lowering.take_slots(place, 1)?;
        let body = self.whole_sequence(list.statements.as_slice(), levels)?;
        let handled = self.handled;
        self.handled = Some(slot);
        let handlers = self.handlers(slot, list.handlers.as_slice(), levels);
        self.handled = handled;
        let handlers = handlers?;
        let body = self.lowering.boxed_statement(body)?;
        let handlers = self.lowering.boxed_statement(handlers)?;
        self.lowering.emit(Stmt::Handle(body, slot, handlers))
    }

    /// The handlers, from the last one on; an exception that none serves is raised again.
    #[cycle(actions)]
    fn handlers(
        &mut self,
        slot: u16,
        handlers: &'a [Handler],
        levels: usize,
    ) -> Result<Stmt, Stop> {
        let mut tests = Vec::new(self.lowering.known.alloc);
        for handler in handlers {
            let test = self.handler_test(slot, handler)?;
            let body = self.whole_sequence(handler.statements.as_slice(), levels)?;
            tests.push((test, body))?;
        }
        let mut rest = Stmt::Raise(slot_cell(slot));
        for _ in 0..handlers.len() {
            if let Some((test, body)) = tests.pop() {
                rest = Stmt::If(
                    test,
                    self.lowering.boxed_statement(body)?,
                    self.lowering.boxed_statement(rest)?,
                );
            }
        }
        Ok(rest)
    }

    /// Whether the exception in the slot is one of the handler's; for `others`, any but this runtime's limits.
    fn handler_test(&mut self, slot: u16, handler: &'a Handler) -> Result<Expr, Stop> {
        if handler.exceptions.is_empty() {
            let limits = Range {
                low: i128::from(TOO_MANY_TURNS),
                high: i128::from(TOO_MANY_TURNS)
                    .saturating_add(i128::from(MESSAGES).saturating_mul(2))
                    .saturating_sub(1),
            };
            let is_limit = Expr::In(limits, self.lowering.boxed(slot_cell(slot))?);
            return Ok(Expr::If(
                self.lowering.boxed(is_limit)?,
                self.lowering.boxed(Expr::Number(0))?,
                self.lowering.boxed(Expr::Number(1))?,
            ));
        }
        let mut test: Option<Expr> = None;
        for exception in handler.exceptions.iter() {
            let number = i128::from(self.lowering.exception(exception)?);
            let range = Range {
                low: number,
                high: number
                    .saturating_add(i128::from(MESSAGES))
                    .saturating_sub(1),
            };
            let here = Expr::In(range, self.lowering.boxed(slot_cell(slot))?);
            test = Some(match test {
                None => here,
                Some(before) => Expr::OrElse(
                    self.lowering.boxed(before)?,
                    self.lowering.boxed(here)?,
                ),
            });
        }
        Ok(test.unwrap_or(Expr::Number(0)))
    }

    /// What ends a function that returns no value: Program_Error (6.5).
    pub fn function_end(&mut self) -> Result<(), Stop> {
        self.lowering
            .emit(Stmt::Raise(Expr::Number(i128::from(PROGRAM_ERROR))))
    }
}
