// SPDX-License-Identifier: MIT
//! The preconditions of entries (6.1.1). A precondition is checked before the protected action of a call, so it is a function of the
//! entry's parameters, constants and functions that stand before the object.

use crate::making::Making;
use po_ada_tree::Stop;
use po_ada_tree::tree::{Expression, Kind};
use po_ada_types::{Meaning, Symbol};
use po_ada_values::{body_number, slot_cell};
use po_program::{ASSERTION_ERROR, Area, Expr, Operation, Stmt};

/// What is said of a precondition that names what the object has.
const INSIDE: &str =
    "the precondition of an entry is checked before the protected action: it reads parameters, constants and functions that stand before the object; for the object's own write a barrier, or pragma Assert in the body (6.1.1, 9.5.3)";

impl<'a> Making<'a> {
    /// The preconditions of the entries as functions, in the order of the declarations. A value other than 0 is True.
    pub fn made_preconditions(&mut self) -> Result<Vec<Operation>, Stop> {
        let scope = self.lowering.known.scope.len();
        let doubtful = self.has_faulty_name();
        self.hide_object()?;
        let mut made = Vec::new(self.lowering.known.alloc);
        for number in 0..self.lowering.operations.len() {
            if let Some((place, condition)) = self.entry_precondition(number) {
                self.preconditions.push(number)?;
                made.push(self.made_precondition(place, number, condition, doubtful)?)?;
            }
        }
        self.lowering.known.scope.truncate(scope);
        Ok(made)
    }

    /// Whether the declaration of a name has a fault.
    fn has_faulty_name(&self) -> bool {
        self.lowering
            .known
            .scope
            .iter()
            .any(|symbol| matches!(symbol.meaning, Meaning::Faulty))
    }

    /// The variables and the operations of the object can't be read from here on: their names are faulty.
    fn hide_object(&mut self) -> Result<(), Stop> {
        for index in self.lowering.outside..self.lowering.known.scope.len() {
            let found = self.lowering.known.scope.get(index).copied();
            if let Some(symbol) = found {
                if matches!(symbol.meaning, Meaning::Variable(_) | Meaning::Operation(_)) {
                    self.lowering.known.scope.push(Symbol {
                        name: symbol.name,
                        meaning: Meaning::Faulty,
                    })?;
                }
            }
        }
        Ok(())
    }

    /// The function that a precondition is. `doubtful` says whether a faulty name may be of no hidden thing.
    fn made_precondition(
        &mut self,
        place: usize,
        number: usize,
        condition: &'a Expression,
        doubtful: bool,
    ) -> Result<Operation, Stop> {
        let scope = self.lowering.known.scope.len();
        self.begin_frame(number);
        let list = self.lowering.begin_list();
        let before = self.lowering.known.told();
        let done = match self.precondition_code(number, condition) {
            Err(Stop::Fault) if !doubtful && self.lowering.known.told() == before => Err(
                self.lowering.known.refuse(place, INSIDE),
            ),
            done => done,
        };
        self.ended_operation(scope, list, done)
    }

    /// Gives slot 0 the value of a precondition.
    fn precondition_code(&mut self, number: usize, condition: &'a Expression) -> Result<(), Stop> {
        if let Some(declared) = self.lowering.operations.get(number) {
            let profile = declared.profile;
            self.body_parameters(profile)?;
        }
        let test = self.lowering.condition(condition)?;
        self.lowering.emit(Stmt::Assign(Area::Frame, 0, test))
    }

    /// The position of the entry's precondition among all, if it has one.
    fn precondition_position(&self, number: usize) -> Option<u16> {
        let position = self
            .preconditions
            .iter()
            .position(|found| *found == number)?;
        u16::try_from(position).ok()
    }

    /// The number in the program of the function that is the entry's precondition: they come after all other operations.
    fn precondition_number(&self, number: usize) -> Option<u16> {
        let first = body_number(self.lowering.operations.len());
        Some(first.saturating_add(self.precondition_position(number)?))
    }

    /// How many functions are visible.
    fn visible_functions(&self) -> usize {
        self.lowering
            .operations
            .iter()
            .filter(|declared| declared.public && declared.profile.kind == Kind::Function)
            .count()
    }

    /// The number of the entry's precondition among the functions of the program: they come after the visible ones.
    pub fn precondition_function(&self, number: usize) -> Option<u16> {
        let position = self.precondition_position(number)?;
        let first = u16::try_from(self.visible_functions()).ok()?;
        Some(first.saturating_add(position))
    }

    /// Checks the precondition of the entry that a call is requeued to, as for a call: with the parameters as they are (9.5.4).
    pub fn check_requeue(&mut self, place: usize, number: usize) -> Result<(), Stop> {
        let Some(function) = self.precondition_number(number) else {
            return Ok(());
        };
        let count = u16::try_from(self.lowering.parameter_count(number)).unwrap_or(0);
        let first = self.lowering.take_slots(place, count.max(1))?;
        for slot in 0..count {
            self.lowering.emit(Stmt::Assign(
                Area::Frame,
                first.saturating_add(slot),
                slot_cell(slot),
            ))?;
        }
        self.lowering.emit(Stmt::Call(function, first))?;
        self.raise_unless(slot_cell(first), ASSERTION_ERROR)
    }

    /// Raises the exception unless the condition holds (11.4.2).
    pub fn raise_unless(&mut self, test: Expr, exception: u32) -> Result<(), Stop> {
        let raise = Stmt::Raise(Expr::Number(i128::from(exception)));
        let fails = self.lowering.boxed_statement(raise)?;
        let holds = self.lowering.boxed_statement(Stmt::Null)?;
        self.lowering.emit(Stmt::If(test, holds, fails))
    }
}
