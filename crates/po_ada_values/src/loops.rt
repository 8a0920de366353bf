// SPDX-License-Identifier: MIT
//! Loops over ranges and over the components of arrays (5.5), and quantified expressions (4.5.8).

use crate::choices::{Bounds, Chosen};
use crate::lowering::Lowering;
use crate::values::{Denoted, Lowered, Part, Value, computed, fixed_value, range_of, slot_cell};
use po_ada_tree::Stop;
use po_ada_tree::tree::Name;
use po_ada_types::{BOOLEAN, Meaning, Sub, Variable};
use po_program::{Area, Binary, Expr, Stmt};

/// A loop over a range whose turns are to come: the slot of its parameter, the slot of its last value, and whether reverse.
#[derive(Clone, Copy, Debug)]
pub struct Opened {
    parameter: u16,
    last: u16,
    reversed: bool,
    /// The slot of a distance that each turn changes, and by how much.
    distance: Option<(u16, u16)>,
}

impl<'a> Lowering<'a> {
    /// Begins a loop over a range, with its parameter (5.5).
    pub fn open_range(
        &mut self,
        name: Name,
        chosen: Chosen,
        reversed: bool,
    ) -> Result<Opened, Stop> {
        let within = chosen.within;
        let Bounds { low, high, kind } = self.bounds(chosen)?;
        let opened = self.open_bounds(name, low, high, reversed)?;
        if let Some(sub) = within {
            self.check_bounds(opened, sub)?;
        }
        let variable = Variable {
            area: Area::Frame,
            first: opened.parameter,
            distance: None,
            sub: self.known.whole(kind),
            constant: true,
        };
        self.known.define(name, Meaning::Variable(variable))?;
        Ok(opened)
    }

    /// The slots of a loop's parameter and of its last value.
    fn open_bounds(
        &mut self,
        name: Name,
        low: Value,
        high: Value,
        reversed: bool,
    ) -> Result<Opened, Stop> {
        let parameter = self.take_slots(name.place, 2)?;
        let last = parameter.saturating_add(1);
        let (first, end) = if reversed { (high, low) } else { (low, high) };
        self.emit(Stmt::Assign(Area::Frame, parameter, first.code))?;
        self.emit(Stmt::Assign(Area::Frame, last, end.code))?;
        Ok(Opened {
            parameter,
            last,
            reversed,
            distance: None,
        })
    }

    /// Checks that the bounds of a loop are in this subtype, unless the range is empty (3.2.2).
    fn check_bounds(&mut self, opened: Opened, sub: Sub) -> Result<(), Stop> {
        let (low, high) = if opened.reversed {
            (opened.last, opened.parameter)
        } else {
            (opened.parameter, opened.last)
        };
        let has_turns = self.binary(Binary::AtMost, slot_cell(low), slot_cell(high))?;
        let low = self.check_slot(low, sub)?;
        let high = self.check_slot(high, sub)?;
        let both = Stmt::Then(self.boxed_statement(low)?, self.boxed_statement(high)?);
        let some = self.boxed_statement(both)?;
        let none = self.boxed_statement(Stmt::Null)?;
        self.emit(Stmt::If(has_turns, some, none))
    }

    /// What checks that the value in the slot is in this subtype.
    fn check_slot(&mut self, slot: u16, sub: Sub) -> Result<Stmt, Stop> {
        let checked = Expr::Check(range_of(sub), self.boxed(slot_cell(slot))?);
        Ok(Stmt::Assign(Area::Frame, slot, checked))
    }

    /// Begins a loop over the components of an array: the name stands for each of them (5.5.2).
    pub fn open_components(
        &mut self,
        name: Name,
        denoted: Denoted,
        reversed: bool,
    ) -> Result<Opened, Stop> {
        let Denoted::Part(part) = denoted else {
            return Err(
                self.known
                    .refuse(name.place, "'of' comes before an array (5.5.2)"),
            );
        };
        let Some((index, element, width)) = self.known.array_parts(part.sub) else {
            return Err(
                self.known
                    .refuse(name.place, "'of' comes before an array (5.5.2)"),
            );
        };
        if self.known.dimensions(part.sub) > 1 {
            return Err(
                self.known.refuse(
                    name.place,
                    "'of' comes before an array with one index here: write a loop over each index (5.5.2)",
                ),
            );
        }
        let Part {
            area,
            first,
            distance,
            sub,
            constant,
        } = part;
        let slot = self.first_distance(name, distance, start_of(sub, width, reversed))?;
        let (low, high) = (fixed_value(index, sub.low), fixed_value(index, sub.high));
        let mut opened = self.open_bounds(name, low, high, reversed)?;
        opened.distance = Some((slot, width));
        let variable = Variable {
            area,
            first,
            distance: Some(slot),
            sub: element,
            constant,
        };
        self.known.define(name, Meaning::Variable(variable))?;
        Ok(opened)
    }

    /// The slot with the distance of the first component of a loop.
    fn first_distance(
        &mut self,
        name: Name,
        distance: Option<Expr>,
        start: i128,
    ) -> Result<u16, Stop> {
        let slot = self.take_slots(name.place, 1)?;
        let begin = match distance {
            Some(distance) => self.sum(distance, Expr::Number(start))?,
            None => Expr::Number(start),
        };
        self.emit(Stmt::Assign(Area::Frame, slot, begin))?;
        Ok(slot)
    }

    /// Ends a loop over a range: its statements are executed for each value.
    pub fn close_for(&mut self, opened: Opened, body: Stmt) -> Result<(), Stop> {
        let (low, high) = if opened.reversed {
            (opened.last, opened.parameter)
        } else {
            (opened.parameter, opened.last)
        };
        let advance = self.advance(opened)?;
        let is_last = self.binary(
            Binary::Equal,
            slot_cell(opened.parameter),
            slot_cell(opened.last),
        )?;
        let turn_end = Stmt::If(
            is_last,
            self.boxed_statement(Stmt::Exit(0))?,
            self.boxed_statement(advance)?,
        );
        let turn = Stmt::Then(self.boxed_statement(body)?, self.boxed_statement(turn_end)?);
        let whole = Stmt::Loop(self.boxed_statement(turn)?);
        let has_turns = self.binary(Binary::AtMost, slot_cell(low), slot_cell(high))?;
        let none = self.boxed_statement(Stmt::Null)?;
        let some = self.boxed_statement(whole)?;
        self.emit(Stmt::If(has_turns, some, none))
    }

    /// What comes between two turns of a loop.
    fn advance(&mut self, opened: Opened) -> Result<Stmt, Stop> {
        let step = if opened.reversed { -1 } else { 1 };
        let next = self.sum(slot_cell(opened.parameter), Expr::Number(step))?;
        let advance = Stmt::Assign(Area::Frame, opened.parameter, next);
        let Some((slot, width)) = opened.distance else {
            return Ok(advance);
        };
        let width = i128::from(width).saturating_mul(step);
        let further = self.sum(slot_cell(slot), Expr::Number(width))?;
        let moved = Stmt::Assign(Area::Frame, slot, further);
        Ok(Stmt::Then(self.boxed_statement(moved)?, self.boxed_statement(advance)?))
    }

    /// The slot with the result of a quantified expression, as it is before the first turn (4.5.8).
    pub fn open_quantified(&mut self, is_all: bool, name: Name) -> Result<u16, Stop> {
        let result = self.take_slots(name.place, 1)?;
        let first = if is_all { 1 } else { 0 };
        self.emit(Stmt::Assign(Area::Frame, result, Expr::Number(first)))?;
        Ok(result)
    }

    /// The loop of a quantified expression: if the condition decides, the result is set and the loop is left.
    pub fn close_quantified(
        &mut self,
        is_all: bool,
        outcome: u16,
        opened: Opened,
        conditions: Vec<Lowered>,
    ) -> Result<Value, Stop> {
        let before = self.begin_list();
        let made = self.quantified_turn(is_all, outcome, conditions);
        let body = self.end_sequence(before)?;
        made?;
        self.close_for(opened, body)?;
        Ok(computed(BOOLEAN, slot_cell(outcome)))
    }

    fn quantified_turn(
        &mut self,
        is_all: bool,
        slot: u16,
        conditions: Vec<Lowered>,
    ) -> Result<(), Stop> {
        for condition in conditions {
            self.emit_all(condition.code)?;
            let test = self.truth(condition.place, condition.value)?;
            self.decide(is_all, slot, test)?;
        }
        Ok(())
    }

    /// One turn: whether the condition decides.
    fn decide(&mut self, is_all: bool, slot: u16, test: Expr) -> Result<(), Stop> {
        let decided = if is_all { 0 } else { 1 };
        let test = if is_all { self.not(test)? } else { test };
        let set = self.boxed_statement(Stmt::Assign(Area::Frame, slot, Expr::Number(decided)))?;
        let leave = self.boxed_statement(Stmt::Exit(0))?;
        let both = self.boxed_statement(Stmt::Then(set, leave))?;
        let rest = self.boxed_statement(Stmt::Null)?;
        self.emit(Stmt::If(test, both, rest))
    }

    /// The value of a condition (4.5.7, 5.3).
    pub fn truth(&mut self, place: usize, value: Value) -> Result<Expr, Stop> {
        if value.kind != BOOLEAN && !value.raises {
            let kind = self.known.kind_name(value.kind);
            return Err(
                self.known.refuse_name(
                    place,
                    "expected a condition, and here is a value of the type ",
                    kind,
                    "",
                ),
            );
        }
        Ok(value.code)
    }
}

/// How far the first component of a loop is from the first one of the array.
fn start_of(sub: Sub, width: u16, reversed: bool) -> i128 {
    if reversed {
        sub.high
            .saturating_sub(sub.low)
            .saturating_mul(i128::from(width))
    } else {
        0
    }
}
