// SPDX-License-Identifier: MIT
//! Variables get values: of discrete types, aggregates (4.3) and copies of arrays and records (5.2).

use crate::lowering::{LEVELS, Lowering};
use crate::values::{Denoted, Part, Value, choice_place, first_value, slot_cell};
use po_ada_tree::Stop;
use po_ada_tree::tree::{Association, Choice, Expression, Form};
use po_ada_types::Sub;
use po_program::{Area, Binary, Expr, Stmt};

/// Cells that get one value: how far they are from the variable's first one, how many, and the value: a number or a slot.
#[derive(Clone, Copy, Debug)]
struct Filled {
    first: u16,
    count: u16,
    value: Given,
}

/// A variable whose distance from its first cell doesn't change any more: it is in a slot.
#[derive(Clone, Copy, Debug)]
pub struct Steady {
    area: Area,
    first: u16,
    slot: Option<u16>,
}

#[derive(Clone, Copy, Debug)]
enum Given {
    Number(i128),
    Slot(u16),
}

fn given_code(value: Given) -> Expr {
    match value {
        Given::Number(number) => Expr::Number(number),
        Given::Slot(slot) => slot_cell(slot),
    }
}

impl<'a> Lowering<'a> {
    /// A variable gets the value of an expression.
    pub fn give(&mut self, part: Part, expression: &'a Expression) -> Result<(), Stop> {
        if self.known.is_discrete(part.sub.kind) {
            let value = self.value(expression, LEVELS)?;
            let code = self.fit(expression.place, value, part.sub)?;
            return self.put(part, code);
        }
        if let Form::Aggregate(_) | Form::Qualified(_, _) = &expression.form {
            let mut list = Vec::new(self.known.alloc);
            self.aggregate(part.sub, 0, expression, &mut list, LEVELS)?;
            return self.fill(part, list);
        }
        match self.denoted(expression, LEVELS)? {
            Denoted::Part(from) => self.copy(expression.place, part, from),
            _ => Err(
                self.known.refuse(
                    expression.place,
                    "expected a variable or an aggregate (5.2)",
                ),
            ),
        }
    }

    /// A variable of a discrete type gets a value.
    fn put(&mut self, part: Part, value: Expr) -> Result<(), Stop> {
        let Part {
            area,
            first,
            distance,
            ..
        } = part;
        match distance {
            None => self.emit(Stmt::Assign(area, first, value)),
            Some(distance) => self.emit(Stmt::AssignAt(area, first, distance, value)),
        }
    }

    /// Puts the distance of a part into a slot, so that it can be used more than once.
    pub fn steady(&mut self, place: usize, part: Part) -> Result<Steady, Stop> {
        let (area, first) = (part.area, part.first);
        match part.distance {
            None => Ok(Steady {
                area,
                first,
                slot: None,
            }),
            Some(distance) => {
                let slot = self.take_slots(place, 1)?;
                self.emit(Stmt::Assign(Area::Frame, slot, distance))?;
                Ok(Steady {
                    area,
                    first,
                    slot: Some(slot),
                })
            }
        }
    }

    /// A cell of a variable gets a value.
    pub fn put_at(&mut self, target: Steady, offset: u16, value: Expr) -> Result<(), Stop> {
        let cell = target.first.saturating_add(offset);
        match target.slot {
            None => self.emit(Stmt::Assign(target.area, cell, value)),
            Some(slot) => self.emit(Stmt::AssignAt(target.area, cell, slot_cell(slot), value)),
        }
    }

    /// One array or record gets the values of another (5.2).
    pub fn copy(&mut self, place: usize, part: Part, from: Part) -> Result<(), Stop> {
        let width = self.known.width(part.sub);
        if part.sub.kind != from.sub.kind || width != self.known.width(from.sub) {
            return Err(
                self.known.refuse(
                    place,
                    "the variables are of different types or lengths (5.2)",
                ),
            );
        }
        if width > 64 {
            return self.copy_loop(place, part, from, width);
        }
        let source = self.steady(place, from)?;
        let target = self.steady(place, part)?;
        for offset in 0..width {
            let cell = source.first.saturating_add(offset);
            let value = match source.slot {
                None => Expr::Cell(source.area, cell),
                Some(slot) => Expr::CellAt(source.area, cell, self.boxed(slot_cell(slot))?),
            };
            self.put_at(target, offset, value)?;
        }
        Ok(())
    }

    /// The same for many cells, by a loop.
    fn copy_loop(&mut self, place: usize, part: Part, from: Part, width: u16) -> Result<(), Stop> {
        let first = self.take_slots(place, 3)?;
        let (counter, source, target) = (first, first.saturating_add(1), first.saturating_add(2));
        let (from_area, from_first) = (from.area, from.first);
        self.emit(Stmt::Assign(
            Area::Frame,
            source,
            from.distance.unwrap_or(Expr::Number(0)),
        ))?;
        self.emit(Stmt::Assign(
            Area::Frame,
            target,
            part.distance.unwrap_or(Expr::Number(0)),
        ))?;
        let read_at = self.sum(slot_cell(source), slot_cell(counter))?;
        let read = Expr::CellAt(from_area, from_first, self.boxed(read_at)?);
        let write_at = self.sum(slot_cell(target), slot_cell(counter))?;
        let body = Stmt::AssignAt(part.area, part.first, write_at, read);
        self.count_loop(counter, width, body)
    }

    /// Executes a statement with each number below this one in the slot.
    fn count_loop(&mut self, counter: u16, width: u16, body: Stmt) -> Result<(), Stop> {
        self.emit(Stmt::Assign(Area::Frame, counter, Expr::Number(0)))?;
        let next = self.sum(slot_cell(counter), Expr::Number(1))?;
        let advance = Stmt::Assign(Area::Frame, counter, next);
        let test = self.binary(
            Binary::Less,
            slot_cell(counter),
            Expr::Number(i128::from(width)),
        )?;
        let both = Stmt::Then(self.boxed_statement(body)?, self.boxed_statement(advance)?);
        let turn = Stmt::If(
            test,
            self.boxed_statement(both)?,
            self.boxed_statement(Stmt::Exit(0))?,
        );
        let turn = self.boxed_statement(turn)?;
        self.emit(Stmt::Loop(turn))
    }

    /// The cells of a variable get their values.
    fn fill(&mut self, part: Part, list: Vec<Filled>) -> Result<(), Stop> {
        let target = self.steady(0, part)?;
        for filled in list {
            if filled.count > 16 {
                self.fill_loop(target, filled)?;
            } else {
                for offset in 0..filled.count {
                    self.put_at(
                        target,
                        filled.first.saturating_add(offset),
                        given_code(filled.value),
                    )?;
                }
            }
        }
        Ok(())
    }

    fn fill_loop(&mut self, target: Steady, filled: Filled) -> Result<(), Stop> {
        let counter = self.take_slots(0, 1)?;
        let distance = match target.slot {
            None => slot_cell(counter),
            Some(slot) => self.sum(slot_cell(slot), slot_cell(counter))?,
        };
        let body = Stmt::AssignAt(
            target.area,
            target.first.saturating_add(filled.first),
            distance,
            given_code(filled.value),
        );
        self.count_loop(counter, filled.count, body)
    }

    /// The values of an aggregate's components, which are evaluated here (4.3).
    #[cycle(aggregates)]
    fn aggregate(
        &mut self,
        sub: Sub,
        first: u16,
        expression: &'a Expression,
        list: &mut Vec<Filled>,
        levels: usize,
    ) -> Result<(), Stop> {
        let place = expression.place;
        if levels == 0 {
            return Err(self.known.refuse(place, "nested deeper than 100"));
        }
        if list.len() > 4_096 {
            return Err(
                self.known.refuse(
                    place,
                    "an aggregate has at most 4,096 values here: take 'others', or a loop",
                ),
            );
        }
        if self.known.is_discrete(sub.kind) {
            let value = self.value(expression, levels - 1)?;
            return self.scalar(place, sub, first, value, list);
        }
        match &expression.form {
            Form::Qualified(_, operand) => self.aggregate(sub, first, operand, list, levels - 1),
            Form::Aggregate(associations) => self.composite(
                place,
                sub,
                first,
                associations.as_slice(),
                list,
                levels - 1,
            ),
            _ => Err(
                self.known.refuse(
                    place,
                    "in an aggregate an array or a record is an aggregate itself here (4.3)",
                ),
            ),
        }
    }

    /// A value of a discrete type: a number, or in a slot.
    fn scalar(
        &mut self,
        place: usize,
        sub: Sub,
        first: u16,
        value: Value,
        list: &mut Vec<Filled>,
    ) -> Result<(), Stop> {
        let fixed = value.fixed;
        let code = self.fit(place, value, sub)?;
        let value = match fixed {
            Some(number) => Given::Number(number),
            None => {
                let slot = self.take_slots(place, 1)?;
                self.emit(Stmt::Assign(Area::Frame, slot, code))?;
                Given::Slot(slot)
            }
        };
        list.push(Filled {
            first,
            count: 1,
            value,
        })?;
        Ok(())
    }

    /// An aggregate of an array or a record.
    #[cycle(aggregates)]
    fn composite(
        &mut self,
        place: usize,
        sub: Sub,
        first: u16,
        associations: &'a [Association],
        list: &mut Vec<Filled>,
        levels: usize,
    ) -> Result<(), Stop> {
        match self.known.array_parts(sub) {
            Some((index, element, width)) => self.array_aggregate(
                place,
                sub,
                (index, element, width),
                first,
                associations,
                list,
                levels,
            ),
            None => self.record_aggregate(place, sub, first, associations, list, levels),
        }
    }

    /// An aggregate of a record (4.3.1).
    #[cycle(aggregates)]
    fn record_aggregate(
        &mut self,
        place: usize,
        sub: Sub,
        first: u16,
        associations: &'a [Association],
        list: &mut Vec<Filled>,
        levels: usize,
    ) -> Result<(), Stop> {
        let count = self.known.field_count(sub);
        for position in 0..count {
            let Some((name, part, offset)) = self.known.field(sub, position) else {
                break;
            };
            let Some(found) = component_value(associations, position, name) else {
                return Err(
                    self.known
                        .refuse_name(place, "the component ", name, " has no value (4.3.1)"),
                );
            };
            self.aggregate(
                part,
                first.saturating_add(offset),
                &found.value,
                list,
                levels,
            )?;
        }
        for association in associations {
            if association.choices.is_empty() && associations.len() > count {
                return Err(
                    self.known.refuse(association.place, "the record has fewer components (4.3.1)"),
                );
            }
            for choice in association.choices.iter() {
                if !self.known.is_component(sub, choice) {
                    return Err(
                        self.known.refuse(
                            association.place,
                            "the record has no such component (4.3.1)",
                        ),
                    );
                }
            }
        }
        Ok(())
    }

    /// An aggregate of an array: by position, by index, or both with `others` (4.3.3).
    #[cycle(aggregates)]
    fn array_aggregate(
        &mut self,
        place: usize,
        sub: Sub,
        (index, element, width): (usize, Sub, u16),
        first: u16,
        associations: &'a [Association],
        list: &mut Vec<Filled>,
        levels: usize,
    ) -> Result<(), Stop> {
        let mut taken = Vec::new(self.known.alloc);
        for _ in 0..po_ada_types::count(sub) {
            taken.push(false)?;
        }
        let mut next = 0usize;
        for association in associations {
            let mut inner = Vec::new(self.known.alloc);
            self.aggregate(element, 0, &association.value, &mut inner, levels)?;
            if association.choices.is_empty() {
                let range = self.element_position(sub, association, next)?;
                next = next.saturating_add(1);
                self.place_elements(
                    association.place,
                    &mut taken,
                    range,
                    false,
                    (first, width),
                    inner.as_slice(),
                    list,
                )?;
            }
            for choice in association.choices.iter() {
                let range = self.element_range(sub, index, choice)?;
                self.place_elements(
                    association.place,
                    &mut taken,
                    range,
                    is_others(choice),
                    (first, width),
                    inner.as_slice(),
                    list,
                )?;
            }
        }
        if taken.iter().any(|found| !*found) {
            return Err(
                self.known.refuse(
                    place,
                    "the aggregate has a value for each component, or 'others' (4.3.3)",
                ),
            );
        }
        Ok(())
    }

    /// The position of the next component.
    fn element_position(
        &mut self,
        sub: Sub,
        association: &'a Association,
        next: usize,
    ) -> Result<(usize, usize), Stop> {
        if next >= usize::from(po_ada_types::count(sub)) {
            return Err(
                self.known.refuse(
                    association.place,
                    "the aggregate has more values than the array has components (4.3.3)",
                ),
            );
        }
        Ok((next, next.saturating_add(1)))
    }

    /// The positions of components that a choice names: from the first one to before the last one.
    fn element_range(
        &mut self,
        sub: Sub,
        index: usize,
        choice: &'a Choice,
    ) -> Result<(usize, usize), Stop> {
        let count = usize::from(po_ada_types::count(sub));
        if is_others(choice) {
            return Ok((0, count));
        }
        let range = self.choice_range(choice, index)?;
        if range.low < sub.low || range.high > sub.high {
            let place = choice_place(choice);
            return Err(
                self.known.refuse(
                    place,
                    "this index isn't in the array's range: Constraint_Error (4.3.3)",
                ),
            );
        }
        let low = usize::try_from(range.low.saturating_sub(sub.low)).unwrap_or(count);
        let high = usize::try_from(range.high.saturating_sub(sub.low).saturating_add(1)).unwrap_or(
            count,
        );
        Ok((low, high))
    }

    /// The components of a range that have no value yet get this one.
    fn place_elements(
        &mut self,
        place: usize,
        taken: &mut Vec<bool>,
        (low, high): (usize, usize),
        others: bool,
        (first, width): (u16, u16),
        inner: &[Filled],
        list: &mut Vec<Filled>,
    ) -> Result<(), Stop> {
        for position in low..high.max(low) {
            let Some(found) = taken.get_mut(position) else {
                break;
            };
            if *found {
                if others {
                    continue;
                }
                return Err(
                    self.known
                        .refuse(place, "a component has two values (4.3.3)"),
                );
            }
            *found = true;
            let start = first.saturating_add(
                u16::try_from(position).unwrap_or(0).saturating_mul(width),
            );
            for filled in inner {
                append(
                    list,
                    Filled {
                        first: start.saturating_add(filled.first),
                        ..*filled
                    },
                )?;
            }
            if list.len() > 4_096 {
                return Err(
                    self.known.refuse(
                        place,
                        "an aggregate has at most 4,096 values here: take 'others', or a loop",
                    ),
                );
            }
        }
        Ok(())
    }

    /// A variable that gets no value has 0 or the first value of its type in each cell, and defaults of record components.
    pub fn give_first(&mut self, part: Part) -> Result<(), Stop> {
        let mut list = Vec::new(self.known.alloc);
        self.first_values(part.sub, 0, &mut list, LEVELS)?;
        self.fill(part, list)
    }

    #[cycle(firsts)]
    fn first_values(
        &mut self,
        sub: Sub,
        first: u16,
        list: &mut Vec<Filled>,
        levels: usize,
    ) -> Result<(), Stop> {
        if levels == 0 {
            return Ok(());
        }
        if self.known.is_discrete(sub.kind) {
            list.push(Filled {
                first,
                count: 1,
                value: Given::Number(first_value(sub)),
            })?;
            return Ok(());
        }
        let Some((_, element, width)) = self.known.array_parts(sub) else {
            return self.first_fields(sub, first, list, levels - 1);
        };
        let mut inner = Vec::new(self.known.alloc);
        self.first_values(element, 0, &mut inner, levels - 1)?;
        let mut taken = Vec::new(self.known.alloc);
        for _ in 0..po_ada_types::count(sub) {
            taken.push(false)?;
        }
        let count = taken.len();
        self.place_elements(
            0,
            &mut taken,
            (0, count),
            false,
            (first, width),
            inner.as_slice(),
            list,
        )
    }

    #[cycle(firsts)]
    fn first_fields(
        &mut self,
        sub: Sub,
        first: u16,
        list: &mut Vec<Filled>,
        levels: usize,
    ) -> Result<(), Stop> {
        for position in 0..self.known.field_count(sub) {
            let Some((_, part, offset)) = self.known.field(sub, position) else {
                break;
            };
            let default = self.known.field_default(sub, position);
            let start = first.saturating_add(offset);
            match default {
                Some(expression) => {
                    let inner = self.hide_names(self.before_type(sub.kind))?;
                    let made = self.aggregate(part, start, expression, list, LEVELS);
                    self.show_names(inner)?;
                    made?;
                }
                None => self.first_values(part, start, list, levels)?,
            }
        }
        Ok(())
    }
}

/// Adds cells to a list: to the last ones, if they have the same value and come after them.
fn append(list: &mut Vec<Filled>, filled: Filled) -> Result<(), Stop> {
    if let Some(last) = list.last_mut() {
        if let (Given::Number(a), Given::Number(b)) = (last.value, filled.value) {
            if a == b && last.first.checked_add(last.count) == Some(filled.first) {
                last.count = last.count.saturating_add(filled.count);
                return Ok(());
            }
        }
    }
    list.push(filled)?;
    Ok(())
}

fn is_others(choice: &Choice) -> bool {
    matches!(choice, Choice::Others(_))
}

/// The association with the value of a record's component: by its position, its name, or `others`.
fn component_value(
    associations: &[Association],
    position: usize,
    name: u32,
) -> Option<&Association> {
    if let Some(found) = associations.get(position) {
        if found.choices.is_empty() {
            return Some(found);
        }
    }
    for association in associations {
        for choice in association.choices.iter() {
            let names = match choice {
                Choice::Others(_) => true,
                Choice::Value(value) => match value.form {
                    Form::Name(found) => found == name,
                    _ => false,
                },
                _ => false,
            };
            if names {
                return Some(association);
            }
        }
    }
    None
}
