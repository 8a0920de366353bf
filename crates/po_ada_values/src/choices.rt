// SPDX-License-Identifier: MIT
//! Choices, discrete ranges and membership tests, of parts that were evaluated (3.6.1, 3.8.1, 4.5.2).

use crate::conditionals::Subject;
use crate::lowering::Lowering;
use crate::values::{
    Denoted, Lowered, Operand, Placed, Value, choice_place, computed, fixed_value, only_value,
    range_of, slot_cell, two_values,
};
use po_ada_tree::Stop;
use po_ada_tree::tree::{Association, Attribute, Choice, Expression, Form};
use po_ada_types::{BOOLEAN, GREATEST, INTEGER, LEAST, Sub, UNIVERSAL};
use po_program::{Base, Binary, Expr, Range};

/// The fault of an attribute with the number of an index that there isn't.
pub const NO_INDEX: &str = "the array has no index with this number (3.6.2)";

/// The fault of bounds that have to be static.
const NOT_STATIC: &str = "expected static bounds: numbers, constants and discriminants (4.9)";

/// What a choice says.
#[derive(Debug, Drop)]
pub enum Choosing {
    /// `others`
    All,
    Type(Sub),
    Value(Value),
    /// The bounds, and the type that they have together.
    Range(Value, Value, usize),
}

/// A choice whose parts were evaluated.
#[derive(Debug, Drop)]
pub struct Chosen {
    pub place: usize,
    pub form: Choosing,
    /// The subtype that is named before a range.
    pub within: Option<Sub>,
}

/// The bounds of a discrete range, and its type.
#[derive(Debug, Drop)]
pub struct Bounds {
    pub low: Value,
    pub high: Value,
    pub kind: usize,
}

/// The array or type before `'Range`, if the choice is this attribute, and what is in its parentheses.
pub fn range_prefix(choice: &Choice) -> Option<(&Expression, &[Association])> {
    match choice {
        Choice::Value(value) => match &value.form {
            Form::Attribute(prefix, Attribute::Range, list) => Some((prefix, list.as_slice())),
            _ => None,
        },
        _ => None,
    }
}

/// The number of an index in parentheses, which is 1 if there are none (3.6.2).
pub fn index_number(list: &[Association]) -> Option<i128> {
    match list.first() {
        None => Some(1),
        Some(only) => match only.value.form {
            Form::Number(number) if list.len() == 1 => Some(i128::from(number)),
            _ => None,
        },
    }
}

impl<'a> Lowering<'a> {
    /// The choices of a membership test or of a case expression.
    pub fn choices_of(&self, form: &'a Form) -> Result<Vec<&'a Choice>, Stop> {
        let mut list = Vec::new(self.known.alloc);
        if let Form::Member(_, choices) = form {
            for choice in choices.iter() {
                list.push(choice)?;
            }
        }
        if let Form::Case(_, arms) = form {
            for arm in arms.iter() {
                for choice in arm.choices.iter() {
                    list.push(choice)?;
                }
            }
        }
        Ok(list)
    }

    /// The values of a case expression's alternatives.
    pub fn arm_values(&self, form: &'a Form) -> Result<Vec<Operand<'a>>, Stop> {
        let mut list = Vec::new(self.known.alloc);
        if let Form::Case(_, arms) = form {
            for arm in arms.iter() {
                list.push(Operand::Written(&arm.value))?;
            }
        }
        Ok(list)
    }

    /// Refuses a choice that is one value: a range has to stand there (3.6.1).
    pub fn admit_range(&mut self, choice: &'a Choice) -> Result<(), Stop> {
        match choice {
            Choice::Value(value)
                if range_prefix(choice).is_none() && self.known.named_type(value).is_none() => {
                Err(
                    self.known.refuse(
                        value.place,
                        "expected a range: a discrete type, 'A .. B' or A'Range (3.6.1)",
                    ),
                )
            }
            _ => Ok(()),
        }
    }

    /// The parts of a choice that are evaluated.
    pub fn choice_operands(&self, choice: &'a Choice) -> Result<Vec<Operand<'a>>, Stop> {
        let mut list = Vec::new(self.known.alloc);
        match choice {
            Choice::Value(value) => {
                if range_prefix(choice).is_none() && self.known.named_type(value).is_none() {
                    list.push(Operand::Written(value))?;
                }
            }
            Choice::Range(low, high) | Choice::Constrained(_, low, high) => {
                list.push(Operand::Written(low))?;
                list.push(Operand::Written(high))?;
            }
            Choice::Others(_) => {}
        }
        Ok(list)
    }

    /// The part of an array whose first index is the one with this number, or a type with none (3.6.2).
    pub fn with_index(&self, sub: Sub, number: Option<i128>) -> Option<Sub> {
        let number = usize::try_from(number?).ok()?;
        if number == 0 || number > self.known.dimensions(sub).max(1) {
            return None;
        }
        let mut part = sub;
        for _ in 1..number {
            part = self.known.array_parts(part)?.1;
        }
        Some(part)
    }

    /// `A'Range`, perhaps of the index with this number (3.6.2).
    pub fn chosen_range(
        &mut self,
        place: usize,
        denoted: Denoted,
        number: Option<i128>,
    ) -> Result<Chosen, Stop> {
        let sub = match denoted {
            Denoted::Type(sub) => Some(sub),
            Denoted::Part(part) => Some(part.sub),
            _ => None,
        };
        let sub = match sub {
            Some(sub) => match self.with_index(sub, number) {
                Some(part) => Some(part),
                None => return Err(self.known.refuse(place, NO_INDEX)),
            },
            None => None,
        };
        match sub.and_then(|sub| self.index_range(sub)) {
            Some(sub) => Ok(Chosen {
                place,
                form: Choosing::Type(sub),
                within: None,
            }),
            None => Err(
                self.known
                    .refuse(place, "'Range comes after an array or a type (3.6.2)"),
            ),
        }
    }

    /// The range of an array's index, or of a discrete type.
    fn index_range(&self, sub: Sub) -> Option<Sub> {
        match self.known.array_parts(sub) {
            Some((index, _, _)) => Some(Sub { kind: index, ..sub }),
            None if self.known.is_discrete(sub.kind) => Some(sub),
            None => None,
        }
    }

    /// A choice whose parts have these values.
    pub fn chosen_of(&mut self, choice: &'a Choice, values: Vec<Lowered>) -> Result<Chosen, Stop> {
        let place = choice_place(choice);
        let values = self.emitted(values)?;
        let mut within = None;
        let form = match choice {
            Choice::Others(_) => Choosing::All,
            Choice::Value(value) => match self.known.named_type(value) {
                Some(sub) => Choosing::Type(sub),
                None => self.chosen_value(place, values)?,
            },
            Choice::Range(_, high) => self.chosen_pair(high.place, None, values)?,
            Choice::Constrained(mark, _, high) => {
                let sub = self.known.subtype_mark(mark)?;
                within = Some(sub);
                self.chosen_pair(high.place, Some(sub.kind), values)?
            }
        };
        Ok(Chosen {
            place,
            form,
            within,
        })
    }

    fn chosen_value(&mut self, place: usize, values: Vec<Placed>) -> Result<Choosing, Stop> {
        match only_value(values) {
            Some(placed) => Ok(Choosing::Value(placed.value)),
            None => Err(
                self.known
                    .refuse(place, "expected a value or a range (3.8.1)"),
            ),
        }
    }

    fn chosen_pair(
        &mut self,
        place: usize,
        kind: Option<usize>,
        values: Vec<Placed>,
    ) -> Result<Choosing, Stop> {
        let Some((first, last)) = two_values(values) else {
            return Err(self.known.refuse(place, "a range has two bounds (3.5)"));
        };
        let found = self.known.unify(place, first.value.kind, last.value.kind)?;
        let found = match kind {
            Some(kind) => self.known.unify(place, kind, found)?,
            None => found,
        };
        Ok(Choosing::Range(first.value, last.value, found))
    }

    /// The bounds of a choice that is a discrete range (3.6.1).
    pub fn bounds(&mut self, chosen: Chosen) -> Result<Bounds, Stop> {
        let Chosen { place, form, .. } = chosen;
        match form {
            Choosing::Type(sub) if self.known.is_discrete(sub.kind) => Ok(Bounds {
                low: fixed_value(sub.kind, sub.low),
                high: fixed_value(sub.kind, sub.high),
                kind: sub.kind,
            }),
            Choosing::Range(low, high, kind) => {
                let kind = if kind == UNIVERSAL { INTEGER } else { kind };
                Ok(Bounds { low, high, kind })
            }
            Choosing::All => Err(self.known.refuse(place, "'others' is no range")),
            _ => Err(
                self.known.refuse(
                    place,
                    "expected a range: a discrete type, 'A .. B' or A'Range (3.6.1)",
                ),
            ),
        }
    }

    /// A range that isn't empty is within that of the subtype that is named before it, if there is one (3.2.2).
    pub fn admit_within(
        &mut self,
        place: usize,
        found: Sub,
        within: Option<Sub>,
    ) -> Result<Sub, Stop> {
        match within {
            Some(sub)
                if found.low <= found.high && (found.low < sub.low || found.high > sub.high) => Err(
                self.known.refuse(place, "the range isn't within that of the subtype (3.2.2)"),
            ),
            _ => Ok(found),
        }
    }

    /// A range of a type, whose bounds have to be static (4.9.1).
    pub fn static_bounds_in(&mut self, kind: usize, chosen: Chosen) -> Result<Sub, Stop> {
        let (place, within) = (chosen.place, chosen.within);
        match &chosen.form {
            Choosing::All => return Err(self.known.refuse(place, "'others' is no range")),
            Choosing::Range(first, last, _) if first.fixed.is_none() || last.fixed.is_none() =>
                return Err(self.known.refuse(place, NOT_STATIC)),
            _ => {}
        }
        let Range { low, high } = self.static_choice(kind, &chosen)?;
        self.admit_within(place, Sub { kind, low, high }, within)
    }

    /// A range whose bounds have to be static (4.9.1).
    pub fn static_bounds(&mut self, chosen: Chosen) -> Result<Sub, Stop> {
        let (place, within) = (chosen.place, chosen.within);
        let bounds = self.bounds(chosen)?;
        match (bounds.low.fixed, bounds.high.fixed) {
            (Some(low), Some(high)) => {
                let kind = bounds.kind;
                self.admit_within(place, Sub { kind, low, high }, within)
            }
            _ => Err(self.known.refuse(place, NOT_STATIC)),
        }
    }

    /// The number of a value that has to be static.
    pub fn static_number(&mut self, place: usize, value: &Value) -> Result<i128, Stop> {
        match value.fixed {
            Some(number) => Ok(number),
            None => Err(
                self.known.refuse(
                    place,
                    "expected a static value: numbers, constants and discriminants (4.9)",
                ),
            ),
        }
    }

    /// The static range of a choice of values of a type; all values for `others`.
    pub fn static_choice(&mut self, kind: usize, chosen: &Chosen) -> Result<Range, Stop> {
        let place = chosen.place;
        match &chosen.form {
            Choosing::All => Ok(Range {
                low: LEAST,
                high: GREATEST,
            }),
            Choosing::Type(sub) => {
                self.known.unify(place, kind, sub.kind)?;
                Ok(range_of(*sub))
            }
            Choosing::Value(value) => {
                let number = self.static_number(place, value)?;
                self.known.unify(place, kind, value.kind)?;
                Ok(Range {
                    low: number,
                    high: number,
                })
            }
            Choosing::Range(first, last, found) => {
                let low = self.static_number(place, first)?;
                let high = self.static_number(place, last)?;
                self.known.unify(place, kind, *found)?;
                Ok(Range { low, high })
            }
        }
    }

    /// Adds the ranges of choices to those of a case; a value has one alternative (5.4).
    pub fn add_ranges(
        &mut self,
        kind: usize,
        choices: Vec<Chosen>,
        ranges: &mut Vec<Range>,
    ) -> Result<(), Stop> {
        for chosen in choices.iter() {
            let range = self.static_choice(kind, chosen)?;
            if is_taken(range, ranges.as_slice()) {
                return Err(
                    self.known
                        .refuse(chosen.place, "a value has two alternatives (5.4)"),
                );
            }
            ranges.push(range)?;
        }
        Ok(())
    }

    /// A membership test: whether the value in the slot is in one of the choices (4.5.2).
    pub fn member(&mut self, subject: Subject, choices: Vec<Chosen>) -> Result<Value, Stop> {
        let mut test: Option<Expr> = None;
        for chosen in choices {
            let here = self.member_test(subject.slot, subject.sub.kind, chosen)?;
            test = Some(self.either(test, here)?);
        }
        Ok(computed(BOOLEAN, test.unwrap_or(Expr::Number(0))))
    }

    /// Whether the value in the slot is in the choice.
    fn member_test(&mut self, slot: u16, kind: usize, chosen: Chosen) -> Result<Expr, Stop> {
        let Chosen { place, form, .. } = chosen;
        match form {
            Choosing::All => Err(
                self.known
                    .refuse(place, "'others' stands in no membership test (4.5.2)"),
            ),
            Choosing::Type(sub) => {
                self.known.unify(place, kind, sub.kind)?;
                Ok(Expr::In(range_of(sub), self.boxed(slot_cell(slot))?))
            }
            Choosing::Value(value) => {
                self.known.unify(place, kind, value.kind)?;
                Ok(self.binary(Binary::Equal, slot_cell(slot), value.code)?)
            }
            Choosing::Range(first, last, found) => {
                self.known.unify(place, kind, found)?;
                self.between(slot, first.code, last.code)
            }
        }
    }

    /// Whether the value in the slot is between two others.
    fn between(&self, slot: u16, low: Expr, high: Expr) -> Result<Expr, Stop> {
        let above = self.binary(Binary::AtMost, low, slot_cell(slot))?;
        let below = self.binary(Binary::AtMost, slot_cell(slot), high)?;
        let truth = Base::Signed(Range { low: 0, high: 1 });
        Ok(self.binary(Binary::And(truth), above, below)?)
    }
}

/// Whether a value of the range is in one of the others; `others` takes what is left.
fn is_taken(range: Range, ranges: &[Range]) -> bool {
    range.low != LEAST
        && ranges
            .iter()
            .any(|other| other.low <= range.high && range.low <= other.high)
}
