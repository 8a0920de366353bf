// SPDX-License-Identifier: MIT
//! Hints on barriers (9.5.2) and on the ends of bodies.

use crate::counts::{Test, own_test};
use crate::entities::{Operation, Sort};
use crate::reaches::{Reach, Reaches};
use crate::telling::HintList;
use crate::uses::{Facts, How, LoopFact, Part, Use};
use po_ada_tree::tree::Expression;
use std::alloc::AllocError;

/// What is told of an entry that waits for nobody to wait.
const NONE_WAITS: &str =
    "hint: a call that comes isn't counted yet, and one that waits counts itself: this is true of a first call, and false of each call that waits; test the object's data instead (9.5.3, 9.9)";
/// What is told of an entry that waits for itself.
const SOME_WAITS: &str =
    "hint: a call that waits counts itself, so this is true of each call that waits; leave it out, or test the object's data instead (9.5.3, 9.9)";

impl<'a> HintList<'a> {
    /// Tells what stands out of the barriers.
    pub fn tell_barriers(&mut self, facts: &Facts<'a>, all: &Reaches) -> Result<(), AllocError> {
        for (operation, reach) in facts.operations.iter().zip(all.barriers.iter()) {
            if let Some(barrier) = operation.barrier {
                self.tell_barrier(facts, operation, barrier, reach)?;
            }
        }
        Ok(())
    }

    fn tell_barrier(
        &mut self,
        facts: &Facts<'a>,
        operation: &Operation<'a>,
        barrier: &'a Expression,
        reach: &Reach,
    ) -> Result<(), AllocError> {
        if let Some((place, test)) = own_test(self.alloc, operation, barrier)? {
            self.tell_count(place, test)?;
        }
        match (reach.outer, reach.data) {
            (Some(outer), _) => self.tell_outer(facts, barrier.place, outer),
            (None, Some(data)) if !reach.varies => self.tell_constant(facts, barrier.place, data),
            _ => Ok(()),
        }
    }

    fn tell_count(&mut self, place: usize, test: Test) -> Result<(), AllocError> {
        self.tell(
            place,
            match test {
                Test::NoneWaits => NONE_WAITS,
                Test::SomeWaits => SOME_WAITS,
            },
        )
    }

    fn tell_outer(
        &mut self,
        facts: &Facts<'a>,
        place: usize,
        outer: usize,
    ) -> Result<(), AllocError> {
        let name = self.name_of(facts, outer);
        let message = format!(in self.alloc;
            "hint: the barrier reads '{name}', which isn't in the object, so it isn't evaluated again when that changes; keep the value in the object (9.5.3)"
        )?;
        self.add(place, message)
    }

    fn tell_constant(
        &mut self,
        facts: &Facts<'a>,
        place: usize,
        data: usize,
    ) -> Result<(), AllocError> {
        let name = self.name_of(facts, data);
        let message = format!(in self.alloc;
            "hint: nothing changes '{name}' or what else the barrier reads, so an entry that is closed at first stays closed; change it in a body, or write 'when True' (9.5.2, 9.5.3)"
        )?;
        self.add(place, message)
    }

    /// Tells of loops that nothing leaves, and of functions whose end can be reached.
    pub fn tell_ends(&mut self, facts: &Facts<'a>, all: &Reaches) -> Result<(), AllocError> {
        let left = self.left_loops(facts, all)?;
        for (found, is_left) in facts.loops.iter().zip(left.iter()) {
            if found.is_endless && !*is_left && found.part != Part::Elsewhere {
                self.tell(
                    found.place,
                    "hint: nothing leaves this loop, so its operation never completes; write 'exit when', or 'return' (5.5, 5.7)",
                )?;
            }
        }
        for number in facts.open_ends.iter() {
            if let Some(operation) = facts.operations.get(*number) {
                self.tell_open_end(operation)?;
            }
        }
        Ok(())
    }

    fn tell_open_end(&mut self, operation: &Operation<'a>) -> Result<(), AllocError> {
        let name = operation.profile.name;
        let written = self.names.written(name.number);
        let message = format!(in self.alloc;
            "hint: the end of '{written}' can be reached without a return, which raises Program_Error; write 'return' on each path (6.5)"
        )?;
        self.add(name.place, message)
    }

    /// Which loops are left by a statement, or by an exception that something in them may raise.
    fn left_loops(&self, facts: &Facts<'a>, all: &Reaches) -> Result<Vec<bool>, AllocError> {
        let mut left = Vec::new(self.alloc);
        for found in facts.loops.iter() {
            left.push(found.is_left)?;
        }
        for found in facts.uses.iter() {
            if found.within.is_some() && may_raise(facts, all, found) {
                leave_all(&facts.loops, found.within, &mut left);
            }
        }
        Ok(left)
    }
}

/// Whether a use may raise an exception by a statement, an expression or a pragma.
fn may_raise(facts: &Facts<'_>, all: &Reaches, found: &Use) -> bool {
    let Some(number) = found.entity else {
        return true;
    };
    match (found.how, facts.entity(number).map(|entity| entity.sort)) {
        (How::Raised, _) => true,
        (_, Some(Sort::Operation(called))) => match all.bodies.get(called) {
            Some(reach) => reach.raises,
            None => true,
        },
        _ => false,
    }
}

/// A loop and those around it can be left.
fn leave_all(loops: &Vec<LoopFact>, innermost: Option<usize>, left: &mut Vec<bool>) {
    let mut next = innermost;
    for _ in 0..loops.len() {
        let Some(number) = next else {
            break;
        };
        if let Some(is_left) = left.get_mut(number) {
            *is_left = true;
        }
        next = match loops.get(number) {
            Some(found) => found.within,
            None => None,
        };
    }
}
