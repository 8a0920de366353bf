// SPDX-License-Identifier: MIT
//! What the body of an operation, or a barrier, comes to by itself and by the operations that it calls.

ghost use Rattle.std.specs.Prelude.{◌≡◌, true};

use crate::entities::Sort;
use crate::tallies::Tally;
use crate::uses::{Facts, How, Part, Use};
use std::alloc::{AllocError, Global};

/// How many calls deep operations are followed; what calls deeper ones is taken to do anything.
const MOST_CALLS: usize = 100;

/// What a part of a text comes to.
#[derive(Clone, Copy, PartialEq, Eq)]
pub struct Reach {
    /// A variable of the object that it reads.
    pub data: Option<usize>,
    /// A variable outside of protected units that it reads.
    pub outer: Option<usize>,
    /// Whether its value may change.
    pub varies: bool,
    /// Whether it may raise an exception by a statement, an expression or a pragma.
    pub raises: bool,
}

/// What a part comes to that does nothing.
const NOTHING: Reach = Reach {
    data: None,
    outer: None,
    varies: false,
    raises: false,
};

/// What a part comes to that may do anything.
const ANYTHING: Reach = Reach {
    data: None,
    outer: None,
    varies: true,
    raises: true,
};

/// What the barriers and the bodies of all operations come to.
#[derive(Drop)]
pub struct Reaches {
    pub barriers: Vec<Reach>,
    pub bodies: Vec<Reach>,
}

impl Reach {
    /// What both come to.
    fn with(self, other: Reach) -> Reach
        ensures left { self.varies ≡ true → result.varies ≡ true }
        ensures right { other.varies ≡ true → result.varies ≡ true }
    {
        Reach {
            data: self.data.or(other.data),
            outer: self.outer.or(other.outer),
            varies: self.varies || other.varies,
            raises: self.raises || other.raises,
        }
    }
}

/// What a use comes to that calls nothing.
fn reach_of(facts: &Facts<'_>, tallies: &Vec<Tally>, found: &Use) -> Reach {
    let Some(number) = found.entity else {
        return ANYTHING;
    };
    let is_changed = match tallies.get(number) {
        Some(tally) => tally.is_changed,
        None => true,
    };
    let sort = facts.entities.get(number).map(|entity| entity.sort);
    match (found.how, sort) {
        (How::Raised, _) => Reach {
            raises: true,
            ..NOTHING
        },
        (How::Counted, _) => Reach {
            varies: true,
            ..NOTHING
        },
        (_, Some(Sort::Data)) => Reach {
            data: Some(number),
            varies: is_changed,
            ..NOTHING
        },
        (_, Some(Sort::Outer)) => Reach {
            outer: Some(number),
            varies: true,
            ..NOTHING
        },
        _ => NOTHING,
    }
}

/// Adds to one of these, and says whether that is more.
fn widen(list: &mut Vec<Reach>, number: usize, more: Reach) -> bool {
    let Some(reach) = list.get_mut(number) else {
        return false;
    };
    let before = *reach;
    let after = before.with(more);
    *reach = after;
    after != before
}

impl Reaches {
    /// Nothing is known of this many operations.
    fn new(alloc: Global, count: usize) -> Result<Reaches, AllocError> {
        let mut barriers = Vec::new(alloc);
        let mut bodies = Vec::new(alloc);
        for _ in 0..count {
            barriers.push(NOTHING)?;
            bodies.push(NOTHING)?;
        }
        Ok(Reaches { barriers, bodies })
    }

    /// Adds to what a part comes to, and says whether that is more.
    fn add(&mut self, part: Part, more: Reach) -> bool {
        match part {
            Part::Elsewhere => false,
            Part::Barrier(number) => widen(&mut self.barriers, number, more),
            Part::Body(number) => widen(&mut self.bodies, number, more),
        }
    }

    /// What the operation comes to that a use calls.
    fn called(&self, facts: &Facts<'_>, found: &Use) -> Reach {
        let sort = match found.entity {
            Some(number) => facts.entity(number).map(|entity| entity.sort),
            None => None,
        };
        match (found.how, sort) {
            (How::Called, Some(Sort::Operation(number))) => match self.bodies.get(number) {
                Some(reach) => *reach,
                None => ANYTHING,
            },
            _ => NOTHING,
        }
    }

    /// Follows each call by one step, and says whether something was added.
    fn follow(&mut self, facts: &Facts<'_>) -> bool {
        let mut is_more = false;
        for found in facts.uses.iter() {
            let more = self.called(facts, found);
            if self.add(found.part, more) {
                is_more = true;
            }
        }
        is_more
    }

    /// Of no part anything is known.
    fn give_up(&mut self) {
        for reach in self.barriers.iter_mut() {
            *reach = ANYTHING;
        }
        for reach in self.bodies.iter_mut() {
            *reach = ANYTHING;
        }
    }
}

/// What the barriers and bodies come to.
pub fn reach_all(
    alloc: Global,
    facts: &Facts<'_>,
    tallies: &Vec<Tally>,
) -> Result<Reaches, AllocError> {
    let mut all = Reaches::new(alloc, facts.operations.len())?;
    for found in facts.uses.iter() {
        all.add(found.part, reach_of(facts, tallies, found));
    }
    for _ in 0..MOST_CALLS {
        if !all.follow(facts) {
            return Ok(all);
        }
    }
    all.give_up();
    Ok(all)
}
