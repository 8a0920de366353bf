// SPDX-License-Identifier: MIT
//! Measures a procedure on objects with few and with many entries, a few of which have queued calls, in the service order in
//! which the oldest call goes first.

ghost use Rattle.po_classic_units.specs.Sizes.{IsSize};

use crate::commands::Command;
use crate::engine::Engine;
use crate::measure::Measure;
use crate::plan::Plan;
use crate::report::pair;
use po_classic_units::Allocator;
use po_core::{Core, Deadline, Order};
use po_unit::EntryRef;
use std::alloc::AllocError;
use std::io::{self, Print};
use std::time::Clock;

/// The entry Request of the allocator.
const REQUEST: EntryRef = EntryRef {
    declaration: 0,
    index: None,
};

/// The size of the allocator with few entries.
const SMALL: u16 = 16;

/// Adds a batch of the procedure Release, which lets no call go, on an allocator of this size. The allocator has two more
/// entries than its size.
fn measure<E: Engine<Unit = Allocator>, R: Clock + AllocGlobal>(
    rt: &R,
    plan: &Plan,
    size: u16,
    measure: &mut Measure,
) -> io::Result<()>
    requires { IsSize size }
{
    let made: Option<E> = Engine::make(rt.alloc(), Allocator::new(size), Order::Oldest);
    let mut engine = made.ok_or(AllocError)?;
    for number in [size, 1, size / 2, size] {
        let issued = engine.issue(REQUEST, u64::from(number), Deadline::Never);
        issued.ok_or(AllocError)?;
    }
    Command::Run(0).measure(rt, &mut engine, plan.commands, measure)
}

/// Measures the procedure on both, and prints what it takes.
pub(crate) fn print<R: Print + Clock + AllocGlobal>(rt: &R, plan: &Plan) -> io::Result<()> {
    let (mut few, mut many) = (Measure::new(), Measure::new());
    for _ in 0..plan.batches {
        measure::<Core<Allocator>, R>(rt, plan, SMALL, &mut few)?;
    }
    for _ in 0..plan.batches {
        measure::<Core<Allocator>, R>(rt, plan, Allocator::MAX_SIZE, &mut many)?;
    }
    pair(
        rt,
        plan,
        "oldest_pass",
        (u64::from(SMALL) + 2, few),
        (u64::from(Allocator::MAX_SIZE) + 2, many),
    )
}
