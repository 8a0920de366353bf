// SPDX-License-Identifier: MIT
//! Has threads call an object, which records its history or has fixed memory.

ghost use Rattle.std.specs.Prelude.{◌≡◌, ◌≤◌, ◌+◌, IfSome, true, false, [], Some};
ghost use Rattle.po_object.specs.Stories.{IsStory};

use crate::callers::Called;
use crate::engine::{Kept, make_bounded};
use crate::races::race;
use crate::team::Round;
use crate::work::Task;
use po_classic_units::ScriptUnit;
use po_core::{Core, End, Event, Order, Record, Recorded, Unrecorded};
use po_history::Trace;
use po_object::{Keeper, Object, Pass, Receipt, Receipts, Story};
use po_unit::{EntryRef, Unit};
use std::alloc::AllocError;
use std::io;
use std::marker::Brand;
use std::sync::Wait;
use std::sync::ledger::{Blank, Ledger};
use std::thread::Threads;
use std::time::Clock;

impl<
    U: Unit<Value = u64>,
    C: Story<U, u64>,
    P: Ledger,
    F: Ledger,
    R: Record<U>,
    Q: Receipts<u64>,
> Called<Pass<u64, C, P, F, Q>> for Object<U, C, P, F, R, Q> {
    fn enter<W: Wait>(
        &self,
        rt: &W,
        pass: &mut Pass<u64, C, P, F, Q>,
        entry: EntryRef,
        value: u64,
    ) -> bool {
        if pass.pending() {
            return false;
        }
        matches!(self.call(rt, pass, entry, value), Ok(End::Completed(_)))
    }

    fn run<W: Wait>(&self, rt: &W, pass: &mut Pass<u64, C, P, F, Q>, value: u64) -> bool {
        if pass.pending() {
            return false;
        }
        matches!(self.procedure(rt, pass, 0, value), Ok(Ok(_)))
    }

    fn read<W: Wait>(&self, rt: &W, value: u64) -> bool {
        matches!(self.function(rt, 0, value), Ok(Ok(_)))
    }
}

/// Has threads do the task on an object over the core.
fn race_over<
    U: ScriptUnit + Send + Sync + 'static,
    C: Story<U, u64> + Send + Sync + 'static,
    P: Ledger + Send + Sync + 'static,
    F: Ledger + Send + Sync + 'static,
    R: Record<U> + Send + Sync + Drop + 'static,
    Q: Receipts<u64> + Send + Sync + 'static,
    W: Threads + Wait + Clock + AllocGlobal + Copy + Send + 'static,
>(
    rt: W,
    core: Core<U, R>,
    task: Task,
    calls: Blank,
    procedures: Blank,
    log: Keeper<Event<u64>>,
) -> io::Result<Round>
    requires shape { core.object.setup.shape ≡ C.shape }
    requires story { IsStory U.meaning core.object.setup C.setup C.end_of }
    requires log { (log.name ≡ C.log) × (log.items ≡ []) }
    requires calls { (calls.name ≡ C.name) × (calls.parts ≡ C.parts) × (calls.parts ≡ task.threads + 1) }
    requires procedures { (procedures.name ≡ P.name) × (procedures.parts ≡ P.parts) × (procedures.parts ≡ task.threads + 1) }
    requires unbounded { (Q.is_bounded ≡ false) × (R.is_bounded ≡ false) }
{
    match Object::<U, C, P, F, R, Q>::open(rt.alloc(), core, task.threads, calls, procedures, log) {
        Ok((object, passes)) => race(rt, object, passes, task),
        Err(_) => Err(AllocError.into()),
    }
}

/// Does the same on an object with fixed memory.
fn race_over_bounded<
    U: ScriptUnit + Send + Sync + 'static,
    C: Story<U, u64> + Send + Sync + 'static,
    P: Ledger + Send + Sync + 'static,
    F: Ledger + Send + Sync + 'static,
    R: Record<U> + Send + Sync + Drop + 'static,
    Q: Receipts<u64> + Send + Sync + 'static,
    W: Threads + Wait + Clock + AllocGlobal + Copy + Send + 'static,
>(
    rt: W,
    core: Core<U, R>,
    task: Task,
    calls: Blank,
    procedures: Blank,
    free: Blank,
    log: Keeper<Event<u64>>,
) -> io::Result<Round>
    requires shape { core.object.setup.shape ≡ C.shape }
    requires story { IsStory U.meaning core.object.setup C.setup C.end_of }
    requires log { (log.name ≡ C.log) × (log.items ≡ []) }
    requires most { IfSome core.capacity (λ most. task.threads ≤ most) }
    requires calls { (calls.name ≡ C.name) × (calls.parts ≡ C.parts) × (calls.parts ≡ task.threads + 1) }
    requires procedures { (procedures.name ≡ P.name) × (procedures.parts ≡ P.parts) × (procedures.parts ≡ task.threads + 1) }
    requires free { (free.name ≡ F.name) × (free.parts ≡ F.parts) × (free.parts ≡ task.threads + 1) }
    requires bounded { (Q.is_bounded ≡ true) × (R.is_bounded ≡ true) }
{
    let alloc = rt.alloc();
    let opened = Object::<U, C, P, F, R, Q>::open_bounded(
        alloc,
        core,
        task.threads,
        calls,
        procedures,
        free,
        log,
    );
    match opened {
        Ok((object, passes)) => race(rt, object, passes, task),
        Err(_) => Err(AllocError.into()),
    }
}

/// Has threads do the task on an object of this unit that records its history.
pub(crate) fn race_recorded<
    U: ScriptUnit + Send + Sync + 'static,
    W: Threads + Wait + Clock + AllocGlobal + Copy + Send + 'static,
>(rt: W, unit: U, task: Task) -> io::Result<Round> {
    let made: Option<Core<U>> = Kept::make_core(rt.alloc(), unit, Order::Textual);
    let core = made.ok_or(AllocError)?;
    let parts = u64::from(task.threads) + 1;
    let (calls, procedures) = (Blank::new(parts), Blank::new(parts));
    race_over::<U, Brand, Brand, Brand, Recorded<U>, Vec<Receipt<u64>>, W>(
        rt,
        core,
        task,
        calls,
        procedures,
        Keeper::open(),
    )
}

/// Has threads do the task on an object of this unit with fixed memory, enough for one call of each
/// thread.
pub(crate) fn race_bounded<
    U: ScriptUnit + Send + Sync + 'static,
    W: Threads + Wait + Clock + AllocGlobal + Copy + Send + 'static,
>(rt: W, unit: U, task: Task) -> io::Result<Round> {
    let most = usize::from(task.threads);
    let core = make_bounded(rt.alloc(), unit, Order::Textual, most).ok_or(AllocError)?;
    let parts = u64::from(task.threads) + 1;
    let (calls, procedures, free) = (Blank::new(parts), Blank::new(parts), Blank::new(parts));
    race_over_bounded::<U, Brand, Brand, Brand, Unrecorded<U>, Trace<Receipt<u64>>, W>(
        rt,
        core,
        task,
        calls,
        procedures,
        free,
        Keeper::open(),
    )
}
