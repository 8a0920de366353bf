// SPDX-License-Identifier: MIT
//! Objects of both kinds: what the tests ask of them, and how a scene is played on one.

use crate::scenes::{Scene, play};
use crate::shared::Shared;
use crate::stage::Stage;
use po_core::{Attempt, End, Record, Refusal, Volume};
use po_object::{CallLedger, Closed, Object, Pass, Receipts, Story};
use po_unit::{EntryRef, Unit};
use std::io::{self, Print};
use std::sync::Wait;
use std::sync::ledger::Ledger;
use std::thread::Threads;
use std::time::{Clock, CpuClock};

/// What an object keeps of the past. If that is its history, it can be cut.
pub(crate) trait Kept<U: Unit<Value = u64>>: Record<U> + Drop {
    /// Cuts the history, if the object keeps one.
    fn cut_history<C: Story<U, u64>, L: Ledger, F: Ledger, Q: Receipts<u64>, W: Wait>(
        rt: &W,
        object: &Object<U, C, L, F, Self, Q>,
    ) -> Result<Option<Volume<u64>>, Refusal>;
}

/// The receipts of a pass, which are printed if they are in memory.
pub(crate) trait Shown: Receipts<u64> {
    /// Prints what the pass keeps of its calls.
    fn print_pass<C: CallLedger<u64>, L: Ledger, F: Ledger, W: Print>(
        rt: &W,
        name: &str,
        pass: &Pass<u64, C, L, F, Self>,
    ) -> io::Result<()>;
}

impl<U: Unit<Value = u64>, C: Story<U, u64>, L: Ledger, F: Ledger, R: Kept<U>, Q: Shown> Shared<
    Pass<u64, C, L, F, Q>,
> for Object<U, C, L, F, R, Q> {
    fn enter<W: Wait>(
        &self,
        rt: &W,
        pass: &mut Pass<u64, C, L, F, Q>,
        entry: EntryRef,
        value: u64,
    ) -> Option<Result<End<u64>, Refusal>> {
        if pass.pending() {
            return None;
        }
        Some(self.call(rt, pass, entry, value))
    }

    fn run_procedure<W: Wait>(
        &self,
        rt: &W,
        pass: &mut Pass<u64, C, L, F, Q>,
        op: u16,
        value: u64,
    ) -> Option<Result<Result<u64, u32>, Refusal>> {
        if pass.pending() {
            return None;
        }
        Some(self.procedure(rt, pass, op, value))
    }

    fn ask_function<W: Wait>(
        &self,
        rt: &W,
        op: u16,
        value: u64,
    ) -> Result<Result<u64, u32>, Refusal> {
        self.function(rt, op, value)
    }

    fn raise_clock<W: Wait>(&self, rt: &W, time: u64) -> Result<u64, Refusal> {
        self.tick(rt, time)
    }

    fn cancel_seat<W: Wait>(&self, rt: &W, seat: u16) -> Result<Attempt, Refusal> {
        self.cancel_seat(rt, seat)
    }

    fn end_all<W: Wait>(&self, rt: &W) -> Result<(), Refusal> {
        self.finalize(rt)
    }

    fn count_waiting(&self, entry: EntryRef) -> Result<Option<u64>, Refusal> {
        self.try_count(entry)
    }

    fn cut_history<W: Wait>(&self, rt: &W) -> Result<Option<Volume<u64>>, Refusal> {
        R::cut_history(rt, self)
    }

    fn print_pass<W: Print>(rt: &W, name: &str, pass: &Pass<u64, C, L, F, Q>) -> io::Result<()> {
        Q::print_pass(rt, name, pass)
    }
}

/// What is left of an object, and the volumes that were cut off from its history, in their order.
#[derive(Drop)]
pub(crate) struct Shelf<U: Unit<Value = u64> + Drop, R: Record<U>, Q: Receipts<u64>> {
    pub(crate) closed: Closed<U, R, Q>,
    pub(crate) volumes: Vec<Volume<u64>>,
}

/// Closes the object with all passes that are here. Returns `None` if one is missing or a thread still has the object.
fn close<
    U: Unit<Value = u64> + Drop,
    C: Story<U, u64>,
    L: Ledger,
    F: Ledger,
    R: Record<U> + Drop,
    Q: Receipts<u64>,
>(stage: Stage<Pass<u64, C, L, F, Q>, Object<U, C, L, F, R, Q>>) -> Option<Shelf<U, R, Q>> {
    let left = stage.leave()?;
    let closed = left.object.close(left.passes).ok()?;
    Some(Shelf {
        closed,
        volumes: left.volumes,
    })
}

/// Plays the scene with the object, and closes it.
pub(crate) fn play_and_close<
    U: Unit<Value = u64> + Send + Sync + Drop + 'static,
    C: Story<U, u64> + Send + Sync + 'static,
    L: Ledger + Send + Sync + 'static,
    F: Ledger + Send + Sync + 'static,
    R: Kept<U> + Send + Sync + 'static,
    Q: Shown + Send + Sync + 'static,
    W: Threads + Wait + Clock + CpuClock + Print + AllocGlobal + Copy + Send + 'static,
>(
    rt: W,
    object: Object<U, C, L, F, R, Q>,
    passes: Vec<Pass<u64, C, L, F, Q>>,
    scene: Scene,
) -> io::Result<Option<Shelf<U, R, Q>>> {
    let mut stage = Stage::new(rt.alloc(), object, passes, scene.together())?;
    let played = play(rt, &mut stage, scene);
    let shelf = close(stage);
    played?;
    Ok(shelf)
}
