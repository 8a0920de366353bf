// SPDX-License-Identifier: MIT
//! Objects with fixed memory: what is printed of them, and how a scene is played on one.

ghost use Rattle.std.specs.Prelude.{◌≡◌, ◌≤◌, ◌+◌, IfSome, true, [], Some};
ghost use Rattle.po_object.specs.Stories.{IsStory};

use crate::objects::{Kept, Shelf, Shown, play_and_close};
use crate::scenes::{Made, NOT_CLOSED, START, Scene};
use po_core::{BoundedCore, Core, Event, Order, Refusal, Unrecorded, Volume};
use po_history::Trace;
use po_object::{CallLedger, Keeper, Object, Pass, Receipt, Receipts, Story};
use po_unit::Unit;
use std::alloc::AllocError;
use std::io::{self, Print};
use std::marker::Brand;
use std::sync::Wait;
use std::sync::ledger::{Blank, Ledger};
use std::thread::Threads;
use std::time::{Clock, CpuClock};

impl<U: Unit<Value = u64>> Kept<U> for Unrecorded<U> {
    /// Only proofs know the history, so there is nothing to cut.
    fn cut_history<C: Story<U, u64>, L: Ledger, F: Ledger, Q: Receipts<u64>, W: Wait>(
        _rt: &W,
        _object: &Object<U, C, L, F, Unrecorded<U>, Q>,
    ) -> Result<Option<Volume<u64>>, Refusal> {
        Ok(None)
    }
}

impl Shown for Trace<Receipt<u64>> {
    fn print_pass<C: CallLedger<u64>, L: Ledger, F: Ledger, W: Print>(
        rt: &W,
        name: &str,
        pass: &Pass<u64, C, L, F, Trace<Receipt<u64>>>,
    ) -> io::Result<()> {
        println!(rt;
            "{name}: {} calls, {} procedures",
            pass.calls(),
            pass.procedures()
        )
    }
}

/// Opens an object, plays the scene, and closes the object.
fn open_and_close<
    U: Unit<Value = u64> + Send + Sync + Drop + 'static,
    C: Story<U, u64> + Send + Sync + 'static,
    L: Ledger + Send + Sync + 'static,
    F: Ledger + Send + Sync + 'static,
    R: Kept<U> + Send + Sync + 'static,
    Q: Shown + Send + Sync + 'static,
    W: Threads + Wait + Clock + CpuClock + Print + AllocGlobal + Copy + Send + 'static,
>(
    rt: W,
    core: Core<U, R>,
    seats: u16,
    calls: Blank,
    procedures: Blank,
    free: Blank,
    log: Keeper<Event<u64>>,
    scene: Scene,
) -> io::Result<Option<Shelf<U, R, Q>>>
    requires shape { core.object.setup.shape ≡ C.shape }
    requires story { IsStory U.meaning core.object.setup C.setup C.end_of }
    requires log { (log.name ≡ C.log) × (log.items ≡ []) }
    requires most { IfSome core.capacity (λ most. seats ≤ most) }
    requires calls { (calls.name ≡ C.name) × (calls.parts ≡ C.parts) × (calls.parts ≡ seats + 1) }
    requires procedures { (procedures.name ≡ L.name) × (procedures.parts ≡ L.parts) × (procedures.parts ≡ seats + 1) }
    requires free { (free.name ≡ F.name) × (free.parts ≡ F.parts) × (free.parts ≡ seats + 1) }
    requires bounded { (Q.is_bounded ≡ true) × (R.is_bounded ≡ true) }
{
    let alloc = rt.alloc();
    let opened = Object::<U, C, L, F, R, Q>::open_bounded(
        alloc, core, seats, calls, procedures, free, log,
    );
    let Ok((object, passes)) = opened else {
        return Ok(None);
    };
    play_and_close(rt, object, passes, scene)
}

/// What is left of an object with fixed memory.
type BoundedShelf<U> = Shelf<U, Unrecorded<U>, Trace<Receipt<u64>>>;

/// Plays the scene with an object of `seats` seats. Returns what is left of the object, or `None` if it wasn't opened or not
/// closed.
fn perform<
    U: Unit<Value = u64> + Send + Sync + Drop + 'static,
    W: Threads + Wait + Clock + CpuClock + Print + AllocGlobal + Copy + Send + 'static,
>(rt: W, made: Made<U>, seats: u16, scene: Scene) -> io::Result<Option<BoundedShelf<U>>> {
    println!(rt; "{scene:?}, bounded, {seats} seats")?;
    let (unit, shape) = made;
    let most = usize::from(seats);
    let core = BoundedCore::with_capacity(
        rt.alloc(),
        unit,
        shape,
        Order::Textual,
        START,
        most,
    ).map_err(|_| AllocError)?;
    let parts = u64::from(seats) + 1;
    let (calls, procedures, free) = (Blank::new(parts), Blank::new(parts), Blank::new(parts));
    open_and_close::<U, Brand, Brand, Brand, Unrecorded<U>, Trace<Receipt<u64>>, W>(
        rt,
        core,
        seats,
        calls,
        procedures,
        free,
        Keeper::open(),
        scene,
    )
}

/// Plays the scene, and prints how many calls and procedures the passes counted.
pub(crate) fn show<
    U: Unit<Value = u64> + Send + Sync + Drop + 'static,
    W: Threads + Wait + Clock + CpuClock + Print + AllocGlobal + Copy + Send + 'static,
>(rt: W, made: Made<U>, seats: u16, scene: Scene) -> io::Result<()> {
    let Some(shelf) = perform(rt, made, seats, scene)? else {
        return println!(rt; "{NOT_CLOSED}");
    };
    let (mut calls, mut procedures) = (0u64, 0u64);
    for pass in shelf.closed.passes() {
        calls = calls.saturating_add(pass.calls());
        procedures = procedures.saturating_add(pass.procedures());
    }
    println!(rt; "{calls} calls, {procedures} procedures")
}
