// SPDX-License-Identifier: MIT
//! Objects that keep their history: what is printed of them, and how a scene is played on one.

ghost use Rattle.std.specs.Prelude.{◌≡◌, ◌+◌, false, [], Some};
ghost use Rattle.po_object.specs.Stories.{IsStory};

use crate::cuts;
use crate::objects::{Kept, Shelf, Shown, play_and_close};
use crate::scenes::{Made, NOT_CLOSED, START, Scene};
use po_core::{Core, Event, Order, Recorded, Refusal, Volume};
use po_object::{CallLedger, Keeper, Object, Pass, Receipt, Receipts, Story, reconcile};
use po_unit::Unit;
use std::alloc::AllocError;
use std::io::{self, Print};
use std::marker::Brand;
use std::sync::Wait;
use std::sync::ledger::{Blank, Ledger};
use std::thread::Threads;
use std::time::{Clock, CpuClock};

impl<U: Unit<Value = u64> + Drop> Kept<U> for Recorded<U> {
    fn cut_history<C: Story<U, u64>, L: Ledger, F: Ledger, Q: Receipts<u64>, W: Wait>(
        rt: &W,
        object: &Object<U, C, L, F, Recorded<U>, Q>,
    ) -> Result<Option<Volume<u64>>, Refusal> {
        let volume = object.cut(rt)?;
        Ok(Some(volume))
    }
}

impl Shown for Vec<Receipt<u64>> {
    fn print_pass<C: CallLedger<u64>, L: Ledger, F: Ledger, W: Print>(
        rt: &W,
        name: &str,
        pass: &Pass<u64, C, L, F, Vec<Receipt<u64>>>,
    ) -> io::Result<()> {
        println!(rt; "{name}: {:?}", pass.receipts())
    }
}

/// Opens an object, plays the scene, and closes the object.
fn open_and_close<
    U: Unit<Value = u64> + Send + Sync + Drop + 'static,
    C: Story<U, u64> + Send + Sync + 'static,
    L: Ledger + Send + Sync + 'static,
    F: Ledger + Send + Sync + 'static,
    R: Kept<U> + Send + Sync + 'static,
    Q: Shown + Send + Sync + 'static,
    W: Threads + Wait + Clock + CpuClock + Print + AllocGlobal + Copy + Send + 'static,
>(
    rt: W,
    core: Core<U, R>,
    seats: u16,
    calls: Blank,
    procedures: Blank,
    log: Keeper<Event<u64>>,
    scene: Scene,
) -> io::Result<Option<Shelf<U, R, Q>>>
    requires shape { core.object.setup.shape ≡ C.shape }
    requires story { IsStory U.meaning core.object.setup C.setup C.end_of }
    requires log { (log.name ≡ C.log) × (log.items ≡ []) }
    requires calls { (calls.name ≡ C.name) × (calls.parts ≡ C.parts) × (calls.parts ≡ seats + 1) }
    requires procedures { (procedures.name ≡ L.name) × (procedures.parts ≡ L.parts) × (procedures.parts ≡ seats + 1) }
    requires unbounded { (Q.is_bounded ≡ false) × (R.is_bounded ≡ false) }
{
    let opened = Object::<U, C, L, F, R, Q>::open(rt.alloc(), core, seats, calls, procedures, log);
    let Ok((object, passes)) = opened else {
        return Ok(None);
    };
    play_and_close(rt, object, passes, scene)
}

/// What is left of an object that keeps its history.
pub(crate) type RecordedShelf<U> = Shelf<U, Recorded<U>, Vec<Receipt<u64>>>;

/// Plays the scene with an object of `seats` seats. Returns what is left of the object, or `None` if it wasn't opened or not
/// closed.
pub(crate) fn perform<
    U: Unit<Value = u64> + Send + Sync + Drop + 'static,
    W: Threads + Wait + Clock + CpuClock + Print + AllocGlobal + Copy + Send + 'static,
>(rt: W, made: Made<U>, seats: u16, scene: Scene) -> io::Result<Option<RecordedShelf<U>>> {
    println!(rt; "{scene:?}, recorded, {seats} seats")?;
    let (unit, shape) = made;
    let core = Core::start(rt.alloc(), unit, shape, Order::Textual, START).map_err(|_| AllocError)?;
    let parts = u64::from(seats) + 1;
    let (calls, procedures) = (Blank::new(parts), Blank::new(parts));
    open_and_close::<U, Brand, Brand, Brand, Recorded<U>, Vec<Receipt<u64>>, W>(
        rt,
        core,
        seats,
        calls,
        procedures,
        Keeper::open(),
        scene,
    )
}

/// Plays the scene, and prints what the comparison of all receipts with the history says.
pub(crate) fn show<
    U: Unit<Value = u64> + Send + Sync + Drop + 'static,
    W: Threads + Wait + Clock + CpuClock + Print + AllocGlobal + Copy + Send + 'static,
>(rt: W, made: Made<U>, seats: u16, scene: Scene) -> io::Result<()> {
    let Some(mut shelf) = perform(rt, made, seats, scene)? else {
        return println!(rt; "{NOT_CLOSED}");
    };
    match scene {
        Scene::Cuts => cuts::print_orders(&rt, &shelf.closed, &mut shelf.volumes),
        _ => println!(rt; "{:?}", reconcile(&shelf.closed, &[])),
    }
}
