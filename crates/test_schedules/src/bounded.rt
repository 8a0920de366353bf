// SPDX-License-Identifier: MIT
//! Objects with fixed memory.

ghost use Rattle.std.specs.Prelude.{◌≡◌, ◌≤◌, ◌+◌, IfSome, true, [], Some};
ghost use Rattle.test_schedules.specs.Station.{station_meaning};
ghost use Rattle.po_object.specs.Stories.{IsStory};

use crate::explorer::Explorer;
use crate::gate::Gate;
use crate::objects::{Shelf, beginning, play_and_close};
use crate::plays::Kept;
use crate::scene::Scene;
use crate::station::Station;
use po_core::{BoundedCore, Core, Event, Order, Unrecorded, Volume};
use po_history::Trace;
use po_object::steps::Hook;
use po_object::{Keeper, Object, Receipt, Receipts, Story};
use std::alloc::AllocError;
use std::marker::Brand;
use std::sync::ledger::{Blank, Ledger};
use std::sync::{Arc, Wait};
use std::thread::Threads;
use std::time::Clock;

impl Kept for Unrecorded<Station> {
    /// Only proofs know the history, so there is nothing to cut.
    fn cut<C: Story<Station, u64>, P: Ledger, F: Ledger, Q: Receipts<u64>, S: Hook, W: Wait>(
        _rt: &W,
        _object: &Object<Station, C, P, F, Unrecorded<Station>, Q, S>,
    ) -> Option<Volume<u64>> {
        None
    }
}

/// Opens an object, plays the scene, and closes the object.
fn open_and_close<
    C: Story<Station, u64> + Send + Sync + 'static,
    P: Ledger + Send + Sync + 'static,
    F: Ledger + Send + Sync + 'static,
    R: Kept + Send + Sync + 'static,
    Q: Receipts<u64> + Send + Sync + 'static,
    W: Threads + Wait + Clock + AllocGlobal + Copy + Drop + Send + Sync + 'static,
>(
    rt: W,
    explorer: &Arc<Explorer>,
    core: Core<Station, R>,
    seats: u16,
    calls: Blank,
    procedures: Blank,
    free: Blank,
    log: Keeper<Event<u64>>,
    scene: Scene,
) -> Result<Option<Shelf<R, Q>>, AllocError>
    requires shape { core.object.setup.shape ≡ C.shape }
    requires story { IsStory station_meaning core.object.setup C.setup C.end_of }
    requires log { (log.name ≡ C.log) × (log.items ≡ []) }
    requires calls { (calls.name ≡ C.name) × (calls.parts ≡ C.parts) × (calls.parts ≡ seats + 1) }
    requires procedures { (procedures.name ≡ P.name) × (procedures.parts ≡ P.parts) × (procedures.parts ≡ seats + 1) }
    requires free { (free.name ≡ F.name) × (free.parts ≡ F.parts) × (free.parts ≡ seats + 1) }
    requires bounded { (Q.is_bounded ≡ true) × (R.is_bounded ≡ true) }
    requires most { IfSome core.capacity (λ most. seats ≤ most) }
{
    let gate = Gate {
        rt,
        explorer: Arc::try_clone(explorer)?,
    };
    let opened = Object::<Station, C, P, F, R, Q, Gate<W>>::open_bounded_with(
        rt.alloc(),
        core,
        seats,
        calls,
        procedures,
        free,
        log,
        gate,
    );
    let Ok((object, passes)) = opened else {
        return Ok(None);
    };
    play_and_close(rt, explorer, object, passes, scene)
}

/// Plays the scene in the explorer's next schedule. Returns whether all threads came to an end, and no call is left without an
/// answer.
pub(crate) fn agrees<W: Threads + Wait + Clock + AllocGlobal + Copy + Drop + Send + Sync + 'static>(
    rt: W,
    explorer: &Arc<Explorer>,
    scene: Scene,
) -> Result<bool, AllocError> {
    let alloc = rt.alloc();
    let shape = Station::shape(alloc)?;
    let seats = scene.threads();
    let core = BoundedCore::with_capacity(
        alloc,
        Station::new(),
        shape,
        Order::Textual,
        beginning(scene),
        usize::from(seats),
    )
    .map_err(|_| AllocError)?;
    let parts = u64::from(seats) + 1;
    let (calls, procedures, free) = (Blank::new(parts), Blank::new(parts), Blank::new(parts));
    let shelf = open_and_close::<Brand, Brand, Brand, Unrecorded<Station>, Trace<Receipt<u64>>, W>(
        rt,
        explorer,
        core,
        seats,
        calls,
        procedures,
        free,
        Keeper::open(),
        scene,
    )?;
    Ok(shelf.is_some_and(|shelf| shelf.closed.none_pending()))
}
