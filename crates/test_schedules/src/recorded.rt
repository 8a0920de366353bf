// SPDX-License-Identifier: MIT
//! Objects that keep their history.

ghost use Rattle.std.specs.Prelude.{◌≡◌, ◌+◌, false, [], Some};
ghost use Rattle.test_schedules.specs.Station.{station_meaning};
ghost use Rattle.po_object.specs.Stories.{IsStory};

use crate::explorer::Explorer;
use crate::gate::Gate;
use crate::objects::{Shelf, beginning, play_and_close};
use crate::plays::Kept;
use crate::scene::Scene;
use crate::station::Station;
use po_core::{Core, Event, Order, Recorded, Volume};
use po_object::steps::Hook;
use po_object::{Keeper, Object, Receipt, Receipts, Story, reconcile};
use std::alloc::AllocError;
use std::marker::Brand;
use std::sync::ledger::{Blank, Ledger};
use std::sync::{Arc, Wait};
use std::thread::Threads;
use std::time::Clock;

impl Kept for Recorded<Station> {
    fn cut<C: Story<Station, u64>, P: Ledger, F: Ledger, Q: Receipts<u64>, S: Hook, W: Wait>(
        rt: &W,
        object: &Object<Station, C, P, F, Recorded<Station>, Q, S>,
    ) -> Option<Volume<u64>> {
        object.cut(rt).ok()
    }
}

/// Opens an object, plays the scene, and closes the object.
fn open_and_close<
    C: Story<Station, u64> + Send + Sync + 'static,
    P: Ledger + Send + Sync + 'static,
    F: Ledger + Send + Sync + 'static,
    R: Kept + Send + Sync + 'static,
    Q: Receipts<u64> + Send + Sync + 'static,
    W: Threads + Wait + Clock + AllocGlobal + Copy + Drop + Send + Sync + 'static,
>(
    rt: W,
    explorer: &Arc<Explorer>,
    core: Core<Station, R>,
    seats: u16,
    calls: Blank,
    procedures: Blank,
    log: Keeper<Event<u64>>,
    scene: Scene,
) -> Result<Option<Shelf<R, Q>>, AllocError>
    requires shape { core.object.setup.shape ≡ C.shape }
    requires story { IsStory station_meaning core.object.setup C.setup C.end_of }
    requires log { (log.name ≡ C.log) × (log.items ≡ []) }
    requires calls { (calls.name ≡ C.name) × (calls.parts ≡ C.parts) × (calls.parts ≡ seats + 1) }
    requires procedures { (procedures.name ≡ P.name) × (procedures.parts ≡ P.parts) × (procedures.parts ≡ seats + 1) }
    requires unbounded { (Q.is_bounded ≡ false) × (R.is_bounded ≡ false) }
{
    let gate = Gate {
        rt,
        explorer: Arc::try_clone(explorer)?,
    };
    let opened = Object::<Station, C, P, F, R, Q, Gate<W>>::open_with(
        rt.alloc(),
        core,
        seats,
        calls,
        procedures,
        log,
        gate,
    );
    let Ok((object, passes)) = opened else {
        return Ok(None);
    };
    play_and_close(rt, explorer, object, passes, scene)
}

/// Plays the scene in the explorer's next schedule, on an object whose receipts have this type. Returns what is left of the
/// object, if all threads came to an end.
pub(crate) fn open_and_play<
    Q: Receipts<u64> + Send + Sync + 'static,
    W: Threads + Wait + Clock + AllocGlobal + Copy + Drop + Send + Sync + 'static,
>(
    rt: W,
    explorer: &Arc<Explorer>,
    scene: Scene,
) -> Result<Option<Shelf<Recorded<Station>, Q>>, AllocError>
    requires { Q.is_bounded ≡ false }
{
    let alloc = rt.alloc();
    let shape = Station::shape(alloc)?;
    let core = Core::start(
        alloc,
        Station::new(),
        shape,
        Order::Textual,
        beginning(scene),
    )
    .map_err(|_| AllocError)?;
    let seats = scene.threads();
    let parts = u64::from(seats) + 1;
    let (calls, procedures) = (Blank::new(parts), Blank::new(parts));
    open_and_close::<Brand, Brand, Brand, Recorded<Station>, Q, W>(
        rt,
        explorer,
        core,
        seats,
        calls,
        procedures,
        Keeper::open(),
        scene,
    )
}

/// Plays the scene in the explorer's next schedule. Returns whether all threads came to an end, and every answer is the
/// history's.
pub(crate) fn agrees<W: Threads + Wait + Clock + AllocGlobal + Copy + Drop + Send + Sync + 'static>(
    rt: W,
    explorer: &Arc<Explorer>,
    scene: Scene,
) -> Result<bool, AllocError> {
    let shelf = open_and_play::<Vec<Receipt<u64>>, W>(rt, explorer, scene)?;
    Ok(match shelf {
        Some(shelf) => {
            shelf.closed.none_pending() && reconcile(&shelf.closed, &shelf.volumes).is_ok()
        }
        None => false,
    })
}
