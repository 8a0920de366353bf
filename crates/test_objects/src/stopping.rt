// SPDX-License-Identifier: MIT
//! A ticker that is stopped while its tick waits for the lock of its object.

ghost use Rattle.std.specs.Prelude.{◌≡◌, [], Some};
ghost use Rattle.test_objects.specs.Sleeper.{sleeper_meaning};
ghost use Rattle.po_object.specs.Stories.{IsStory};

use crate::asks::same;
use crate::sleeper::{DECLARATIONS, Sleeper};
use po_core::{Core, Event, Order};
use po_object::{Keeper, Object, Pass, Story};
use po_threads::{Job, Ticker, start};
use po_unit::Shape;
use std::marker::Brand;
use std::process::Abort;
use std::sync::ledger::{Blank, Ledger};
use std::sync::{Arc, Wait};
use std::test::Fail;
use std::thread::{self, Threads};
use std::time::{Clock, Duration};

/// How many milliseconds the function holds the lock.
const HELD: u64 = 200;

/// After how many milliseconds the ticker is stopped.
const STOP: u64 = 100;

/// Holds the lock of an object over a sleeper.
#[derive(Drop)]
struct Hold;

impl<R: Clock + Copy, C: Story<Sleeper<R>, u64>, P: Ledger> Job<
    Object<Sleeper<R>, C, P>,
    Pass<u64, C, P>,
> for Hold {
    /// Calls the function. If it is refused, the object is finalized, so that the ticker is refused too.
    fn run<W: Wait>(
        self,
        rt: &W,
        object: &Object<Sleeper<R>, C, P>,
        pass: Pass<u64, C, P>,
    ) -> Pass<u64, C, P> {
        if object.function(rt, 0, HELD).is_err() {
            let _ended = object.finalize(rt);
        }
        pass
    }
}

/// Stops a ticker while a function holds the lock, and checks that the clock then shows at least the time of the stop.
fn stop_while_held<
    C: Story<Sleeper<R>, u64> + Send + Sync + 'static,
    P: Ledger + Send + Sync + 'static,
    R: Threads + Wait + Clock + Abort + AllocGlobal + Copy + Send + Sync + 'static,
>(rt: R, object: &Arc<Object<Sleeper<R>, C, P>>, pass: Pass<u64, C, P>) -> Result<(), Fail> {
    let ticker = Ticker::start(rt, Arc::try_clone(object)?, Duration::from_millis(1))?;
    let holder = start(rt, Arc::try_clone(object)?, pass, Hold)?;
    thread::sleep(&rt, Duration::from_millis(STOP));
    same(&rt, ticker.stop(&rt), None);
    let _pass = holder.join(&rt);
    same(&rt, object.tick(&rt, 0)? >= STOP, true);
    Ok(())
}

/// Opens an object with a seat over the core, and stops a ticker while its lock is held.
fn open_and_stop<
    C: Story<Sleeper<R>, u64> + Send + Sync + 'static,
    P: Ledger + Send + Sync + 'static,
    R: Threads + Wait + Clock + Abort + AllocGlobal + Copy + Send + Sync + 'static,
>(
    rt: R,
    core: Core<Sleeper<R>>,
    calls: Blank,
    procedures: Blank,
    log: Keeper<Event<u64>>,
) -> Result<(), Fail>
    requires calls { (calls.name ≡ C.name) × (calls.parts ≡ C.parts) × (calls.parts ≡ 2) }
    requires procedures { (procedures.name ≡ P.name) × (procedures.parts ≡ P.parts) × (procedures.parts ≡ 2) }
    requires shape { core.object.setup.shape ≡ C.shape }
    requires story { IsStory sleeper_meaning core.object.setup C.setup C.end_of }
    requires log { (log.name ≡ C.log) × (log.items ≡ []) }
{
    let opened = Object::<Sleeper<R>, C, P>::open(rt.alloc(), core, 1, calls, procedures, log);
    let (object, mut passes) = opened?;
    let Some(pass) = passes.pop() else {
        return Err(Fail::new("no pass"));
    };
    stop_while_held(rt, &Arc::new(rt.alloc(), object)?, pass)
}

/// A ticker's last tick raises the clock to the time of the stop, even if the tick before it waited for the lock meanwhile.
#[test]
fn stopped_while_held(rt: HostRuntime) -> Result<(), Fail> {
    let shape = Shape::new(rt.alloc(), &DECLARATIONS)?;
    let core = Core::new(rt.alloc(), Sleeper { rt }, shape, Order::Textual, 1)?;
    let (calls, procedures) = (Blank::new(2), Blank::new(2));
    open_and_stop::<Brand, Brand, HostRuntime>(rt, core, calls, procedures, Keeper::open())
}
