// SPDX-License-Identifier: MIT
//! A history that is cut while many callers add to it: all receipts agree with its volumes, which are in order.

use crate::shared::Shared;
use crate::stage::Stage;
use crate::team::Team;
use crate::threads::Work;
use po_core::{Refusal, Volume};
use po_object::{Closed, ReconcileError, reconcile};
use po_unit::Unit;
use std::alloc::AllocError;
use std::io::{self, Print};
use std::sync::Wait;
use std::thread::Threads;

/// How many threads call, half of them Put and half of them Get.
pub(crate) const CALLERS: u16 = 8;

/// How often each of them calls.
const CALLS: u64 = 10_000;

/// How often the history is cut.
const CUTS: u64 = 100;

/// After how many calls it is cut again.
const STEP: u64 = 790;

/// Cuts the history each time that `STEP` more calls are answered.
fn cut_beside<P, O: Shared<P>, R: Wait>(
    rt: &R,
    object: &O,
    team: &Team,
    volumes: &mut Vec<Volume<u64>>,
) -> Result<(), Refusal> {
    for n in 0..CUTS {
        team.wait_for((n + 1) * STEP);
        if let Some(volume) = object.cut_history(rt)? {
            volumes.push(volume).map_err(|_| AllocError)?;
        }
    }
    Ok(())
}

/// All callers call, and the history is cut meanwhile.
pub(crate) fn play<
    P: Send + Drop + 'static,
    O: Shared<P> + Send + Sync + Drop + 'static,
    R: Threads + Wait + Print + Copy + Send + 'static,
>(rt: R, stage: &mut Stage<P, O>) -> io::Result<()> {
    for caller in 0..CALLERS {
        stage.start(rt, Work::Calls(caller % 2, CALLS))?;
    }
    stage.team.line.wait(&rt);
    let cut = cut_beside(&rt, &*stage.object, &*stage.team, &mut stage.volumes);
    stage.join_all(&rt)?;
    println!(rt; "calls answered {}", stage.team.answered())?;
    match cut {
        Ok(()) => Ok(()),
        Err(refusal) => println!(rt; "not cut: {refusal:?}"),
    }
}

/// Returns whether an exchange with the volume before it leaves a gap at the beginning of that volume, if it has events.
fn gap_is_found<U: Unit<Value = u64>>(
    closed: &Closed<U>,
    volumes: &mut Vec<Volume<u64>>,
    later: usize,
) -> bool {
    if later == 0 || later >= volumes.len() {
        return false;
    }
    let place = volumes[later - 1].first_place();
    if volumes[later].first_place() == place {
        return true;
    }
    volumes.swap(later - 1, later);
    let verdict = reconcile(closed, volumes.as_slice());
    volumes.swap(later - 1, later);
    verdict == Err(ReconcileError::Gap { place })
}

/// Prints what the comparison says for the volumes in order, and in each order in which two neighbours are exchanged.
pub(crate) fn print_orders<U: Unit<Value = u64>, R: Print>(
    rt: &R,
    closed: &Closed<U>,
    volumes: &mut Vec<Volume<u64>>,
) -> io::Result<()> {
    println!(rt;
        "{} volumes: {:?}",
        volumes.len(),
        reconcile(closed, volumes.as_slice())
    )?;
    let mut found = 0u64;
    for later in 1..volumes.len() {
        if gap_is_found(closed, volumes, later) {
            found = found.saturating_add(1);
        }
    }
    println!(rt; "{found} exchanges: each gap is found")?;
    volumes.reverse();
    println!(rt;
        "the last one first: {:?}",
        reconcile(closed, volumes.as_slice())
    )
}
