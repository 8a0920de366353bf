// SPDX-License-Identifier: MIT
//! Plays a schedule on an object of either kind, from its opening to its closing.

use crate::company::play;
use crate::explorer::Explorer;
use crate::gate::Gate;
use crate::plays::Kept;
use crate::scene::Scene;
use crate::station::Station;
use crate::told::Told;
use po_core::{Record, Start, Volume};
use po_object::{Closed, Object, Pass, Receipts, Story};
use std::alloc::AllocError;
use std::sync::ledger::Ledger;
use std::sync::{Arc, Wait};
use std::thread::Threads;
use std::time::Clock;

/// What is left of an object, the volumes cut off from its history, and each thread's answers.
#[derive(Drop)]
pub(crate) struct Shelf<R: Record<Station>, Q: Receipts<u64>> {
    pub(crate) closed: Closed<Station, R, Q>,
    pub(crate) volumes: Vec<Volume<u64>>,
    pub(crate) told: Vec<Told>,
}

/// Returns how the object of a scene starts.
pub(crate) fn beginning(scene: Scene) -> Start {
    Start {
        first_number: 1,
        first_place: scene.first_place(),
        max_queue: scene.max_queue(),
    }
}

/// Plays the scene with the object, and closes it, if all threads come to an end.
pub(crate) fn play_and_close<
    C: Story<Station, u64> + Send + Sync + 'static,
    P: Ledger + Send + Sync + 'static,
    F: Ledger + Send + Sync + 'static,
    R: Kept + Send + Sync + 'static,
    Q: Receipts<u64> + Send + Sync + 'static,
    W: Threads + Wait + Clock + AllocGlobal + Copy + Drop + Send + Sync + 'static,
>(
    rt: W,
    explorer: &Arc<Explorer>,
    object: Object<Station, C, P, F, R, Q, Gate<W>>,
    passes: Vec<Pass<u64, C, P, F, Q>>,
    scene: Scene,
) -> Result<Option<Shelf<R, Q>>, AllocError> {
    let Some(left) = play(rt, explorer, object, passes, scene)? else {
        return Ok(None);
    };
    let Ok(closed) = left.object.close(left.passes) else {
        return Ok(None);
    };
    Ok(Some(Shelf {
        closed,
        volumes: left.volumes,
        told: left.told,
    }))
}
