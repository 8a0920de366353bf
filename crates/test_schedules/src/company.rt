// SPDX-License-Identifier: MIT
//! The threads of a scene, and the object that they share.

use crate::ending::Ending;
use crate::explorer::Explorer;
use crate::handover::Handover;
use crate::player::{Player, start};
use crate::plays::Plays;
use crate::scene::Scene;
use crate::told::Told;
use po_core::Volume;
use std::alloc::{AllocError, Global};
use std::sync::{Arc, Wait};
use std::thread::{JoinHandle, Threads};
use std::time::Clock;

/// What is left of a schedule: the object, the passes, the volumes cut off from the history, and each thread's answers.
#[derive(Drop)]
pub(crate) struct Left<P: Drop, O: Drop> {
    pub(crate) object: O,
    pub(crate) passes: Vec<P>,
    pub(crate) volumes: Vec<Volume<u64>>,
    pub(crate) told: Vec<Told>,
}

/// Starts a thread for each pass.
fn start_all<
    P: Send + Drop + 'static,
    O: Plays<P> + Send + Sync + Drop + 'static,
    W: Threads + Wait + AllocGlobal + Copy + Send + 'static,
>(
    rt: W,
    explorer: &Arc<Explorer>,
    object: &Arc<O>,
    passes: Vec<P>,
    scene: Scene,
) -> Result<Vec<JoinHandle<Player<P>>>, AllocError> {
    let mut handles = Vec::new(rt.alloc());
    let handover = Arc::new(rt.alloc(), Handover::new())?;
    let mut number = 0usize;
    for pass in passes {
        let player = Player::new(rt.alloc(), number, pass, Arc::try_clone(&handover)?)?;
        let (explorer, object) = (Arc::try_clone(explorer)?, Arc::try_clone(object)?);
        handles.push(start(rt, explorer, object, player, scene)?)?;
        number = number.saturating_add(1);
    }
    Ok(handles)
}

/// Takes back what the threads have, and the object, which none of them has any more.
fn join_all<P: Drop, O: Drop, W: Threads>(
    rt: &W,
    alloc: Global,
    object: Arc<O>,
    handles: Vec<JoinHandle<Player<P>>>,
) -> Result<Option<Left<P, O>>, AllocError> {
    let mut passes = Vec::new(alloc);
    let (mut volumes, mut told) = (Vec::new(alloc), Vec::new(alloc));
    for handle in handles {
        let player = handle.join(rt);
        for pass in player.passes {
            passes.push(pass)?;
        }
        for volume in player.volumes {
            volumes.push(volume)?;
        }
        told.push(player.told)?;
    }
    let Ok(object) = Arc::try_unwrap(object) else {
        return Ok(None);
    };
    Ok(Some(Left {
        object,
        passes,
        volumes,
        told,
    }))
}

/// Has threads play the scene in the explorer's next schedule. Returns what is left, if all of them come to an end.
pub(crate) fn play<
    P: Send + Drop + 'static,
    O: Plays<P> + Send + Sync + Drop + 'static,
    W: Threads + Wait + Clock + AllocGlobal + Copy + Send + 'static,
>(
    rt: W,
    explorer: &Arc<Explorer>,
    object: O,
    passes: Vec<P>,
    scene: Scene,
) -> Result<Option<Left<P, O>>, AllocError> {
    let object = Arc::new(rt.alloc(), object)?;
    let handles = start_all(rt, explorer, &object, passes, scene)?;
    explorer.begin(&rt, handles.len());
    if explorer.ending(&rt) != Ending::Done {
        return Ok(None);
    }
    join_all(&rt, rt.alloc(), object, handles)
}
