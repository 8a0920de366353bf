// SPDX-License-Identifier: MIT
//! Functions run side by side: two of them wait for each other, and both end.

use crate::scenes::{Made, Scene};
use crate::shared::Shared;
use crate::signs::{Board, Signs};
use crate::stage::Stage;
use crate::threads::Work;
use crate::{bounded, recorded};
use std::alloc::{AllocError, Global};
use std::io::{self, Print};
use std::sync::{Arc, Wait};
use std::thread::Threads;
use std::time::{Clock, CpuClock};

/// Makes a unit that writes on this board.
fn signs(alloc: Global, board: &Arc<Board>) -> Result<Made<Signs>, AllocError> {
    let unit = Signs::new(Arc::try_clone(board)?);
    let shape = unit.shape(alloc).map_err(|_| AllocError)?;
    Ok((unit, shape))
}

/// Two threads start together, and call the function with 0 and 1.
pub(crate) fn play<
    P: Send + Drop + 'static,
    O: Shared<P> + Send + Sync + Drop + 'static,
    R: Threads + Wait + Print + Copy + Send + 'static,
>(rt: R, stage: &mut Stage<P, O>) -> io::Result<()> {
    for value in 0..2 {
        stage.start(rt, Work::Function(value))?;
    }
    stage.join_all(&rt)?;
    println!(rt; "functions answered {}", stage.team.answered())
}

/// Plays the scene. If functions excluded each other, that would show: the one that came first couldn't note that it saw the
/// other.
pub(crate) fn run<
    R: Threads + Wait + Clock + CpuClock + Print + AllocGlobal + Copy + Send + 'static,
>(rt: R) -> io::Result<()> {
    let alloc = rt.alloc();
    let board = Arc::new(alloc, Board::new())?;
    recorded::show(rt, signs(alloc, &board)?, 2, Scene::SideBySide)?;
    println!(rt; "notes {:?}", board.notes())?;
    let board = Arc::new(alloc, Board::new())?;
    bounded::show(rt, signs(alloc, &board)?, 2, Scene::SideBySide)?;
    println!(rt; "notes {:?}", board.notes())
}
