// SPDX-License-Identifier: MIT
//! The scenes: what is done with an object from its opening to its closing, whether it keeps its history or not.

use crate::shared::Shared;
use crate::stage::Stage;
use crate::{answers, cancelled, company, cuts, finalized, held_lock, second_wait, side_by_side};
use po_core::Start;
use po_unit::Shape;
use std::io::{self, Print};
use std::sync::Wait;
use std::thread::Threads;
use std::time::{Clock, CpuClock};

/// A unit, and the shape of its entries.
pub(crate) type Made<U> = (U, Shape);

/// The start of each object: calls are numbered from 1, events from 0, and queues may have any length.
pub(crate) const START: Start = Start {
    first_number: 1,
    first_place: 0,
    max_queue: None,
};

/// What is printed if an object can't be opened, or a thread still has it at the end.
pub(crate) const NOT_CLOSED: &str = "not opened, or not closed";

/// What is done with an object.
#[derive(Clone, Copy, Debug)]
pub(crate) enum Scene {
    /// A caller waits, and another lets it go.
    HeldLock,
    /// Two functions run at the same time.
    SideBySide,
    /// The history is cut while many threads call.
    Cuts,
    /// The object is finalized while callers wait.
    Finalized,
    /// A thread tries to cancel the calls of others.
    Cancelled,
    /// A call lets others go, and waits itself.
    Company,
    /// Callers wait a second time.
    SecondWait,
    /// One thread's answers.
    Answers,
    /// Only the order of the passes is reversed: the highest seat comes first.
    Idle,
}

impl Scene {
    /// Returns how many threads start together.
    pub(crate) fn together(self) -> usize {
        match self {
            Scene::SideBySide => 2,
            Scene::Cuts => 9,
            Scene::Finalized | Scene::SecondWait => 8,
            _ => 1,
        }
    }
}

/// Plays the scene.
pub(crate) fn play<
    P: Send + Drop + 'static,
    O: Shared<P> + Send + Sync + Drop + 'static,
    R: Threads + Wait + Clock + CpuClock + Print + Copy + Send + 'static,
>(rt: R, stage: &mut Stage<P, O>, scene: Scene) -> io::Result<()> {
    match scene {
        Scene::HeldLock => held_lock::play(rt, stage),
        Scene::SideBySide => side_by_side::play(rt, stage),
        Scene::Cuts => cuts::play(rt, stage),
        Scene::Finalized => finalized::play(rt, stage),
        Scene::Cancelled => cancelled::play(rt, stage),
        Scene::Company => company::play(rt, stage),
        Scene::SecondWait => second_wait::play(rt, stage),
        Scene::Answers => answers::play(&rt, stage),
        Scene::Idle => {
            stage.passes.reverse();
            Ok(())
        }
    }
}
