// SPDX-License-Identifier: MIT
//! A thread of a scene.

use crate::act::Act;
use crate::explorer::Explorer;
use crate::handover::Handover;
use crate::next::Next;
use crate::plays::Plays;
use crate::scene::Scene;
use crate::told::Told;
use po_core::Volume;
use std::alloc::{AllocError, Global};
use std::sync::{Arc, Wait};
use std::thread::{self, JoinHandle, Threads};

/// What a thread of a scene has: its number, its passes, the volumes that it cut off from the history, and its answers.
#[derive(Drop)]
pub(crate) struct Player<P: Drop> {
    pub(crate) number: usize,
    /// The thread calls with the last one.
    pub(crate) passes: Vec<P>,
    pub(crate) volumes: Vec<Volume<u64>>,
    pub(crate) told: Told,
    /// Through this the thread hands a pass over, or takes one.
    handover: Arc<Handover<P>>,
}

impl<P: Drop> Player<P> {
    /// Makes a player with room for one volume and for one more pass.
    pub(crate) fn new(
        alloc: Global,
        number: usize,
        pass: P,
        handover: Arc<Handover<P>>,
    ) -> Result<Player<P>, AllocError> {
        let (mut passes, mut volumes) = (Vec::new(alloc), Vec::new(alloc));
        passes.reserve(2)?;
        passes.push(pass)?;
        volumes.reserve(1)?;
        Ok(Player {
            number,
            passes,
            volumes,
            told: Told::new(alloc)?,
            handover,
        })
    }

    /// Does what the scene says, each time when it is the thread's turn.
    fn play<O: Plays<P>, W: Wait>(
        mut self,
        rt: &W,
        explorer: &Explorer,
        object: &O,
        scene: Scene,
    ) -> Player<P> {
        explorer.wait_for_turn(rt, self.number);
        for act in scene.acts(self.number) {
            self.perform(rt, explorer, object, *act);
        }
        explorer.finish(rt);
        self
    }

    /// Does what the act says.
    fn perform<O: Plays<P>, W: Wait>(&mut self, rt: &W, explorer: &Explorer, object: &O, act: Act) {
        match act {
            Act::HandOver => self.hand_over(rt, explorer),
            Act::TakeOver => self.take_over(rt, explorer),
            _ => self.ask(rt, object, act),
        }
    }

    /// Asks the object what the act says.
    fn ask<O: Plays<P>, W: Wait>(&mut self, rt: &W, object: &O, act: Act) {
        if let Some(volume) = object.play(rt, self.passes.last_mut(), act, &mut self.told) {
            let _kept = self.volumes.push(volume);
        }
    }

    /// Hands its pass over.
    fn hand_over<W: Wait>(&mut self, rt: &W, explorer: &Explorer) {
        explorer.reach(rt, Next::HandOver);
        if let Some(pass) = self.passes.pop() {
            self.handover.put(rt, pass);
        }
    }

    /// Takes over the pass that another thread hands over, and calls with it from now on.
    fn take_over<W: Wait>(&mut self, rt: &W, explorer: &Explorer) {
        explorer.reach(rt, Next::TakeOver);
        if let Some(pass) = self.handover.take(rt) {
            let _kept = self.passes.push(pass);
        }
    }
}

/// Starts a thread that does what the scene says, and gives back what it then has.
pub(crate) fn start<
    P: Send + Drop + 'static,
    O: Plays<P> + Send + Sync + Drop + 'static,
    W: Threads + Wait + Copy + Send + 'static,
>(
    rt: W,
    explorer: Arc<Explorer>,
    object: Arc<O>,
    player: Player<P>,
    scene: Scene,
) -> Result<JoinHandle<Player<P>>, AllocError> {
    let job = move || -> Player<P> { player.play(&rt, &*explorer, &*object, scene) };
    Ok(thread::spawn(&rt, job)?)
}
