// SPDX-License-Identifier: MIT
//! A walk through a scene: one order of its callers' commands.

ghost use Rattle.std.specs.Prelude.{◌≡◌, ◌↔◌, ◌⊎◌, [], Contains, IsTrue, IsSome, IfOk, IfErr, IfSome, OnOk};
ghost use Rattle.po_explore.specs.Scenes.{StageView, stage_of, next_of, after_command, after_order, IsBeginning, CantBegin};
ghost use Rattle.po_explore.specs.News.{step_news, order_news};
ghost use Rattle.po_explore.specs.Findings.{Shows, AllShown, LeadsTo};
ghost use Rattle.po_scene.specs.declared.scene.Scene.{Scene};

use crate::finding::{Found, Kind};
use crate::invariants::broken_invariants;
use crate::news::{News, answers_in, found_in};
use crate::stage::Stage;
use po_ada_language::Stop;
use po_scene::Scene;
use std::alloc::{AllocError, Global};

/// How far a scene is after some commands, and what the last one brought about.
#[derive(Drop)]
pub struct Walk {
    pub(crate) stage: Stage,
    news: Vec<News>,
}

impl Walk {
    /// Returns how the scene begins, on new objects.
    ///
    /// Fails only if an object can't be made or memory runs out.
    pub fn new(alloc: Global, scene: &Scene) -> Result<Walk, Stop>
        ensures begins { IfOk result (λ walk. IsBeginning scene.now (stage_of walk.stage)) }
        ensures told { IfOk result (λ walk. walk.news.items ≡ []) }
        ensures fails { IfErr result (λ stop. (stop ≡ Stop.OutOfMemory) ⊎ CantBegin scene.now) }
    {
        Ok(Walk {
            stage: Stage::new(alloc, scene)?,
            news: Vec::new(alloc),
        })
    }

    /// Returns whether the caller with this position can make its next command: its call doesn't wait, and it has one.
    pub fn can_step(&self, scene: &Scene, caller: u16) -> bool
        ensures { IsTrue result ↔ IsSome (next_of scene.now (stage_of self.now.stage) caller) }
    {
        self.stage.next_of(scene, caller).is_some()
    }

    /// Has the caller with this position make its next command, if it can.
    ///
    /// Fails only if memory runs out. Nothing is said of the walk then: begin a new one.
    pub fn step(&mut self, scene: &Scene, caller: u16) -> Result<(), AllocError>
        ensures stage { OnOk result (stage_of self.new.stage ≡ after_command scene.now (stage_of self.old.stage) caller) }
        ensures told { OnOk result (self.new.news.items ≡ step_news scene.now (stage_of self.old.stage) caller) }
    {
        self.news.clear();
        self.stage.step(scene, caller, &mut self.news)
    }

    /// Returns what the last command brought about.
    pub(crate) fn news(&self) -> &[News] {
        self.news.as_slice()
    }

    /// Adds that callers wait for ever, if they do.
    fn push_stuck(&self, scene: &Scene, list: &mut Vec<Found>) -> Result<(), AllocError>
        requires { AllShown scene.now (stage_of self.now.stage) self.now.news.items list.old.items }
        ensures { OnOk result (AllShown scene.now (stage_of self.now.stage) self.now.news.items list.new.items) }
    {
        if self.stage.is_stuck(scene) {
            let kind = Kind::Stuck;
            list.push(Found { kind, line: None })?;
        }
        Ok(())
    }

    /// Returns what is wrong after the last command.
    pub fn found(&self, alloc: Global, scene: &Scene) -> Result<Vec<Found>, AllocError>
        ensures { IfOk result (λ list. AllShown scene.now (stage_of self.now.stage) self.now.news.items list.items) }
    {
        let mut list = Vec::new(alloc);
        self.push_stuck(scene, &mut list)?;
        found_in(scene, &self.stage, self.news.as_slice(), &mut list)?;
        broken_invariants(scene, &self.stage, &mut list)?;
        Ok(list)
    }

    /// Returns the answers to the last command and to those that it ended, with which nothing is wrong.
    pub fn answers(&self, alloc: Global, scene: &Scene) -> Result<Vec<Found>, AllocError>
        ensures { IfOk result (λ list. AllShown scene.now (stage_of self.now.stage) self.now.news.items list.items) }
    {
        let mut list = Vec::new(alloc);
        answers_in(scene, &self.stage, self.news.as_slice(), &mut list)?;
        Ok(list)
    }

    /// Returns what equals this of what is found after the last command.
    #[tactic(auto, using(crate::proofs::Told::shown_among))]
    fn shown(&self, alloc: Global, scene: &Scene, found: Found) -> Result<Option<Found>, AllocError>
        ensures { IfOk result (λ shown. IfSome shown (Shows scene.now (stage_of self.now.stage) self.now.news.items)) }
    {
        let list = if found.kind.answered().is_some() {
            self.answers(alloc, scene)?
        } else {
            self.found(alloc, scene)?
        };
        Ok(equal_among(list.as_slice(), found))
    }
}

/// Returns what equals this among what was found.
#[tactic(auto, using(crate::proofs::Told::among))]
fn equal_among(list: &[Found], found: Found) -> Option<Found>
    ensures { IfSome result (Contains list.now) }
{
    for position in 0..list.len() {
        if list[position] == found {
            return Some(list[position]);
        }
    }
    None
}

/// Carries out this order anew, on new objects. Returns the walk, and what was found, if that is so at its end.
pub(crate) fn confirmed(
    alloc: Global,
    scene: &Scene,
    order: &[u16],
    found: Found,
) -> Result<Option<(Walk, Found)>, Stop>
    ensures { IfOk result (λ confirmed. IfSome confirmed (λ c. LeadsTo scene.now order.now c.1)) }
{
    let walk = replay(alloc, scene, order)?;
    match walk.shown(alloc, scene, found)? {
        Some(found) => Ok(Some((walk, found))),
        None => Ok(None),
    }
}

/// Has the callers make their next commands in this order, on new objects.
fn replay(alloc: Global, scene: &Scene, order: &[u16]) -> Result<Walk, Stop>
    ensures { IfOk result (λ walk. (first : StageView) × IsBeginning scene.now first × (stage_of walk.stage ≡ after_order scene.now first order.now)
        × (walk.news.items ≡ order_news scene.now first [] order.now)) }
{
    let mut walk = Walk::new(alloc, scene)?;
    for caller in order {
        walk.step(scene, *caller)?;
    }
    Ok(walk)
}
