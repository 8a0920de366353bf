// SPDX-License-Identifier: MIT
//! A program for the gate: scenes of a few callers, played on real objects, in each order of their steps.
//!
//! Without an argument each scene is played with up to one interruption, and the scenes of two threads in every order, some of
//! them also with sleeps that end for no reason. With the argument `all` the scenes of three threads are played in every order
//! too. A scene's name plays only that scene, and `recorded`, `bounded` or `refused` plays only on objects of that kind.
#![tactic(auto)]

mod act;
mod bounded;
mod company;
mod ending;
mod explore;
mod explorer;
mod gate;
mod handover;
mod next;
mod objects;
mod path;
mod places;
mod plan;
mod player;
mod plays;
mod recorded;
mod refused;
mod refusing;
mod report;
mod scene;
mod schedule;
mod station;
mod threads;
mod told;
mod turn;

use explore::explore;
use path::Bound;
use plan::{Kind, Plan};
use scene::{SCENES, Scene};
use std::env::{Env, args};
use std::io::{self, Print};
use std::process::ExitCode;
use std::sync::Wait;
use std::thread::Threads;
use std::time::Clock;

/// What the words of the command line ask for.
#[derive(Clone, Copy)]
struct Asked {
    /// Whether scenes of three threads are played in every order too.
    is_all: bool,
    /// The only scene.
    scene: Option<Scene>,
    /// The only kind of object.
    kind: Option<Kind>,
}

impl Asked {
    /// Reads the words.
    fn read<W: Env + AllocGlobal>(rt: &W) -> io::Result<Asked> {
        let mut asked = Asked {
            is_all: false,
            scene: None,
            kind: None,
        };
        for word in args(rt)?.skip(1) {
            asked.note(word.as_str());
        }
        Ok(asked)
    }

    /// Notes what a word asks for.
    fn note(&mut self, word: &str) {
        match word {
            "all" => self.is_all = true,
            "recorded" => self.kind = Some(Kind::Recorded),
            "bounded" => self.kind = Some(Kind::Bounded),
            "refused" => self.kind = Some(Kind::Refused),
            _ => self.scene = scene_named(word),
        }
    }

    /// Returns whether the scene is played.
    fn has_scene(&self, scene: Scene) -> bool {
        match self.scene {
            Some(only) => only == scene,
            None => true,
        }
    }

    /// Returns whether objects of this kind are played on.
    fn has_kind(&self, kind: Kind) -> bool {
        match self.kind {
            Some(only) => only == kind,
            None => true,
        }
    }

    /// Returns whether the plan's scene is played in every order. Scenes of two threads are; if memory is refused, the longest
    /// of them only with `all`. Scenes of three threads are only with `all`, and never if memory is refused.
    fn has_every_order(&self, plan: Plan) -> bool {
        let is_refused = plan.kind == Kind::Refused;
        match plan.scene.threads() {
            2 => self.is_all || !is_refused || plan.scene != Scene::Again,
            3 => self.is_all && !is_refused,
            _ => false,
        }
    }

    /// Returns whether the plan's scene is also played with sleeps that end for no reason. Only scenes of two threads and
    /// `HandOn` are; without `all` only those with few schedules, on objects that keep their history.
    fn has_dozing(&self, plan: Plan) -> bool {
        let is_long = matches!(
            plan.scene,
            Scene::Twice | Scene::Again | Scene::Full | Scene::HandAtOnce
        );
        let may_be_late = plan.scene.threads() == 2 || plan.scene == Scene::HandOn;
        may_be_late
            && plan.kind != Kind::Refused
            && (self.is_all || !is_long && plan.kind == Kind::Recorded)
    }
}

/// Returns the scene with this name.
fn scene_named(name: &str) -> Option<Scene> {
    SCENES.into_iter().find(|scene| scene.name() == name)
}

/// Plays the scene in all ways that are asked for. Returns whether all schedules ended as they should.
fn explore_scene<
    W: Threads + Wait + Clock + Print + AllocGlobal + Copy + Drop + Send + Sync + 'static,
>(rt: W, kind: Kind, scene: Scene, asked: Asked) -> io::Result<bool> {
    let plan = Plan {
        kind,
        scene,
        bound: Bound::Interruptions(1),
        may_doze: false,
    };
    if !explore(rt, plan)? {
        return Ok(false);
    }
    if !asked.has_every_order(plan) {
        return Ok(true);
    }
    explore_every_order(rt, plan, asked)
}

/// Plays the scene in every order, and if asked for also with sleeps that end for no reason.
fn explore_every_order<
    W: Threads + Wait + Clock + Print + AllocGlobal + Copy + Drop + Send + Sync + 'static,
>(rt: W, plan: Plan, asked: Asked) -> io::Result<bool> {
    let plan = Plan {
        bound: Bound::EveryOrder,
        ..plan
    };
    if !explore(rt, plan)? {
        return Ok(false);
    }
    if !asked.has_dozing(plan) {
        return Ok(true);
    }
    explore(
        rt,
        Plan {
            may_doze: true,
            ..plan
        },
    )
}

/// Plays all scenes that are asked for on an object of this kind.
fn explore_all<
    W: Threads + Wait + Clock + Print + AllocGlobal + Copy + Drop + Send + Sync + 'static,
>(rt: W, kind: Kind, asked: Asked) -> io::Result<bool> {
    for scene in SCENES {
        if asked.has_scene(scene) && kind.has(scene) && !explore_scene(rt, kind, scene, asked)? {
            return Ok(false);
        }
    }
    Ok(true)
}

fn main(rt: HostRuntime) -> io::Result<ExitCode> {
    let asked = Asked::read(&rt)?;
    for kind in [Kind::Recorded, Kind::Bounded, Kind::Refused] {
        if asked.has_kind(kind) && !explore_all(rt, kind, asked)? {
            return Ok(ExitCode::from(1));
        }
    }
    Ok(ExitCode::from(0))
}
