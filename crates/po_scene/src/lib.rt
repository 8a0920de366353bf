// SPDX-License-Identifier: MIT
//! Scenes: protected objects that Ada texts declare, and callers with short lists of commands.
//!
//! A scene's lines are those of a script, except that each command stands below the caller that makes it, and that there may be
//! several objects. `read_scene` reads a scene, and makes its objects by a `Texts`, such as
//! `SceneFiles`, which has them from files that the caller has read. `faults_of` tells all faults of a scene. Nothing is carried
//! out here.
//!
//! Begin with scene.rt.
#![tactic(auto)]

mod check;
mod command;
mod fault;
mod files;
mod line;
mod looks;
mod reading;
mod scene;

pub use crate::check::faults_of;
pub use crate::files::SceneFiles;
pub use crate::reading::read_scene;
pub use crate::scene::{
    Action, Caller, Command, MOST_CALLERS, MOST_COMMANDS, MOST_OBJECTS, Scene, SceneObject,
};
