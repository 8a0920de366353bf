// SPDX-License-Identifier: MIT
//! Writes how a script ends: who waits, and for what, and the values that barriers and invariants saw.

use crate::finding::{Found, Kind};
use crate::object::Object;
use crate::stage::{Stage, caller_count, object_count};
use po_ada_language::push_formed;
use po_scene::{Scene, SceneObject};
use std::alloc::AllocError;
use std::fmt::Write;

/// Adds the name of an object, or `the object` if it has none.
pub(crate) fn push_name(text: &mut String, scene: &Scene, object: u16) -> Result<(), AllocError> {
    match scene.objects.get(usize::from(object)) {
        Some(object) => text.push_str(object.shown_name()),
        None => Ok(()),
    }
}

/// Adds who waits at the end, and for what.
fn push_waiting(text: &mut String, scene: &Scene, stage: &Stage) -> Result<(), AllocError> {
    for position in 0..caller_count(scene) {
        if stage.waits(position)
            && let Some(line) = stage.line_of(scene, position)
            && let Some(caller) = scene.callers.get(usize::from(position))
        {
            let (name, line) = (caller.name.as_str(), scene.words_at(line));
            write!(text, "    # {name} waits: {line}\n")?;
        }
    }
    Ok(())
}

/// Adds the values of an object's variables, with commas between them.
fn push_values(text: &mut String, named: &SceneObject, state: &Object) -> Result<(), AllocError> {
    let mut between = "";
    for variable in named.names.variables.iter() {
        if let Some(value) = state.cells().get(usize::from(variable.cell)) {
            let name = variable.name.as_str();
            write!(text, "{between}{name} = ")?;
            push_formed(text, &named.names.types, variable.form, *value)?;
            between = ", ";
        }
    }
    Ok(())
}

/// Returns whether a call waits on the object.
fn is_waited_for(scene: &Scene, state: &Object) -> bool {
    for caller in 0..caller_count(scene) {
        if state.has_call_of(caller) {
            return true;
        }
    }
    false
}

/// Returns whether the values of an object are told: if a call waits on it, or if its invariant doesn't hold.
fn is_shown(scene: &Scene, found: Found, position: u16, state: &Object) -> bool {
    match found.kind {
        Kind::Invariant { object, .. } => object == position,
        _ => is_waited_for(scene, state),
    }
}

/// Adds the values of the object with this position.
fn push_object(
    text: &mut String,
    scene: &Scene,
    position: u16,
    state: &Object,
) -> Result<(), AllocError> {
    let Some(named) = scene.objects.get(usize::from(position)) else {
        return Ok(());
    };
    if named.names.variables.is_empty() {
        return Ok(());
    }
    text.push_str("    # ")?;
    push_name(text, scene, position)?;
    text.push_str(": ")?;
    push_values(text, named, state)?;
    text.push_str("\n")
}

/// Adds the values that barriers and the invariant saw.
fn push_objects(
    text: &mut String,
    scene: &Scene,
    found: Found,
    stage: &Stage,
) -> Result<(), AllocError> {
    for position in 0..object_count(scene) {
        if let Some(state) = stage.object(position)
            && is_shown(scene, found, position, state)
        {
            push_object(text, scene, position, state)?;
        }
    }
    Ok(())
}

/// Adds who waits at the end, and the values of objects.
pub(crate) fn push_ending(
    text: &mut String,
    scene: &Scene,
    found: Found,
    stage: &Stage,
) -> Result<(), AllocError> {
    push_waiting(text, scene, stage)?;
    push_objects(text, scene, found, stage)
}
