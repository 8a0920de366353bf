// SPDX-License-Identifier: MIT
//! The functions that say what has to hold.

ghost use Rattle.std.specs.Prelude.{IsTrue, List, Some, slice_get, IfSome, OnOk};
ghost use Rattle.po_explore.specs.Scenes.{views_of, stage_of, IsInvariant, IsBrokenAt, IsBroken};
ghost use Rattle.po_explore.specs.Findings.{AllShown};
ghost use Rattle.po_explore.specs.declared.news.News.{News};

use crate::finding::{Found, Kind};
use crate::object::Object;
use crate::stage::{Stage, object_count};
use po_ada_names::{ObjectNames, Operation};
use po_scene::{Scene, SceneObject};
use std::alloc::AllocError;

/// The name of the function that is an object's invariant.
const INVARIANT: &str = "Invariant";

/// Returns whether the function is an invariant.
fn is_invariant(function: &Operation) -> bool
    ensures { IsTrue result → IsInvariant (Some function.now) }
{
    function.name.as_str() == INVARIANT && function.parameters.is_empty()
}

/// Returns whether the function with this number is an invariant.
fn is_invariant_at(names: &ObjectNames, number: u16) -> bool
    ensures { IsTrue result → IsInvariant (slice_get names.now.functions.items number) }
{
    match names.functions.get(usize::from(number)) {
        Some(function) => is_invariant(function),
        None => false,
    }
}

/// Returns the number of the function that is an object's invariant: Invariant, without parameters.
pub fn invariant_of(names: &ObjectNames) -> Option<u16>
    ensures { IfSome result (λ number. IsInvariant (slice_get names.now.functions.items number)) }
{
    let count = u16::try_from(names.functions.len()).unwrap_or(u16::MAX);
    for number in 0..count {
        if is_invariant_at(names, number) {
            return Some(number);
        }
    }
    None
}

/// Returns the number of the object's invariant, if it has one that doesn't hold.
pub(crate) fn broken_in(named: &SceneObject, state: &Object) -> Option<u16>
    ensures { IfSome result (λ function. IsBrokenAt (Some named.now) (Some state.now.core.object) function) }
{
    let function = invariant_of(&named.names)?;
    if state.holds(function) {
        None
    } else {
        Some(function)
    }
}

/// Returns the number of the invariant of the object with this position, if it has one that doesn't hold.
fn broken_at(named: &SceneObject, stage: &Stage, object: u16) -> Option<u16>
    ensures { IfSome result (λ function. IsBrokenAt (Some named.now) (slice_get (views_of stage.now) object) function) }
{
    match stage.object(object) {
        Some(state) => broken_in(named, state),
        None => None,
    }
}

/// Returns the number of the invariant of the scene's object with this position, if it has one that doesn't hold.
fn broken(scene: &Scene, stage: &Stage, object: u16) -> Option<u16>
    ensures { IfSome result (λ function. IsBroken scene.now (views_of stage.now) object function) }
{
    match scene.objects.get(usize::from(object)) {
        Some(named) => broken_at(named, stage, object),
        None => None,
    }
}

/// Adds the object with this position, if its invariant doesn't hold.
fn push_broken(
    scene: &Scene,
    stage: &Stage,
    object: u16,
    list: &mut Vec<Found>,
) -> Result<(), AllocError>
    ensures { (told : List News) → AllShown scene.now (stage_of stage.now) told list.old.items
        → OnOk result (AllShown scene.now (stage_of stage.now) told list.new.items) }
{
    match broken(scene, stage, object) {
        Some(function) => {
            let kind = Kind::Invariant { object, function };
            list.push(Found { kind, line: None })?;
            Ok(())
        }
        None => Ok(()),
    }
}

/// Adds the objects whose invariants don't hold.
pub(crate) fn broken_invariants(
    scene: &Scene,
    stage: &Stage,
    list: &mut Vec<Found>,
) -> Result<(), AllocError>
    ensures { (told : List News) → AllShown scene.now (stage_of stage.now) told list.old.items
        → OnOk result (AllShown scene.now (stage_of stage.now) told list.new.items) }
{
    for object in 0..object_count(scene) {
        push_broken(scene, stage, object, list)?;
    }
    Ok(())
}
