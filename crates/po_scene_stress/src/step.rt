// SPDX-License-Identifier: MIT
//! The commands of a caller as steps, each at one object.

use po_ada_language::Operation;
use po_ada_names::ObjectNames;
use po_ada_unit::Values;
use po_scene::{Action, Caller, Command, Scene, SceneObject};
use po_unit::EntryRef;
use std::alloc::{AllocError, Global};

/// What a step does.
#[derive(Clone, Copy)]
pub(crate) enum Deed {
    /// Carries out this operation. The function with the other number, if there is one, is the precondition of the call.
    Operate {
        operation: Operation<Values>,
        precondition: Option<u16>,
    },
    /// Tries to cancel the call of the caller with this seat (9.5.3).
    Abort(u16),
    /// Raises the clock to this time, unless it is already later.
    Tick(u64),
}

/// A step of a caller.
#[derive(Clone, Copy)]
pub(crate) struct Step {
    /// The position of its object.
    pub(crate) object: u16,
    /// The position of its command's line.
    pub(crate) line: usize,
    pub(crate) deed: Deed,
}

/// A step in its place among those of its caller.
#[derive(Clone, Copy)]
pub(crate) struct Turn {
    /// How many steps of the caller come before it.
    pub(crate) number: u64,
    /// The position of the object of the caller's next step; its own if it is the last.
    pub(crate) next: u16,
    pub(crate) step: Step,
}

/// Returns the number of the function that is asked before a call of the entry is issued, if there is one (6.1.1). A call that is
/// refused isn't asked.
fn precondition(names: &ObjectNames, entry: EntryRef) -> Option<u16> {
    let entry = names.entries.get(usize::from(entry.declaration))?;
    if entry.public {
        entry.precondition
    } else {
        None
    }
}

/// Returns the step that carries out the operation at an object.
fn operating(object: &SceneObject, operation: Operation<Values>) -> Deed {
    let precondition = match operation {
        Operation::Call { entry, .. } => precondition(&object.names, entry),
        _ => None,
    };
    Deed::Operate {
        operation,
        precondition,
    }
}

/// Adds a step at each object.
fn push_at_each(
    list: &mut Vec<Step>,
    scene: &Scene,
    line: usize,
    deed: Deed,
) -> Result<(), AllocError> {
    let count = u16::try_from(scene.objects.len()).unwrap_or(u16::MAX);
    for object in 0..count {
        list.push(Step { object, line, deed })?;
    }
    Ok(())
}

/// Adds the steps of a command. A tick is one of each object; so is an attempt to cancel a call, which can wait at any.
fn push_steps(list: &mut Vec<Step>, scene: &Scene, command: &Command) -> Result<(), AllocError> {
    let line = command.line;
    match command.action {
        Action::Operate { object, operation } => {
            if let Some(named) = scene.objects.get(usize::from(object)) {
                let deed = operating(named, operation);
                list.push(Step { object, line, deed })?;
            }
            Ok(())
        }
        Action::Abort(caller) => push_at_each(list, scene, line, Deed::Abort(caller)),
        Action::Tick(time) => push_at_each(list, scene, line, Deed::Tick(time)),
    }
}

/// Returns the steps of a caller.
pub(crate) fn steps_of(
    alloc: Global,
    scene: &Scene,
    caller: &Caller,
) -> Result<Vec<Step>, AllocError> {
    let mut list = Vec::new(alloc);
    for command in caller.commands.iter() {
        push_steps(&mut list, scene, command)?;
    }
    Ok(list)
}

/// Returns the steps at the object with this position, each in its place.
pub(crate) fn turns_at(
    alloc: Global,
    steps: &[Step],
    object: u16,
) -> Result<Vec<Turn>, AllocError> {
    let mut list = Vec::new(alloc);
    for (position, step) in steps.iter().enumerate() {
        if step.object == object {
            let next = match steps.get(position.saturating_add(1)) {
                Some(next) => next.object,
                None => object,
            };
            list.push(Turn {
                number: position as u64,
                next,
                step: *step,
            })?;
        }
    }
    Ok(list)
}
