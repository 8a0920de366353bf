// SPDX-License-Identifier: MIT
//! Writes orders of commands as scripts.

use crate::answer::{DONE, push_answer_to};
use crate::news::News;
use crate::walk::Walk;
use po_ada_language::Stop;
use po_scene::{Action, Command, Scene, SceneObject};
use std::alloc::{AllocError, Global};
use std::fmt::Write;

/// Adds the line that makes the only object, unless that of the command line is meant, or that of one of several.
fn push_object(text: &mut String, scene: &Scene, object: &SceneObject) -> Result<(), AllocError> {
    let (name, words) = (object.name.as_str(), object.words.as_str());
    if scene.objects.len() > 1 {
        write!(text, "    object {name}{words}\n")
    } else if words.is_empty() {
        Ok(())
    } else {
        write!(text, "    unit{words}\n")
    }
}

/// Returns the name of a caller.
fn caller_name(scene: &Scene, caller: u16) -> &str {
    match scene.callers.get(usize::from(caller)) {
        Some(caller) => caller.name.as_str(),
        None => "",
    }
}

/// Adds the name of a caller, as a comment.
fn push_caller(text: &mut String, scene: &Scene, caller: u16) -> Result<(), AllocError> {
    let name = caller_name(scene, caller);
    write!(text, "    # {name}\n")
}

/// Adds an attempt to cancel the call of a caller as a script of one object has it: by the call's number.
fn push_cancel(
    text: &mut String,
    scene: &Scene,
    walk: &Walk,
    caller: u16,
) -> Result<(), AllocError> {
    match walk.stage.waiting_number(caller) {
        Some(number) => write!(text, "    cancel {number}\n"),
        None => {
            let name = caller_name(scene, caller);
            write!(text, "    # abort {name}: no call waits\n")
        }
    }
}

/// Adds this command, which the walk has come to.
fn push_command(
    text: &mut String,
    scene: &Scene,
    walk: &Walk,
    command: Command,
) -> Result<(), AllocError> {
    match command.action {
        Action::Abort(other) if scene.objects.len() == 1 => push_cancel(text, scene, walk, other),
        _ => {
            let line = scene.words_at(command.line);
            write!(text, "    {line}\n")
        }
    }
}

/// Returns the answer to the latest command of a caller, which the last command brought about.
fn answer_of(alloc: Global, scene: &Scene, walk: &Walk, told: &News) -> Result<String, AllocError> {
    let mut answer = String::new(alloc);
    if let Some(command) = walk.stage.latest_of(scene, told.caller) {
        push_answer_to(&mut answer, scene, &command, told.event)?;
    }
    Ok(answer)
}

/// Adds the answer to the last command, which this caller made, if it is more than that it was done.
fn push_own(
    alloc: Global,
    text: &mut String,
    scene: &Scene,
    walk: &Walk,
    caller: u16,
) -> Result<(), AllocError> {
    for told in walk.news() {
        if told.caller == caller {
            let answer = answer_of(alloc, scene, walk, told)?;
            if answer.as_str() != DONE {
                write!(text, "    # {answer}\n")?;
            }
        }
    }
    Ok(())
}

/// Adds how calls of other callers ended by the last command, which this caller made.
fn push_others(
    alloc: Global,
    text: &mut String,
    scene: &Scene,
    walk: &Walk,
    caller: u16,
) -> Result<(), AllocError> {
    for told in walk.news() {
        if told.caller != caller {
            let name = caller_name(scene, told.caller);
            let answer = answer_of(alloc, scene, walk, told)?;
            write!(text, "    # {name} goes on: {answer}\n")?;
        }
    }
    Ok(())
}

/// Adds the commands in this order, each after the name of its caller, and what they bring about.
fn push_commands(
    alloc: Global,
    text: &mut String,
    scene: &Scene,
    order: &[u16],
) -> Result<(), Stop> {
    let mut walk = Walk::new(alloc, scene)?;
    let mut last = None;
    for caller in order {
        if last != Some(*caller) {
            push_caller(text, scene, *caller)?;
        }
        last = Some(*caller);
        if let Some(command) = walk.stage.next_of(scene, *caller) {
            push_command(text, scene, &walk, command)?;
        }
        walk.step(scene, *caller)?;
        push_own(alloc, text, scene, &walk, *caller)?;
        push_others(alloc, text, scene, &walk, *caller)?;
    }
    Ok(())
}

/// Adds the script of the order. If there is one object, the script shows it at its end.
pub(crate) fn push_script(
    alloc: Global,
    text: &mut String,
    scene: &Scene,
    order: &[u16],
) -> Result<(), Stop> {
    for object in scene.objects.iter() {
        push_object(text, scene, object)?;
    }
    push_commands(alloc, text, scene, order)?;
    match scene.objects.len() {
        1 => Ok(text.push_str("    show\n")?),
        _ => Ok(()),
    }
}
