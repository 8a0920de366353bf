// SPDX-License-Identifier: MIT
//! Writes what was found.

ghost use Rattle.std.specs.Prelude.{◌≡◌, IfOk, true};
ghost use Rattle.po_explore.specs.Findings.{verdict_by};

use crate::answer::push_answer_to;
use crate::ending::{push_ending, push_name};
use crate::explored::Explored;
use crate::finding::{Finding, Found, Kind};
use crate::news::Event;
use crate::script::push_script;
use crate::walk::{Walk, confirmed};
use po_ada_language::{Operation, Stop};
use po_ada_script::push_exception;
use po_scene::{Action, Caller, Command, Scene};
use std::alloc::{AllocError, Global};
use std::fmt::Write;

/// How a search ended.
#[derive(Clone, Copy, Debug, PartialEq, Eq)]
pub enum Verdict {
    /// Something was found.
    Found,
    /// All situations were looked at, and nothing was found.
    Clean,
    /// Nothing was found, but not all situations were looked at.
    CutOff,
}

/// What a search found, in words.
#[derive(Drop)]
pub struct Report {
    /// Each finding with its script, and how much was looked at.
    pub text: String,
    pub verdict: Verdict,
}

/// Adds the exception that an operation of the line raises, by its name in the text of the operation's object.
fn push_raised(
    text: &mut String,
    scene: &Scene,
    line: usize,
    exception: u32,
) -> Result<(), AllocError> {
    match scene.object_at(line) {
        Some(object) => push_exception(text, &object.names, exception),
        None => Ok(()),
    }
}

/// Adds the answer to the command of the line.
fn push_answer_at(
    text: &mut String,
    scene: &Scene,
    line: usize,
    event: Event,
) -> Result<(), AllocError> {
    match scene.command_at(line) {
        Some(command) => push_answer_to(text, scene, command, event),
        None => Ok(()),
    }
}

/// Adds that the answer to the command of the line, which has this number among those of its caller, depends on the order.
fn push_answered(
    text: &mut String,
    scene: &Scene,
    line: usize,
    number: u32,
) -> Result<(), AllocError> {
    let (caller, words) = (scene.caller_at(line), scene.words_at(line));
    write!(
        text,
        "the answer of command {number} of {caller}, '{words}', depends on the order: "
    )
}

/// Adds what was found.
fn push_kind(text: &mut String, scene: &Scene, found: Found) -> Result<(), AllocError> {
    let line = found.line.unwrap_or(0);
    let words = scene.words_at(line);
    match found.kind {
        Kind::Stuck => text.push_str("callers wait for ever"),
        Kind::Raised(exception) => {
            write!(text, "'{words}' raises ")?;
            push_raised(text, scene, line, exception)
        }
        Kind::ProgramError => write!(text, "'{words}' ends by Program_Error"),
        Kind::Refused(refusal) => write!(text, "'{words}' is refused: {refusal}"),
        Kind::Completed { number, values } => {
            push_answered(text, scene, line, number)?;
            push_answer_at(text, scene, line, Event::Replied(Ok(values)))
        }
        Kind::Cancelled { number } => {
            push_answered(text, scene, line, number)?;
            text.push_str("cancelled")
        }
        Kind::Invariant { object, .. } => {
            text.push_str("Invariant of ")?;
            push_name(text, scene, object)?;
            text.push_str(" doesn't hold")
        }
    }
}

/// Adds a finding that was carried out anew, with its script.
fn push_found(
    alloc: Global,
    text: &mut String,
    scene: &Scene,
    found: Found,
    order: &[u16],
    walk: &Walk,
) -> Result<(), Stop> {
    push_kind(text, scene, found)?;
    match order.len() {
        1 => text.push_str(", after 1 command:\n")?,
        commands => write!(text, ", after {commands} commands:\n")?,
    }
    push_script(alloc, text, scene, order)?;
    push_ending(text, scene, found, &walk.stage)?;
    Ok(())
}

/// Adds a finding with its script, if the script, carried out anew, leads to it. Returns whether it does.
fn push_finding(
    alloc: Global,
    text: &mut String,
    scene: &Scene,
    explored: &Explored,
    finding: &Finding,
) -> Result<bool, Stop> {
    let order = explored.order_of(alloc, finding)?;
    match confirmed(alloc, scene, order.as_slice(), finding.found)? {
        Some((walk, found)) => {
            push_found(alloc, text, scene, found, order.as_slice(), &walk)?;
            Ok(true)
        }
        None => Ok(false),
    }
}

/// Returns whether the command is a call of an entry.
fn is_call(command: &Command) -> bool {
    match command.action {
        Action::Operate {
            operation: Operation::Call { .. },
            ..
        } => true,
        _ => false,
    }
}

/// Adds the calls of a caller that were completed in no order. Returns whether there are any.
fn push_unserved_of(
    text: &mut String,
    scene: &Scene,
    explored: &Explored,
    caller: &Caller,
) -> Result<bool, AllocError> {
    let mut some = false;
    for command in caller.commands.iter() {
        if is_call(command) && explored.is_unserved(command.line) {
            let (name, line) = (caller.name.as_str(), scene.words_at(command.line));
            write!(text, "no order completes '{line}' of {name}\n")?;
            some = true;
        }
    }
    Ok(some)
}

/// Adds the calls that were completed in no order. Returns whether there are any.
fn push_unserved(
    text: &mut String,
    scene: &Scene,
    explored: &Explored,
) -> Result<bool, AllocError> {
    let mut some = false;
    for caller in scene.callers.iter() {
        if push_unserved_of(text, scene, explored, caller)? {
            some = true;
        }
    }
    Ok(some)
}

/// Adds all findings. Returns whether there are any.
fn push_findings(
    alloc: Global,
    text: &mut String,
    scene: &Scene,
    explored: &Explored,
) -> Result<bool, Stop> {
    let mut some = false;
    for finding in explored.findings.iter() {
        if explored.is_told(finding.found) && push_finding(alloc, text, scene, explored, finding)? {
            some = true;
        }
    }
    if explored.is_complete && push_unserved(text, scene, explored)? {
        some = true;
    }
    Ok(some)
}

/// Adds how much was looked at.
fn push_numbers(text: &mut String, explored: &Explored) -> Result<(), AllocError> {
    let (situations, moves, states) = (explored.situations, explored.moves, explored.states);
    write!(
        text,
        "{situations} situations, {moves} moves, {states} states of objects, "
    )?;
    let orders = explored.orders;
    if explored.is_complete {
        write!(text, "{orders} orders: complete\n")
    } else {
        text.push_str("not complete: --most says how many situations are looked at\n")
    }
}

/// Returns how a search ended.
fn verdict_of(is_complete: bool, found: bool) -> Verdict
    ensures { result ≡ verdict_by found is_complete }
{
    if found {
        Verdict::Found
    } else if is_complete {
        Verdict::Clean
    } else {
        Verdict::CutOff
    }
}

/// Returns the report of a search: each finding with its script, and how much was looked at. A finding is told only if its script,
/// carried out anew on new objects, leads to it.
///
/// Fails only if memory runs out.
pub fn report_of(alloc: Global, scene: &Scene, explored: &Explored) -> Result<Report, Stop>
    ensures { IfOk result (λ r. r.verdict ≡ Verdict.Clean → explored.now.is_complete ≡ true) }
{
    let mut text = String::new(alloc);
    let found = push_findings(alloc, &mut text, scene, explored)?;
    push_numbers(&mut text, explored)?;
    let verdict = verdict_of(explored.is_complete, found);
    Ok(Report { text, verdict })
}
