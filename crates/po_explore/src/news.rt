// SPDX-License-Identifier: MIT
//! What a command brings about.

ghost use Rattle.std.specs.Prelude.{◌≡◌, ◌<◌, IfSome, List, OnOk, length};
ghost use Rattle.po_explore.specs.Scenes.{stage_of};
ghost use Rattle.po_explore.specs.News.{kind_of, answer_of};
ghost use Rattle.po_explore.specs.Findings.{line_of, Shows, AllShown};
ghost use Rattle.po_explore.specs.declared.finding.Found.{Found};

use crate::finding::{Found, Kind};
use crate::stage::Stage;
use po_ada_unit::Values;
use po_core::{End, Refusal};
use po_scene::Scene;
use std::alloc::AllocError;

/// What a command brings about for a caller.
#[derive(Clone, Copy, Debug, PartialEq, Eq)]
pub(crate) struct News {
    /// The caller's position in the scene.
    pub(crate) caller: u16,
    pub(crate) event: Event,
}

/// What happened to a caller's command.
#[derive(Clone, Copy, Debug, PartialEq, Eq)]
pub(crate) enum Event {
    /// Its call has ended.
    Ended(End<Values>),
    /// The procedure or the function has replied.
    Replied(Result<Values, u32>),
    /// The precondition of its call raises this exception.
    Failed(u32),
    /// It was refused.
    Refused(Refusal),
}

impl Event {
    /// Returns what is found if this happens, if something is wrong with it.
    pub(crate) fn kind(&self) -> Option<Kind>
        ensures { result ≡ kind_of self.now }
    {
        match self {
            Event::Ended(End::Raised(exception))
            | Event::Failed(exception)
            | Event::Replied(Err(exception)) => Some(Kind::Raised(*exception)),
            Event::Ended(End::ProgramError) | Event::Refused(Refusal::Finalized) => {
                Some(Kind::ProgramError)
            }
            Event::Refused(refusal) => Some(Kind::Refused(*refusal)),
            Event::Ended(_) | Event::Replied(Ok(_)) => None,
        }
    }

    /// Returns the answer that this is to the caller's command with this number, if it is one with which nothing is wrong.
    pub(crate) fn answer(&self, number: u32) -> Option<Kind>
        ensures { result ≡ answer_of self.now number }
    {
        match self {
            Event::Ended(End::Completed(values)) | Event::Replied(Ok(values)) => {
                // How often the call could still be requeued is no part of its answer.
                let values = Values::new(values.cells);
                Some(Kind::Completed { number, values })
            }
            Event::Ended(End::Cancelled) => Some(Kind::Cancelled { number }),
            _ => None,
        }
    }

    /// Returns whether a call was completed.
    pub(crate) fn is_completed(&self) -> bool {
        match self {
            Event::Ended(End::Completed(_)) => true,
            _ => false,
        }
    }
}

/// Adds what is found of the caller's latest command, if something is.
fn push_kind(
    scene: &Scene,
    stage: &Stage,
    caller: u16,
    kind: Option<Kind>,
    list: &mut Vec<Found>,
) -> Result<(), AllocError>
    ensures { OnOk result ((told : List News) → AllShown scene.now (stage_of stage.now) told list.old.items
        → IfSome kind (λ k. Shows scene.now (stage_of stage.now) told (record { kind = k; line = line_of scene.now (stage_of stage.now) caller }))
        → AllShown scene.now (stage_of stage.now) told list.new.items) }
{
    match kind {
        Some(kind) => {
            let line = stage.line_of(scene, caller);
            list.push(Found { kind, line })?;
            Ok(())
        }
        None => Ok(()),
    }
}

/// Adds what the news with this position tells, if it is wrong.
fn push_wrong(
    scene: &Scene,
    stage: &Stage,
    news: &[News],
    position: usize,
    list: &mut Vec<Found>,
) -> Result<(), AllocError>
    requires position { position < length news.now }
    requires shown { AllShown scene.now (stage_of stage.now) news.now list.old.items }
    ensures { OnOk result (AllShown scene.now (stage_of stage.now) news.now list.new.items) }
{
    let told = news[position];
    push_kind(scene, stage, told.caller, told.event.kind(), list)
}

/// Adds the answer that the news with this position tells, if nothing is wrong with it.
fn push_answer(
    scene: &Scene,
    stage: &Stage,
    news: &[News],
    position: usize,
    list: &mut Vec<Found>,
) -> Result<(), AllocError>
    requires position { position < length news.now }
    requires shown { AllShown scene.now (stage_of stage.now) news.now list.old.items }
    ensures { OnOk result (AllShown scene.now (stage_of stage.now) news.now list.new.items) }
{
    let told = news[position];
    let answer = told.event.answer(stage.made(told.caller));
    push_kind(scene, stage, told.caller, answer, list)
}

/// Adds what the news tells that is wrong, after the command that brought it about.
pub(crate) fn found_in(
    scene: &Scene,
    stage: &Stage,
    news: &[News],
    list: &mut Vec<Found>,
) -> Result<(), AllocError>
    requires { AllShown scene.now (stage_of stage.now) news.now list.old.items }
    ensures { OnOk result (AllShown scene.now (stage_of stage.now) news.now list.new.items) }
{
    for position in 0..news.len() {
        push_wrong(scene, stage, news, position, list)?;
    }
    Ok(())
}

/// Adds the answers that the news tells with which nothing is wrong, after the command that brought them about.
pub(crate) fn answers_in(
    scene: &Scene,
    stage: &Stage,
    news: &[News],
    list: &mut Vec<Found>,
) -> Result<(), AllocError>
    requires { AllShown scene.now (stage_of stage.now) news.now list.old.items }
    ensures { OnOk result (AllShown scene.now (stage_of stage.now) news.now list.new.items) }
{
    for position in 0..news.len() {
        push_answer(scene, stage, news, position, list)?;
    }
    Ok(())
}
