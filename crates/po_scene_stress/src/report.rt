// SPDX-License-Identifier: MIT
//! What is said of all runs of a scene.

use crate::course::Course;
use crate::step::Step;
use crate::tally::{Mark, Tally};
use po_ada_script::push_exception;
use po_scene::Scene;
use std::alloc::{AllocError, Global};
use std::fmt::Write;

/// What all runs came to.
#[derive(Clone, Copy, Debug, PartialEq, Eq)]
pub enum Verdict {
    /// Each answer is its history's, and nothing was found.
    Clean,
    /// Each answer is its history's. Callers waited for ever, a command raised an exception or was refused, or an invariant didn't
    /// hold.
    Found,
    /// An answer differs from its history.
    Different,
}

/// What is said of all runs, in words.
#[derive(Drop)]
pub struct Report {
    pub text: String,
    pub verdict: Verdict,
}

/// The runs in which callers waited for ever.
#[derive(Drop)]
pub(crate) struct Stuck {
    /// How many there were.
    runs: u32,
    /// The number of the first one, counted from 0.
    first: u32,
    /// The callers that waited in the first one, by their positions, each with the position of its command's line.
    waiting: Vec<(usize, usize)>,
}

impl Stuck {
    pub(crate) fn new(alloc: Global) -> Stuck {
        Stuck {
            runs: 0,
            first: 0,
            waiting: Vec::new(alloc),
        }
    }

    /// Notes a run in which each caller that has steps left waits for ever.
    pub(crate) fn note(
        &mut self,
        course: &Course,
        steps: &[Vec<Step>],
        run: u32,
    ) -> Result<(), AllocError> {
        self.runs = self.runs.saturating_add(1);
        if self.runs > 1 {
            return Ok(());
        }
        self.first = run;
        for (caller, list) in steps.iter().enumerate() {
            if course.is_under_way(caller)
                && let Some(step) = list.get(course.done(caller) as usize)
            {
                self.waiting.push((caller, step.line))?;
            }
        }
        Ok(())
    }

    /// Adds in how many runs callers waited for ever, and who in the first one.
    fn push_to(&self, text: &mut String, scene: &Scene) -> Result<(), AllocError> {
        if self.runs == 0 {
            return Ok(());
        }
        let (runs, first) = (self.runs, self.first.saturating_add(1));
        let word = if runs == 1 { "run" } else { "runs" };
        write!(
            text,
            "callers waited for ever in {runs} {word}; in run {first}:\n"
        )?;
        for (caller, line) in self.waiting.iter() {
            if let Some(caller) = scene.callers.get(*caller) {
                let (name, line) = (caller.name.as_str(), scene.words_at(*line));
                write!(text, "    # {name} waits: {line}\n")?;
            }
        }
        Ok(())
    }
}

/// Adds how often it was.
fn push_times(text: &mut String, times: u64) -> Result<(), AllocError> {
    match times {
        1 => text.push_str(" once\n"),
        times => write!(text, " {times} times\n"),
    }
}

/// Adds how often commands of the line raised an exception, and the last one.
fn push_raised(
    text: &mut String,
    scene: &Scene,
    line: usize,
    mark: &Mark,
) -> Result<(), AllocError> {
    let (times, exception) = mark.raised();
    if times == 0 {
        return Ok(());
    }
    let words = scene.words_at(line);
    write!(text, "'{words}' raised ")?;
    if let Some(object) = scene.object_at(line) {
        push_exception(text, &object.names, exception)?;
    }
    push_times(text, times)
}

/// Adds how often commands of the line came to this, if any did.
fn push_often(
    text: &mut String,
    scene: &Scene,
    line: usize,
    what: &str,
    times: u64,
) -> Result<(), AllocError> {
    if times == 0 {
        return Ok(());
    }
    let words = scene.words_at(line);
    write!(text, "'{words}' {what}")?;
    push_times(text, times)
}

/// Adds what the commands of the lines came to.
fn push_marks(text: &mut String, scene: &Scene, tally: &Tally) -> Result<(), AllocError> {
    for (line, mark) in tally.marks().iter().enumerate() {
        push_raised(text, scene, line, mark)?;
        push_often(text, scene, line, "ended by Program_Error", mark.failed())?;
        push_often(text, scene, line, "was refused", mark.refused())?;
    }
    Ok(())
}

/// Adds after how many commands the invariants of objects didn't hold.
fn push_broken(text: &mut String, scene: &Scene, tally: &Tally) -> Result<(), AllocError> {
    for (position, object) in scene.objects.iter().enumerate() {
        let times = tally.broken(position);
        if times > 0 {
            let name = object.shown_name();
            write!(text, "Invariant of {name} didn't hold")?;
            push_times(text, times)?;
        }
    }
    Ok(())
}

/// Adds how often the scene was run, and whether all answers are the histories'.
fn push_sum(text: &mut String, tally: &Tally, runs: u32) -> Result<(), AllocError> {
    let calls = tally.calls();
    let word = if runs == 1 { "run" } else { "runs" };
    write!(text, "{runs} {word}, {calls} calls: ")?;
    if tally.agrees() {
        text.push_str("each answer is that of its object's history\n")
    } else {
        text.push_str("an answer isn't that of its object's history\n")
    }
}

/// Returns what is said of all runs.
pub(crate) fn report_of(
    alloc: Global,
    scene: &Scene,
    tally: &Tally,
    stuck: &Stuck,
    runs: u32,
) -> Result<Report, AllocError> {
    let mut text = String::new(alloc);
    stuck.push_to(&mut text, scene)?;
    push_marks(&mut text, scene, tally)?;
    push_broken(&mut text, scene, tally)?;
    let verdict = if !tally.agrees() {
        Verdict::Different
    } else if text.is_empty() {
        Verdict::Clean
    } else {
        Verdict::Found
    };
    push_sum(&mut text, tally, runs)?;
    Ok(Report { text, verdict })
}
