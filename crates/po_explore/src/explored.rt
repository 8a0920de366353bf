// SPDX-License-Identifier: MIT
//! What a search found.

use crate::exchange::Exchange;
use crate::finding::{Finding, Found, Kind};
use crate::news::News;
use crate::stage::command_at;
use po_scene::Scene;
use std::alloc::{AllocError, Global};

/// Of a command at most this many answers are told.
const MOST_ANSWERS: usize = 8;

/// A situation as it was first reached: from which one of the layer before, and by whose command.
#[derive(Clone, Copy, Debug)]
pub(crate) struct Node {
    pub(crate) parent: usize,
    pub(crate) caller: u16,
}

/// A situation of the layer that a search looks at.
#[derive(Clone, Copy)]
pub(crate) struct Place {
    /// How many commands lead to it.
    pub(crate) layer: usize,
    /// Its position among those of the layer.
    pub(crate) node: usize,
    /// How many orders lead to it.
    pub(crate) orders: u128,
}

/// What is told of a command.
#[derive(Clone, Copy)]
pub(crate) struct Told<'a> {
    /// By caller: how many commands it has made then.
    pub(crate) made: &'a [u32],
    /// What it brings about.
    pub(crate) news: &'a [News],
    /// The invariants that don't hold then, and were never asked before.
    pub(crate) broken: &'a [Found],
}

impl Told<'_> {
    /// Returns how many commands the caller has made.
    fn made(&self, caller: u16) -> u32 {
        match self.made.get(usize::from(caller)) {
            Some(made) => *made,
            None => 0,
        }
    }

    /// Returns the line of the caller's latest command, if it has made one.
    fn line_of(&self, scene: &Scene, caller: u16) -> Option<usize> {
        let latest = self.made(caller).checked_sub(1)?;
        Some(command_at(scene, caller, latest)?.line)
    }
}

/// What a search found.
#[derive(Drop)]
pub struct Explored {
    /// By layer: the situations to which as many commands lead.
    pub(crate) layers: Vec<Vec<Node>>,
    /// What was found, in the order in which the search met it: the fewest commands first.
    pub(crate) findings: Vec<Finding>,
    /// By line: that of the same command of the first caller that is exchangeable for its own.
    lines: Vec<usize>,
    /// By line: in how many moves a call of its commands was completed.
    completed: Vec<u64>,
    /// How many states of objects there are.
    pub states: usize,
    /// How many situations there are.
    pub situations: usize,
    /// How many commands were carried out in them.
    pub moves: u64,
    /// How many orders there are; the greatest number if there are more.
    pub orders: u128,
    /// In how many situations no caller can make a command.
    pub ends: u64,
    /// In how many of these a call waits.
    pub stuck: u64,
    /// Whether the search looked at all situations.
    pub is_complete: bool,
    /// Whether answers are noted.
    answers: bool,
}

impl Explored {
    /// Nothing has been looked at.
    pub(crate) fn new(
        alloc: Global,
        scene: &Scene,
        exchange: &Exchange,
        answers: bool,
    ) -> Result<Explored, AllocError> {
        let mut lines = Vec::with_capacity(alloc, scene.lines.len())?;
        for line in 0..scene.lines.len() {
            lines.push(exchange.line(line))?;
        }
        Ok(Explored {
            layers: Vec::new(alloc),
            findings: Vec::new(alloc),
            lines,
            completed: Vec::from_elem(alloc, 0u64, scene.lines.len())?,
            states: 0,
            situations: 0,
            moves: 0,
            orders: 0,
            ends: 0,
            stuck: 0,
            is_complete: false,
            answers,
        })
    }

    /// Returns the line that stands for this one and for the same command of exchangeable callers.
    fn line(&self, line: usize) -> usize {
        match self.lines.get(line) {
            Some(first) => *first,
            None => line,
        }
    }

    /// Returns whether these are the same, or would be if exchangeable callers were one.
    pub fn are_same(&self, one: Found, other: Found) -> bool {
        one.kind == other.kind && self.have_same_line(one, other)
    }

    /// Returns whether these are of the same command, or would be if exchangeable callers were one.
    fn have_same_line(&self, one: Found, other: Found) -> bool {
        match (one.line, other.line) {
            (Some(one), Some(other)) => self.line(one) == self.line(other),
            (None, None) => true,
            _ => false,
        }
    }

    /// Notes what was found at this place, or after this caller's next command, unless the same was found before.
    fn note(&mut self, found: Found, place: Place, caller: Option<u16>) -> Result<(), AllocError> {
        if self.has(found) {
            return Ok(());
        }
        self.findings.push(Finding {
            found,
            layer: place.layer,
            node: place.node,
            caller,
        })?;
        Ok(())
    }

    /// Returns how many answers to the same command are noted as this one is to.
    fn answers_like(&self, found: Found) -> usize {
        let mut count = 0usize;
        for finding in self.findings.iter() {
            let other = finding.found;
            if self.have_same_line(other, found) && other.kind.answered() == found.kind.answered() {
                count = count.saturating_add(1);
            }
        }
        count
    }

    /// Notes an answer, unless it or many others to the same command were noted before.
    fn note_answer(
        &mut self,
        found: Found,
        place: Place,
        caller: Option<u16>,
    ) -> Result<(), AllocError> {
        if self.answers_like(found) < MOST_ANSWERS {
            self.note(found, place, caller)?;
        }
        Ok(())
    }

    /// Returns whether this is told: an answer only if the same command has another one.
    pub(crate) fn is_told(&self, found: Found) -> bool {
        found.kind.answered().is_none() || self.answers_like(found) > 1
    }

    /// Notes that a call of this line was completed.
    fn note_completed(&mut self, line: usize) {
        let line = self.line(line);
        if let Some(count) = self.completed.get_mut(line) {
            *count = count.saturating_add(1);
        }
    }

    /// Returns whether no call of this line was completed.
    pub(crate) fn is_unserved(&self, line: usize) -> bool {
        self.completed.get(self.line(line)) == Some(&0)
    }

    /// Notes what this news tells that is wrong, and the invariants that don't hold, after the caller's next command.
    fn note_found(
        &mut self,
        scene: &Scene,
        told: Told<'_>,
        place: Place,
        caller: Option<u16>,
    ) -> Result<(), AllocError> {
        for news in told.news {
            if let Some(kind) = news.event.kind() {
                let line = told.line_of(scene, news.caller);
                self.note(Found { kind, line }, place, caller)?;
            }
        }
        for found in told.broken {
            self.note(*found, place, caller)?;
        }
        Ok(())
    }

    /// Notes how the commands of this news are answered, if that is asked for.
    fn note_answers(
        &mut self,
        scene: &Scene,
        told: Told<'_>,
        place: Place,
        caller: Option<u16>,
    ) -> Result<(), AllocError> {
        if !self.answers {
            return Ok(());
        }
        for news in told.news {
            if let Some(kind) = news.event.answer(told.made(news.caller)) {
                let line = told.line_of(scene, news.caller);
                self.note_answer(Found { kind, line }, place, caller)?;
            }
        }
        Ok(())
    }

    /// Notes what is told of the caller's next command after the place.
    pub(crate) fn note_news(
        &mut self,
        scene: &Scene,
        told: Told<'_>,
        place: Place,
        caller: Option<u16>,
    ) -> Result<(), AllocError> {
        self.note_found(scene, told, place, caller)?;
        self.note_answers(scene, told, place, caller)?;
        for news in told.news {
            if news.event.is_completed()
                && let Some(line) = told.line_of(scene, news.caller)
            {
                self.note_completed(line);
            }
        }
        Ok(())
    }

    /// Notes a situation in which no caller can make a command, and whether some wait.
    pub(crate) fn note_end(&mut self, is_stuck: bool, place: Place) -> Result<(), AllocError> {
        self.ends = self.ends.saturating_add(1);
        self.orders = self.orders.saturating_add(place.orders);
        if !is_stuck {
            return Ok(());
        }
        self.stuck = self.stuck.saturating_add(1);
        let found = Found {
            kind: Kind::Stuck,
            line: None,
        };
        self.note(found, place, None)
    }

    /// Returns how many commands lead to the situations that were looked at last.
    pub fn depth(&self) -> usize {
        self.layers.len().saturating_sub(1)
    }

    /// Returns how many things were found.
    pub fn count(&self) -> usize {
        self.findings.len()
    }

    /// Returns whether this was found.
    pub fn has(&self, found: Found) -> bool {
        for finding in self.findings.iter() {
            if self.are_same(finding.found, found) {
                return true;
            }
        }
        false
    }

    /// Returns the callers whose commands lead to the finding, in order.
    pub(crate) fn order_of(
        &self,
        alloc: Global,
        finding: &Finding,
    ) -> Result<Vec<u16>, AllocError> {
        let mut order = Vec::new(alloc);
        if let Some(caller) = finding.caller {
            order.push(caller)?;
        }
        let mut at = finding.node;
        // The situation before the first command is in a layer too.
        for nodes in self.layers.iter().skip(1).take(finding.layer).rev() {
            if let Some(node) = nodes.get(at) {
                order.push(node.caller)?;
                at = node.parent;
            }
        }
        order.reverse();
        Ok(order)
    }
}
