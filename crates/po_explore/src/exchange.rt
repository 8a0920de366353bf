// SPDX-License-Identifier: MIT
//! Callers that are exchangeable: they have the same commands. Two situations count as one if they differ only in which of these
//! callers has done what.

use crate::stage::caller_count;
use po_scene::{Action, Caller, Scene};
use std::alloc::{AllocError, Global};

/// Which callers of a scene are exchangeable. Of those that are, the first leads.
#[derive(Drop)]
pub(crate) struct Exchange {
    /// By caller: the one that leads those with the same commands.
    leaders: Vec<u16>,
    /// By caller: the next one with the same leader, or itself.
    nexts: Vec<u16>,
    /// By line: that of the same command of the caller that leads.
    lines: Vec<usize>,
    /// Whether any callers are exchangeable.
    is_any: bool,
}

/// Returns the number at this place of the list. If there is none, that of the place.
fn at(list: &[u16], place: u16) -> u16 {
    match list.get(usize::from(place)) {
        Some(number) => *number,
        None => place,
    }
}

/// Returns how many commands the caller has made.
fn made_by(situation: &[u32], caller: u16) -> u32 {
    match situation.get(usize::from(caller)) {
        Some(made) => *made,
        None => 0,
    }
}

/// Returns, by caller, whether another one's command names it, to cancel its call.
fn named_callers(alloc: Global, scene: &Scene) -> Result<Vec<bool>, AllocError> {
    let mut named = Vec::from_elem(alloc, false, scene.callers.len())?;
    for caller in scene.callers.iter() {
        for command in caller.commands.iter() {
            if let Action::Abort(other) = command.action
                && let Some(is_named) = named.get_mut(usize::from(other))
            {
                *is_named = true;
            }
        }
    }
    Ok(named)
}

/// Returns whether a repetition begins with the command that has this position: its line isn't after that of the one before.
fn is_again(caller: &Caller, position: usize) -> bool {
    let Some(before) = position.checked_sub(1) else {
        return false;
    };
    match (caller.commands.get(before), caller.commands.get(position)) {
        (Some(last), Some(next)) => next.line <= last.line,
        _ => false,
    }
}

/// Returns whether these callers have the same command with this position, and a repetition begins there for both or for neither.
fn have_same_command(scene: &Scene, one: &Caller, other: &Caller, position: usize) -> bool {
    match (one.commands.get(position), other.commands.get(position)) {
        (Some(own), Some(same)) => {
            scene.words_at(own.line) == scene.words_at(same.line)
                && is_again(one, position) == is_again(other, position)
        }
        _ => false,
    }
}

/// Returns whether these callers have the same commands, and repeat the same: so each line of one stands for one line of the other.
fn have_same_commands(scene: &Scene, one: &Caller, other: &Caller) -> bool {
    if one.commands.len() != other.commands.len() {
        return false;
    }
    for position in 0..one.commands.len() {
        if !have_same_command(scene, one, other, position) {
            return false;
        }
    }
    true
}

/// Returns the first caller with the same commands as this one; the caller itself if a command names one of them.
fn leader_of(scene: &Scene, named: &[bool], caller: u16) -> u16 {
    let Some(own) = scene.callers.get(usize::from(caller)) else {
        return caller;
    };
    if named.get(usize::from(caller)) == Some(&true) {
        return caller;
    }
    for other in 0..caller {
        if let Some(first) = scene.callers.get(usize::from(other))
            && named.get(usize::from(other)) == Some(&false)
            && have_same_commands(scene, first, own)
        {
            return other;
        }
    }
    caller
}

/// Returns the next caller with the same leader, or the caller itself.
fn next_of(leaders: &[u16], caller: u16) -> u16 {
    for (other, leader) in (0u16..).zip(leaders.iter()) {
        if other > caller && *leader == at(leaders, caller) {
            return other;
        }
    }
    caller
}

impl Exchange {
    /// Returns that of a scene in which no caller is exchangeable.
    fn none(alloc: Global, scene: &Scene) -> Result<Exchange, AllocError> {
        let mut exchange = Exchange {
            leaders: Vec::new(alloc),
            nexts: Vec::new(alloc),
            lines: Vec::new(alloc),
            is_any: false,
        };
        for caller in 0..caller_count(scene) {
            exchange.leaders.push(caller)?;
            exchange.nexts.push(caller)?;
        }
        for line in 0..scene.lines.len() {
            exchange.lines.push(line)?;
        }
        Ok(exchange)
    }

    /// Has the first caller with the same commands lead this one.
    fn follow(&mut self, scene: &Scene, caller: u16, leader: u16) {
        let (Some(own), Some(first)) = (
            scene.callers.get(usize::from(caller)),
            scene.callers.get(usize::from(leader)),
        ) else {
            return;
        };
        if let Some(place) = self.leaders.get_mut(usize::from(caller)) {
            *place = leader;
        }
        for (command, same) in own.commands.iter().zip(first.commands.iter()) {
            if let Some(line) = self.lines.get_mut(command.line) {
                *line = same.line;
            }
        }
        self.is_any = true;
    }

    /// Returns which callers of the scene are exchangeable: none if callers are told apart.
    pub(crate) fn new(alloc: Global, scene: &Scene, apart: bool) -> Result<Exchange, AllocError> {
        let mut exchange = Exchange::none(alloc, scene)?;
        if apart {
            return Ok(exchange);
        }
        let named = named_callers(alloc, scene)?;
        for caller in 0..caller_count(scene) {
            let leader = leader_of(scene, named.as_slice(), caller);
            if leader != caller {
                exchange.follow(scene, caller, leader);
            }
        }
        for caller in 0..caller_count(scene) {
            let next = next_of(exchange.leaders.as_slice(), caller);
            if let Some(place) = exchange.nexts.get_mut(usize::from(caller)) {
                *place = next;
            }
        }
        Ok(exchange)
    }

    /// Returns whether any callers are exchangeable.
    pub(crate) fn is_any(&self) -> bool {
        self.is_any
    }

    /// Returns the line of the same command of the caller that leads.
    pub(crate) fn line(&self, line: usize) -> usize {
        match self.lines.get(line) {
            Some(first) => *first,
            None => line,
        }
    }

    /// Returns whether these callers, neither of whose calls waits, can be exchanged in the situation.
    pub(crate) fn are_alike(&self, situation: &[u32], one: u16, other: u16) -> bool {
        let leaders = self.leaders.as_slice();
        at(leaders, one) == at(leaders, other)
            && made_by(situation, one) == made_by(situation, other)
    }

    /// Returns all callers: first those whose calls wait, in this order, and then the others, by how many commands they have made.
    fn ordered(
        &self,
        alloc: Global,
        situation: &[u32],
        waiting: &[u16],
    ) -> Result<Vec<u16>, AllocError> {
        let mut others = Vec::new(alloc);
        for (caller, _) in (0u16..).zip(self.leaders.iter()) {
            if !waiting.contains(&caller) {
                others.push(caller)?;
            }
        }
        others.sort_by_key(|caller| made_by(situation, *caller))?;
        let mut all = Vec::from_slice(alloc, waiting)?;
        all.extend_from_slice(others.as_slice())?;
        Ok(all)
    }

    /// Returns by caller which of those with the same leader it becomes, so that all situations that count as one become the same
    /// one. `waiting` has the callers whose calls wait, in the order in which the objects have them.
    pub(crate) fn exchanged(
        &self,
        alloc: Global,
        situation: &[u32],
        waiting: &[u16],
    ) -> Result<Vec<u16>, AllocError> {
        let mut free = Vec::from_slice(alloc, self.leaders.as_slice())?;
        let mut becomes = Vec::from_slice(alloc, self.leaders.as_slice())?;
        for caller in self.ordered(alloc, situation, waiting)?.iter() {
            let leader = usize::from(at(self.leaders.as_slice(), *caller));
            if let Some(first) = free.get_mut(leader)
                && let Some(other) = becomes.get_mut(usize::from(*caller))
            {
                *other = *first;
                *first = at(self.nexts.as_slice(), *first);
            }
        }
        Ok(becomes)
    }
}
