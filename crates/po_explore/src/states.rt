// SPDX-License-Identifier: MIT
//! The states of objects that a search has met, and what commands do to them: each command is carried out once in each state.

use crate::exchange::Exchange;
use crate::finding::{Found, Kind};
use crate::invariants::broken_in;
use crate::key::Key;
use crate::news::News;
use crate::object::Object;
use crate::stage::{caller_count, object_count};
use indexmap::IndexMap;
use po_ada_language::Stop;
use po_scene::{Action, Command, Scene, SceneObject};
use std::alloc::{AllocError, Global};
use std::mem;
use std::ops::Range;

/// How far a scene is: by caller, how many commands it has made; then, by object, the number of its state.
pub(crate) type Situation = Vec<u32>;

/// A state of an object.
#[derive(Drop)]
struct State {
    object: Object,
    /// By caller, as bits: whether a call of it waits here.
    waiting: u64,
}

/// What a command does to a state of an object.
#[derive(Drop)]
struct Move {
    /// The number of the state that follows.
    state: u32,
    /// What the command brings about.
    news: Vec<News>,
}

/// The states of an object that were met, and what commands do to them.
#[derive(Drop)]
struct Met {
    /// By what tells them apart, but for the callers whose calls wait: their forms.
    forms: IndexMap<Vec<i128>, ()>,
    /// By what tells them apart: the number of their form, and the callers whose calls wait.
    states: IndexMap<Vec<u32>, State>,
    /// By the state and the line of the command, which is of one caller.
    moves: IndexMap<u64, Move>,
}

/// The states of all objects that were met.
#[derive(Drop)]
pub(crate) struct States {
    alloc: Global,
    /// By object.
    objects: Vec<Met>,
    /// The invariants that don't hold in states that were met since they were last taken.
    broken: Vec<Found>,
}

/// Returns the bit of a caller: a scene has at most 64.
pub(crate) fn bit_of(caller: u16) -> u64 {
    1u64 << (caller % 64)
}

/// Returns, as bits, whose calls wait on the object.
fn waiting_on(scene: &Scene, object: &Object) -> u64 {
    let mut waiting = 0u64;
    for caller in 0..caller_count(scene) {
        if object.has_call_of(caller) {
            waiting |= bit_of(caller);
        }
    }
    waiting
}

/// Returns the objects that a command with this action changes.
pub(crate) fn touched(scene: &Scene, action: Action) -> Range<u16> {
    match action {
        Action::Operate { object, .. } => object..object.saturating_add(1),
        Action::Abort(_) | Action::Tick(_) => 0..object_count(scene),
    }
}

/// Returns the place of the object's state in a situation.
pub(crate) fn place_of(scene: &Scene, object: u16) -> usize {
    scene.callers.len().saturating_add(usize::from(object))
}

/// Returns what tells a move apart from others of the same object.
fn move_key(state: u32, line: usize) -> u64 {
    (u64::from(state) << 32) | (line as u64 & 0xFFFF_FFFF)
}

/// Returns the callers whose calls wait, each once, in the order in which the states' keys have them.
fn waiting_in(alloc: Global, keys: &[&[u32]]) -> Result<Vec<u16>, AllocError> {
    let mut waiting = Vec::new(alloc);
    for key in keys {
        for caller in key.iter().skip(1) {
            if let Ok(caller) = u16::try_from(*caller)
                && !waiting.as_slice().contains(&caller)
            {
                waiting.push(caller)?;
            }
        }
    }
    Ok(waiting)
}

/// Returns how many commands each caller has made, after callers have been exchanged.
fn exchanged_made(
    alloc: Global,
    situation: &[u32],
    becomes: &[u16],
) -> Result<Vec<u32>, AllocError> {
    let mut made = Vec::from_elem(alloc, 0u32, becomes.len())?;
    for (count, other) in situation.iter().zip(becomes.iter()) {
        if let Some(place) = made.get_mut(usize::from(*other)) {
            *place = *count;
        }
    }
    Ok(made)
}

/// Adds the key of a state, after callers have been exchanged.
fn push_exchanged(key: &mut Situation, state: &[u32], becomes: &[u16]) -> Result<(), AllocError> {
    if let Some(form) = state.first() {
        key.push(*form)?;
    }
    for caller in state.iter().skip(1) {
        if let Some(other) = becomes.get(*caller as usize) {
            key.push(u32::from(*other))?;
        }
    }
    Ok(())
}

/// Carries out what a command asks of the object, and adds what that brings about.
fn act(
    object: &mut Object,
    named: &SceneObject,
    caller: u16,
    action: Action,
    news: &mut Vec<News>,
) -> Result<(), AllocError> {
    match action {
        Action::Operate { operation, .. } => object.operate(&named.names, caller, operation, news),
        Action::Abort(other) => object.abort(other, news),
        Action::Tick(time) => object.tick(time, news),
    }
}

/// Returns the next number of a list with this many elements. Fails if there are too many.
fn number_after(count: usize) -> Result<u32, AllocError> {
    match u32::try_from(count) {
        Ok(number) => Ok(number),
        Err(_) => Err(AllocError),
    }
}

impl Met {
    /// Returns the number of the form, which is added if it is new.
    fn form_number(&mut self, form: Vec<i128>) -> Result<u32, AllocError> {
        if let Some(position) = self.forms.get_index_of(&form) {
            return number_after(position);
        }
        let number = number_after(self.forms.len())?;
        self.forms.insert(form, ())?;
        Ok(number)
    }

    /// Returns what tells the object's state apart.
    fn key(&mut self, alloc: Global, object: &Object) -> Result<Vec<u32>, AllocError> {
        let Key { form, callers } = object.key(alloc)?;
        let mut key = Vec::with_capacity(alloc, callers.len().saturating_add(1))?;
        key.push(self.form_number(form)?)?;
        for caller in callers.iter() {
            key.push(u32::from(*caller))?;
        }
        Ok(key)
    }

    /// Returns the number of the object's state, and whether it is new: then it is added.
    fn number(
        &mut self,
        alloc: Global,
        scene: &Scene,
        object: Object,
    ) -> Result<(u32, bool), Stop> {
        let key = self.key(alloc, &object)?;
        let (position, is_new) = match self.states.get_index_of(&key) {
            Some(position) => (position, false),
            None => (self.states.len(), true),
        };
        let number = number_after(position)?;
        if is_new {
            let waiting = waiting_on(scene, &object);
            self.states.insert(key, State { object, waiting })?;
        }
        Ok((number, is_new))
    }

    /// Returns a copy of the object in the state with this number.
    fn copy(&self, alloc: Global, number: u32) -> Result<Object, AllocError> {
        match self.states.get_index(number as usize) {
            Some((_, state)) => state.object.copy(alloc),
            None => Err(AllocError),
        }
    }
}

impl States {
    /// No state has been met.
    pub(crate) fn new(alloc: Global, scene: &Scene) -> Result<States, AllocError> {
        let mut objects = Vec::with_capacity(alloc, scene.objects.len())?;
        for _ in scene.objects.iter() {
            objects.push(Met {
                forms: IndexMap::new(alloc),
                states: IndexMap::new(alloc),
                moves: IndexMap::new(alloc),
            })?;
        }
        Ok(States {
            alloc,
            objects,
            broken: Vec::new(alloc),
        })
    }

    /// Returns how many there are.
    pub(crate) fn count(&self) -> usize {
        let mut count = 0usize;
        for met in self.objects.iter() {
            count = count.saturating_add(met.states.len());
        }
        count
    }

    /// Returns, as bits, whose calls wait in the situation.
    pub(crate) fn waiting(&self, scene: &Scene, situation: &[u32]) -> u64 {
        let mut waiting = 0u64;
        for (met, number) in self
            .objects
            .iter()
            .zip(situation.iter().skip(scene.callers.len()))
        {
            if let Some((_, state)) = met.states.get_index(*number as usize) {
                waiting |= state.waiting;
            }
        }
        waiting
    }

    /// Returns by object what tells its state in the situation apart: the number of its form, and the callers whose calls wait.
    fn keys<'a>(&'a self, scene: &Scene, situation: &[u32]) -> Result<Vec<&'a [u32]>, AllocError> {
        let mut keys = Vec::new(self.alloc);
        for (met, number) in self
            .objects
            .iter()
            .zip(situation.iter().skip(scene.callers.len()))
        {
            if let Some((key, _)) = met.states.get_index(*number as usize) {
                keys.push(key.as_slice())?;
            }
        }
        Ok(keys)
    }

    /// Returns what tells the situation apart, if callers are exchangeable: how many commands each has made, and by object the form
    /// of its state and the callers whose calls wait, after callers have been exchanged.
    pub(crate) fn key(
        &self,
        scene: &Scene,
        exchange: &Exchange,
        situation: &[u32],
    ) -> Result<Situation, AllocError> {
        let keys = self.keys(scene, situation)?;
        let waiting = waiting_in(self.alloc, keys.as_slice())?;
        let becomes = exchange.exchanged(self.alloc, situation, waiting.as_slice())?;
        let mut key = exchanged_made(self.alloc, situation, becomes.as_slice())?;
        for state in keys.iter() {
            push_exchanged(&mut key, state, becomes.as_slice())?;
        }
        Ok(key)
    }

    /// Returns the invariants that don't hold in states that were met since they were last taken.
    pub(crate) fn take_broken(&mut self, alloc: Global) -> Vec<Found> {
        mem::replace(&mut self.broken, Vec::new(alloc))
    }

    /// Returns the number of the state of the object with this position. A new state is added, and its invariant asked.
    pub(crate) fn number(
        &mut self,
        alloc: Global,
        scene: &Scene,
        position: u16,
        object: Object,
    ) -> Result<u32, Stop> {
        let (Some(met), Some(named)) = (
            self.objects.get_mut(usize::from(position)),
            scene.objects.get(usize::from(position)),
        ) else {
            return Ok(0);
        };
        let broken = broken_in(named, &object);
        let (number, is_new) = met.number(alloc, scene, object)?;
        if is_new && let Some(function) = broken {
            let kind = Kind::Invariant {
                object: position,
                function,
            };
            self.broken.push(Found { kind, line: None })?;
        }
        Ok(number)
    }

    /// Carries out the caller's command on the object with this position, in the state with this number.
    fn carry_out(
        &mut self,
        alloc: Global,
        scene: &Scene,
        position: u16,
        number: u32,
        caller: u16,
        action: Action,
    ) -> Result<Move, Stop> {
        let (Some(met), Some(named)) = (
            self.objects.get(usize::from(position)),
            scene.objects.get(usize::from(position)),
        ) else {
            return Err(Stop::OutOfMemory);
        };
        let mut object = met.copy(alloc, number)?;
        let mut news = Vec::new(alloc);
        act(&mut object, named, caller, action, &mut news)?;
        let state = self.number(alloc, scene, position, object)?;
        Ok(Move { state, news })
    }

    /// Returns the place of what the caller's command does to the object with this position, in the state with this number. It is
    /// carried out if it hasn't been before.
    fn move_at(
        &mut self,
        alloc: Global,
        scene: &Scene,
        position: u16,
        number: u32,
        caller: u16,
        command: Command,
    ) -> Result<usize, Stop> {
        let key = move_key(number, command.line);
        if let Some(met) = self.objects.get(usize::from(position))
            && let Some(place) = met.moves.get_index_of(&key)
        {
            return Ok(place);
        }
        let made = self.carry_out(alloc, scene, position, number, caller, command.action)?;
        match self.objects.get_mut(usize::from(position)) {
            Some(met) => {
                met.moves.insert(key, made)?;
                Ok(met.moves.len().saturating_sub(1))
            }
            None => Err(Stop::OutOfMemory),
        }
    }

    /// Returns the number of the state that follows, for the object with this position, if the caller makes this command in the
    /// state with this number, and adds what that brings about.
    pub(crate) fn go_on(
        &mut self,
        alloc: Global,
        scene: &Scene,
        position: u16,
        number: u32,
        caller: u16,
        command: Command,
        news: &mut Vec<News>,
    ) -> Result<u32, Stop> {
        let place = self.move_at(alloc, scene, position, number, caller, command)?;
        if let Some(met) = self.objects.get(usize::from(position))
            && let Some((_, made)) = met.moves.get_index(place)
        {
            news.extend_from_slice(made.news.as_slice())?;
            return Ok(made.state);
        }
        Ok(number)
    }
}
