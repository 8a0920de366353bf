// SPDX-License-Identifier: MIT
//! Looks at every situation of a scene, layer by layer.

use crate::exchange::Exchange;
use crate::explored::{Explored, Node, Place, Told};
use crate::news::News;
use crate::stage::{Stage, caller_count, command_at};
use crate::states::{Situation, States, bit_of, place_of, touched};
use indexmap::IndexMap;
use po_ada_language::Stop;
use po_scene::{Command, Scene};
use std::alloc::{AllocError, Global};
use std::mem;

/// What a search looks for, and how far it goes.
#[derive(Clone, Copy, Debug)]
pub struct Options {
    /// It ends when it has met more situations than these.
    pub situations: usize,
    /// Whether it notes how commands are answered.
    pub answers: bool,
    /// Whether callers with the same commands are told apart.
    pub apart: bool,
}

/// A situation of the next layer: how it was first reached, and how many orders lead to it or to one that counts as the same.
#[derive(Debug, Drop)]
struct Reached {
    node: Node,
    orders: u128,
    /// The situation, if what tells it apart isn't the situation itself.
    situation: Option<Situation>,
}

/// At most this many situations are looked at in one go.
const SOME: usize = 1_024;

/// The place before the first command.
const ROOT: Place = Place {
    layer: 0,
    node: 0,
    orders: 1,
};

/// The situations to which the same number of commands lead, by what tells them apart.
type Layer = IndexMap<Situation, Reached>;

/// A search at work.
#[derive(Drop)]
pub struct Search {
    alloc: Global,
    options: Options,
    exchange: Exchange,
    explored: Explored,
    states: States,
    /// The situations that are looked at now.
    layer: Layer,
    /// How many of them have been looked at.
    looked: usize,
    /// The situations to which one command more leads.
    following: Layer,
    /// Whether there are more situations than the limit.
    is_cut_off: bool,
}

/// Adds a situation to a layer, by its key, or the orders that lead to it.
fn add(
    layer: &mut Layer,
    key: Situation,
    situation: Option<Situation>,
    place: Place,
    caller: u16,
) -> Result<(), AllocError> {
    if let Some(reached) = layer.get_mut(&key) {
        reached.orders = reached.orders.saturating_add(place.orders);
        return Ok(());
    }
    let node = Node {
        parent: place.node,
        caller,
    };
    let reached = Reached {
        node,
        orders: place.orders,
        situation,
    };
    layer.insert(key, reached)?;
    Ok(())
}

/// Returns the next command of a caller, unless its call waits or it has made all. The bits say whose calls wait.
fn next_of(scene: &Scene, situation: &[u32], waiting: u64, caller: u16) -> Option<Command> {
    if waiting & bit_of(caller) != 0 {
        return None;
    }
    command_at(scene, caller, *situation.get(usize::from(caller))?)
}

/// Returns how many layers there are at most: that of no command, one for each command of the callers, and one without a situation.
fn layer_count(scene: &Scene) -> usize {
    let mut count = 2usize;
    for caller in scene.callers.iter() {
        count = count.saturating_add(caller.commands.len());
    }
    count
}

impl Search {
    /// Returns a search that is about to look at the situation before the first command.
    ///
    /// Fails only if an object can't be made or memory runs out.
    pub fn new(alloc: Global, scene: &Scene, options: Options) -> Result<Search, Stop> {
        let exchange = Exchange::new(alloc, scene, options.apart)?;
        let mut search = Search {
            alloc,
            options,
            explored: Explored::new(alloc, scene, &exchange, options.answers)?,
            exchange,
            states: States::new(alloc, scene)?,
            layer: IndexMap::new(alloc),
            looked: 0,
            following: IndexMap::new(alloc),
            is_cut_off: false,
        };
        search.begin(scene, Stage::new(alloc, scene)?)?;
        Ok(search)
    }

    /// Returns how much has been looked at.
    pub fn explored(&self) -> &Explored {
        &self.explored
    }

    /// Returns what was found.
    ///
    /// Fails only if memory runs out.
    pub fn finish(self) -> Result<Explored, AllocError> {
        let mut explored = self.explored;
        explored.states = self.states.count();
        explored.findings.sort_by_key(|finding| finding.commands())?;
        Ok(explored)
    }

    /// Returns the situation of a new stage.
    fn first_situation(&mut self, scene: &Scene, stage: Stage) -> Result<Situation, Stop> {
        let Stage { objects, made } = stage;
        let mut situation = made;
        let mut position = 0u16;
        for object in objects {
            situation.push(self.states.number(self.alloc, scene, position, object)?)?;
            position = position.saturating_add(1);
        }
        Ok(situation)
    }

    /// Notes what is wrong before the first command, and that this situation is looked at next.
    fn begin(&mut self, scene: &Scene, stage: Stage) -> Result<(), Stop> {
        let situation = self.first_situation(scene, stage)?;
        self.note(scene, situation.as_slice(), &[], ROOT, None)?;
        let mut layer = IndexMap::new(self.alloc);
        self.add_to(scene, &mut layer, situation, ROOT, 0)?;
        Ok(self.turn_to(layer)?)
    }

    /// Adds a situation to a layer, or the orders that lead to it.
    fn add_to(
        &self,
        scene: &Scene,
        layer: &mut Layer,
        situation: Situation,
        place: Place,
        caller: u16,
    ) -> Result<(), AllocError> {
        if !self.exchange.is_any() {
            return add(layer, situation, None, place, caller);
        }
        let key = self
            .states
            .key(scene, &self.exchange, situation.as_slice())?;
        add(layer, key, Some(situation), place, caller)
    }

    /// Notes what a command of this caller brought about, which led to this situation.
    fn note(
        &mut self,
        scene: &Scene,
        situation: &[u32],
        news: &[News],
        place: Place,
        caller: Option<u16>,
    ) -> Result<(), AllocError> {
        let broken = self.states.take_broken(self.alloc);
        let told = Told {
            made: situation.get(..scene.callers.len()).unwrap_or(&[]),
            news,
            broken: broken.as_slice(),
        };
        self.explored.note_news(scene, told, place, caller)
    }

    /// Returns the situation to which the caller's command leads from this one, and adds what that brings about.
    fn situation_after(
        &mut self,
        scene: &Scene,
        situation: &[u32],
        caller: u16,
        command: Command,
        news: &mut Vec<News>,
    ) -> Result<Situation, Stop> {
        let (alloc, states) = (self.alloc, &mut self.states);
        let mut next = Vec::from_slice(alloc, situation)?;
        if let Some(made) = next.get_mut(usize::from(caller)) {
            *made = made.saturating_add(1);
        }
        for object in touched(scene, command.action) {
            if let Some(number) = next.get_mut(place_of(scene, object)) {
                *number = states.go_on(alloc, scene, object, *number, caller, command, news)?;
            }
        }
        Ok(next)
    }

    /// Has a caller make this command in this situation, notes what is found, and adds the situation that follows to the next layer.
    fn follow(
        &mut self,
        scene: &Scene,
        situation: &[u32],
        place: Place,
        caller: u16,
        command: Command,
        following: &mut Layer,
    ) -> Result<(), Stop> {
        let mut news = Vec::new(self.alloc);
        let next = self.situation_after(scene, situation, caller, command, &mut news)?;
        self.explored.moves = self.explored.moves.saturating_add(1);
        self.note(scene, next.as_slice(), news.as_slice(), place, Some(caller))?;
        Ok(self.add_to(scene, following, next, place, caller)?)
    }

    /// Returns for how many callers the command of this one is made: for all with the same commands that are as far. None if one of
    /// them comes before it, since that one's command was made for all. The bits say whose calls wait.
    fn alike(&self, scene: &Scene, situation: &[u32], waiting: u64, caller: u16) -> u128 {
        if !self.exchange.is_any() {
            return 1;
        }
        let mut count = 0u128;
        for other in 0..caller_count(scene) {
            if waiting & bit_of(other) == 0 && self.exchange.are_alike(situation, caller, other) {
                if other < caller {
                    return 0;
                }
                count = count.saturating_add(1);
            }
        }
        count
    }

    /// Looks at a situation: adds those that follow to the next layer. If none does, notes its end.
    fn look_at(
        &mut self,
        scene: &Scene,
        situation: &[u32],
        place: Place,
        following: &mut Layer,
    ) -> Result<(), Stop> {
        let waiting = self.states.waiting(scene, situation);
        let mut is_end = true;
        for caller in 0..caller_count(scene) {
            if let Some(command) = next_of(scene, situation, waiting, caller) {
                is_end = false;
                let alike = self.alike(scene, situation, waiting, caller);
                if alike != 0 {
                    let orders = place.orders.saturating_mul(alike);
                    let place = Place { orders, ..place };
                    self.follow(scene, situation, place, caller, command, following)?;
                }
            }
        }
        if is_end {
            self.explored.note_end(waiting != 0, place)?;
        }
        Ok(())
    }

    /// Returns whether there are more situations than the limit, with these of the next layer.
    fn is_too_much(&self, following: &Layer) -> bool {
        self.explored.situations.saturating_add(following.len()) > self.options.situations
    }

    /// Looks at the situation with this position in the layer.
    fn look_at_node(
        &mut self,
        scene: &Scene,
        layer: &Layer,
        node: usize,
        following: &mut Layer,
    ) -> Result<(), Stop> {
        let Some((situation, reached)) = layer.get_index(node) else {
            return Ok(());
        };
        let place = Place {
            layer: self.explored.depth(),
            node,
            orders: reached.orders,
        };
        let situation = reached.situation.as_ref().unwrap_or(situation);
        self.look_at(scene, situation.as_slice(), place, following)
    }

    /// Looks at some more situations of the layer.
    fn look_at_some(
        &mut self,
        scene: &Scene,
        layer: &Layer,
        following: &mut Layer,
    ) -> Result<(), Stop> {
        let end = self.looked.saturating_add(SOME).min(layer.len());
        for node in self.looked..end {
            self.look_at_node(scene, layer, node, following)?;
            self.looked = node.saturating_add(1);
            self.is_cut_off = self.is_too_much(following);
            if self.is_cut_off {
                break;
            }
        }
        Ok(())
    }

    /// Keeps how the situations of a layer were reached, and has them looked at next.
    fn turn_to(&mut self, layer: Layer) -> Result<(), AllocError> {
        let mut nodes = Vec::with_capacity(self.alloc, layer.len())?;
        for reached in layer.values() {
            nodes.push(reached.node)?;
        }
        self.explored.situations = self.explored.situations.saturating_add(layer.len());
        self.explored.layers.push(nodes)?;
        self.explored.is_complete = layer.is_empty();
        self.layer = layer;
        self.looked = 0;
        Ok(())
    }

    /// Looks at some more situations, those to which the fewest commands lead first. Returns whether there are others to look at.
    ///
    /// Fails only if memory runs out.
    pub fn look_further(&mut self, scene: &Scene) -> Result<bool, Stop> {
        let layer = mem::replace(&mut self.layer, IndexMap::new(self.alloc));
        let mut following = mem::replace(&mut self.following, IndexMap::new(self.alloc));
        self.look_at_some(scene, &layer, &mut following)?;
        if self.is_cut_off {
            return Ok(false);
        }
        if self.looked < layer.len() {
            self.layer = layer;
            self.following = following;
        } else {
            self.turn_to(following)?;
        }
        Ok(!self.explored.is_complete)
    }
}

/// Returns how often a search has to look further at most.
pub fn most_looks(scene: &Scene, options: Options) -> usize {
    // Each time it looks at `SOME` situations, or ends a layer.
    let looks = options.situations.checked_div(SOME).unwrap_or(0);
    layer_count(scene).saturating_add(looks).saturating_add(1)
}

/// Looks at every situation of the scene, those to which the fewest commands lead first.
///
/// Fails only if an object can't be made or memory runs out.
pub fn explore(alloc: Global, scene: &Scene, options: Options) -> Result<Explored, Stop> {
    let mut search = Search::new(alloc, scene, options)?;
    for _ in 0..most_looks(scene, options) {
        if !search.look_further(scene)? {
            break;
        }
    }
    Ok(search.finish()?)
}
