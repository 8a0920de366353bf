// SPDX-License-Identifier: MIT
//! Tries every order of a scene, one by one, without asking which situations are the same.

use anyhow::{Result, bail};
use po_explore::{Found, Walk};
use po_scene::Scene;
use std::alloc::Global;

/// An order has at most this many commands.
const MOST_COMMANDS: usize = 12;

/// What every order of a scene brings about.
#[derive(Drop)]
pub struct Tried {
    /// How many orders there are.
    pub orders: u64,
    /// What was found and each answer, once each.
    pub found: Vec<Found>,
}

impl Tried {
    /// Adds what was found, unless it was before.
    fn note(&mut self, list: &[Found]) -> Result<()> {
        for found in list {
            if !self.found.as_slice().contains(found) {
                self.found.push(*found)?;
            }
        }
        Ok(())
    }
}

/// Has the callers make their commands in this order, on new objects.
fn walked(alloc: Global, scene: &Scene, order: &[u16]) -> Result<Walk> {
    let Ok(mut walk) = Walk::new(alloc, scene) else {
        bail!("an object can't be made");
    };
    for caller in order {
        if walk.step(scene, *caller).is_err() {
            bail!("a command can't be carried out");
        }
    }
    Ok(walk)
}

/// Tries every order that begins with this one and goes on with at most this many commands.
fn try_all(
    alloc: Global,
    scene: &Scene,
    order: &mut Vec<u16>,
    levels: usize,
    tried: &mut Tried,
) -> Result<()> {
    let walk = walked(alloc, scene, order.as_slice())?;
    tried.note(walk.found(alloc, scene)?.as_slice())?;
    tried.note(walk.answers(alloc, scene)?.as_slice())?;
    let mut is_over = true;
    for caller in 0..scene.callers.len() as u16 {
        if walk.can_step(scene, caller) {
            if levels == 0 {
                bail!("there are too many commands");
            }
            is_over = false;
            order.push(caller)?;
            try_all(alloc, scene, order, levels - 1, tried)?;
            order.pop();
        }
    }
    if is_over {
        tried.orders = tried.orders.saturating_add(1);
    }
    Ok(())
}

/// Tries every order of the scene.
pub fn try_every_order(alloc: Global, scene: &Scene) -> Result<Tried> {
    let mut tried = Tried {
        orders: 0,
        found: Vec::new(alloc),
    };
    let mut order = Vec::new(alloc);
    try_all(alloc, scene, &mut order, MOST_COMMANDS, &mut tried)?;
    Ok(tried)
}
