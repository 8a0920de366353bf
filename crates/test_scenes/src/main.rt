// SPDX-License-Identifier: MIT
//! A program for the gate: it explores scenes that are drawn by lot, and tries all orders of each of them too, one by one. Each is
//! explored twice: callers with the same commands are told apart, or not.
//!
//! It reads Ada texts from standard input, each after a line `-- text NAME`; the comments `-- does COMMAND` in a text say what its
//! callers can do. Its arguments say how many scenes, and what number the lot begins with.
#![tactic(auto)]

mod drawing;
mod every_order;

use crate::drawing::{drawn, files};
use crate::every_order::{Tried, try_every_order};
use anyhow::{Result, bail};
use po_ada_samples::{Lot, Sample, argument, samples};
use po_explore::{Explored, Options, explore};
use po_scene::{Scene, read_scene};
use std::alloc::Global;
use std::io::{Input, Print, Read};

/// No scene here has as many situations.
const MOST: usize = 1_000_000;

/// What came of the scenes.
#[derive(Clone, Copy)]
struct Tally {
    equal: u64,
    different: u64,
    orders: u64,
    findings: u64,
}

/// Reads the scene of this text.
fn scene_of(alloc: Global, samples: &[Sample], text: &str) -> Result<Scene> {
    let mut files = files(alloc, samples)?;
    match read_scene(alloc, &mut files, text.as_bytes()) {
        Ok(scene) => Ok(scene),
        Err(_) => bail!("this scene isn't read"),
    }
}

/// Returns how many things trying every order found, if callers that the search exchanges are one.
fn different_ones(explored: &Explored, tried: &Tried) -> usize {
    let mut count = 0usize;
    for (place, found) in tried.found.iter().enumerate() {
        let mut before = tried.found.iter().take(place);
        if !before.any(|other| explored.are_same(*found, *other)) {
            count = count.saturating_add(1);
        }
    }
    count
}

/// Returns whether the search found what trying every order finds, with the same answers, and counted as many orders.
fn is_equal(explored: &Explored, tried: &Tried) -> bool {
    for found in tried.found.iter() {
        if !explored.has(*found) {
            return false;
        }
    }
    explored.is_complete
        && explored.count() == different_ones(explored, tried)
        && explored.orders == u128::from(tried.orders)
}

/// Explores the scene, and returns whether that finds what trying every order finds. Callers with the same commands are told apart
/// or not.
fn agrees(alloc: Global, scene: &Scene, tried: &Tried, apart: bool) -> Result<bool> {
    let options = Options {
        situations: MOST,
        answers: true,
        apart,
    };
    match explore(alloc, scene, options) {
        Ok(explored) => Ok(is_equal(&explored, tried)),
        Err(_) => bail!("this scene can't be explored"),
    }
}

/// Explores the scene of this text in both ways, tries every order of it, and counts what came of it.
fn compare(
    rt: &(impl Print + AllocGlobal),
    samples: &[Sample],
    text: &str,
    tally: &mut Tally,
) -> Result<()> {
    let alloc = rt.alloc();
    let scene = scene_of(alloc, samples, text)?;
    let tried = try_every_order(alloc, &scene)?;
    tally.orders = tally.orders.saturating_add(tried.orders);
    tally.findings = tally.findings.saturating_add(tried.found.len() as u64);
    if agrees(alloc, &scene, &tried, true)? && agrees(alloc, &scene, &tried, false)? {
        tally.equal = tally.equal.saturating_add(1);
        return Ok(());
    }
    tally.different = tally.different.saturating_add(1);
    println!(rt; "different:\n{text}")?;
    Ok(())
}

fn main(rt: HostRuntime) -> Result<()> {
    let (count, seed) = (argument(&rt, 1)?, argument(&rt, 2)?);
    let mut bytes = Vec::new(rt.alloc());
    rt.reader().read_to_end(&mut bytes)?;
    let list = samples(rt.alloc(), bytes.as_slice())?;
    let mut lot = Lot::new(seed as u64);
    let mut tally = Tally {
        equal: 0,
        different: 0,
        orders: 0,
        findings: 0,
    };
    for _ in 0..count {
        let text = drawn(rt.alloc(), list.as_slice(), &mut lot)?;
        compare(&rt, list.as_slice(), text.as_str(), &mut tally)?;
    }
    let (equal, different) = (tally.equal, tally.different);
    let (orders, findings) = (tally.orders, tally.findings);
    println!(rt;
        "scenes: {equal} equal, {different} different; {orders} orders, {findings} findings"
    )?;
    Ok(())
}
