// SPDX-License-Identifier: MIT
//! A program for the gate: it reads Ada texts from standard input, each after a line `-- text NAME`, and writes the hints on each
//! protected unit in them, or what is wrong with the text.
#![tactic(auto)]

use anyhow::{Result, bail};
use po_ada_lint::hints;
use po_ada_samples::{Sample, samples};
use po_ada_text::parse;
use po_ada_tree::tree::{Item, Name};
use po_ada_tree::{Fault, Faults, Stop, Text, report};
use std::alloc::Global;
use std::io::{Input, Print, Read};

/// Writes hints, or what is wrong with a text.
fn write_faults(
    rt: &(impl Print + AllocGlobal),
    name: &str,
    text: &[u8],
    faults: &[Fault],
) -> Result<()> {
    for fault in faults {
        let shown = report(rt.alloc(), name, text, fault)?;
        rt.print(shown.as_str())?;
    }
    Ok(())
}

/// Writes the hints on one protected unit.
fn write_unit(
    rt: &(impl Print + AllocGlobal),
    name: &str,
    bytes: &[u8],
    text: &Text,
    unit: Name,
) -> Result<()> {
    let found = hints(rt.alloc(), text, unit)?;
    let count = found.len();
    println!(rt; "{name}: {count}")?;
    write_faults(rt, name, bytes, found.as_slice())
}

/// Writes the hints on each protected unit of a text.
fn write_text(rt: &(impl Print + AllocGlobal), name: &str, bytes: &[u8]) -> Result<()> {
    let mut faults = Faults::new(rt.alloc());
    match parse(rt.alloc(), bytes, &mut faults) {
        Ok(text) => {
            for item in text.items.iter() {
                if let Item::Protected(unit) = item {
                    write_unit(rt, name, bytes, &text, unit.name)?;
                }
            }
            Ok(())
        }
        Err(Stop::Fault) => write_faults(rt, name, bytes, faults.items.as_slice()),
        Err(Stop::OutOfMemory) => bail!("no memory"),
    }
}

/// Writes the hints on each text.
fn write_texts(rt: &(impl Print + AllocGlobal), list: &[Sample]) -> Result<()> {
    for sample in list {
        write_text(rt, sample.name.as_str(), sample.bytes.as_slice())?;
    }
    Ok(())
}

fn main(rt: HostRuntime) -> Result<()> {
    let mut bytes = Vec::new(rt.alloc());
    rt.reader().read_to_end(&mut bytes)?;
    let list = samples(rt.alloc(), bytes.as_slice())?;
    write_texts(&rt, list.as_slice())
}
