// SPDX-License-Identifier: MIT
//! A program for the gate: it reads Ada texts from standard input, each after a line `-- text NAME`, and writes what is made of
//! each: its numbers of entries, procedures, functions and cells, or what is wrong with it.
#![tactic(auto)]

use anyhow::Result;
use po_ada_program::Made;
use po_ada_reading::{AdaText, read};
use po_ada_samples::{Sample, samples};
use po_ada_tree::{Fault, report};
use std::alloc::Global;
use std::io::{self, Input, Print, Read};

/// Writes what is wrong with a text.
fn write_faults(
    rt: &(impl Print + AllocGlobal),
    name: &str,
    text: &[u8],
    faults: &[Fault],
) -> Result<()> {
    for fault in faults {
        let shown = report(rt.alloc(), name, text, fault)?;
        rt.print(shown.as_str())?;
    }
    Ok(())
}

/// Writes how much a program has.
fn write_counts(rt: &impl Print, name: &str, made: &Made) -> io::Result<()> {
    let program = &made.program;
    let (entries, procedures, functions) = (
        program.entries.len(),
        program.procedures.len(),
        made.names.functions.len(),
    );
    let cells = program.cells;
    println!(rt;
        "{name}: entries {entries}, procedures {procedures}, functions {functions}, cells {cells}"
    )
}

/// Writes which functions of the program are preconditions, each with its entry's name, and how long a queue can be.
fn write_conditions(rt: &impl Print, name: &str, made: &Made) -> io::Result<()> {
    for entry in made.names.entries.iter() {
        if let Some(function) = entry.precondition {
            let called = entry.operation.name.as_str();
            println!(rt; "{name}: function {function} is the precondition of {called}")?;
        }
    }
    if let Some(most) = made.names.max_queue {
        println!(rt; "{name}: at most {most} calls in a queue")?;
    }
    Ok(())
}

/// Makes an object whose discriminants have their defaults, or 2.
fn write_object(
    rt: &(impl Print + AllocGlobal),
    name: &str,
    text: &[u8],
    ada: &AdaText,
) -> Result<()> {
    let mut values = Vec::new(rt.alloc());
    for discriminant in ada.heading().discriminants.iter() {
        values.push(discriminant.default.unwrap_or(2))?;
    }
    match ada.object(rt.alloc(), values.as_slice())? {
        Ok(made) => {
            write_counts(rt, name, &made)?;
            write_conditions(rt, name, &made)?;
        }
        Err(faults) => write_faults(rt, name, text, faults.as_slice())?,
    }
    Ok(())
}

fn write_text(rt: &(impl Print + AllocGlobal), name: &str, text: &[u8]) -> Result<()> {
    match read(rt.alloc(), text, None)? {
        Ok(ada) => write_object(rt, name, text, &ada),
        Err(faults) => write_faults(rt, name, text, faults.as_slice()),
    }
}

/// Writes what is made of each text.
fn write_texts(rt: &(impl Print + AllocGlobal), list: &[Sample]) -> Result<()> {
    for sample in list {
        write_text(rt, sample.name.as_str(), sample.bytes.as_slice())?;
    }
    Ok(())
}

fn main(rt: HostRuntime) -> Result<()> {
    let mut bytes = Vec::new(rt.alloc());
    rt.reader().read_to_end(&mut bytes)?;
    let list = samples(rt.alloc(), bytes.as_slice())?;
    write_texts(&rt, list.as_slice())
}
