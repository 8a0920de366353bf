// SPDX-License-Identifier: MIT
//! Makes the program of one of a text's protected units, and its names.

ghost use Rattle.std.specs.Prelude.{◌≡◌, vec_len, OnOk};

use crate::declared_names::{heading_names, object_names};
use crate::making::Making;
use po_ada_names::{Heading, ObjectNames};
use po_ada_tree::tree::{Item, Name};
use po_ada_tree::{Faults, Stop, Text};
use po_program::Program;
use std::alloc::Global;

/// The program of an object and its names.
#[derive(Drop)]
pub struct Made {
    pub program: Program,
    pub names: ObjectNames,
}

/// The program of an object and its names, whatever faults were told.
fn made_object(
    alloc: Global,
    text: &Text,
    bytes: &[u8],
    wanted: Name,
    values: &[i128],
    faults: &mut Faults,
) -> Result<Made, Stop> {
    let mut making = Making::new(alloc, bytes, &text.names, faults);
    making.lowering.known.predefine_all()?;
    making.items(text.items.as_slice(), wanted, values)?;
    let program = making.program()?;
    let names = object_names(&making, wanted)?;
    Ok(Made { program, names })
}

/// The program of an object of the wanted unit, whose discriminants have these values, in order, and its names. `bytes` is the
/// text as it was read. What is wrong with it gets into the list of faults, and then there is no program.
pub fn object_of(
    alloc: Global,
    text: &Text,
    bytes: &[u8],
    wanted: Name,
    values: &[i128],
    faults: &mut Faults,
) -> Result<Made, Stop>
    ensures { OnOk result (vec_len faults.new.items ≡ 0) }
{
    let made = made_object(alloc, text, bytes, wanted, values, faults)?;
    if faults.is_empty() {
        return Ok(made);
    }
    Err(Stop::Fault)
}

/// What is known of the unit before its discriminants have values.
pub fn heading_of(
    alloc: Global,
    text: &Text,
    bytes: &[u8],
    wanted: Name,
    faults: &mut Faults,
) -> Result<Heading, Stop> {
    let mut making = Making::new(alloc, bytes, &text.names, faults);
    making.lowering.known.predefine_all()?;
    for item in text.items.iter() {
        if let Item::Protected(unit) = item {
            if unit.name.number == wanted.number {
                return heading_names(&mut making, unit);
            }
        }
        let done = making.item(item, wanted, &[]);
        making.keep_on(done)?;
    }
    Err(
        making
            .lowering
            .known
            .refuse(wanted.place, "the text has no protected type or object"),
    )
}
