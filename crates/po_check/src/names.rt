// SPDX-License-Identifier: MIT
//! The words that scripts know.

use crate::known::Known;
use po_classic_units::UnitNames;
use po_language::UnitList;
use po_script::Units;
use std::alloc::{AllocError, Global};

/// A number that is above that of any unit in a list.
const MOST_UNITS: u16 = 64;

/// The words of the commands.
pub(crate) const COMMANDS: [&str; 10] = [
    "unit", "call", "cond", "timed", "proc", "func", "cancel", "tick", "final", "show",
];

/// The words that may follow a unit.
pub(crate) const OPTIONS: [&str; 4] = ["textual", "oldest", "rotating", "max"];

/// Returns the names of the units, in their order.
pub(crate) fn unit_names(alloc: Global) -> Result<Vec<&'static str>, AllocError> {
    let mut units = Vec::new(alloc);
    for number in 0..MOST_UNITS {
        let name = <Units as UnitList>::names_at(number).unit;
        if <Units as UnitList>::unit_number(name.as_bytes()) != Some(number) {
            break;
        }
        units.push(name)?;
    }
    Ok(units)
}

/// Returns the names of the unit that was begun, if it is known.
pub(crate) fn names_of(known: Known) -> Option<UnitNames> {
    match known {
        Known::Begun(unit) => Some(<Units as UnitList>::names_at(unit.number)),
        _ => None,
    }
}
