// SPDX-License-Identifier: MIT
//! The units that scripts know.

ghost use Rattle.std.specs.Prelude.{◌≡◌};

use po_classic_units::UnitNames;

/// The units that scripts know: one or more, in an order. A unit's number, of 16 bits, is its position in this order, from 0.
pub trait UnitList {
    ghost use Rattle.po_language.specs.Units.{UnitList as Listed, unit_number, names_at};

    /// What scripts know of each unit.
    ghost listed: { Listed };

    /// Returns the number of the first unit of that name, if there is one.
    fn unit_number(word: &[u8]) -> Option<u16>
        ensures { result ≡ unit_number listed word.now };

    /// Returns the names of the unit with this number, and of its operations. Numbers above the last unit's mean that unit too.
    fn names_at(number: u16) -> UnitNames
        ensures { result ≡ names_at listed number };
}
