// SPDX-License-Identifier: MIT
//! What is known about the unit that a script has begun.

use po_language::UnitChoice;

/// What is known about the unit that was begun.
#[derive(Clone, Copy, Debug, PartialEq, Eq)]
pub enum Known {
    /// None was begun yet.
    Nothing,
    /// This one was begun.
    Begun(UnitChoice),
    /// A line that should have begun a unit has a fault.
    Unclear,
}
