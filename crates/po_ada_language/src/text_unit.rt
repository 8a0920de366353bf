// SPDX-License-Identifier: MIT
//! Units whose calls carry the values of several parameters.

ghost use Rattle.std.specs.Prelude.{◌≡◌, List, ℤ};

use po_ada_unit::{AdaUnit, Values};
use po_unit::Unit;

/// How many parameters a call has at most.
pub const CELLS: usize = 8;

/// The values of a call's parameters, each at the position of its parameter. A function's result is the first.
pub type Cells = [i128; 8];

/// A unit whose calls carry the values of several parameters.
pub trait TextUnit: Unit + Drop {
    /// The parameters of a call with this value.
    ghost parameters: { Self.Value → List ℤ };

    /// Returns the value of a call with these parameters.
    fn value_of(cells: Cells) -> Self::Value
        ensures { parameters result ≡ cells };

    /// Returns the parameters of a call with this value.
    fn cells_of(value: Self::Value) -> Cells
        ensures { result ≡ parameters value };
}

impl TextUnit for AdaUnit {
    ghost parameters = { λ v. v.cells };

    fn value_of(cells: Cells) -> Values {
        Values::new(cells)
    }

    fn cells_of(value: Values) -> Cells {
        value.cells
    }
}
