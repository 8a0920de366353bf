// SPDX-License-Identifier: MIT
//! The exit statuses of the programs.

ghost use Rattle.std.specs.Prelude.{◌≡◌};
ghost use Rattle.po_command_line.specs.Statuses.{status_of};

use po_language::RunError;

/// The status of a good end.
pub const GOOD: u8 = 0;

/// The status if the script has a fault.
const SCRIPT_FAULT: u8 = 1;

/// The status if a check finds something.
pub const FINDINGS: u8 = 1;

/// The status if the words of the command line are refused.
pub(crate) const USAGE: u8 = 2;

/// The status if a search finds an order in which something goes wrong.
pub const FOUND: u8 = 3;

/// The status if memory ran out, or a read or a write failed.
pub const NO_MEANS: u8 = 4;

/// The status if a search finds nothing, but didn't look at everything.
pub const CUT_OFF: u8 = 7;

/// Returns the status of a fault.
pub(crate) fn status_of(fault: &RunError) -> u8
    ensures { result ≡ status_of fault.now }
{
    match fault {
        RunError::Script { .. } => SCRIPT_FAULT,
        RunError::Read | RunError::Write | RunError::Memory => NO_MEANS,
    }
}
