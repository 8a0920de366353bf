// SPDX-License-Identifier: MIT
//! Which of the program's streams are terminals.

/// Which of the program's streams are terminals, where someone types or reads along.
#[derive(Clone, Copy)]
pub(crate) struct Terminals {
    /// Standard input.
    pub(crate) input: bool,
    /// Standard error.
    pub(crate) errors: bool,
}
