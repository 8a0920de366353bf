// SPDX-License-Identifier: MIT
//! How a schedule ends.

use std::fmt;

/// How a schedule ends.
#[derive(Clone, Copy, PartialEq, Eq)]
pub(crate) enum Ending {
    /// Each thread did all that it had to.
    Done,
    /// No thread can go on.
    Stuck,
    /// There are too many steps.
    Endless,
    /// The thread whose turn it is doesn't come to its next step: it waits although nothing says that it has to.
    Lost,
}

impl fmt::Display for Ending {
    fn fmt<W: fmt::Write>(&self, f: &mut fmt::Formatter<W>) -> fmt::Result {
        f.write_str(match self {
            Ending::Done => "all calls end",
            Ending::Stuck => "nobody can go on",
            Ending::Endless => "it doesn't end",
            Ending::Lost => "a thread waits that has no reason to",
        })
    }
}
