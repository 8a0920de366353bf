// SPDX-License-Identifier: MIT
//! What bytes are read from and written to.
//!
//! A `Source` gives the bytes of a script, and a `Sink` takes the bytes of its answers. Their ghost functions say which bytes
//! are left or taken, and whether a call has failed: contracts of the programs speak of these. `write_all` writes all bytes to
//! a sink, or fails. `OverStd` makes a source or a sink of a reader or a writer of std.
//!
//! Begin with `source.rt` and `sink.rt`, then `over_std.rt`.
#![tactic(auto)]

mod over_std;
mod sink;
mod source;

pub use crate::over_std::OverStd;
pub use crate::sink::{Sink, write_all};
pub use crate::source::{IoFailed, Source};
