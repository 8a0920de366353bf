// SPDX-License-Identifier: MIT
//! Scripts on the Ada texts of files. The files' bytes come from the caller: nothing is opened here.
//!
//! A `Run` carries out a script, and a `Check` tells its faults: each is a `Session`, whose lines `answer_lines` of `po_ada_script`
//! answers. If that ends with `RunFault::Unread`, the script names a file: give it to the session, and call `answer_lines` again.
//! `hints_on` checks a text alone.
//!
//! Begin with texts.rt, which makes the object of a script.
#![tactic(auto)]

mod checking;
mod file;
mod session;
mod texts;

pub use crate::checking::hints_on;
pub use crate::file::{BODY, DECLARATION, TextFile};
pub use crate::session::{Check, Run, Session};
pub use crate::texts::{NO_FILE, NOT_TEXT, TextFiles, unit_of_file};
