// SPDX-License-Identifier: MIT
//! What scripts know of a protected object that an Ada text declares: the names of its operations, of their parameters, of its
//! types and exceptions.
//!
//! `po_ada_program` fills a `Heading` and an `ObjectNames`, and `po_ada_script` reads a script's lines by them. Names are as
//! their declarations write them. A subtype is named by its number in `Types`.
#![tactic(auto)]

mod names;

pub use names::{
    Discriminant, Entry, Enumeration, Family, Form, Heading, Mode, ObjectNames, Operation,
    Parameter, Subtype, Types, Variable,
};
