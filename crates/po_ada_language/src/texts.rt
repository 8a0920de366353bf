// SPDX-License-Identifier: MIT
//! What makes the object that an Ada text declares.

use crate::fault::Stop;
use po_language::parse::Verb;
use po_queues::Order;
use std::alloc::Global;

/// The object of a script.
pub trait ScriptedObject: Sized {
    /// Carries out the operation that the words ask for, and puts the lines that answer it into the reply.
    fn carry_out(
        &mut self,
        alloc: Global,
        verb: Verb,
        words: &[u8],
        reply: &mut String,
    ) -> Result<(), Stop>;
}

/// Which file has the text of the object.
#[derive(Clone, Copy, Debug)]
pub enum FileChoice<'a> {
    /// The one that the command line names. A name that comes with it is the protected unit's, or the file's without `.adb`.
    Given(Option<&'a [u8]>),
    /// The one of this name.
    Named(&'a [u8]),
}

/// What a `unit` line says of the object beside its text.
#[derive(Debug, Drop)]
pub struct Settings {
    /// The values of the discriminants, in order (3.7).
    pub discriminants: Vec<i128>,
    /// Which entry is served first if several are open.
    pub order: Order,
    /// How many calls a queue can have.
    pub max_queue: Option<u64>,
}

/// What makes the object of a script from an Ada text.
pub trait Texts<O> {
    /// Makes the object of the chosen text, with the discriminants and the settings that the words state.
    fn object(&mut self, alloc: Global, choice: FileChoice<'_>, words: &[u8]) -> Result<O, Stop>;
}
