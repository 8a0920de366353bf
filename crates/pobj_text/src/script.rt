// SPDX-License-Identifier: MIT
//! Has a session answer the script on standard input.

use po_ada_command::open;
use po_ada_script::{RunFault, answer_lines};
use po_ada_session::Session;
use po_script::cutter::Cutter;
use po_streams::{OverStd, Sink, Source};
use std::io::{Input, Write};
use std::rt::Files;

/// Answers the script that the reader gives. If the script names a file, reads that, and goes on.
fn answer_all<R: Files + AllocGlobal, S: Session, I: Source, W: Sink>(
    rt: &R,
    session: &mut S,
    reader: &mut I,
    writer: &mut W,
) -> Result<(), RunFault> {
    let mut lines = Cutter::new(rt.alloc())?;
    match answer_lines(rt.alloc(), &mut lines, session, reader, writer) {
        Err(RunFault::Unread(name)) => session.take_file(open(rt, name)?),
        ended => return ended,
    }
    answer_lines(rt.alloc(), &mut lines, session, reader, writer)
}

/// Answers the script on standard input. If that succeeds, every answer has been written.
pub(crate) fn answer_script<R: Input + Files + AllocGlobal, S: Session, W: Write + Drop>(
    rt: &R,
    session: &mut S,
    output: W,
) -> Result<(), RunFault> {
    let mut reader = OverStd::new(rt.reader());
    let mut writer = OverStd::new(output);
    let answered = answer_all(rt, session, &mut reader, &mut writer);
    match writer.into_inner().flush() {
        Ok(()) => answered,
        Err(_) => Err(RunFault::Write),
    }
}
