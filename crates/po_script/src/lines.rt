// SPDX-License-Identifier: MIT
//! Adds the lines that answer commands to a reply.

ghost use Rattle.std.specs.Prelude.{◌≡◌, ◌++◌, OnOk, string_bytes};
ghost use Rattle.po_classic_units.specs.Names.{texts_of};
ghost use Rattle.po_script.specs.Lines.{end_line, ended_lines, ticket_line, refused_line, reply_line, value_line, attempt_line, clock_line, next_line, final_line, name_at, index_text, count_line};

use po_core::{Attempt, End, Ended, Refusal};
use po_unit::EntryRef;
use std::alloc::AllocError;
use std::fmt::Write;

/// Adds the line of a call that was accepted.
pub fn push_ticket(reply: &mut String, number: u64) -> Result<(), AllocError>
    ensures { OnOk result (string_bytes reply.new ≡ string_bytes reply.old ++ ticket_line number) }
{
    write!(reply, "#{number}\n")
}

/// Adds the line of a command that was refused.
pub fn push_refused(reply: &mut String, refusal: Refusal) -> Result<(), AllocError>
    ensures { OnOk result (string_bytes reply.new ≡ string_bytes reply.old ++ refused_line refusal) }
{
    let number = refusal.number();
    write!(reply, "refused {number}\n")
}

/// Adds the line of a procedure's reply.
pub(crate) fn push_reply(reply: &mut String, replied: Result<u64, u32>) -> Result<(), AllocError>
    ensures { OnOk result (string_bytes reply.new ≡ string_bytes reply.old ++ reply_line replied) }
{
    match replied {
        Ok(value) => write!(reply, "done {value}\n"),
        Err(exception) => write!(reply, "raised {exception}\n"),
    }
}

/// Adds the line of a function's reply.
pub(crate) fn push_value(reply: &mut String, replied: Result<u64, u32>) -> Result<(), AllocError>
    ensures { OnOk result (string_bytes reply.new ≡ string_bytes reply.old ++ value_line replied) }
{
    match replied {
        Ok(value) => write!(reply, "value {value}\n"),
        Err(exception) => write!(reply, "raised {exception}\n"),
    }
}

/// Adds the line of an attempt to cancel a call. A cancelled call has none here: it is listed with
/// the ended calls.
pub fn push_attempt(reply: &mut String, aborted: Attempt) -> Result<(), AllocError>
    ensures { OnOk result (string_bytes reply.new ≡ string_bytes reply.old ++ attempt_line aborted) }
{
    match aborted {
        Attempt::Kept => write!(reply, "kept\n"),
        Attempt::Cancelled => Ok(()),
    }
}

/// Adds the line of the clock.
pub fn push_clock(reply: &mut String, clock: u64) -> Result<(), AllocError>
    ensures { OnOk result (string_bytes reply.new ≡ string_bytes reply.old ++ clock_line clock) }
{
    write!(reply, "clock {clock}\n")
}

/// Adds the line of the number that the next call gets.
pub fn push_next(reply: &mut String, next: u64) -> Result<(), AllocError>
    ensures { OnOk result (string_bytes reply.new ≡ string_bytes reply.old ++ next_line next) }
{
    write!(reply, "next {next}\n")
}

/// Adds the line of a finalization.
pub fn push_final(reply: &mut String) -> Result<(), AllocError>
    ensures { OnOk result (string_bytes reply.new ≡ string_bytes reply.old ++ final_line) }
{
    write!(reply, "final\n")
}

/// Returns the name of the declaration with this number, or no text if there is none.
#[tactic(auto, using(crate::proofs::ShowLemmas::name_there, crate::proofs::ShowLemmas::name_past))]
fn name_at<'a>(names: &[&'a str], number: u16) -> &'a str
    ensures { result.now ≡ name_at (texts_of names.now) number }
{
    let number = usize::from(number);
    if number < names.len() {
        names[number]
    } else {
        ""
    }
}

/// Adds the index of a family's member, in parentheses.
fn push_index(reply: &mut String, index: Option<i32>) -> Result<(), AllocError>
    ensures { OnOk result (string_bytes reply.new ≡ string_bytes reply.old ++ index_text index) }
{
    match index {
        Some(index) => write!(reply, "({index})"),
        None => Ok(()),
    }
}

/// Adds the line of an entry on which `count` calls are queued.
pub(crate) fn push_count(
    reply: &mut String,
    names: &[&str],
    reference: EntryRef,
    count: u64,
) -> Result<(), AllocError>
    ensures { OnOk result (string_bytes reply.new ≡ string_bytes reply.old ++ count_line (texts_of names.now) reference count) }
{
    reply.push_str(name_at(names, reference.declaration))?;
    push_index(reply, reference.index)?;
    write!(reply, " {count}\n")
}

/// Adds the line of call `n`, which ended in this way.
fn push_end(reply: &mut String, n: u64, end: End<u64>) -> Result<(), AllocError>
    ensures { OnOk result (string_bytes reply.new ≡ string_bytes reply.old ++ end_line n end) }
{
    match end {
        End::Completed(value) => write!(reply, "{n} done {value}\n"),
        End::Raised(exception) => write!(reply, "{n} raised {exception}\n"),
        End::Cancelled => write!(reply, "{n} cancelled\n"),
        End::ProgramError => write!(reply, "{n} program_error\n"),
    }
}

/// Adds a line for each of the calls.
pub(crate) fn push_ended(reply: &mut String, calls: &[Ended<u64>]) -> Result<(), AllocError>
    ensures { OnOk result (string_bytes reply.new ≡ string_bytes reply.old ++ ended_lines calls.now) }
{
    for call in calls {
        push_end(reply, call.number, call.end)?;
    }
    Ok(())
}
