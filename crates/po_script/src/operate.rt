// SPDX-License-Identifier: MIT
//! Carries out the operations of a script on the core of any unit.

ghost use Rattle.std.specs.Prelude.{◌≡◌, ℕ, ◌<◌, ◌++◌, [], Some, slice_get, OnOk, OnErr, IsOk, string_bytes, false};
ghost use Rattle.po_core.specs.View.{ended_now};
ghost use Rattle.po_unit.specs.Numbering.{entry_count, entry_references};
ghost use Rattle.po_unit.specs.declared.decl.EntryRef.{EntryRef as Reference};
ghost use Rattle.po_classic_units.specs.Names.{texts_of};
ghost use Rattle.po_script.specs.Operations.{after_operation, reply_lines, operation_lines, entry_line, entry_lines, show_lines, is_memory, IsEither};
ghost use Rattle.po_script.specs.Lines.{refused_line, ended_lines};
ghost use Rattle.po_script.specs.Tickets.{Knows, AreCollected};

use crate::collection::collect;
use crate::lines::{
    push_attempt, push_clock, push_count, push_ended, push_final, push_next, push_refused,
    push_reply, push_ticket, push_value,
};
use crate::tickets::Tickets;
use po_core::{Core, Deadline, Refusal};
use po_language::Operation;
use po_unit::{EntryRef, Unit};
use std::alloc::AllocError;

/// Puts the line of a refusal into the empty reply. Running out of memory is an error instead, and has no line.
fn refuse(reply: &mut String, refusal: Refusal) -> Result<(), AllocError>
    requires { string_bytes reply.old ≡ [] }
    ensures line { OnOk result (string_bytes reply.new ≡ refused_line refusal) }
    ensures memory { OnOk result (is_memory refusal ≡ false) }
{
    if refusal == Refusal::OutOfMemory {
        return Err(AllocError);
    }
    push_refused(reply, refusal)
}

/// Adds the lines of the calls that a command ended, if the command's own line was added. Collects those calls in any case.
fn finish<U: Unit<Value = u64>>(
    core: &mut Core<U>,
    tickets: &mut Tickets,
    answered: Result<(), AllocError>,
    reply: &mut String,
) -> Result<(), AllocError>
    requires { Knows core.old.tickets tickets.old }
    ensures object { core.new.object ≡ core.old.object }
    ensures answered { OnOk result (IsOk answered) }
    ensures lines { OnOk result (string_bytes reply.new ≡ string_bytes reply.old ++ ended_lines (ended_now core.old.object)) }
    ensures knows { Knows core.new.tickets tickets.new }
    ensures collected { AreCollected core.new }
{
    let told = match answered {
        Ok(()) => push_ended(reply, core.ended_now()),
        Err(fault) => Err(fault),
    };
    collect(core, tickets);
    told
}

/// Issues a call, and puts the lines that answer it into the empty reply.
#[tactic(auto, using(crate::proofs::Refused::call_refused_or, crate::proofs::Refused::let_pass))]
fn call<U: Unit<Value = u64>>(
    core: &mut Core<U>,
    tickets: &mut Tickets,
    entry: EntryRef,
    value: u64,
    deadline: Deadline,
    reply: &mut String,
) -> Result<(), AllocError>
    requires empty { string_bytes reply.old ≡ [] }
    requires knows { Knows core.old.tickets tickets.old }
    requires collected { AreCollected core.old }
    ensures object { OnOk result (core.new.object ≡ after_operation U.meaning core.old.object (Operation.Call entry value deadline)) }
    ensures failed { OnErr result (IsEither core.new.object core.old.object (after_operation U.meaning core.old.object (Operation.Call entry value deadline))) }
    ensures lines { OnOk result (string_bytes reply.new ≡ reply_lines U.meaning core.old.object (Operation.Call entry value deadline)) }
    ensures knows { Knows core.new.tickets tickets.new }
    ensures collected { AreCollected core.new }
{
    tickets.reserve()?;
    // Only for the prover: all tickets have smaller numbers than the new call, and the number of calls has no limit.
    core.headline();
    core.recall_unbounded();
    match core.issue(0, entry, value, deadline) {
        Ok(ticket) => {
            tickets.keep(ticket);
            let answered = push_ticket(reply, ticket.number);
            finish(core, tickets, answered, reply)
        }
        Err(refusal) => refuse(reply, refusal),
    }
}

/// Runs a procedure, and puts the lines that answer it into the empty reply.
#[tactic(auto, using(crate::proofs::Refused::refused_or))]
fn procedure<U: Unit<Value = u64>>(
    core: &mut Core<U>,
    tickets: &mut Tickets,
    op: u16,
    value: u64,
    reply: &mut String,
) -> Result<(), AllocError>
    requires empty { string_bytes reply.old ≡ [] }
    requires knows { Knows core.old.tickets tickets.old }
    requires collected { AreCollected core.old }
    ensures object { OnOk result (core.new.object ≡ after_operation U.meaning core.old.object (Operation.Procedure op value)) }
    ensures failed { OnErr result (IsEither core.new.object core.old.object (after_operation U.meaning core.old.object (Operation.Procedure op value))) }
    ensures lines { OnOk result (string_bytes reply.new ≡ reply_lines U.meaning core.old.object (Operation.Procedure op value)) }
    ensures knows { Knows core.new.tickets tickets.new }
    ensures collected { AreCollected core.new }
{
    match core.procedure(0, op, value) {
        Ok(replied) => {
            let answered = push_reply(reply, replied);
            finish(core, tickets, answered, reply)
        }
        Err(refusal) => refuse(reply, refusal),
    }
}

/// Runs a function, and puts the line that answers it into the empty reply.
fn function<U: Unit<Value = u64>>(
    core: &Core<U>,
    op: u16,
    value: u64,
    reply: &mut String,
) -> Result<(), AllocError>
    requires { string_bytes reply.old ≡ [] }
    ensures object { OnOk result (core.now.object ≡ after_operation U.meaning core.now.object (Operation.Function op value)) }
    ensures lines { OnOk result (string_bytes reply.new ≡ reply_lines U.meaning core.now.object (Operation.Function op value)) }
{
    match core.function(op, value) {
        Ok(replied) => push_value(reply, replied),
        Err(refusal) => refuse(reply, refusal),
    }
}

/// Tries to cancel a call, and puts the lines that answer it into the empty reply.
fn cancel<U: Unit<Value = u64>>(
    core: &mut Core<U>,
    tickets: &mut Tickets,
    n: u64,
    reply: &mut String,
) -> Result<(), AllocError>
    requires empty { string_bytes reply.old ≡ [] }
    requires knows { Knows core.old.tickets tickets.old }
    requires collected { AreCollected core.old }
    ensures object { OnOk result (core.new.object ≡ after_operation U.meaning core.old.object (Operation.Cancel n)) }
    ensures failed { OnErr result (IsEither core.new.object core.old.object (after_operation U.meaning core.old.object (Operation.Cancel n))) }
    ensures lines { OnOk result (string_bytes reply.new ≡ reply_lines U.meaning core.old.object (Operation.Cancel n)) }
    ensures knows { Knows core.new.tickets tickets.new }
    ensures collected { AreCollected core.new }
{
    match core.cancel_number(n) {
        Ok(aborted) => {
            let answered = push_attempt(reply, aborted);
            finish(core, tickets, answered, reply)
        }
        Err(refusal) => refuse(reply, refusal),
    }
}

/// Raises the clock, and puts the lines that answer it into the empty reply.
#[tactic(auto, using(crate::proofs::Refused::tick_refused_or, crate::proofs::Refused::let_pass))]
fn tick<U: Unit<Value = u64>>(
    core: &mut Core<U>,
    tickets: &mut Tickets,
    time: u64,
    reply: &mut String,
) -> Result<(), AllocError>
    requires empty { string_bytes reply.old ≡ [] }
    requires knows { Knows core.old.tickets tickets.old }
    requires collected { AreCollected core.old }
    ensures object { OnOk result (core.new.object ≡ after_operation U.meaning core.old.object (Operation.Tick time)) }
    ensures failed { OnErr result (IsEither core.new.object core.old.object (after_operation U.meaning core.old.object (Operation.Tick time))) }
    ensures lines { OnOk result (string_bytes reply.new ≡ reply_lines U.meaning core.old.object (Operation.Tick time)) }
    ensures knows { Knows core.new.tickets tickets.new }
    ensures collected { AreCollected core.new }
{
    // Only for the prover: such a core never refuses a tick for spent numbers.
    core.recall_unbounded();
    match core.tick(time) {
        Ok(clock) => {
            let answered = push_clock(reply, clock);
            finish(core, tickets, answered, reply)
        }
        Err(refusal) => refuse(reply, refusal),
    }
}

/// Finalizes the object, and puts the lines that answer it into the empty reply.
fn finalize<U: Unit<Value = u64>>(
    core: &mut Core<U>,
    tickets: &mut Tickets,
    reply: &mut String,
) -> Result<(), AllocError>
    requires empty { string_bytes reply.old ≡ [] }
    requires knows { Knows core.old.tickets tickets.old }
    requires collected { AreCollected core.old }
    ensures object { OnOk result (core.new.object ≡ after_operation U.meaning core.old.object Operation.Finalize) }
    ensures failed { OnErr result (IsEither core.new.object core.old.object (after_operation U.meaning core.old.object Operation.Finalize)) }
    ensures lines { OnOk result (string_bytes reply.new ≡ reply_lines U.meaning core.old.object Operation.Finalize) }
    ensures knows { Knows core.new.tickets tickets.new }
    ensures collected { AreCollected core.new }
{
    match core.finalize() {
        Ok(()) => {
            let answered = push_final(reply);
            finish(core, tickets, answered, reply)
        }
        Err(refusal) => refuse(reply, refusal),
    }
}

/// Adds the line of the entry with this flat number, with the number of calls queued on it.
fn push_entry<U: Unit<Value = u64>>(
    core: &Core<U>,
    flat: u16,
    names: &[&str],
    reply: &mut String,
) -> Result<(), AllocError>
    requires { flat < entry_count core.now.object.setup.shape }
    ensures { OnOk result ((reference : Reference)
        × (slice_get (entry_references core.now.object.setup.shape) flat ≡ Some reference)
        × (string_bytes reply.new ≡ string_bytes reply.old ++ entry_line U.meaning (texts_of names.now) core.now.object reference)) }
{
    let reference = core.shape().of_flat(flat);
    let Ok(count) = core.count(reference) else {
        unreachable!()
    };
    push_count(reply, names, reference, count)
}

/// Adds a line for each entry, in the order of their numbers.
#[tactic(auto, using(crate::proofs::ShowLemmas::flat_map_more, crate::proofs::ShowLemmas::flat_map_all))]
fn push_entries<U: Unit<Value = u64>>(
    core: &Core<U>,
    names: &[&str],
    reply: &mut String,
) -> Result<(), AllocError>
    ensures { OnOk result (string_bytes reply.new ≡ string_bytes reply.old ++ entry_lines U.meaning (texts_of names.now) core.now.object) }
{
    for flat in 0..core.shape().total() {
        push_entry(core, flat, names, reply)?;
    }
    Ok(())
}

/// Puts the lines that show the object into the empty reply.
fn show<U: Unit<Value = u64>>(
    core: &Core<U>,
    names: &[&str],
    reply: &mut String,
) -> Result<(), AllocError>
    requires { string_bytes reply.old ≡ [] }
    ensures { OnOk result (string_bytes reply.new ≡ show_lines U.meaning (texts_of names.now) core.now.object) }
{
    push_entries(core, names, reply)?;
    push_clock(reply, core.clock())?;
    push_next(reply, core.next_number())
}

/// Carries out the operation, and puts the lines that answer it into the empty reply. `names` are the names of the declarations
/// of the object's entries.
pub(crate) fn carry_out<U: Unit<Value = u64>>(
    core: &mut Core<U>,
    tickets: &mut Tickets,
    operation: Operation,
    names: &[&str],
    reply: &mut String,
) -> Result<(), AllocError>
    requires empty { string_bytes reply.old ≡ [] }
    requires knows { Knows core.old.tickets tickets.old }
    requires collected { AreCollected core.old }
    ensures object { OnOk result (core.new.object ≡ after_operation U.meaning core.old.object operation) }
    ensures failed { OnErr result (IsEither core.new.object core.old.object (after_operation U.meaning core.old.object operation)) }
    ensures lines { OnOk result (string_bytes reply.new ≡ operation_lines U.meaning (texts_of names.now) core.old.object operation) }
    ensures knows { Knows core.new.tickets tickets.new }
    ensures collected { AreCollected core.new }
{
    match operation {
        Operation::Call {
            entry,
            value,
            deadline,
        } => call(core, tickets, entry, value, deadline, reply),
        Operation::Procedure { op, value } => procedure(core, tickets, op, value, reply),
        Operation::Function { op, value } => function(core, op, value, reply),
        Operation::Cancel(n) => cancel(core, tickets, n, reply),
        Operation::Tick(time) => tick(core, tickets, time, reply),
        Operation::Finalize => finalize(core, tickets, reply),
        Operation::Show => show(core, names, reply),
    }
}
