// SPDX-License-Identifier: MIT
//! Carries out the operations of a script on the core of any unit.

ghost use Rattle.std.specs.Prelude.{◌≡◌, ◌<◌, OnOk, OnErr, IsOk, [], string_bytes, false};
ghost use Rattle.po_unit.specs.Numbering.{entry_count};
ghost use Rattle.po_script.specs.Operations.{is_memory, IsEither};
ghost use Rattle.po_script.specs.Lines.{refused_line};
ghost use Rattle.po_script.specs.Tickets.{Knows, AreCollected};
ghost use Rattle.po_ada_script.specs.Operations.{after_operation};

use crate::replies::{push_count, push_ended, push_reply, push_value_line};
use po_ada_language::{Operation, TextUnit};
use po_ada_names::ObjectNames;
use po_core::{Core, Deadline, Refusal};
use po_script::collection::collect;
use po_script::lines::{
    push_attempt, push_clock, push_final, push_next, push_refused, push_ticket,
};
use po_script::tickets::Tickets;
use po_unit::EntryRef;
use std::alloc::AllocError;

/// Puts the line of a refusal into the empty reply. Running out of memory is an error instead, and has no line.
fn refuse(reply: &mut String, refusal: Refusal) -> Result<(), AllocError>
    requires { string_bytes reply.old ≡ [] }
    ensures line { OnOk result (string_bytes reply.new ≡ refused_line refusal) }
    ensures memory { OnOk result (is_memory refusal ≡ false) }
{
    if refusal == Refusal::OutOfMemory {
        return Err(AllocError);
    }
    push_refused(reply, refusal)
}

/// Adds the lines of the calls that a command ended, if the command's own line was added. Collects those calls in any case.
fn finish<U: TextUnit>(
    core: &mut Core<U>,
    tickets: &mut Tickets,
    names: &ObjectNames,
    answered: Result<(), AllocError>,
    reply: &mut String,
) -> Result<(), AllocError>
    requires { Knows core.old.tickets tickets.old }
    ensures object { core.new.object ≡ core.old.object }
    ensures answered { OnOk result (IsOk answered) }
    ensures knows { Knows core.new.tickets tickets.new }
    ensures collected { AreCollected core.new }
{
    let told = match answered {
        Ok(()) => push_ended::<U>(reply, names, core.ended_now()),
        Err(fault) => Err(fault),
    };
    collect(core, tickets);
    told
}

/// Issues a call, and puts the lines that answer it into the empty reply.
#[tactic(auto, using(crate::proofs::Refused::call_refused_or, crate::proofs::Refused::let_pass))]
fn call<U: TextUnit>(
    core: &mut Core<U>,
    tickets: &mut Tickets,
    names: &ObjectNames,
    entry: EntryRef,
    value: U::Value,
    deadline: Deadline,
    reply: &mut String,
) -> Result<(), AllocError>
    requires empty { string_bytes reply.old ≡ [] }
    requires knows { Knows core.old.tickets tickets.old }
    requires collected { AreCollected core.old }
    ensures object { OnOk result (core.new.object ≡ after_operation U.meaning core.old.object (Operation.Call entry value deadline)) }
    ensures failed { OnErr result (IsEither core.new.object core.old.object (after_operation U.meaning core.old.object (Operation.Call entry value deadline))) }
    ensures knows { Knows core.new.tickets tickets.new }
    ensures collected { AreCollected core.new }
{
    tickets.reserve()?;
    // Only for the prover: all tickets have smaller numbers than the new call, and the number of calls has no limit.
    core.headline();
    core.recall_unbounded();
    match core.issue(entry.declaration, entry, value, deadline) {
        Ok(ticket) => {
            tickets.keep(ticket);
            let answered = push_ticket(reply, ticket.number);
            finish(core, tickets, names, answered, reply)
        }
        Err(refusal) => refuse(reply, refusal),
    }
}

/// Runs a procedure, and puts the lines that answer it into the empty reply.
#[tactic(auto, using(crate::proofs::Refused::refused_or))]
fn procedure<U: TextUnit>(
    core: &mut Core<U>,
    tickets: &mut Tickets,
    names: &ObjectNames,
    op: u16,
    value: U::Value,
    reply: &mut String,
) -> Result<(), AllocError>
    requires empty { string_bytes reply.old ≡ [] }
    requires knows { Knows core.old.tickets tickets.old }
    requires collected { AreCollected core.old }
    ensures object { OnOk result (core.new.object ≡ after_operation U.meaning core.old.object (Operation.Procedure op value)) }
    ensures failed { OnErr result (IsEither core.new.object core.old.object (after_operation U.meaning core.old.object (Operation.Procedure op value))) }
    ensures knows { Knows core.new.tickets tickets.new }
    ensures collected { AreCollected core.new }
{
    match core.procedure(0, op, value) {
        Ok(replied) => {
            let answered = push_reply::<U>(reply, names, op, replied);
            finish(core, tickets, names, answered, reply)
        }
        Err(refusal) => refuse(reply, refusal),
    }
}

/// Calls a function, and puts the line that answers it into the empty reply.
fn function<U: TextUnit>(
    core: &Core<U>,
    names: &ObjectNames,
    op: u16,
    value: U::Value,
    reply: &mut String,
) -> Result<(), AllocError>
    requires { string_bytes reply.old ≡ [] }
    ensures { core.now.object ≡ after_operation U.meaning core.now.object (Operation.Function op value) }
{
    match core.function(op, value) {
        Ok(replied) => push_value_line::<U>(reply, names, op, replied),
        Err(refusal) => refuse(reply, refusal),
    }
}

/// Tries to cancel a call, and puts the lines that answer it into the empty reply.
fn cancel<U: TextUnit>(
    core: &mut Core<U>,
    tickets: &mut Tickets,
    names: &ObjectNames,
    n: u64,
    reply: &mut String,
) -> Result<(), AllocError>
    requires empty { string_bytes reply.old ≡ [] }
    requires knows { Knows core.old.tickets tickets.old }
    requires collected { AreCollected core.old }
    ensures object { OnOk result (core.new.object ≡ after_operation U.meaning core.old.object (Operation.Cancel n)) }
    ensures failed { OnErr result (IsEither core.new.object core.old.object (after_operation U.meaning core.old.object (Operation.Cancel n))) }
    ensures knows { Knows core.new.tickets tickets.new }
    ensures collected { AreCollected core.new }
{
    match core.cancel_number(n) {
        Ok(attempt) => {
            let answered = push_attempt(reply, attempt);
            finish(core, tickets, names, answered, reply)
        }
        Err(refusal) => refuse(reply, refusal),
    }
}

/// Raises the clock, and puts the lines that answer it into the empty reply.
#[tactic(auto, using(crate::proofs::Refused::tick_refused_or, crate::proofs::Refused::let_pass))]
fn tick<U: TextUnit>(
    core: &mut Core<U>,
    tickets: &mut Tickets,
    names: &ObjectNames,
    time: u64,
    reply: &mut String,
) -> Result<(), AllocError>
    requires empty { string_bytes reply.old ≡ [] }
    requires knows { Knows core.old.tickets tickets.old }
    requires collected { AreCollected core.old }
    ensures object { OnOk result (core.new.object ≡ after_operation U.meaning core.old.object (Operation.Tick time)) }
    ensures failed { OnErr result (IsEither core.new.object core.old.object (after_operation U.meaning core.old.object (Operation.Tick time))) }
    ensures knows { Knows core.new.tickets tickets.new }
    ensures collected { AreCollected core.new }
{
    // Only for the prover: such a core never refuses a tick for spent numbers.
    core.recall_unbounded();
    match core.tick(time) {
        Ok(clock) => {
            let answered = push_clock(reply, clock);
            finish(core, tickets, names, answered, reply)
        }
        Err(refusal) => refuse(reply, refusal),
    }
}

/// Finalizes the object, and puts the lines that answer it into the empty reply.
fn finalize<U: TextUnit>(
    core: &mut Core<U>,
    tickets: &mut Tickets,
    names: &ObjectNames,
    reply: &mut String,
) -> Result<(), AllocError>
    requires empty { string_bytes reply.old ≡ [] }
    requires knows { Knows core.old.tickets tickets.old }
    requires collected { AreCollected core.old }
    ensures object { OnOk result (core.new.object ≡ after_operation U.meaning core.old.object Operation.Finalize) }
    ensures failed { OnErr result (IsEither core.new.object core.old.object (after_operation U.meaning core.old.object Operation.Finalize)) }
    ensures knows { Knows core.new.tickets tickets.new }
    ensures collected { AreCollected core.new }
{
    match core.finalize() {
        Ok(()) => {
            let answered = push_final(reply);
            finish(core, tickets, names, answered, reply)
        }
        Err(refusal) => refuse(reply, refusal),
    }
}

/// Adds the line of the entry with this flat number, with the number of calls queued on it.
fn push_entry<U: TextUnit>(
    core: &Core<U>,
    names: &ObjectNames,
    flat: u16,
    reply: &mut String,
) -> Result<(), AllocError>
    requires { flat < entry_count core.now.object.setup.shape }
{
    let reference = core.shape().of_flat(flat);
    let Ok(count) = core.count(reference) else {
        unreachable!()
    };
    push_count(reply, names, reference, count)
}

/// Adds a line for each entry, in the order of their numbers, and those of the clock and of the next call's number.
fn show<U: TextUnit>(
    core: &Core<U>,
    names: &ObjectNames,
    reply: &mut String,
) -> Result<(), AllocError> {
    for flat in 0..core.shape().total() {
        push_entry(core, names, flat, reply)?;
    }
    push_clock(reply, core.clock())?;
    push_next(reply, core.next_number())
}

/// Carries out the operation, and puts the lines that answer it into the empty reply.
pub fn carry_out<U: TextUnit>(
    core: &mut Core<U>,
    tickets: &mut Tickets,
    names: &ObjectNames,
    operation: Operation<U::Value>,
    reply: &mut String,
) -> Result<(), AllocError>
    requires empty { string_bytes reply.old ≡ [] }
    requires knows { Knows core.old.tickets tickets.old }
    requires collected { AreCollected core.old }
    ensures object { OnOk result (core.new.object ≡ after_operation U.meaning core.old.object operation) }
    ensures failed { OnErr result (IsEither core.new.object core.old.object (after_operation U.meaning core.old.object operation)) }
    ensures knows { Knows core.new.tickets tickets.new }
    ensures collected { AreCollected core.new }
{
    match operation {
        Operation::Call {
            entry,
            value,
            deadline,
        } => call(core, tickets, names, entry, value, deadline, reply),
        Operation::Procedure { op, value } => procedure(core, tickets, names, op, value, reply),
        Operation::Function { op, value } => function(core, names, op, value, reply),
        Operation::Cancel(n) => cancel(core, tickets, names, n, reply),
        Operation::Tick(time) => tick(core, tickets, names, time, reply),
        Operation::Finalize => finalize(core, tickets, names, reply),
        Operation::Show => show(core, names, reply),
    }
}
