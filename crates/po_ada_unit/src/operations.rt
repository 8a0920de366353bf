// SPDX-License-Identifier: MIT
//! The operations of a program on the data of an object.

ghost use Rattle.std.specs.Prelude.{◌≡◌, [], slice_get, min};
ghost use Rattle.po_program.specs.Execution.{setting_of, operation_executed};
ghost use Rattle.po_ada_unit.specs.Frames.{frame, no_values};
ghost use Rattle.po_ada_unit.specs.Setup.{setup_end};
ghost use Rattle.po_ada_unit.specs.Object.{barrier_of, body_of, function_of, is_open, numbered, object, outcome_of, procedure_of, reply, requeue_of};

use crate::values::{Values, cells_of, stack_for};
use po_program::{
    Completion, PROGRAM_ERROR, Program, Setting, TOO_MANY_REQUEUES, execute_operation,
};
use po_unit::Outcome;

/// Returns how many entries, procedures or functions a unit has if the program has this many.
pub(crate) fn number(length: usize) -> u16
    ensures { result ≡ numbered length }
{
    if length < 65_535 {
        length as u16
    } else {
        65_535
    }
}

fn no_cells() -> [i128; 8]
    ensures { result ≡ no_values }
{
    [0; 8]
}

/// Executes a barrier.
fn test(setting: &Setting<'_>, operation: u16, index: i128) -> Result<bool, u32>
    ensures { let found = setting_of setting.now.program.now.operations.items setting.now.constant.now setting.now.counts.now in
        result ≡ is_open (operation_executed found operation [] (frame no_values index)) }
{
    let values = no_cells();
    let mut stack = stack_for(&values, index);
    match execute_operation(setting, operation, &mut [], &mut stack) {
        Completion::Normal => Ok(stack[0] != 0),
        Completion::Raised(exception) => Err(exception),
        _ => Err(PROGRAM_ERROR),
    }
}

/// Executes the operation that gives the data their initial values.
pub(crate) fn set_up(program: &Program, cells: &mut [i128]) -> Completion
    ensures completion { result ≡ (setup_end program.now cells.old).0 }
    ensures cells { cells.new ≡ (setup_end program.now cells.old).1 }
{
    let setting = Setting {
        program,
        constant: &[],
        counts: &[],
    };
    let mut stack = stack_for(&no_cells(), 0);
    execute_operation(&setting, program.setup, cells, &mut stack)
}

/// Returns whether an entry is open.
pub(crate) fn barrier(
    program: &Program,
    cells: &[i128],
    e: u16,
    counts: &[u64],
) -> Result<bool, u32>
    ensures { result ≡ barrier_of (slice_get program.now.entries.items e) (object program.now cells.now) counts.now }
{
    let Some(entry) = program.entries.get(usize::from(e)) else {
        return Err(PROGRAM_ERROR);
    };
    let setting = Setting {
        program,
        constant: cells,
        counts,
    };
    test(&setting, entry.barrier, entry.index)
}

/// Returns how a requeue ends a body.
fn requeue(
    entries: u16,
    cells: [i128; 8],
    requeues: u8,
    target: u16,
    with_abort: bool,
) -> Outcome<Values>
    ensures { result ≡ requeue_of entries cells requeues target with_abort }
{
    if requeues == 0 {
        return Outcome::Raise(TOO_MANY_REQUEUES);
    }
    if target < entries {
        let value = Values {
            cells,
            requeues: requeues - 1,
        };
        Outcome::Requeue {
            target,
            with_abort,
            value,
        }
    } else {
        Outcome::Raise(PROGRAM_ERROR)
    }
}

/// Returns how a body ends.
fn outcome(entries: u16, cells: [i128; 8], requeues: u8, completion: Completion) -> Outcome<Values>
    ensures { result ≡ outcome_of entries requeues cells completion }
{
    match completion {
        Completion::Normal => Outcome::Complete(Values { cells, requeues }),
        Completion::Exited(_) | Completion::Returned => Outcome::Raise(PROGRAM_ERROR),
        Completion::Raised(exception) => Outcome::Raise(exception),
        Completion::Requeued(target, with_abort) => requeue(
            entries, cells, requeues, target, with_abort,
        ),
    }
}

/// Executes the body of an entry.
pub(crate) fn body(
    program: &Program,
    cells: &mut [i128],
    e: u16,
    v: Values,
    counts: &[u64],
) -> Outcome<Values>
    ensures { (object program.now cells.new, result) ≡ body_of (slice_get program.now.entries.items e) (object program.now cells.old) v counts.now }
{
    let Some(entry) = program.entries.get(usize::from(e)) else {
        return Outcome::Raise(PROGRAM_ERROR);
    };
    let setting = Setting {
        program,
        constant: &[],
        counts,
    };
    let mut stack = stack_for(&v.cells, entry.index);
    let completion = execute_operation(&setting, entry.body, cells, &mut stack);
    outcome(
        number(program.entries.len()),
        cells_of(&stack),
        v.requeues,
        completion,
    )
}

fn replied(cells: [i128; 8], requeues: u8, completion: Completion) -> Result<Values, u32>
    ensures { result ≡ reply completion cells requeues }
{
    match completion {
        Completion::Normal => Ok(Values { cells, requeues }),
        Completion::Raised(exception) => Err(exception),
        _ => Err(PROGRAM_ERROR),
    }
}

/// Executes a procedure.
pub(crate) fn procedure(
    program: &Program,
    cells: &mut [i128],
    op: u16,
    v: Values,
    counts: &[u64],
) -> Result<Values, u32>
    ensures { (object program.now cells.new, result) ≡ procedure_of (slice_get program.now.procedures.items op) (object program.now cells.old) v counts.now }
{
    let Some(operation) = program.procedures.get(usize::from(op)) else {
        return Err(PROGRAM_ERROR);
    };
    let setting = Setting {
        program,
        constant: &[],
        counts,
    };
    let mut stack = stack_for(&v.cells, 0);
    let completion = execute_operation(&setting, *operation, cells, &mut stack);
    replied(cells_of(&stack), v.requeues, completion)
}

/// Executes a function.
pub(crate) fn function(
    program: &Program,
    cells: &[i128],
    op: u16,
    v: Values,
    counts: &[u64],
) -> Result<Values, u32>
    ensures { result ≡ function_of (slice_get program.now.functions.items op) (object program.now cells.now) v counts.now }
{
    let Some(operation) = program.functions.get(usize::from(op)) else {
        return Err(PROGRAM_ERROR);
    };
    let setting = Setting {
        program,
        constant: cells,
        counts,
    };
    let mut stack = stack_for(&v.cells, 0);
    let completion = execute_operation(&setting, *operation, &mut [], &mut stack);
    replied(cells_of(&stack), v.requeues, completion)
}
