// SPDX-License-Identifier: MIT
//! The execution of statements and operations. It takes no memory, and ends.

ghost use Rattle.std.specs.Prelude.{◌≡◌, ℕ, suc, ◌+◌, pos};
ghost use Rattle.po_program.specs.Values.{value_of};
ghost use Rattle.po_program.specs.Execution.{assigned, assigned_at, called, data_of, exception, executed, executed_within, exited, finished, memory, operation_executed, requeued, setting_of, set_cell, set_component, then_executed, turns, with_number};

use crate::exceptions::{PROGRAM_ERROR, STORAGE_ERROR, TOO_MANY_TURNS};
use crate::tree::{Area, Completion, Expr, Program, Stmt};
use crate::values::value;

/// How many slots all frames have together.
pub const MOST_SLOTS: u16 = 256;

/// How deep calls may be nested, the call from outside counted.
pub const MOST_CALLS: u8 = 16;

/// How many turns the loops of an operation may make together.
pub const MOST_TURNS: u32 = 1_000_000;

/// What the operations of a protected action find.
#[derive(Clone, Copy)]
pub struct Setting<'a> {
    pub program: &'a Program,
    /// The object's data, if they can't change; else nothing.
    pub constant: &'a [i128],
    /// For each entry, how many calls are queued on it (9.9).
    pub counts: &'a [u64],
}

fn set(cells: &mut [i128], i: usize, n: i128) -> Completion
    ensures { (result, cells.new) ≡ set_cell cells.old i n }
{
    if i < cells.len() {
        cells[i] = n;
        Completion::Normal
    } else {
        Completion::Raised(PROGRAM_ERROR)
    }
}

fn set_at(cells: &mut [i128], first: u32, distance: i128, n: i128) -> Completion
    ensures { (result, cells.new) ≡ set_component cells.old first distance n }
{
    if distance < 0 || distance > 4_294_967_295 {
        return Completion::Raised(PROGRAM_ERROR);
    }
    set(cells, first as usize + distance as usize, n)
}

fn assign(
    area: Area,
    object: &mut [i128],
    stack: &mut [i128],
    base: u16,
    i: u16,
    n: i128,
) -> Completion
    ensures { (left : ℕ) → (result, memory object.new stack.new left) ≡ assigned area base i n (memory object.old stack.old left) }
{
    match area {
        Area::Object => set(object, usize::from(i), n),
        Area::Frame => set(stack, usize::from(base) + usize::from(i), n),
    }
}

fn assign_at(
    area: Area,
    object: &mut [i128],
    stack: &mut [i128],
    base: u16,
    i: u16,
    distance: i128,
    n: i128,
) -> Completion
    ensures { (left : ℕ) → (result, memory object.new stack.new left) ≡ assigned_at area base i distance n (memory object.old stack.old left) }
{
    match area {
        Area::Object => set_at(object, u32::from(i), distance, n),
        Area::Frame => set_at(stack, u32::from(base) + u32::from(i), distance, n),
    }
}

/// Returns the value of an expression, for which constant data are the object's.
fn evaluate(
    setting: &Setting<'_>,
    e: &Expr,
    object: &[i128],
    stack: &[i128],
    base: u16,
) -> Result<i128, u32>
    ensures { result ≡ value_of e.now (data_of setting.now.constant.now object.now) stack.now base setting.now.counts.now }
{
    if setting.constant.is_empty() {
        value(e, object, stack, base, setting.counts)
    } else {
        value(e, setting.constant, stack, base, setting.counts)
    }
}

/// Evaluates how far a component is from an array's first cell, and gives it the value.
fn assign_component(
    setting: &Setting<'_>,
    area: Area,
    i: u16,
    place: &Expr,
    n: i128,
    object: &mut [i128],
    stack: &mut [i128],
    base: u16,
) -> Completion
    ensures { (left : ℕ) → (result, memory object.new stack.new left)
        ≡ with_number (value_of place.now (data_of setting.now.constant.now object.old) stack.old base setting.now.counts.now) (memory object.old stack.old left)
        (λ z. assigned_at area base i z n (memory object.old stack.old left)) }
{
    match evaluate(setting, place, object, stack, base) {
        Ok(distance) => assign_at(area, object, stack, base, i, distance, n),
        Err(exception) => Completion::Raised(exception),
    }
}

/// Returns how a loop completes that is left together with this many loops around it.
fn leave(loops: u16) -> Completion
    ensures { result ≡ exited loops }
{
    if loops == 0 {
        Completion::Normal
    } else {
        Completion::Exited(loops - 1)
    }
}

fn raise(n: i128) -> Completion
    ensures { result ≡ Completion.Raised (exception n) }
{
    if n < 0 || n > 4_294_967_295 {
        return Completion::Raised(PROGRAM_ERROR);
    }
    Completion::Raised(n as u32)
}

fn requeue(first: u16, distance: i128, with_abort: bool) -> Completion
    ensures { result ≡ requeued first distance with_abort }
{
    if distance < 0 || distance > 4_294_967_295 {
        return Completion::Raised(PROGRAM_ERROR);
    }
    let target = u64::from(first) + distance as u64;
    if target < 65_536 {
        Completion::Requeued(target as u16, with_abort)
    } else {
        Completion::Raised(PROGRAM_ERROR)
    }
}

fn finish(completion: Completion) -> Completion
    ensures { result ≡ finished completion }
{
    match completion {
        Completion::Exited(_) => Completion::Raised(PROGRAM_ERROR),
        Completion::Returned => Completion::Normal,
        completion => completion,
    }
}

/// Executes a statement.
#[cycle(executing)]
fn execute(
    setting: &Setting<'_>,
    s: &Stmt,
    object: &mut [i128],
    stack: &mut [i128],
    left: &mut u32,
    base: u16,
    depth: u8,
) -> Completion
    ensures { let found = setting_of setting.now.program.now.operations.items setting.now.constant.now setting.now.counts.now in
        (result, memory object.new stack.new left.new) ≡ executed s.now found (called depth found) base (memory object.old stack.old left.old) }
{
    match s {
        Stmt::Null => Completion::Normal,
        Stmt::Assign(area, i, e) => match evaluate(setting, e, object, stack, base) {
            Ok(n) => assign(*area, object, stack, base, *i, n),
            Err(exception) => Completion::Raised(exception),
        },
        Stmt::AssignAt(area, i, place, e) => match evaluate(setting, e, object, stack, base) {
            Ok(n) => assign_component(setting, *area, *i, place, n, object, stack, base),
            Err(exception) => Completion::Raised(exception),
        },
        Stmt::Then(first, second) => match execute(
            setting, first, object, stack, left, base, depth,
        ) {
            Completion::Normal => execute(setting, second, object, stack, left, base, depth),
            completion => completion,
        },
        Stmt::If(condition, yes, no) => match evaluate(setting, condition, object, stack, base) {
            Ok(0) => execute(setting, no, object, stack, left, base, depth),
            Ok(_) => execute(setting, yes, object, stack, left, base, depth),
            Err(exception) => Completion::Raised(exception),
        },
        Stmt::Loop(body) => repeat(setting, body, object, stack, left, base, depth),
        Stmt::Exit(loops) => Completion::Exited(*loops),
        Stmt::Return => Completion::Returned,
        Stmt::Raise(e) => match evaluate(setting, e, object, stack, base) {
            Ok(n) => raise(n),
            Err(exception) => Completion::Raised(exception),
        },
        Stmt::Requeue(first, place, with_abort) => match evaluate(
            setting, place, object, stack, base,
        ) {
            Ok(distance) => requeue(*first, distance, *with_abort),
            Err(exception) => Completion::Raised(exception),
        },
        Stmt::Call(operation, first) => call(
            setting,
            *operation,
            u32::from(base) + u32::from(*first),
            object,
            stack,
            left,
            depth,
        ),
        Stmt::Handle(body, i, handlers) => match execute(
            setting, body, object, stack, left, base, depth,
        ) {
            Completion::Raised(exception) => handle(
                setting, exception, *i, handlers, object, stack, left, base, depth,
            ),
            completion => completion,
        },
    }
}

/// Executes the handlers for the exception of this number, which the slot gets.
#[cycle(executing)]
fn handle(
    setting: &Setting<'_>,
    number: u32,
    i: u16,
    handlers: &Stmt,
    object: &mut [i128],
    stack: &mut [i128],
    left: &mut u32,
    base: u16,
    depth: u8,
) -> Completion
    ensures { let found = setting_of setting.now.program.now.operations.items setting.now.constant.now setting.now.counts.now in
        (result, memory object.new stack.new left.new)
        ≡ then_executed (assigned Area.Frame base i (pos number) (memory object.old stack.old left.old)) (executed handlers.now found (called depth found) base) }
{
    match assign(Area::Frame, object, stack, base, i, i128::from(number)) {
        Completion::Normal => execute(setting, handlers, object, stack, left, base, depth),
        completion => completion,
    }
}

/// Executes the turns of a loop.
#[cycle(executing)]
fn repeat(
    setting: &Setting<'_>,
    body: &Stmt,
    object: &mut [i128],
    stack: &mut [i128],
    left: &mut u32,
    base: u16,
    depth: u8,
) -> Completion
    ensures { let found = setting_of setting.now.program.now.operations.items setting.now.constant.now setting.now.counts.now in
        (result, memory object.new stack.new left.new)
        ≡ turns (suc left.old) (executed body.now found (called depth found) base) (memory object.old stack.old left.old) }
{
    let most = u64::from(*left) + 1;
    for _ in 0..most {
        if *left == 0 {
            return Completion::Raised(TOO_MANY_TURNS);
        }
        *left -= 1;
        match execute(setting, body, object, stack, left, base, depth) {
            Completion::Normal => {}
            Completion::Exited(loops) => return leave(loops),
            completion => return completion,
        }
    }
    Completion::Raised(TOO_MANY_TURNS)
}

/// Executes an operation whose frame begins with this slot.
#[cycle(executing)]
fn call(
    setting: &Setting<'_>,
    operation: u16,
    base: u32,
    object: &mut [i128],
    stack: &mut [i128],
    left: &mut u32,
    depth: u8,
) -> Completion
    ensures { let found = setting_of setting.now.program.now.operations.items setting.now.constant.now setting.now.counts.now in
        (result, memory object.new stack.new left.new) ≡ called depth found operation base (memory object.old stack.old left.old) }
{
    if depth == 0 {
        return Completion::Raised(STORAGE_ERROR);
    }
    let Some(operation) = setting.program.operations.get(usize::from(operation)) else {
        return Completion::Raised(PROGRAM_ERROR);
    };
    if u64::from(base) + u64::from(operation.slots) > u64::from(MOST_SLOTS) {
        return Completion::Raised(STORAGE_ERROR);
    }
    finish(execute(
        setting,
        &operation.body,
        object,
        stack,
        left,
        base as u16,
        depth - 1,
    ))
}

/// Executes an operation whose frame begins with the first slot, within these limits.
fn execute_within(
    setting: &Setting<'_>,
    operation: u16,
    object: &mut [i128],
    stack: &mut [i128],
    turns: u32,
    calls: u8,
) -> Completion
    ensures { let found = setting_of setting.now.program.now.operations.items setting.now.constant.now setting.now.counts.now in
        (result, object.new, stack.new) ≡ executed_within calls turns found operation object.old stack.old }
{
    let mut left = turns;
    call(setting, operation, 0, object, stack, &mut left, calls)
}

/// Executes an operation of the object: one that a call from outside names, or an entry's barrier or body. The first slots have
/// the values of its parameters before and after.
///
/// A requeue is told by `Requeued`; any other end that isn't an exception is `Normal`.
pub fn execute_operation(
    setting: &Setting<'_>,
    operation: u16,
    object: &mut [i128],
    stack: &mut [i128],
) -> Completion
    ensures { let found = setting_of setting.now.program.now.operations.items setting.now.constant.now setting.now.counts.now in
        (result, object.new, stack.new) ≡ operation_executed found operation object.old stack.old }
{
    execute_within(setting, operation, object, stack, MOST_TURNS, MOST_CALLS)
}
