// SPDX-License-Identifier: MIT
//! Units of programs that are built by hand.

ghost use Rattle.std.specs.Prelude.{◌≡◌, ◌<◌, length, IsTrue};
ghost use Rattle.po_ada_unit.specs.Object.{ada_meaning};

use super::*;
use po_program::{
    Area, Base, Binary, Entry, Expr, Operation, Program, Range, STORAGE_ERROR, Stmt,
    TOO_MANY_REQUEUES, TOO_MANY_TURNS,
};
use po_unit::{Outcome, Unit};
use std::alloc::{AllocError, Global};
use std::sync::Arc;
use std::test::Fail;

const LONG: Base = Base::Signed(Range {
    low: -9_223_372_036_854_775_808,
    high: 9_223_372_036_854_775_807,
});

/// The numbers of Constraint_Error with any message.
const CONSTRAINT_ERRORS: Range = Range {
    low: 16_777_216,
    high: 33_554_431,
};

fn binary(alloc: Global, operator: Binary, a: Expr, b: Expr) -> Result<Expr, AllocError> {
    Ok(Expr::Binary(operator, Box::new(alloc, a)?, Box::new(alloc, b)?))
}

fn choose(alloc: Global, condition: Expr, yes: Stmt, no: Stmt) -> Result<Stmt, AllocError> {
    Ok(Stmt::If(condition, Box::new(alloc, yes)?, Box::new(alloc, no)?))
}

fn then(alloc: Global, a: Stmt, b: Stmt) -> Result<Stmt, AllocError> {
    Ok(Stmt::Then(Box::new(alloc, a)?, Box::new(alloc, b)?))
}

fn slot(i: u16) -> Expr {
    Expr::Cell(Area::Frame, i)
}

fn data(i: u16) -> Expr {
    Expr::Cell(Area::Object, i)
}

fn add_operation(program: &mut Program, slots: u16, body: Stmt) -> Result<(), AllocError> {
    program.operations.push(Operation { slots, body })?;
    Ok(())
}

/// A program whose data are this many cells, and whose first operation does nothing and gives them no other values.
fn program_of(alloc: Global, cells: u16) -> Result<Program, AllocError> {
    let mut program = Program {
        cells,
        operations: Vec::new(alloc),
        setup: 0,
        entries: Vec::new(alloc),
        procedures: Vec::new(alloc),
        functions: Vec::new(alloc),
    };
    add_operation(&mut program, 9, Stmt::Null)?;
    Ok(program)
}

fn values(first: i128, second: i128) -> Values {
    Values::new([first, second, 0, 0, 0, 0, 0, 0])
}

/// A function that calls itself for its argument less one, and multiplies.
fn factorial(alloc: Global) -> Result<Program, AllocError> {
    let mut program = program_of(alloc, 0)?;
    let less = Stmt::Assign(
        Area::Frame,
        8,
        binary(alloc, Binary::Subtract(LONG), slot(0), Expr::Number(1))?,
    );
    let product = Stmt::Assign(
        Area::Frame,
        0,
        binary(alloc, Binary::Multiply(LONG), slot(0), slot(8))?,
    );
    let call = then(alloc, Stmt::Call(1, 8), product)?;
    let inner = then(alloc, less, call)?;
    let is_last = binary(alloc, Binary::AtMost, slot(0), Expr::Number(1))?;
    let body = choose(
        alloc,
        is_last,
        Stmt::Assign(Area::Frame, 0, Expr::Number(1)),
        inner,
    )?;
    add_operation(&mut program, 9, body)?;
    program.functions.push(1)?;
    Ok(program)
}

/// A procedure that divides its first argument by its second, or gives -1 if that raises Constraint_Error; and one that loops.
fn quotient(alloc: Global) -> Result<Program, AllocError> {
    let mut program = program_of(alloc, 0)?;
    let divide = Stmt::Assign(
        Area::Frame,
        0,
        binary(alloc, Binary::Divide(LONG), slot(0), slot(1))?,
    );
    let serves = Expr::In(CONSTRAINT_ERRORS, Box::new(alloc, slot(8))?);
    let handler = choose(
        alloc,
        serves,
        Stmt::Assign(Area::Frame, 0, Expr::Number(-1)),
        Stmt::Raise(slot(8)),
    )?;
    let body = Stmt::Handle(Box::new(alloc, divide)?, 8, Box::new(alloc, handler)?);
    add_operation(&mut program, 9, body)?;
    add_operation(&mut program, 9, Stmt::Loop(Box::new(alloc, Stmt::Null)?))?;
    program.procedures.push(1)?;
    program.procedures.push(2)?;
    Ok(program)
}

/// A bounded buffer of two values: the cells 0 and 1, then the first one's place, and how many there are.
fn buffer(alloc: Global) -> Result<Program, AllocError> {
    let mut program = program_of(alloc, 4)?;
    let two = Expr::Number(2);
    let has_room = Stmt::Assign(Area::Frame, 0, binary(alloc, Binary::Less, data(3), two)?);
    add_operation(&mut program, 9, has_room)?;
    let sum = binary(alloc, Binary::Add(LONG), data(2), data(3))?;
    let place = binary(alloc, Binary::Mod(LONG), sum, Expr::Number(2))?;
    let more = Stmt::Assign(
        Area::Object,
        3,
        binary(alloc, Binary::Add(LONG), data(3), Expr::Number(1))?,
    );
    let put = then(alloc, Stmt::AssignAt(Area::Object, 0, place, slot(0)), more)?;
    add_operation(&mut program, 9, put)?;
    program.entries.push(Entry {
        barrier: 1,
        body: 2,
        index: 0,
    })?;
    Ok(program)
}

/// An entry whose body requeues its call to this entry.
fn requeue_to(alloc: Global, target: u16) -> Result<Program, AllocError> {
    let mut program = program_of(alloc, 0)?;
    add_operation(
        &mut program,
        9,
        Stmt::Requeue(target, Expr::Number(0), true),
    )?;
    program.entries.push(Entry {
        barrier: 0,
        body: 1,
        index: 0,
    })?;
    Ok(program)
}

/// Whether the counts are of all entries, and there is this one.
fn is_entry(unit: &AdaUnit, e: u16, counts: &[u64]) -> bool
    ensures { IsTrue result → (e < ada_meaning.entries unit.now) × (length counts.now ≡ ada_meaning.entries unit.now) }
{
    e < unit.entries() && counts.len() == usize::from(unit.entries())
}

fn barrier(unit: &AdaUnit, counts: &[u64]) -> Option<Result<bool, u32>> {
    if is_entry(unit, 0, counts) {
        Some(unit.barrier(0, counts))
    } else {
        None
    }
}

fn body(unit: &mut AdaUnit, v: Values, counts: &[u64]) -> Option<Outcome<Values>> {
    if is_entry(unit, 0, counts) {
        Some(unit.body(0, v, counts))
    } else {
        None
    }
}

fn procedure(unit: &mut AdaUnit, op: u16, v: Values) -> Option<Result<Values, u32>> {
    if op < unit.procedures() && unit.entries() == 0 {
        Some(unit.procedure(op, v, &[]))
    } else {
        None
    }
}

fn function(unit: &AdaUnit, v: Values) -> Option<Result<Values, u32>> {
    if 0 < unit.functions() && unit.entries() == 0 {
        Some(unit.function(0, v, &[]))
    } else {
        None
    }
}

#[test]
fn functions_recur(rt: HostRuntime) -> Result<(), Fail> {
    let unit = AdaUnit::new(rt.alloc(), Arc::new(rt.alloc(), factorial(rt.alloc())?)?)?;
    assert_eq!(rt; function(&unit, values(5, 0)), Some(Ok(values(120, 0))));
    assert_eq!(rt;
        function(&unit, values(16, 0)),
        Some(Ok(values(20_922_789_888_000, 0)))
    );
    assert_eq!(rt; function(&unit, values(17, 0)), Some(Err(STORAGE_ERROR)));
    Ok(())
}

#[test]
fn exceptions_are_handled(rt: HostRuntime) -> Result<(), Fail> {
    let mut unit = AdaUnit::new(rt.alloc(), Arc::new(rt.alloc(), quotient(rt.alloc())?)?)?;
    assert_eq!(rt;
        procedure(&mut unit, 0, values(-7, 2)),
        Some(Ok(values(-3, 2)))
    );
    assert_eq!(rt;
        procedure(&mut unit, 0, values(-7, 0)),
        Some(Ok(values(-1, 0)))
    );
    assert_eq!(rt;
        procedure(&mut unit, 1, values(0, 0)),
        Some(Err(TOO_MANY_TURNS))
    );
    Ok(())
}

#[test]
fn buffers_fill(rt: HostRuntime) -> Result<(), Fail> {
    let mut unit = AdaUnit::new(rt.alloc(), Arc::new(rt.alloc(), buffer(rt.alloc())?)?)?;
    assert_eq!(rt; barrier(&unit, &[0]), Some(Ok(true)));
    assert_eq!(rt;
        body(&mut unit, values(7, 0), &[0]),
        Some(Outcome::Complete(values(7, 0)))
    );
    assert_eq!(rt;
        body(&mut unit, values(8, 0), &[0]),
        Some(Outcome::Complete(values(8, 0)))
    );
    assert_eq!(rt; barrier(&unit, &[0]), Some(Ok(false)));
    assert_eq!(rt; unit.cells(), [7, 8, 0, 2].as_slice());
    Ok(())
}

#[test]
fn requeues_run_out(rt: HostRuntime) -> Result<(), Fail> {
    let mut unit = AdaUnit::new(
        rt.alloc(),
        Arc::new(rt.alloc(), requeue_to(rt.alloc(), 0)?)?,
    )?;
    let mut last = values(3, 0);
    last.requeues = 1;
    let mut none = last;
    none.requeues = 0;
    let requeued = Outcome::Requeue {
        target: 0,
        with_abort: true,
        value: none,
    };
    assert_eq!(rt; body(&mut unit, last, &[0]), Some(requeued));
    assert_eq!(rt;
        body(&mut unit, none, &[0]),
        Some(Outcome::Raise(TOO_MANY_REQUEUES))
    );
    Ok(())
}
