// SPDX-License-Identifier: MIT
//! The evaluation of expressions. It takes no memory. An error is the number of the exception that is raised.

ghost use Rattle.std.specs.Prelude.{◌≡◌};
ghost use Rattle.po_program.specs.Values.{cell, cells_before, component, component_of, counted, counted_at, distance, is_in, value_of, variable};

use crate::exceptions::PROGRAM_ERROR;
use crate::operators::{binary_of, check, truth_of, unary_of};
use crate::tree::{Area, Expr, Range};

fn read(cells: &[i128], i: usize) -> Result<i128, u32>
    ensures { result ≡ cell cells.now i }
{
    match cells.get(i) {
        Some(n) => Ok(*n),
        None => Err(PROGRAM_ERROR),
    }
}

fn read_at(cells: &[i128], first: u32, distance: i128) -> Result<i128, u32>
    ensures { result ≡ component cells.now first distance }
{
    if distance < 0 || distance > 4_294_967_295 {
        return Err(PROGRAM_ERROR);
    }
    read(cells, first as usize + distance as usize)
}

fn read_variable(
    area: Area,
    object: &[i128],
    stack: &[i128],
    base: u16,
    i: u16,
) -> Result<i128, u32>
    ensures { result ≡ variable area object.now stack.now base i }
{
    match area {
        Area::Object => read(object, usize::from(i)),
        Area::Frame => read(stack, usize::from(base) + usize::from(i)),
    }
}

fn read_component(
    area: Area,
    object: &[i128],
    stack: &[i128],
    base: u16,
    i: u16,
    distance: i128,
) -> Result<i128, u32>
    ensures { result ≡ component_of area object.now stack.now base i distance }
{
    match area {
        Area::Object => read_at(object, u32::from(i), distance),
        Area::Frame => read_at(stack, u32::from(base) + u32::from(i), distance),
    }
}

fn count(counts: &[u64], e: usize) -> Result<i128, u32>
    ensures { result ≡ counted counts.now e }
{
    match counts.get(e) {
        Some(n) => Ok(i128::from(*n)),
        None => Err(PROGRAM_ERROR),
    }
}

fn count_at(counts: &[u64], first: u16, distance: i128) -> Result<i128, u32>
    ensures { result ≡ counted_at counts.now first distance }
{
    if distance < 0 || distance > 4_294_967_295 {
        return Err(PROGRAM_ERROR);
    }
    count(counts, usize::from(first) + distance as usize)
}

/// Returns how many cells are before a component, if this many components are before it.
fn cells_before_component(width: u16, components: u128) -> Result<i128, u32>
    ensures { result ≡ cells_before width components }
{
    if components < 4_294_967_296 {
        Ok(i128::from(components as u64 * u64::from(width)))
    } else {
        Err(PROGRAM_ERROR)
    }
}

fn distance_of(range: Range, width: u16, index: i128) -> Result<i128, u32>
    ensures { result ≡ distance range width index }
{
    let index = check(range, index)?;
    cells_before_component(width, index.abs_diff(range.low))
}

fn contains(range: Range, n: i128) -> bool
    ensures { result ≡ is_in range n }
{
    range.low <= n && n <= range.high
}

/// Returns the value of an expression, or the number of the exception that it raises.
pub(crate) fn value(
    e: &Expr,
    object: &[i128],
    stack: &[i128],
    base: u16,
    counts: &[u64],
) -> Result<i128, u32>
    ensures { result ≡ value_of e.now object.now stack.now base counts.now }
{
    match e {
        Expr::Number(n) => Ok(*n),
        Expr::Cell(area, i) => read_variable(*area, object, stack, base, *i),
        Expr::CellAt(area, i, e) => {
            let distance = value(e, object, stack, base, counts)?;
            read_component(*area, object, stack, base, *i, distance)
        }
        Expr::Index(range, width, e) => {
            let index = value(e, object, stack, base, counts)?;
            distance_of(*range, *width, index)
        }
        Expr::Count(e) => count(counts, usize::from(*e)),
        Expr::CountAt(first, e) => {
            let distance = value(e, object, stack, base, counts)?;
            count_at(counts, *first, distance)
        }
        Expr::Unary(operator, a) => {
            let a = value(a, object, stack, base, counts)?;
            unary_of(*operator, a)
        }
        Expr::Binary(operator, a, b) => {
            let a = value(a, object, stack, base, counts)?;
            let b = value(b, object, stack, base, counts)?;
            binary_of(*operator, a, b)
        }
        Expr::AndThen(a, b) => {
            let a = value(a, object, stack, base, counts)?;
            if a == 0 {
                return Ok(0);
            }
            value(b, object, stack, base, counts)
        }
        Expr::OrElse(a, b) => {
            let a = value(a, object, stack, base, counts)?;
            if a == 0 {
                return value(b, object, stack, base, counts);
            }
            Ok(1)
        }
        Expr::If(condition, yes, no) => {
            let condition = value(condition, object, stack, base, counts)?;
            if condition == 0 {
                return value(no, object, stack, base, counts);
            }
            value(yes, object, stack, base, counts)
        }
        Expr::In(range, a) => {
            let a = value(a, object, stack, base, counts)?;
            Ok(truth_of(contains(*range, a)))
        }
        Expr::Check(range, a) => {
            let a = value(a, object, stack, base, counts)?;
            check(*range, a)
        }
        Expr::Raise(exception) => Err(*exception),
    }
}
