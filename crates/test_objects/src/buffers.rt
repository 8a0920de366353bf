// SPDX-License-Identifier: MIT
//! Objects over a buffer, from their opening to their closing.

ghost use Rattle.po_classic_units.specs.Sizes.{IsSize};

use crate::asks::{GET, same};
use crate::scenes::Scene;
use crate::shelf::{NOT_FRESH, perform, show};
use po_classic_units::{Buffer, ScriptUnit};
use po_core::{Core, Deadline, Order};
use std::process::Abort;
use std::sync::Wait;
use std::test::Fail;

/// Makes a core of an empty buffer.
pub fn empty_buffer<R: AllocGlobal>(rt: &R, capacity: u16) -> Result<Core<Buffer>, Fail>
    requires { IsSize capacity }
{
    let unit = Buffer::new(rt.alloc(), capacity)?;
    let shape = unit.shape(rt.alloc())?;
    let core = Core::new(rt.alloc(), unit, shape, Order::Textual, 1)?;
    Ok(core)
}

/// Plays the scene with a new buffer, and checks what is left.
fn on_buffer<R: Abort + Wait + AllocGlobal>(
    rt: &R,
    capacity: u16,
    seats: u16,
    scene: Scene,
) -> Result<(), Fail>
    requires { IsSize capacity }
{
    show(rt, empty_buffer(rt, capacity)?, seats, scene)
}

#[test]
fn one_call(rt: HostRuntime) -> Result<(), Fail> {
    on_buffer(&rt, 2, 1, Scene::OneCall)
}

#[test]
fn each_kind_of_call(rt: HostRuntime) -> Result<(), Fail> {
    on_buffer(&rt, 1, 1, Scene::EachKind)
}

#[test]
fn no_call_to_cancel(rt: HostRuntime) -> Result<(), Fail> {
    on_buffer(&rt, 1, 1, Scene::NoneWaits)
}

#[test]
fn a_missing_pass(rt: HostRuntime) -> Result<(), Fail> {
    on_buffer(&rt, 1, 2, Scene::Idle)
}

#[test]
fn no_seats(rt: HostRuntime) -> Result<(), Fail> {
    on_buffer(&rt, 1, 0, Scene::Idle)
}

#[test]
fn all_seats(rt: HostRuntime) -> Result<(), Fail> {
    on_buffer(&rt, 1, u16::MAX, Scene::Idle)
}

/// Makes a core of a buffer on which a call waits.
fn used_core<R: AllocGlobal>(rt: &R) -> Result<Core<Buffer>, Fail> {
    let mut core = empty_buffer(rt, 1)?;
    core.issue(0, GET, 0, Deadline::Never)?;
    Ok(core)
}

/// No object can be opened over a core on which a call already waits.
#[test]
fn a_used_core(rt: HostRuntime) -> Result<(), Fail> {
    let core = used_core(&rt)?;
    same(
        &rt,
        perform(&rt, core, 1, Scene::Idle).err(),
        Some(NOT_FRESH),
    );
    Ok(())
}
