// SPDX-License-Identifier: MIT
//! The laws of the units, for cores that have carried out commands.

ghost use Rattle.std.specs.Prelude.{[], OnOk};
ghost use Rattle.po_classic_units.specs.Buffer.{buffer_meaning};
ghost use Rattle.po_core.specs.Cutting.{AreVolumes, KeepsVolumes};

use po_classic_units::{Allocator, Buffer, Meeting, Pulse, ScriptUnit};
use po_core::{Core, Deadline, End, Order};
use po_laws::{allocator_law, buffer_law, meeting_law, pulse_law};
use po_unit::{EntryRef, Unit};
use std::test::Fail;

/// Calls the entries with these values.
fn issue_all<U: Unit<Value = u64>>(core: &mut Core<U>, calls: &[(u16, u64)]) -> Result<(), Fail>
    ensures { OnOk result (KeepsVolumes U.meaning core.old.object core.new.object) }
{
    for (entry, value) in calls {
        let reference = EntryRef {
            declaration: *entry,
            index: None,
        };
        let _ticket = core.issue(0, reference, *value, Deadline::Never)?;
    }
    Ok(())
}

/// Calls the entries of a core whose history was never cut.
fn fill<U: Unit<Value = u64>>(core: &mut Core<U>, calls: &[(u16, u64)]) -> Result<(), Fail>
    requires { AreVolumes U.meaning core.old.object [] }
    ensures { OnOk result (AreVolumes U.meaning core.new.object []) }
{
    issue_all(core, calls)?;
    Ok(())
}

#[test]
fn the_law_of_the_buffer(rt: HostRuntime) -> Result<(), Fail> {
    let unit = Buffer::new(rt.alloc(), 1)?;
    let shape = unit.shape(rt.alloc());
    let mut core = Core::new(rt.alloc(), unit, shape?, Order::Oldest, 1)?;
    fill(&mut core, &[(0, 7), (0, 8), (1, 0), (1, 0)])?;
    assert_eq!(rt; core.outcome(3), Some(End::Completed(7)));
    assert_eq!(rt; core.outcome(4), Some(End::Completed(8)));
    assert!(rt; core.opening().is_new());
    if core.opening().is_new() {
        buffer_law(&core, &[]);
    }
    Ok(())
}

#[test]
fn the_law_of_the_allocator(rt: HostRuntime) -> Result<(), Fail> {
    let unit = Allocator::new(3);
    let shape = unit.shape(rt.alloc());
    let mut core = Core::new(rt.alloc(), unit, shape?, Order::Oldest, 1)?;
    fill(&mut core, &[(0, 2), (1, 2), (0, 1), (0, 4)])?;
    assert_eq!(rt; core.outcome(2), None);
    assert_eq!(rt; core.outcome(3), Some(End::Completed(1)));
    assert!(rt; core.opening().is_new());
    if core.opening().is_new() {
        allocator_law(&core, &[]);
    }
    Ok(())
}

#[test]
fn the_law_of_the_pulse(rt: HostRuntime) -> Result<(), Fail> {
    let unit = Pulse::new();
    let shape = unit.shape(rt.alloc());
    let mut core = Core::new(rt.alloc(), unit, shape?, Order::Oldest, 1)?;
    fill(&mut core, &[(0, 1), (0, 2), (1, 3), (0, 4)])?;
    assert_eq!(rt; core.outcome(3), Some(End::Completed(3)));
    assert_eq!(rt; core.outcome(4), None);
    assert!(rt; core.opening().is_new());
    if core.opening().is_new() {
        pulse_law(&core, &[]);
    }
    Ok(())
}

#[test]
fn the_law_of_the_meeting(rt: HostRuntime) -> Result<(), Fail> {
    let unit = Meeting::new(2);
    let shape = unit.shape(rt.alloc());
    let mut core = Core::new(rt.alloc(), unit, shape?, Order::Oldest, 1)?;
    fill(&mut core, &[(0, 1), (0, 2), (0, 3)])?;
    assert_eq!(rt; core.outcome(1), Some(End::Completed(1)));
    assert_eq!(rt; core.outcome(3), None);
    assert!(rt; core.opening().is_new());
    if core.opening().is_new() {
        meeting_law(&core, &[]);
    }
    Ok(())
}

/// Cuts the history of a core for the first time, and states the law for the volume and the events after it.
fn law_over_a_volume(core: &mut Core<Buffer>) -> Result<(), Fail>
    requires { AreVolumes buffer_meaning core.old.object [] }
{
    let volume = core.cut()?;
    if core.opening().is_new() {
        buffer_law(core, &[volume]);
    }
    Ok(())
}

#[test]
fn a_law_over_a_volume(rt: HostRuntime) -> Result<(), Fail> {
    let unit = Buffer::new(rt.alloc(), 1)?;
    let shape = unit.shape(rt.alloc());
    let mut core = Core::new(rt.alloc(), unit, shape?, Order::Oldest, 1)?;
    fill(&mut core, &[(0, 7), (0, 8), (1, 0)])?;
    law_over_a_volume(&mut core)
}
