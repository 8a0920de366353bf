// SPDX-License-Identifier: MIT
//! A worked run of expirations.

ghost use Rattle.std.specs.Prelude.{◌≡◌, ◌≤◌, [], ◌∷◌, None, Some, length, take, IfOk};

use po_queues::Expirations;
use std::alloc::{AllocError, Global};
use std::test::Fail;

/// Makes keys 4, 0, 7 and 2 in order of arrival, which expire at 50, 20, 90 and 20.
fn worked(alloc: Global) -> Result<Expirations, AllocError>
    ensures reserved { IfOk result (λ e. 8 ≤ length e.calls) }
    ensures clock { IfOk result (λ e. e.clock ≡ 0) }
    ensures calls { IfOk result (λ e. take 8 e.calls
        ≡ Some (record { time = 20; stamp = 11 }) ∷ None ∷ Some (record { time = 20; stamp = 14 })
        ∷ None ∷ Some (record { time = 50; stamp = 10 }) ∷ None ∷ None
        ∷ Some (record { time = 90; stamp = 13 }) ∷ []) }
{
    let mut expirations = Expirations::new(alloc);
    expirations.reserve(7)?;
    expirations.append(4, 10, 50);
    expirations.append(0, 11, 20);
    expirations.append(7, 13, 90);
    expirations.append(2, 14, 20);
    Ok(expirations)
}

/// Raises the clock, and returns the first key that is due.
fn due_at(expirations: &mut Expirations, time: u64) -> Option<usize> {
    expirations.rise(time);
    expirations.first_due()
}

/// Raises the clock, and removes the first key that is due.
fn take_due(expirations: &mut Expirations, time: u64) -> Option<usize> {
    let due = due_at(expirations, time)?;
    expirations.remove(due);
    Some(due)
}

// A time has come when the clock has reached it. Of two keys that are due, the one that arrived first is found, until it is
// removed. The clock isn't turned back.
#[test]
fn due_keys_are_found_in_order_of_arrival(rt: HostRuntime) -> Result<(), Fail> {
    let mut expirations = worked(rt.alloc())?;
    let due = [
        take_due(&mut expirations, 19),
        due_at(&mut expirations, 20),
        take_due(&mut expirations, 20),
        take_due(&mut expirations, 5),
        take_due(&mut expirations, 49),
        take_due(&mut expirations, 90),
        take_due(&mut expirations, 90),
        take_due(&mut expirations, 90),
    ];
    let wanted = [
        None,
        Some(0),
        Some(0),
        Some(2),
        None,
        Some(4),
        Some(7),
        None,
    ];
    assert_eq!(rt; due, wanted);
    assert_eq!(rt; (expirations.clock(), expirations.remove(2)), (90, false));
    Ok(())
}
