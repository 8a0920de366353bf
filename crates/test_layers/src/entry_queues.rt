// SPDX-License-Identifier: MIT
//! A worked run of entry queues.

ghost use Rattle.std.specs.Prelude.{◌≡◌, ◌≤◌, [], ◌∷◌, IfOk};

use po_queues::EntryQueues;
use std::alloc::{AllocError, Global};
use std::test::Fail;

/// Makes three entries: keys 5 and 2 on entry 0, none on entry 1, keys 0, 7, 3 and 4 on entry 2. The calls of keys 5, 7 and 4
/// expire, that of key 7 last.
fn worked(alloc: Global) -> Result<EntryQueues, AllocError>
    ensures total { IfOk result (λ q. q.total ≡ 3) }
    ensures reserved { IfOk result (λ q. 8 ≤ q.reserved) }
    ensures items { IfOk result (λ q. q.items ≡
        record { entry = 2; key = 0; stamp = 10; expires = None }
        ∷ record { entry = 0; key = 5; stamp = 11; expires = Some 60 }
        ∷ record { entry = 2; key = 7; stamp = 13; expires = Some 90 }
        ∷ record { entry = 2; key = 3; stamp = 14; expires = None }
        ∷ record { entry = 0; key = 2; stamp = 18; expires = None }
        ∷ record { entry = 2; key = 4; stamp = 19; expires = Some 50 }
        ∷ []) }
{
    let mut queues = EntryQueues::new(alloc, 3)?;
    queues.reserve(7)?;
    queues.append(2, 0, 10, None);
    queues.append(0, 5, 11, Some(60));
    queues.append(2, 7, 13, Some(90));
    queues.append(2, 3, 14, None);
    queues.append(0, 2, 18, None);
    queues.append(2, 4, 19, Some(50));
    Ok(queues)
}

/// Raises the clock, and removes the first key that is due.
fn take_due(queues: &mut EntryQueues, time: u64) -> Option<usize> {
    queues.rise(time);
    let due = queues.first_due()?;
    queues.remove(due);
    Some(due)
}

#[test]
fn expires_only_with_its_new_time(rt: HostRuntime) -> Result<(), Fail> {
    let mut queues = worked(rt.alloc())?;
    queues.rise(55);
    queues.remove(4);
    queues.append(2, 4, 20, Some(56));
    let due = [take_due(&mut queues, 55), take_due(&mut queues, 56)];
    assert_eq!(rt; due, [None, Some(4)]);
    Ok(())
}
