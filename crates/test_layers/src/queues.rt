// SPDX-License-Identifier: MIT
//! A worked run of queues.

ghost use Rattle.std.specs.Prelude.{◌≡◌, ◌≤◌, [], ◌∷◌, IfOk};

use po_queues::Queues;
use std::alloc::{AllocError, Global};
use std::fmt::Write;
use std::test::Fail;

/// Makes three entries: keys 5 and 2 on entry 0, none on entry 1, keys 0, 7, 3 and 4 on entry 2.
fn worked(alloc: Global) -> Result<Queues, AllocError>
    ensures total { IfOk result (λ q. q.total ≡ 3) }
    ensures reserved { IfOk result (λ q. 8 ≤ q.reserved) }
    ensures items { IfOk result (λ q. q.items ≡
        record { entry = 2; key = 0; stamp = 10 } ∷ record { entry = 0; key = 5; stamp = 11 }
        ∷ record { entry = 2; key = 7; stamp = 13 } ∷ record { entry = 2; key = 3; stamp = 14 }
        ∷ record { entry = 0; key = 2; stamp = 18 } ∷ record { entry = 2; key = 4; stamp = 19 }
        ∷ []) }
{
    let mut queues = Queues::new(alloc, 3)?;
    queues.reserve(7)?;
    queues.append(2, 0, 10);
    queues.append(0, 5, 11);
    queues.append(2, 7, 13);
    queues.append(2, 3, 14);
    queues.append(0, 2, 18);
    queues.append(2, 4, 19);
    Ok(queues)
}

/// Adds the keys after this one in its queue.
fn keys_after(queues: &Queues, key: usize, text: &mut String) -> Result<(), Fail> {
    let mut last = key;
    for _ in 0..1000 {
        let Some(next) = queues.after(last) else {
            break;
        };
        write!(text, " {next}")?;
        last = next;
    }
    Ok(())
}

/// Returns, for each entry that has a queued key, how many keys are queued on it, the stamp of the first, and all of them in
/// order.
fn text_of(alloc: Global, queues: &Queues) -> Result<String, Fail> {
    let mut text = String::new(alloc);
    for entry in 0..queues.total() {
        if let Some((key, stamp)) = queues.first(entry) {
            write!(text, "{entry}: {} {stamp} {key}", queues.count(entry))?;
            keys_after(queues, key, &mut text)?;
            write!(text, "; ")?;
        }
    }
    Ok(text)
}

// In the middle, at the head, at the end, and a key that isn't queued. A removed key is new on another entry.
#[test]
fn keys_are_removed_anywhere(rt: HostRuntime) -> Result<(), Fail> {
    let mut queues = worked(rt.alloc())?;
    let first = queues.remove(5);
    queues.append(1, 5, 20);
    let removed = [
        first,
        queues.remove(7),
        queues.remove(0),
        queues.remove(4),
        queues.remove(7),
        queues.remove(6),
        queues.remove(usize::MAX),
    ];
    assert_eq!(rt; removed, [true, true, true, true, false, false, false]);
    assert_eq!(rt;
        text_of(rt.alloc(), &queues)?.as_str(),
        "0: 1 18 2; 1: 1 20 5; 2: 1 14 3; "
    );
    assert_eq!(rt;
        [queues.stamp(3), queues.stamp(7), queues.stamp(usize::MAX)],
        [Some(14), None, None]
    );
    Ok(())
}
