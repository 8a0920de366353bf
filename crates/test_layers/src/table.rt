// SPDX-License-Identifier: MIT
//! Worked runs of a table, also with memory refused.

ghost use Rattle.std.specs.Prelude.{◌≡◌, OnOk, Some};
ghost use Rattle.slab.specs.Slab.{HasRoomFor};
ghost use Rattle.po_calls.specs.Calls.{IsAbove};

use po_calls::{Call, CallStatus, Deadline, End, Table, Ticket};
use std::process::Abort;
use std::test::Fail;

/// Returns a call with this number on entry 0.
fn call(number: u64) -> Call<u16>
    ensures { result.number ≡ number }
{
    Call {
        number,
        owner: 4,
        entry: 0,
        value: 10,
        without_abort: false,
        aborted: false,
        deadline: Deadline::Never,
    }
}

/// Makes room for a call. If memory is refused, it checks that all is as before, and tries once
/// more.
fn make_room(rt: &impl Abort, table: &mut Table<u16>, ticket: Ticket) -> Result<(), Fail>
    ensures room { OnOk result (HasRoomFor table.new.calls 1) }
    ensures last { table.new.last ≡ table.old.last }
{
    let (key, place) = (table.next_key(), table.status(ticket));
    if table.reserve_one().is_err() {
        assert_eq!(rt; table.next_key(), key);
        assert_eq!(rt; table.status(ticket), place);
        table.reserve_one()?;
    }
    Ok(())
}

/// Puts a call with this number.
fn add(rt: &impl Abort, table: &mut Table<u16>, number: u64) -> Result<Ticket, Fail>
    requires { IsAbove table.old.last number }
    ensures { OnOk result (table.new.last ≡ Some number) }
{
    make_room(rt, table, Ticket { key: 0, number: 1 })?;
    Ok(table.put(call(number)))
}

#[test]
fn collects_once(rt: HostRuntime) -> Result<(), Fail> {
    let mut table = Table::new(rt.alloc());
    let key = table.next_key();
    let first = add(&rt, &mut table, 1)?;
    let second = add(&rt, &mut table, 2)?;
    let early = table.collect(first);
    assert!(rt; matches!(table.status(first), CallStatus::Waiting));
    table.finish(first, End::Completed(7));
    let place = table.status(first);
    let ends = [early, table.collect(first), table.collect(first)];
    assert_eq!(rt;
        (place, ends),
        (
            CallStatus::Ended(End::Completed(7)),
            [None, Some(End::Completed(7)), None]
        )
    );
    let third = add(&rt, &mut table, 3)?;
    assert_eq!(rt;
        [first, third],
        [Ticket { key, number: 1 }, Ticket { key, number: 3 }]
    );
    assert_eq!(rt;
        [
            table.status(first),
            table.status(second),
            table.status(third)
        ],
        [
            CallStatus::Unknown,
            CallStatus::Waiting,
            CallStatus::Waiting
        ]
    );
    assert_eq!(rt;
        [table.get(first), table.get(third)],
        [None, Some(&call(3))]
    );
    Ok(())
}
