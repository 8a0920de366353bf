// SPDX-License-Identifier: MIT
//! From what it passes, a caller can see whether it meets a call's conditions.

ghost use Rattle.std.specs.Prelude.{◌≡◌, ◌<◌};
ghost use Rattle.std.specs.List.{All};

use po_calls::{Call, Deadline, End, Table, Ticket};
use po_history::{Event, History};
use po_queues::{EntryQueues, Queues};
use std::alloc::{AllocError, Global};
use std::test::Fail;

/// Puts call `number`, if there is room for it and the number is above those put before.
fn try_put(table: &mut Table<u16>, number: u64) -> Option<Ticket> {
    if !table.has_room() {
        return None;
    }
    if let Some(last) = table.last() {
        if number <= last {
            return None;
        }
    }
    Some(table.put(Call {
        number,
        owner: 4,
        entry: 0,
        value: 10,
        without_abort: false,
        aborted: false,
        deadline: Deadline::Never,
    }))
}

#[test]
fn tells_what_a_table_takes(rt: HostRuntime) -> Result<(), Fail> {
    let mut table = Table::new(rt.alloc());
    assert!(rt; try_put(&mut table, 7).is_none());
    table.reserve_one()?;
    assert!(rt; try_put(&mut table, 7).is_some());
    Ok(())
}

/// Queues the key with this stamp, if the entry exists and the key is reserved and not queued.
fn try_append(queues: &mut Queues, entry: u16, key: usize, stamp: u128) -> bool
    requires { All (λ x. x.stamp < stamp) queues.old.items }
{
    if entry >= queues.total() || key >= queues.reserved() || queues.contains(key) {
        return false;
    }
    queues.append(entry, key, stamp);
    true
}

/// Queues the key with this stamp, if the entry exists and the key is reserved and not queued.
fn try_append_to_entries(queues: &mut EntryQueues, entry: u16, key: usize, stamp: u128) -> bool
    requires { All (λ x. x.stamp < stamp) queues.old.items }
{
    if usize::from(entry) >= queues.counts().len()
        || key >= queues.reserved()
        || queues.contains(key)
    {
        return false;
    }
    queues.append(entry, key, stamp, None);
    true
}

/// Whether queues of two entries take the key on this entry. The keys up to 3 are reserved, and key 1 is queued.
fn queues_take(alloc: Global, entry: u16, key: usize) -> Result<bool, AllocError> {
    let mut queues = Queues::new(alloc, 2)?;
    queues.reserve(3)?;
    queues.append(0, 1, 4);
    Ok(try_append(&mut queues, entry, key, 5))
}

/// Whether entry queues of two entries take the key on this entry. The keys up to 6 are reserved, and key 1 is queued.
fn entry_queues_take(alloc: Global, entry: u16, key: usize) -> Result<bool, AllocError> {
    let mut queues = EntryQueues::new(alloc, 2)?;
    queues.reserve(6)?;
    queues.append(0, 1, 4, None);
    Ok(try_append_to_entries(&mut queues, entry, key, 5))
}

#[test]
fn tells_which_keys_queues_take(rt: HostRuntime) -> Result<(), Fail> {
    let alloc = rt.alloc();
    assert!(rt; queues_take(alloc, 1, 3)?);
    assert!(rt; !queues_take(alloc, 2, 3)?);
    assert!(rt; !queues_take(alloc, 1, 1000)?);
    assert!(rt; !queues_take(alloc, 1, 1)?);
    Ok(())
}

#[test]
fn tells_which_keys_entry_queues_take(rt: HostRuntime) -> Result<(), Fail> {
    let alloc = rt.alloc();
    assert!(rt; entry_queues_take(alloc, 1, 6)?);
    assert!(rt; !entry_queues_take(alloc, 2, 6)?);
    assert!(rt; !entry_queues_take(alloc, 1, 1000)?);
    assert!(rt; !entry_queues_take(alloc, 1, 1)?);
    Ok(())
}

/// Notes how call `n` ended, if room was made for it and no end was noted before.
fn try_set_outcome(history: &mut History<i64>, n: u64, end: End<i64>) -> bool {
    if !history.is_reserved_for(n) || history.outcome(n).is_some() {
        return false;
    }
    history.set_outcome(n, end);
    true
}

#[test]
fn tells_which_outcomes_a_history_takes(rt: HostRuntime) -> Result<(), Fail> {
    let mut history = History::<i64>::new(rt.alloc(), 10, 0)?;
    history.reserve_for(0)?;
    assert!(rt; !try_set_outcome(&mut history, 11, End::Completed(7)));
    assert!(rt; try_set_outcome(&mut history, 10, End::Completed(7)));
    Ok(())
}

#[test]
fn tells_how_many_events_a_history_takes(rt: HostRuntime) -> Result<(), Fail> {
    let mut history = History::<i64>::new(rt.alloc(), 10, 0)?;
    if history.owed() > 0 {
        history.push_owed(Event::Tick(4));
    }
    assert_eq!(rt; history.owed(), 0);
    Ok(())
}
