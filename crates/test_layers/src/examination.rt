// SPDX-License-Identifier: MIT
//! Worked examinations of five entries.

ghost use Rattle.std.specs.Prelude.{◌≡◌, IfOk};

use po_queues::{Order, Queues, examine};
use po_unit::{Outcome, Unit};
use std::alloc::{AllocError, Global};
use std::fmt::Write;
use std::test::Fail;

/// An entry that no number of queued keys opens.
const CLOSED: Result<u64, u32> = Ok(u64::MAX);

/// Five entries given by a table: an entry opens once that number of keys is queued on it, or its barrier propagates an
/// exception.
#[derive(Debug, Drop)]
struct Gates {
    table: [Result<u64, u32>; 5],
}

impl Unit for Gates {
    type Value = u64;

    ghost use Rattle.std.specs.Prelude.{Ok, refl, slice_index, slice_index_or, nat_le};
    ghost use Rattle.std.specs.Result.{result_map_both};
    ghost use Rattle.po_unit.specs.declared.outcome.Outcome.TheVariants.{Complete};

    ghost meaning = { record {
      entries = λ s. 5;
      procedures = λ s. 1;
      functions = λ s. 1;
      barrier = λ s e c. result_map_both (λ n. nat_le n (slice_index c e)) (λ x. x) (slice_index_or s.table e (Ok 0));
      body = λ s e v c. (s, Complete v);
      procedure = λ s op v c. (s, Ok v);
      function = λ s op v c. Ok v;
      rank = λ e v. 0;
    } };

    fn entries(&self) -> u16 {
        5
    }

    fn procedures(&self) -> u16 {
        1
    }

    fn functions(&self) -> u16 {
        1
    }

    fn barrier(&self, e: u16, counts: &[u64]) -> Result<bool, u32> {
        let index = usize::from(e);
        let least = self.table[index]?;
        Ok(least <= counts[index])
    }

    fn body(&mut self, _e: u16, v: u64, _counts: &[u64]) -> Outcome<u64> {
        Outcome::Complete(v)
    }

    fn procedure(&mut self, _op: u16, v: u64, _counts: &[u64]) -> Result<u64, u32> {
        Ok(v)
    }

    fn function(&self, _op: u16, v: u64, _counts: &[u64]) -> Result<u64, u32> {
        Ok(v)
    }

    fn rank(_e: u16, _v: u64) -> u8 {
        0
    }

    fn copy(&self) -> Result<Gates, AllocError> {
        Ok(Gates { table: self.table })
    }

    ghost lawful = { record {
      body_numbers = λ s e v c. record { entries = refl; procedures = refl; functions = refl };
      procedure_numbers = λ s op v c. record { entries = refl; procedures = refl; functions = refl };
      requeues = λ s e v c. tt;
    } };

    ghost use Rattle.std.proofs.Common.{rules};

    ghost equality = { Prim.search rules };
}

/// Makes five entries: in order of arrival, keys on the entries 3, 1, 3, 4 and 0, and none on entry 2.
fn filled(alloc: Global) -> Result<Queues, AllocError>
    ensures { IfOk result (λ q. q.total ≡ 5) }
{
    let mut queues = Queues::new(alloc, 5)?;
    queues.reserve(4)?;
    queues.append(3, 0, 10);
    queues.append(1, 1, 11);
    queues.append(3, 2, 12);
    queues.append(4, 3, 13);
    queues.append(0, 4, 14);
    Ok(queues)
}

/// The service orders.
const ORDERS: [Order; 3] = [Order::Textual, Order::Oldest, Order::Rotating];

/// Returns what each order finds after each of these entries, as text.
fn text_of(
    alloc: Global,
    queues: &Queues,
    table: [Result<u64, u32>; 5],
    lasts: &[Option<u16>],
) -> Result<String, Fail>
    requires { queues.now.total ≡ 5 }
{
    let mut text = String::new(alloc);
    let barriers = Gates { table };
    for order in ORDERS {
        for last in lasts {
            write!(text, "{:?} ", examine(&barriers, queues, order, *last))?;
        }
    }
    Ok(text)
}

// In turn: the lowest number, the entry whose first call has waited longest, and the next entry after the last one.
#[test]
fn each_order_has_its_first(rt: HostRuntime) -> Result<(), Fail> {
    let queues = filled(rt.alloc())?;
    let table = [CLOSED, Ok(1), Ok(0), Ok(1), Ok(1)];
    let lasts = [None, Some(0), Some(1), Some(3), Some(4), Some(u16::MAX)];
    assert_eq!(rt;
        text_of(rt.alloc(), &queues, table, &lasts)?.as_str(),
        "Ready(1) Ready(1) Ready(1) Ready(1) Ready(1) Ready(1) \
         Ready(3) Ready(3) Ready(3) Ready(3) Ready(3) Ready(3) \
         Ready(1) Ready(1) Ready(3) Ready(4) Ready(1) Ready(1) "
    );
    // The entry that was last is the only open one.
    let table = [CLOSED, CLOSED, Ok(0), Ok(1), CLOSED];
    assert_eq!(rt;
        text_of(rt.alloc(), &queues, table, &[Some(3)])?.as_str(),
        "Ready(3) Ready(3) Ready(3) "
    );
    Ok(())
}

// A barrier that propagates an exception decides if it comes first in the order, and not if it comes after an open one.
#[test]
fn exceptions_decide_in_their_order(rt: HostRuntime) -> Result<(), Fail> {
    let queues = filled(rt.alloc())?;
    let table = [Err(7), CLOSED, Err(8), CLOSED, Ok(1)];
    assert_eq!(rt;
        text_of(rt.alloc(), &queues, table, &[Some(0), Some(4)])?.as_str(),
        "Broken(0) Broken(0) Ready(4) Ready(4) Ready(4) Broken(0) "
    );
    Ok(())
}

// An entry without a queued key isn't looked at, whatever its barrier is, and the counts are those of the queues.
#[test]
fn is_quiet_where_all_are_closed(rt: HostRuntime) -> Result<(), Fail> {
    let queues = filled(rt.alloc())?;
    let few = [Ok(2), CLOSED, Ok(0), Ok(3), Ok(2)];
    let enough = [Ok(2), Ok(2), Err(1), Ok(2), Ok(2)];
    assert_eq!(rt;
        text_of(rt.alloc(), &queues, few, &[None, Some(2)])?.as_str(),
        "Quiet Quiet Quiet Quiet Quiet Quiet "
    );
    assert_eq!(rt;
        text_of(rt.alloc(), &queues, enough, &[Some(3)])?.as_str(),
        "Ready(3) Ready(3) Ready(3) "
    );
    let queues = Queues::new(rt.alloc(), 5)?;
    assert_eq!(rt;
        text_of(
            rt.alloc(),
            &queues,
            [Ok(0), Err(1), Ok(0), Ok(0), Ok(0)],
            &[Some(1)]
        )?
        .as_str(),
        "Quiet Quiet Quiet "
    );
    Ok(())
}
