// SPDX-License-Identifier: MIT
//! How often an examination evaluates barriers, which no clause counts.

ghost use Rattle.std.specs.Prelude.{◌≡◌, IfOk};

use po_queues::{Order, Queues, Selection, examine};
use po_unit::{Outcome, Unit};
use std::alloc::{AllocError, Global};
use std::marker::Model;
use std::process::Abort;
use std::sync::atomic::{AtomicU64, Ordering};
use std::test::Fail;

/// Five entries, of which at most one is open, and the barrier of at most one propagates an exception. Counts the evaluations
/// of each barrier, which no clause sees.
#[derive(Drop)]
struct Counted {
    open_entry: u16,
    broken_entry: u16,
    evaluations: [AtomicU64; 5],
}

impl Model for Counted {
    ghost use Rattle.std.specs.Prelude.{ℕ};

    ghost Value = { ℕ × ℕ };

    ghost view = { λ s. (s.open_entry, s.broken_entry) };
}

impl Unit for Counted {
    type Value = u64;

    ghost use Rattle.std.specs.Prelude.{Ok, Err, refl, ◌==◌, if◌then◌else◌};
    ghost use Rattle.po_unit.specs.declared.outcome.Outcome.TheVariants.{Complete};

    ghost meaning = { record {
      entries = λ s. 5;
      procedures = λ s. 1;
      functions = λ s. 1;
      barrier = λ s e c. if e == s.1 then Err 13 else Ok (e == s.0);
      body = λ s e v c. (s, Complete v);
      procedure = λ s op v c. (s, Ok v);
      function = λ s op v c. Ok v;
      rank = λ e v. 0;
    } };

    fn entries(&self) -> u16 {
        5
    }

    fn procedures(&self) -> u16 {
        1
    }

    fn functions(&self) -> u16 {
        1
    }

    fn barrier(&self, e: u16, _counts: &[u64]) -> Result<bool, u32> {
        self.evaluations[usize::from(e)].fetch_add(1, Ordering::SeqCst);
        if e == self.broken_entry {
            return Err(13);
        }
        Ok(e == self.open_entry)
    }

    fn body(&mut self, _e: u16, v: u64, _counts: &[u64]) -> Outcome<u64> {
        Outcome::Complete(v)
    }

    fn procedure(&mut self, _op: u16, v: u64, _counts: &[u64]) -> Result<u64, u32> {
        Ok(v)
    }

    fn function(&self, _op: u16, v: u64, _counts: &[u64]) -> Result<u64, u32> {
        Ok(v)
    }

    fn rank(_e: u16, _v: u64) -> u8 {
        0
    }

    fn copy(&self) -> Result<Counted, AllocError> {
        Ok(all_closed_but(self.open_entry, self.broken_entry))
    }

    ghost lawful = { record {
      body_numbers = λ s e v c. record { entries = refl; procedures = refl; functions = refl };
      procedure_numbers = λ s op v c. record { entries = refl; procedures = refl; functions = refl };
      requeues = λ s e v c. tt;
    } };

    ghost use Rattle.std.proofs.Common.{rules};

    ghost equality = { Prim.search rules };
}

/// Returns a unit with this entry open and the barrier of that one broken, if such entries exist, and no barrier evaluated yet.
fn all_closed_but(open_entry: u16, broken_entry: u16) -> Counted
    ensures { result ≡ (open_entry, broken_entry) }
{
    let none = || AtomicU64::new(0);
    Counted {
        open_entry,
        broken_entry,
        evaluations: [none(), none(), none(), none(), none()],
    }
}

/// Makes five entries: in order of arrival, keys on the entries 4, 3, 1 and 3, and none on the entries 0 and 2.
fn filled(alloc: Global) -> Result<Queues, AllocError>
    ensures { IfOk result (λ q. q.total ≡ 5) }
{
    let mut queues = Queues::new(alloc, 5)?;
    queues.reserve(3)?;
    queues.append(4, 0, 10);
    queues.append(3, 1, 11);
    queues.append(1, 2, 12);
    queues.append(3, 3, 13);
    Ok(queues)
}

/// The number of no entry.
const NONE: u16 = 5;

/// Examines the unit's entries, and compares the outcome and how often each barrier was evaluated.
fn assert_evaluated(
    rt: &impl Abort,
    queues: &Queues,
    unit: Counted,
    order: Order,
    last: Option<u16>,
    told: Selection,
    evaluated: [u64; 5],
)
    requires { queues.now.total ≡ 5 }
{
    assert_eq!(rt; examine(&unit, queues, order, last), told);
    for (count, wanted) in unit.evaluations.iter().zip(evaluated) {
        assert_eq!(rt; count.load(Ordering::SeqCst), wanted);
    }
}

#[test]
fn evaluates_each_closed_barrier_once(rt: HostRuntime) -> Result<(), Fail> {
    let queues = filled(rt.alloc())?;
    for order in [Order::Textual, Order::Oldest, Order::Rotating] {
        for last in [None, Some(0), Some(3), Some(4), Some(u16::MAX)] {
            let closed = all_closed_but(NONE, NONE);
            assert_evaluated(
                &rt,
                &queues,
                closed,
                order,
                last,
                Selection::Quiet,
                [0, 1, 0, 1, 1],
            );
        }
    }
    Ok(())
}

// In the order Oldest each barrier is evaluated, since the first keys' stamps decide.
const RUNS: [(Order, Option<u16>, [u64; 5]); 5] = [
    (Order::Textual, None, [0, 1, 0, 1, 0]),
    (Order::Rotating, None, [0, 1, 0, 1, 0]),
    (Order::Rotating, Some(1), [0, 0, 0, 1, 0]),
    (Order::Rotating, Some(3), [0, 1, 0, 1, 1]),
    (Order::Oldest, None, [0, 1, 0, 1, 1]),
];

#[test]
fn evaluates_no_barrier_after_the_open_one(rt: HostRuntime) -> Result<(), Fail> {
    let queues = filled(rt.alloc())?;
    for (order, last, evaluated) in RUNS {
        let open = all_closed_but(3, NONE);
        assert_evaluated(
            &rt,
            &queues,
            open,
            order,
            last,
            Selection::Ready(3),
            evaluated,
        );
    }
    Ok(())
}

#[test]
fn evaluates_no_barrier_after_the_broken_one(rt: HostRuntime) -> Result<(), Fail> {
    let queues = filled(rt.alloc())?;
    for (order, last, evaluated) in RUNS {
        let broken = all_closed_but(NONE, 3);
        assert_evaluated(
            &rt,
            &queues,
            broken,
            order,
            last,
            Selection::Broken(3),
            evaluated,
        );
    }
    Ok(())
}
