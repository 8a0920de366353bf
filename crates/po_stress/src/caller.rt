// SPDX-License-Identifier: MIT
//! Callers of an object, for the threads of a run.

ghost use Rattle.std.specs.Prelude.{◌≡◌, ◌<◌, ◌^◌, [], None, count_by};
ghost use Rattle.po_receipts.specs.Passes.{is_call};
ghost use Rattle.po_stress.specs.Ends.{AreEndsOf, all_of};

use crate::ends::Ends;
use crate::loaded::Loaded;
use po_core::{End, Record, Refusal};
use po_object::{CallLedger, Object, Pass, Receipts, Story};
use po_unit::{EntryRef, Unit};
use std::marker::Model;
use std::sync::Wait;
use std::sync::ledger::Ledger;

/// A caller of an object, which counts how its calls end. Contracts see it as its pass, which has no pending call.
#[derive(Drop)]
pub(crate) struct Caller<C: CallLedger<u64>, P: Ledger, F: Ledger, Q: Receipts<u64>> {
    pass: Pass<u64, C, P, F, Q>,
    ends: Ends,
}

impl<C: CallLedger<u64>, P: Ledger, F: Ledger, Q: Receipts<u64>> Model for Caller<C, P, F, Q> {
    ghost use Rattle.std.specs.Prelude.{◌≡◌, ℕ, None};
    ghost use Rattle.po_receipts.specs.Passes.{PassView};
    ghost use Rattle.po_stress.specs.Ends.{AreEndsOf};

    ghost Value = { PassView ℕ };

    ghost view = { λ c. c.pass };

    ghost invariant = { λ c. record {
      free : c.pass.pending ≡ None;
      counted : AreEndsOf c.pass.receipts c.ends;
    } };
}

impl<C: CallLedger<u64>, P: Ledger, F: Ledger, Q: Receipts<u64>> Caller<C, P, F, Q> {
    /// Makes a caller with this unused pass.
    pub(crate) fn new(pass: Pass<u64, C, P, F, Q>) -> Caller<C, P, F, Q>
        requires free { pass.pending ≡ None }
        requires unused { pass.receipts ≡ [] }
    {
        Caller {
            pass,
            ends: Ends::new(),
        }
    }

    /// Gives back the pass, which has no pending call, and says how the caller's calls ended.
    pub(crate) fn leave(self) -> (Pass<u64, C, P, F, Q>, Ends)
        ensures free { result.0.pending ≡ None }
        ensures ends { AreEndsOf result.0.receipts result.1 }
        ensures all { all_of result.1 ≡ result.0.calls }
    {
        // Only for the prover: brings the invariant of the pass into the proof.
        self.pass.recall_invariant();
        (self.pass, self.ends)
    }
}

/// Only for the prover: a pass has fewer than 2^64 receipts of calls. Does nothing at run time.
fn recall_room<C: CallLedger<u64>, P: Ledger, F: Ledger, Q: Receipts<u64>>(
    pass: &Pass<u64, C, P, F, Q>,
)
    ensures { count_by is_call pass.now.receipts < 2 ^ 64 }
{
    pass.recall_invariant();
    // Only for the prover: the count of calls is a `u64`.
    let _calls = pass.calls();
}

impl<
    U: Unit<Value = u64>,
    C: Story<U, u64> + Send + 'static,
    P: Ledger + 'static,
    F: Ledger + 'static,
    R: Record<U>,
    Q: Receipts<u64> + Send + 'static,
> Loaded for Object<U, C, P, F, R, Q> {
    type Caller = Caller<C, P, F, Q>;

    fn seat_count(&self) -> u16 {
        self.seats()
    }

    fn seat_of(caller: &Caller<C, P, F, Q>) -> u16 {
        caller.pass.seat()
    }

    fn enter<W: Wait>(
        &self,
        rt: &W,
        caller: &mut Caller<C, P, F, Q>,
        entry: EntryRef,
        value: u64,
    ) -> Result<End<u64>, Refusal> {
        let end = self.call(rt, &mut caller.pass, entry, value)?;
        // Only for the prover: there is room to count one more call.
        recall_room(&caller.pass);
        caller.ends.count(end);
        Ok(end)
    }

    fn enter_before<W: Wait>(
        &self,
        rt: &W,
        caller: &mut Caller<C, P, F, Q>,
        entry: EntryRef,
        value: u64,
        deadline: u64,
    ) -> Result<(), Refusal> {
        let end = self.timed(rt, &mut caller.pass, entry, value, deadline)?;
        // Only for the prover: there is room to count one more call.
        recall_room(&caller.pass);
        caller.ends.count(end);
        Ok(())
    }

    fn run_procedure<W: Wait>(
        &self,
        rt: &W,
        caller: &mut Caller<C, P, F, Q>,
        op: u16,
        value: u64,
    ) -> Result<(), Refusal> {
        let _reply = self.procedure(rt, &mut caller.pass, op, value)?;
        Ok(())
    }

    fn raise_clock<W: Wait>(&self, rt: &W, time: u64) -> Result<(), Refusal> {
        let _clock = self.tick(rt, time)?;
        Ok(())
    }

    fn cancel_seat<W: Wait>(&self, rt: &W, seat: u16) {
        let _attempted = self.cancel_seat(rt, seat);
    }

    fn end_all<W: Wait>(&self, rt: &W) {
        let _ended = self.finalize(rt);
    }
}
