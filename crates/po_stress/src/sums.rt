// SPDX-License-Identifier: MIT
//! What the numbers of a report add up to if all answers agree with the history.

ghost use Rattle.std.specs.Prelude.{◌≡◌, ◌+◌, ◌↔◌, ◌⊎◌, [], Err, IsOk, count_by, sum_by};
ghost use Rattle.po_core.specs.Base.{is_issue};
ghost use Rattle.po_receipts.specs.Agreement.{IsAgreed};
ghost use Rattle.po_stress.specs.Counts.{issues_ended};
ghost use Rattle.po_stress.specs.declared.counting.Ending.TheVariants.{Done, GivenUp, Failed};

use po_core::Volume;
use po_object::{Agreed, Closed, ReconcileError, every_answer};
use po_receipts::closing_counts;
use po_unit::Unit;

/// Only for the prover: if the reconciliation without volumes agrees, the history issued as many calls as the passes counted,
/// and each of these calls ended in one of the three ways. Does nothing at run time.
pub(crate) fn recall_sums<U: Unit>(closed: &Closed<U>, verdict: Result<Agreed, ReconcileError>)
    requires { IsOk verdict ↔ IsAgreed closed.now.core closed.now.passes [] }
    ensures issued { IsOk verdict → count_by is_issue closed.now.core.object.events ≡ sum_by (λ pass. pass.calls) closed.now.passes }
    ensures ended { IsOk verdict → count_by (issues_ended Done closed.now.core.object.state.ended) closed.now.core.object.events
        + count_by (issues_ended GivenUp closed.now.core.object.state.ended) closed.now.core.object.events
        + count_by (issues_ended Failed closed.now.core.object.state.ended) closed.now.core.object.events
        ≡ count_by is_issue closed.now.core.object.events }
{
    let Ok(_agreed) = verdict else {
        return;
    };
    let volumes: [Volume<U::Value>; 0] = [];
    closed.closing_totals();
    every_answer(closed, &volumes);
    closing_counts(closed.core(), closed.passes(), &volumes);
}
