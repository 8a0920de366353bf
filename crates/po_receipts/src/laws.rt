// SPDX-License-Identifier: MIT
//! What follows if receipts and history agree.

ghost use Rattle.std.specs.Prelude.{◌≡◌, ◌↔◌, true, ◌⊎◌, [], All, count_by, sum_by};
ghost use Rattle.po_core.specs.Base.{is_issue, is_ran};
ghost use Rattle.po_engine.specs.ObjectState.{opening_state};
ghost use Rattle.po_core.specs.Cutting.{AreVolumes, Leads};
ghost use Rattle.po_receipts.specs.Passes.{IsTallied};
ghost use Rattle.po_receipts.specs.Agreement.{IsAgreed, history_of};
ghost use Rattle.po_receipts.specs.Answers.{AnswersAreOwn, HasClosingTotals, HasNoOthers, NonePending};

use crate::closed_pass::ClosedPass;
use crate::receipts::Receipts;
use po_core::{Core, Volume};
use po_unit::Unit;

/// Proves that every answer a caller got is the history's answer to that caller's own call, each once and in the caller's
/// order, if receipts and history agree.
pub fn own_answers<U: Unit>(
    core: &Core<U>,
    passes: &[ClosedPass<U::Value>],
    volumes: &[Volume<U::Value>],
)
    requires { IsAgreed core.now passes.now volumes.now }
    ensures { AnswersAreOwn core.now.object.state.ended (history_of core.now volumes.now) passes.now }
{}

/// Proves that these are the answers of the serial object. This needs the passes to be all that the object had, and the volumes
/// to be those that were cut off from its history, or none. If no pass has a call pending, the history has no other calls and
/// procedures; and if it has no others, no pass has a call pending.
pub fn every_answer<U: Unit>(
    core: &Core<U>,
    passes: &[ClosedPass<U::Value>],
    volumes: &[Volume<U::Value>],
)
    requires agreed { IsAgreed core.now passes.now volumes.now }
    requires totals { HasClosingTotals core.now passes.now }
    requires filed { NonePending passes.now ⊎ HasNoOthers (history_of core.now volumes.now) passes.now }
    requires volumes { (volumes.now ≡ []) ⊎ AreVolumes U.meaning core.now.object volumes.now }
    ensures own { AnswersAreOwn core.now.object.state.ended (history_of core.now volumes.now) passes.now }
    // The volumes, or none, are the history before the base.
    ensures volumes { AreVolumes U.meaning core.now.object volumes.now }
    // The whole history replays from the opening as serial protected actions of one thread, and leads to the calls' ends.
    ensures serial { Leads U.meaning core.now.object.setup (history_of core.now volumes.now)
        (opening_state core.now.object.setup.opening core.now.object.setup.first_number) core.now.object.state }
    ensures none_other { HasNoOthers (history_of core.now volumes.now) passes.now }
    ensures none_pending { NonePending passes.now }
{
    core.headline();
    recall_tallies(passes);
}

/// Returns whether no pass has a call that was accepted but has no receipt yet.
pub fn none_pending<V: Copy, Q: Receipts<V>>(passes: &[ClosedPass<V, Q>]) -> bool
    ensures { (result ≡ true) ↔ NonePending passes.now }
{
    for pass in passes {
        if pass.pending().is_some() {
            return false;
        }
    }
    true
}

/// Proves that the whole history has as many calls and procedures as were accepted from the passes. This needs the closing
/// totals to hold, and the volumes to be those that were cut off from this object's history.
pub fn closing_counts<U: Unit>(
    core: &Core<U>,
    passes: &[ClosedPass<U::Value>],
    volumes: &[Volume<U::Value>],
)
    requires totals { HasClosingTotals core.now passes.now }
    requires volumes { AreVolumes U.meaning core.now.object volumes.now }
    ensures calls { count_by is_issue (history_of core.now volumes.now) ≡ sum_by (λ pass. pass.calls) passes.now }
    ensures procedures { count_by is_ran (history_of core.now volumes.now) ≡ sum_by (λ pass. pass.procedures) passes.now }
{
    core.headline();
}

/// Proves that the tallies of each pass count its receipts, and the call that has none yet.
fn recall_tallies<V: Copy>(passes: &[ClosedPass<V>])
    ensures { All IsTallied passes.now }
{
    for pass in passes {
        pass.recall_invariant();
    }
}
