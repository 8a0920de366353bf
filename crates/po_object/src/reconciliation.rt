// SPDX-License-Identifier: MIT
//! Reconciliation: whether the history of a closed object says what its callers were answered.

ghost use Rattle.std.specs.Prelude.{◌≡◌, ◌⊎◌, ◌↔◌, [], IsOk, Some};
ghost use mathlib.Core.List.{IsPrefix};
ghost use Rattle.po_engine.specs.ObjectState.{opening_state};
ghost use Rattle.po_core.specs.Cutting.{AreVolumes, Leads};
ghost use Rattle.po_receipts.specs.Agreement.{IsAgreed, IsFaultOf, history_of};
ghost use Rattle.po_receipts.specs.Answers.{AnswersAreOwn, HasNoOthers, NonePending};
ghost use Rattle.po_receipts.specs.declared.error.ReconcileError.{ReconcileError};
ghost use Rattle.po_object.specs.Parts.{AreParts};

use crate::closing::Closed;
use crate::front::Front;
use crate::ledgers::Story;
use po_core::Volume;
use po_receipts::{Agreed, ReconcileError, compare};
use po_unit::Unit;

/// Compares the receipts of all passes with those that the history gives. They agree if each seat has one receipt for each call
/// and procedure that it asked for, in that order, with what was asked and what was answered.
///
/// The volumes are those that were cut off from the history, in their order; without a cut there are none. A gap in the history
/// is reported first, otherwise the lowest seat that differs, with its first place that does. Takes no memory.
pub fn reconcile<U: Unit>(
    closed: &Closed<U>,
    volumes: &[Volume<U::Value>],
) -> Result<Agreed, ReconcileError>
    ensures agreed { IsOk result ↔ IsAgreed closed.now.core closed.now.passes volumes.now }
    ensures fault { (fault : ReconcileError) → (result ≡ Err fault) ↔ IsFaultOf closed.now.core closed.now.passes volumes.now fault }
{
    closed.closing_totals();
    compare(closed.core(), closed.passes(), volumes)
}

/// Proves what it means that `reconcile` returns `Agreed`. Every answer that a caller got is the history's answer to that
/// caller's own call, each once and in the caller's order; these are the answers of the serial object; the history has no other
/// calls and procedures; and no pass has a call pending.
///
/// If the history was never cut, nothing else is required. Otherwise the volumes have to be those of the object's cuts, which
/// `are_volumes` proves, and no pass may have a call pending, which `Closed::none_pending` says.
pub fn every_answer<U: Unit>(closed: &Closed<U>, volumes: &[Volume<U::Value>])
    requires agreed { IsAgreed closed.now.core closed.now.passes volumes.now }
    requires cut { (volumes.now ≡ []) ⊎ (AreVolumes U.meaning closed.now.core.object volumes.now × NonePending closed.now.passes) }
    ensures own { AnswersAreOwn closed.now.core.object.state.ended (history_of closed.now.core volumes.now) closed.now.passes }
    // The volumes, or none, are the history before the base.
    ensures volumes { AreVolumes U.meaning closed.now.core.object volumes.now }
    // The whole history replays from the opening as serial protected actions of one thread, and leads to the calls' ends.
    ensures serial { Leads U.meaning closed.now.core.object.setup (history_of closed.now.core volumes.now)
        (opening_state closed.now.core.object.setup.opening closed.now.core.object.setup.first_number) closed.now.core.object.state }
    ensures none_other { HasNoOthers (history_of closed.now.core volumes.now) closed.now.passes }
    ensures none_pending { NonePending closed.now.passes }
{
    closed.closing_totals();
    po_receipts::every_answer(closed.core(), closed.passes(), volumes);
}

/// Proves that the volumes that a caller kept are those of the object's cuts, as `every_answer` requires, if `reconcile` returns
/// `Agreed` for them.
///
/// Each volume has to be a part of what the front has seen, and that a beginning of the closed object's history. Both hold if the
/// caller made all cuts by `Object::cut_after` with this front, and closed the object by `Object::close_after` with it.
pub fn are_volumes<U: Unit, C: Story<U, U::Value>>(
    closed: &Closed<U>,
    front: &Front<U::Value, C>,
    volumes: &[Volume<U::Value>],
)
    requires agreed { IsAgreed closed.now.core closed.now.passes volumes.now }
    requires setup { C.setup ≡ Some closed.now.core.object.setup }
    requires seen { IsPrefix front.now closed.now.log }
    requires parts { AreParts C.setup front.now volumes.now }
    ensures { AreVolumes U.meaning closed.now.core.object volumes.now }
{
    // Only for the prover: the log of a closed object is its whole history.
    closed.closing_totals();
}
