// SPDX-License-Identifier: MIT
//! The receipt that the history gives for an event.

ghost use Rattle.std.specs.Prelude.{◌≡◌, ◌==◌, ◌↔◌, ℕ, MatchOption, false, true};
ghost use Rattle.po_receipts.specs.Receipts.{is_asked_by, receipt_of};

use crate::receipt::Receipt;
use po_core::{Core, Event};
use po_unit::Unit;

/// Returns the seat that asked for the event, if it is a call or a procedure.
pub(crate) fn seat_of<V: Copy>(event: Event<V>) -> Option<u16>
    ensures { MatchOption result
        ((seat : ℕ) → is_asked_by seat event ≡ false)
        (λ owner. (seat : ℕ) → is_asked_by seat event ≡ (owner == seat)) }
{
    match event {
        Event::Issue { owner, .. } => Some(owner),
        Event::Procedure { owner, .. } => Some(owner),
        _ => None,
    }
}

/// Returns the receipt that is due for an event, if one is.
pub(crate) fn receipt_of<U: Unit>(
    core: &Core<U>,
    event: Event<U::Value>,
) -> Option<Receipt<U::Value>>
    ensures { result ≡ receipt_of core.now.object.state.ended event }
{
    match event {
        Event::Issue {
            n,
            e,
            v,
            deadline,
            ..
        } => {
            let answer = core.outcome(n)?;
            Some(Receipt::Called {
                number: n,
                entry: e,
                value: v,
                deadline,
                answer,
            })
        }
        Event::Procedure { op, v, reply, .. } => Some(Receipt::Ran {
            op,
            value: v,
            reply,
        }),
        _ => None,
    }
}

/// Returns whether a receipt is the one that is due.
pub(crate) fn is_due<U: Unit>(due: Option<Receipt<U::Value>>, receipt: Receipt<U::Value>) -> bool
    ensures { (result ≡ true) ↔ (due ≡ Some receipt) }
{
    due == Some(receipt)
}
