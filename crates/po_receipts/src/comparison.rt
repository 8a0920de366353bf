// SPDX-License-Identifier: MIT
//! Reconciliation: compares the receipts of an object's passes with its history.

ghost use Rattle.std.specs.Prelude.{◌≡◌, ◌≤◌, length, ◌↔◌, IsOk};
ghost use Rattle.po_receipts.specs.Agreement.{gap, IsAgreed, IsFaultOf};
ghost use Rattle.po_receipts.specs.declared.error.ReconcileError.{ReconcileError};

use crate::closed_pass::ClosedPass;
use crate::error::ReconcileError;
use crate::round::{SEATS, difference_in_round};
use po_core::{Core, Volume};
use po_unit::Unit;

/// The result if the receipts of all seats are those that the history gives.
#[derive(Clone, Copy, Debug, PartialEq, Eq)]
pub struct Agreed;

/// Compares the receipts of the passes with those that the history gives. They agree if each seat has one receipt for each call
/// and procedure that it asked for, in that order, with what was asked and what was answered.
///
/// The passes are in the order of their seats. The volumes are those that were cut off from the history, in their order;
/// without a cut there are none. A gap in the history is reported first, otherwise the lowest seat that differs, with its first
/// place that does.
///
/// Takes no memory. Reads the history once for each 1,024 seats.
pub fn compare<U: Unit>(
    core: &Core<U>,
    passes: &[ClosedPass<U::Value>],
    volumes: &[Volume<U::Value>],
) -> Result<Agreed, ReconcileError>
    requires { length passes.now ≤ 65_535 }
    ensures agreed { IsOk result ↔ IsAgreed core.now passes.now volumes.now }
    ensures fault { (fault : ReconcileError) → (result ≡ Err fault) ↔ IsFaultOf core.now passes.now volumes.now fault }
{
    if let Some(place) = first_gap(core.first_place(), volumes, core.base().place()) {
        return Err(ReconcileError::Gap { place });
    }
    let mut first = 0;
    while first < passes.len() {
        let seats = SEATS.min(passes.len() - first);
        if let Some(found) = difference_in_round(core, passes, volumes, first, seats) {
            return Err(ReconcileError::Mismatch {
                seat: found.seat as u16,
                place: found.place,
            });
        }
        first += seats;
    }
    Ok(Agreed)
}

/// Returns the first place at which the next volume should begin but doesn't. After the last volume, the base should begin.
fn first_gap<V: Copy>(from: u64, volumes: &[Volume<V>], base: u64) -> Option<u64>
    ensures { result ≡ gap from volumes.now base }
{
    let mut place = from;
    for volume in volumes {
        if volume.first_place() != place {
            return Some(place);
        }
        place = volume.place_after();
    }
    if base == place { None } else { Some(place) }
}
