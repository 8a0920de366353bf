// SPDX-License-Identifier: MIT
//! Objects whose history was cut: what the comparison says for their volumes in order, out of order, and mixed with those of
//! another object.

use crate::asks::same;
use crate::buffers::empty_buffer;
use crate::scenes::Scene;
use crate::shelf::{Shelf, perform};
use po_classic_units::Buffer;
use po_core::{Core, Volume};
use po_object::{Agreed, Closed, ReconcileError, reconcile};
use po_unit::Unit;
use std::process::Abort;
use std::sync::Wait;
use std::test::Fail;

/// Returns the volumes of an object in which the value was put and taken out, with a cut after each of the two calls.
fn cut_off<R: Abort + Wait + AllocGlobal>(
    rt: &R,
    core: Core<Buffer>,
    value: u64,
) -> Result<Vec<Volume<u64>>, &'static str> {
    let shelf = perform(rt, core, 1, Scene::Cuts(value))?;
    let Shelf {
        closed: _closed,
        volumes,
    } = shelf;
    Ok(volumes)
}

/// Returns what the comparison says if no given volume begins at the place.
fn gap(place: u64) -> Result<Agreed, ReconcileError> {
    Err(ReconcileError::Gap { place })
}

/// Checks that all volumes in order agree. If one is missing or out of order, there is a gap at the place of its first event.
fn compare_orders<U: Unit<Value = u64>, R: Abort>(
    rt: &R,
    closed: &Closed<U>,
    volumes: &mut Vec<Volume<u64>>,
) {
    assert_eq!(rt; volumes.len(), 2);
    let in_order = volumes.as_slice();
    let verdicts = [
        reconcile(closed, in_order),
        reconcile(closed, &in_order[1..]),
        reconcile(closed, &[]),
        reconcile(closed, &in_order[..1]),
    ];
    same(rt, verdicts, [Ok(Agreed), gap(0), gap(0), gap(1)]);
    volumes.reverse();
    same(rt, reconcile(closed, volumes.as_slice()), gap(0));
    volumes.reverse();
}

/// Checks that the receipts differ with the first volume of another object, in which another value was put.
fn compare_other<U: Unit<Value = u64>, R: Abort>(
    rt: &R,
    closed: &Closed<U>,
    volumes: &mut Vec<Volume<u64>>,
    mixed: &mut Vec<Volume<u64>>,
) {
    mixed.truncate(1);
    if let Some(last) = volumes.pop() {
        let _kept = mixed.push(last);
    }
    let mismatch = ReconcileError::Mismatch { seat: 0, place: 0 };
    same(rt, reconcile(closed, mixed.as_slice()), Err(mismatch));
}

/// Compares an object in which 7 was put with its own volumes, and with those of the other object.
fn compare_all<R: Abort + Wait + AllocGlobal>(
    rt: &R,
    core: Core<Buffer>,
    others: &mut Vec<Volume<u64>>,
) -> Result<(), &'static str> {
    let mut shelf = perform(rt, core, 1, Scene::Cuts(7))?;
    compare_orders(rt, &shelf.closed, &mut shelf.volumes);
    compare_other(rt, &shelf.closed, &mut shelf.volumes, others);
    Ok(())
}

#[test]
fn volumes_of_two_objects(rt: HostRuntime) -> Result<(), Fail> {
    let mut others = cut_off(&rt, empty_buffer(&rt, 1)?, 8)?;
    compare_all(&rt, empty_buffer(&rt, 1)?, &mut others)?;
    Ok(())
}
