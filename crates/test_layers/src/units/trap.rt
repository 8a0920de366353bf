// SPDX-License-Identifier: MIT
//! The trap, operation by operation.

use super::operations::Step::{Barrier, Body, Counts, Function, Procedure, Rank};
use super::operations::compare;
use po_classic_units::Trap;
use std::test::Fail;

// The entries of Wait open one after another as the level rises, and their barriers fault at 13.
#[test]
fn waits_by_level(rt: HostRuntime) -> Result<(), Fail> {
    let steps = [
        Counts(&[1; 5]),
        Barrier(0),
        Barrier(3),
        Procedure(1),
        Barrier(0),
        Barrier(1),
        Procedure(2),
        Barrier(1),
        Barrier(2),
        Procedure(3),
        Barrier(2),
        Procedure(12),
        Barrier(2),
        Procedure(13),
        Barrier(0),
        Barrier(1),
        Barrier(2),
        Barrier(3),
        Procedure(14),
        Barrier(0),
    ];
    compare(
        &rt,
        &mut Trap::new(),
        &steps,
        "closed; open; value 1; open; closed; value 2; open; closed; value 3; open; value 12; open; \
         value 13; fault 13; fault 13; fault 13; open; value 14; open; ",
    )
}

#[test]
fn exact_counts_its_queue(rt: HostRuntime) -> Result<(), Fail> {
    let steps = [
        Counts(&[2, 2, 2, 2, 0]),
        Barrier(4),
        Procedure(1),
        Barrier(4),
        Procedure(2),
        Counts(&[0, 0, 0, 0, 2]),
        Barrier(4),
        Counts(&[0, 0, 0, 0, 3]),
        Barrier(4),
        Procedure(13),
        Counts(&[0, 0, 0, 0, 13]),
        Barrier(4),
    ];
    compare(
        &rt,
        &mut Trap::new(),
        &steps,
        "closed; value 1; closed; value 2; open; closed; value 13; open; ",
    )
}

#[test]
fn fail_raises_its_value(rt: HostRuntime) -> Result<(), Fail> {
    let steps = [
        Counts(&[0; 5]),
        Body(3, 7),
        Function,
        Body(3, 4_294_967_295),
        Body(3, 4_294_967_296),
        Function,
        Body(3, 18_446_744_073_709_551_615),
        Body(0, 6),
        Body(1, 6),
        Body(2, 6),
        Body(4, 6),
        Function,
        Rank(0),
        Rank(3),
        Rank(4),
    ];
    compare(
        &rt,
        &mut Trap::new(),
        &steps,
        "raised 7; value 7; raised 4294967295; raised 4294967295; value 4294967296; raised 4294967295; \
         done 6; done 6; done 6; done 6; value 18446744073709551615; rank 0; rank 0; rank 0; ",
    )
}
