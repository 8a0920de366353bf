// SPDX-License-Identifier: MIT
//! The allocator, operation by operation.

use super::operations::Step::{Barrier, Body, Counts, Function, Procedure, Rank};
use super::operations::compare;
use po_classic_units::Allocator;
use std::test::Fail;

#[test]
fn calls_ask_for_a_number(rt: HostRuntime) -> Result<(), Fail> {
    let steps = [
        Counts(&[0; 5]),
        Body(0, 1),
        Body(1, 1),
        Body(0, 2),
        Body(1, 2),
        Body(0, 3),
        Body(1, 3),
        Function,
        Body(0, 0),
        Body(1, 0),
        Body(0, 4),
        Body(1, 4),
        Body(0, 65_537),
        Body(1, 18_446_744_073_709_551_615),
        Function,
        Rank(0),
        Rank(1),
        Rank(2),
        Rank(3),
        Rank(4),
    ];
    compare(
        &rt,
        &mut Allocator::new(3),
        &steps,
        "1 on 2 with abort; 1 on 2; 2 on 3 with abort; 2 on 3; 3 on 4 with abort; 3 on 4; value 3; \
         raised 2; raised 2; raised 2; raised 2; raised 2; raised 2; value 3; \
         rank 1; rank 1; rank 0; rank 0; rank 0; ",
    )
}

// A closed entry takes nothing. Only pieces that were taken can be given back.
#[test]
fn grants_while_enough_are_free(rt: HostRuntime) -> Result<(), Fail> {
    let steps = [
        Counts(&[0; 5]),
        Procedure(1),
        Barrier(4),
        Body(3, 2),
        Function,
        Barrier(0),
        Barrier(1),
        Barrier(2),
        Barrier(3),
        Barrier(4),
        Body(3, 8),
        Function,
        Procedure(0),
        Procedure(3),
        Procedure(65_538),
        Procedure(18_446_744_073_709_551_615),
        Function,
        Body(2, 1),
        Function,
        Barrier(2),
        Procedure(2),
        Function,
        Procedure(2),
        Procedure(1),
        Function,
    ];
    compare(
        &rt,
        &mut Allocator::new(3),
        &steps,
        "raised 1; open; done 2; value 1; open; open; open; closed; closed; done 8; value 1; \
         raised 1; raised 1; raised 1; raised 1; value 1; done 1; value 0; closed; \
         value 2; value 2; raised 1; value 1; value 3; ",
    )
}
