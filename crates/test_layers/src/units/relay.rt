// SPDX-License-Identifier: MIT
//! The relay, operation by operation.

use super::operations::Step::{Barrier, Body, Counts, Function, Procedure, Rank};
use super::operations::compare;
use po_classic_units::Relay;
use std::test::Fail;

#[test]
fn hands_calls_on_by_level(rt: HostRuntime) -> Result<(), Fail> {
    let steps = [
        Counts(&[1, 1, 1]),
        Body(0, 5),
        Body(1, 5),
        Body(2, 5),
        Barrier(0),
        Barrier(1),
        Barrier(2),
        Procedure(1),
        Barrier(0),
        Barrier(1),
        Barrier(2),
        Procedure(2),
        Barrier(0),
        Barrier(1),
        Barrier(2),
        Function,
        Rank(0),
        Rank(1),
        Rank(2),
        Rank(3),
    ];
    compare(
        &rt,
        &mut Relay::new(),
        &steps,
        "5 on 1; 5 on 2 with abort; done 5; open; closed; closed; value 1; open; open; closed; \
         value 2; open; open; open; value 2; rank 2; rank 1; rank 0; rank 0; ",
    )
}
