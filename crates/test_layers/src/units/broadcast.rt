// SPDX-License-Identifier: MIT
//! The broadcast, operation by operation.

use super::operations::Step::{Barrier, Body, Counts, Function, Procedure, Rank};
use super::operations::compare;
use po_classic_units::Broadcast;
use std::test::Fail;

// All waiting calls receive the message, and later calls wait for the next one.
#[test]
fn each_waiting_call_receives(rt: HostRuntime) -> Result<(), Fail> {
    let steps = [
        Counts(&[2]),
        Body(0, 8),
        Barrier(0),
        Function,
        Procedure(5),
        Function,
        Barrier(0),
        Counts(&[1]),
        Body(0, 99),
        Barrier(0),
        Counts(&[0]),
        Body(0, 98),
        Counts(&[1]),
        Barrier(0),
        Function,
        Counts(&[0]),
        Procedure(6),
        Counts(&[1]),
        Barrier(0),
        Function,
        Procedure(7),
        Barrier(0),
        Counts(&[0]),
        Procedure(8),
        Barrier(0),
        Body(0, 99),
        Barrier(0),
        Rank(0),
    ];
    compare(
        &rt,
        &mut Broadcast::new(),
        &steps,
        "done 0; closed; value 0; value 5; value 5; open; done 5; open; done 5; closed; value 5; \
         value 6; closed; value 6; value 7; open; value 8; open; done 8; closed; rank 0; ",
    )
}
