// SPDX-License-Identifier: MIT
//! The pulse, operation by operation.

use super::operations::Step::{Barrier, Body, Counts, Function, Rank};
use super::operations::compare;
use po_classic_units::Pulse;
use std::test::Fail;

// A Signal goes after all waiting calls, and if none waits it is lost.
#[test]
fn all_waiting_calls_go(rt: HostRuntime) -> Result<(), Fail> {
    let steps = [
        Counts(&[0, 3, 3]),
        Body(1, 5),
        Counts(&[2, 0, 0]),
        Barrier(0),
        Barrier(1),
        Body(0, 8),
        Function,
        Body(1, 5),
        Counts(&[2, 0, 1]),
        Function,
        Barrier(0),
        Barrier(2),
        Counts(&[1, 0, 1]),
        Body(0, 6),
        Counts(&[0, 0, 1]),
        Body(0, 7),
        Body(1, 9),
        Function,
        Barrier(0),
        Barrier(2),
        Counts(&[0, 0, 0]),
        Body(2, 5),
        Counts(&[1, 0, 0]),
        Barrier(0),
        Function,
        Body(1, 5),
        Body(2, 9),
        Function,
        Rank(0),
        Rank(1),
        Rank(2),
        Rank(3),
    ];
    compare(
        &rt,
        &mut Pulse::new(),
        &steps,
        "done 5; closed; open; done 8; value 0; 5 on 2; value 1; open; closed; done 6; done 7; done 9; value 1; \
         open; open; done 5; closed; value 0; 5 on 2; done 9; value 0; rank 0; rank 1; rank 0; rank 0; ",
    )
}
