// SPDX-License-Identifier: MIT
//! The signal, operation by operation.

use super::operations::Step::{Barrier, Body, Counts, Function, Procedure, Rank};
use super::operations::compare;
use po_classic_units::Signal;
use std::test::Fail;

// Two signals count as one. The closed entry leaves none.
#[test]
fn one_call_takes_the_signal(rt: HostRuntime) -> Result<(), Fail> {
    let steps = [
        Counts(&[1]),
        Barrier(0),
        Body(0, 8),
        Function,
        Procedure(5),
        Barrier(0),
        Function,
        Procedure(6),
        Function,
        Counts(&[3]),
        Body(0, 7),
        Barrier(0),
        Function,
        Rank(0),
    ];
    compare(
        &rt,
        &mut Signal::new(),
        &steps,
        "closed; done 8; value 0; value 5; open; value 1; value 6; value 1; done 7; closed; value 0; rank 0; ",
    )
}
