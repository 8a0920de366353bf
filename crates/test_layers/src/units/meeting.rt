// SPDX-License-Identifier: MIT
//! The meeting, operation by operation.

use super::operations::Step::{Barrier, Body, Counts, Function, Rank};
use super::operations::compare;
use po_classic_units::Meeting;
use std::test::Fail;

// The barrier opens at three calls, and closes after the last of them.
#[test]
fn calls_go_together(rt: HostRuntime) -> Result<(), Fail> {
    let steps = [
        Counts(&[0]),
        Barrier(0),
        Counts(&[2]),
        Barrier(0),
        Function,
        Counts(&[4]),
        Barrier(0),
        Counts(&[3]),
        Barrier(0),
        Counts(&[2]),
        Body(0, 5),
        Barrier(0),
        Counts(&[1]),
        Body(0, 6),
        Barrier(0),
        Counts(&[0]),
        Body(0, 7),
        Barrier(0),
        Counts(&[1]),
        Barrier(0),
        Rank(0),
    ];
    compare(
        &rt,
        &mut Meeting::new(3),
        &steps,
        "closed; closed; value 2; closed; open; done 5; open; done 6; open; done 7; closed; closed; rank 0; ",
    )
}

// If the body is run although the entry is closed, the others may go.
#[test]
fn the_smallest_and_the_greatest_meeting(rt: HostRuntime) -> Result<(), Fail> {
    let steps = [
        Counts(&[1]),
        Barrier(0),
        Counts(&[0]),
        Body(0, 4),
        Barrier(0),
    ];
    compare(&rt, &mut Meeting::new(1), &steps, "open; done 4; closed; ")?;
    let steps = [
        Counts(&[1_024]),
        Barrier(0),
        Counts(&[1]),
        Barrier(0),
        Body(0, 8),
        Barrier(0),
    ];
    compare(
        &rt,
        &mut Meeting::new(1_024),
        &steps,
        "open; closed; done 8; open; ",
    )
}
