// SPDX-License-Identifier: MIT
//! The buffer, operation by operation.

use super::operations::Step::{Barrier, Body, Counts, Function, Rank};
use super::operations::compare;
use po_classic_units::Buffer;
use std::test::Fail;

// A Get of an empty buffer and a Put into a full one change nothing.
#[test]
fn values_leave_as_they_came(rt: HostRuntime) -> Result<(), Fail> {
    let steps = [
        Counts(&[0, 0]),
        Barrier(0),
        Barrier(1),
        Body(1, 8),
        Function,
        Body(0, 5),
        Barrier(1),
        Body(0, 6),
        Barrier(0),
        Body(0, 4),
        Function,
        Body(1, 99),
        Body(0, 7),
        Body(1, 99),
        Body(1, 99),
        Function,
        Rank(0),
        Rank(1),
    ];
    compare(
        &rt,
        &mut Buffer::new(rt.alloc(), 2)?,
        &steps,
        "open; closed; done 8; value 0; done 5; open; done 6; closed; done 4; value 2; \
         done 5; done 7; done 6; done 7; value 0; rank 0; rank 0; ",
    )
}
