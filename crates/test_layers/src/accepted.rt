// SPDX-License-Identifier: MIT
//! A worked run of accepted calls: there is room for one, after it is collected for one again, and never for two.

use po_calls::{Call, CallStatus, Deadline, End};
use po_engine::Calls;
use std::test::Fail;

#[test]
fn room_is_left_to_one(rt: HostRuntime) -> Result<(), Fail> {
    let mut calls = Calls::new(rt.alloc(), 1, 5)?;
    calls.reserve()?;
    assert!(rt; calls.has_room());
    let call = Call {
        number: calls.next_number(),
        owner: 4,
        entry: 0,
        value: 10,
        without_abort: false,
        aborted: false,
        deadline: Deadline::Never,
    };
    let ticket = calls.add(call);
    calls.end(call, End::Completed(11));
    assert_eq!(rt; calls.status(ticket), CallStatus::Ended(End::Completed(11)));
    assert_eq!(rt; calls.collect(ticket), Some(End::Completed(11)));
    assert!(rt; calls.has_room());
    let number = calls.next_number();
    calls.begin();
    calls.add(Call { number, ..call });
    assert!(rt; !calls.has_room());
    Ok(())
}
