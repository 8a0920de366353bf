// SPDX-License-Identifier: MIT
//! A worked run of a history with two cuts.

use po_calls::{Deadline, End};
use po_history::{Event, History};
use std::test::Fail;

/// Returns a simple call with this number on entry 2.
fn issue(n: u64) -> Event<i64> {
    Event::Issue {
        n,
        owner: 1,
        e: 2,
        v: -5,
        deadline: Deadline::Never,
    }
}

// The places go on, and what is owed and the outcomes stay. A number of no call has no outcome.
#[test]
fn runs_on_after_cuts(rt: HostRuntime) -> Result<(), Fail> {
    let mut history = History::<i64>::new(rt.alloc(), 10, 100)?;
    history.reserve_for(0)?;
    history.push_owed(issue(10));
    history.push_owed(Event::Serve(2));
    let before = history.outcome(10);
    history.set_outcome(10, End::Completed(7));
    history.release(1);
    assert_eq!(rt;
        (
            history.events(),
            history.first_place(),
            history.place(),
            history.owed()
        ),
        ([issue(10), Event::Serve(2)].as_slice(), 100, 102, 1)
    );
    let (volume, empty) = (history.cut()?, history.cut()?);
    history.push_owed(Event::Finalize);
    assert_eq!(rt;
        (
            volume.first_place(),
            volume.events(),
            empty.first_place(),
            empty.events()
        ),
        (
            100,
            [issue(10), Event::Serve(2)].as_slice(),
            102,
            [].as_slice()
        )
    );
    assert_eq!(rt;
        (
            history.events(),
            history.first_place(),
            history.place(),
            history.owed()
        ),
        ([Event::Finalize].as_slice(), 102, 103, 0)
    );
    let outcomes = [
        before,
        history.outcome(10),
        history.outcome(9),
        history.outcome(0),
        history.outcome(11),
        history.outcome(u64::MAX),
    ];
    assert_eq!(rt;
        outcomes,
        [None, Some(End::Completed(7)), None, None, None, None]
    );
    Ok(())
}
