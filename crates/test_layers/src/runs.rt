// SPDX-License-Identifier: MIT
//! Runs of whole cores that no script can express, compared with values worked out by hand: what tickets answer, the last
//! number, the owner of an end, and which events a run leaves.

use crate::transcript::{Run, Step, from, run_on, single};
use po_classic_units::{Buffer, Relay, ScriptUnit, Trap};
use po_core::{Core, MakeError, Order, Start};
use po_unit::EntryRef;
use std::test::Fail;

#[test]
fn a_collected_ticket_is_unknown(rt: HostRuntime) -> Result<(), Fail> {
    let steps = [
        Step::Call(single(1), 0),
        Step::EndOf(0),
        Step::Collect(0),
        Step::Call(single(0), 7),
        Step::EndOf(0),
        Step::Collect(0),
        Step::Collect(0),
        Step::EndOf(0),
        Step::Call(single(0), 8),
        Step::EndOf(0),
        Step::Outcome(1),
    ];
    let run = Run {
        order: Order::Textual,
        start: from(1, 0),
        steps: &steps,
        text: "#1; waiting; none; #2, 2 done 7, 1 done 7; ended, 1 done 7; some, 1 done 7; none; unknown; #3, 3 done 8; unknown; some, 1 done 7; ",
        events: "Issue Issue Serve(1) Issue ",
    };
    run_on(&rt, Buffer::new(rt.alloc(), 2)?, run)
}

#[test]
fn numbers_are_spent_at_their_end(rt: HostRuntime) -> Result<(), Fail> {
    let put = Step::Call(single(0), 7);
    let run = Run {
        order: Order::Textual,
        start: from(18446744073709551614, 0),
        steps: &[put, put],
        text: "#18446744073709551614, 18446744073709551614 done 7; refused 8; ",
        events: "Issue ",
    };
    run_on(&rt, Buffer::new(rt.alloc(), 1)?, run)
}

#[test]
fn a_mismatched_shape_is_refused(rt: HostRuntime) -> Result<(), Fail> {
    let shape = Relay::new().shape(rt.alloc())?;
    let unit = Buffer::new(rt.alloc(), 1)?;
    let made = Core::new(rt.alloc(), unit, shape, Order::Textual, 1);
    assert_eq!(rt; made.err(), Some(MakeError::ShapeMismatch));
    Ok(())
}

// A conditional call that had to wait because of a requeue without abort is cancelled in an event of its own, after the one
// that requeued it with abort.
#[test]
fn a_late_cancellation_is_an_event(rt: HostRuntime) -> Result<(), Fail> {
    let steps = [
        Step::Timed(0, single(0), 5),
        Step::Procedure(1),
        Step::Timed(0, single(0), 5),
        Step::Procedure(2),
    ];
    let run = Run {
        order: Order::Oldest,
        start: from(1, 0),
        steps: &steps,
        text: "#1; done 1, 1 cancelled; #2, 2 cancelled; done 2; ",
        events: "Issue Procedure Serve(1) Expire(1) Issue Serve(1) Expire(2) Procedure ",
    };
    run_on(&rt, Relay::new(), run)
}

// A call that ends because a queue is full, and a marked call that is requeued with abort, end in the event that brought them
// there.
#[test]
fn ends_at_a_queue_are_no_events(rt: HostRuntime) -> Result<(), Fail> {
    let steps = [
        Step::Call(single(0), 5),
        Step::Call(single(0), 6),
        Step::Cancel(1),
        Step::Procedure(1),
        Step::Call(single(0), 7),
        Step::Call(single(0), 8),
        Step::Procedure(0),
        Step::Call(single(0), 9),
        Step::Cancel(5),
        Step::Procedure(1),
        Step::Procedure(2),
    ];
    let run = Run {
        order: Order::Textual,
        start: Start {
            max_queue: Some(1),
            ..from(1, 0)
        },
        steps: &steps,
        text: "#1; #2, 2 program_error; kept; done 1, 1 cancelled; #3; #4, 4 program_error; done 0; #5; kept; done 1, 5 cancelled; done 2, 3 done 7; ",
        events: "Issue Issue Cancel(1) Procedure Serve(1) Issue Serve(1) Issue Serve(1) Procedure Issue Cancel(5) Procedure Serve(1) Procedure Serve(2) ",
    };
    run_on(&rt, Relay::new(), run)
}

/// Returns the entry Wait of the trap with this index.
fn wait(index: i32) -> EntryRef {
    EntryRef {
        declaration: 0,
        index: Some(index),
    }
}

// The end of a call belongs to its owner, whoever's command caused it: a completion and an exception, an expiration, a
// cancellation, and Program_Error of all queued calls. A tick that doesn't raise the clock is an event too.
#[test]
fn an_end_is_its_owners(rt: HostRuntime) -> Result<(), Fail> {
    let (fail, exact) = (single(1), single(2));
    let steps = [
        Step::By(3),
        Step::Call(wait(1), 10),
        Step::By(5),
        Step::Call(fail, 9),
        Step::EndedNow,
        Step::Procedure(0),
        Step::By(7),
        Step::Timed(5, wait(1), 1),
        Step::By(8),
        Step::Call(exact, 2),
        Step::Tick(5),
        Step::EndedNow,
        Step::Tick(4),
        Step::Cancel(4),
        Step::EndedNow,
        Step::By(1),
        Step::Call(wait(2), 1),
        Step::By(2),
        Step::Call(exact, 2),
        Step::By(4),
        Step::Procedure(13),
        Step::EndedNow,
    ];
    let run = Run {
        order: Order::Rotating,
        start: from(1, 0),
        steps: &steps,
        text: "#1; #2, 2 raised 9, 1 done 10; now, 2 raised 9 of 5, 1 done 10 of 3; done 0; #3; #4; clock 5, 3 cancelled; now, 3 cancelled of 7; clock 5; cancelled, 4 cancelled; now, 4 cancelled of 8; #5; #6; done 13, 5 program_error, 6 program_error; now, 5 program_error of 1, 6 program_error of 2; ",
        events: "Issue Issue Serve(0) Procedure Issue Issue Tick(5) Expire(3) Tick(4) Cancel(4) Issue Issue Procedure Break(1) ",
    };
    run_on(&rt, Trap::new(), run)
}
