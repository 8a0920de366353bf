// SPDX-License-Identifier: MIT
//! Cores whose histories are cut, compared with values worked out by hand.

use crate::transcript::{Run, Step, from, run_on, single};
use po_classic_units::{Buffer, Relay, Signal};
use po_core::Order;
use std::process::Abort;
use std::test::Fail;

/// Compares what a new buffer with room for one value answers.
fn on_buffer<R: Abort + AllocGlobal>(
    rt: &R,
    steps: &[Step],
    text: &str,
    events: &str,
) -> Result<(), Fail> {
    let run = Run {
        order: Order::Textual,
        start: from(1, 0),
        steps,
        text,
        events,
    };
    run_on(rt, Buffer::new(rt.alloc(), 1)?, run)
}

#[test]
fn volumes_follow_one_another(rt: HostRuntime) -> Result<(), Fail> {
    let (get, put) = (Step::Call(single(1), 0), Step::Call(single(0), 7));
    on_buffer(
        &rt,
        &[get, Step::Cut, put, Step::Outcome(1)],
        "#1; volume 0: Issue ; #2, 2 done 7, 1 done 7; some, 1 done 7; ",
        "Issue Serve(1) ",
    )?;
    on_buffer(
        &rt,
        &[
            get,
            Step::Cut,
            put,
            Step::Cut,
            Step::Cut,
            Step::Outcome(1),
            Step::Collect(0),
        ],
        "#1; volume 0: Issue ; #2, 2 done 7, 1 done 7; volume 1: Issue Serve(1) ; volume 3: ; some, 1 done 7; some, 1 done 7; ",
        "",
    )
}

#[test]
fn a_base_keeps_where_calls_arrived(rt: HostRuntime) -> Result<(), Fail> {
    // Both calls wait on Second, on which their first body requeued them. The procedure lets them go on to Third.
    let steps = [
        Step::Call(single(0), 5),
        Step::Tick(3),
        Step::Call(single(0), 6),
        Step::Base,
        Step::Cut,
        Step::Base,
        Step::Procedure(1),
        Step::Cut,
        Step::Base,
        Step::CallStatus,
    ];
    let run = Run {
        order: Order::Rotating,
        start: from(1, 10),
        steps: &steps,
        text: "#1; clock 3; #2; base 10: ended 0 next 1 clock 0 ran 0 last None finalized false; volume 10: Issue Tick(3) Issue ; base 13: 1 at 10 2 at 12 ended 0 next 3 clock 3 ran 0 last None finalized false; done 1; volume 13: Procedure Serve(1) Serve(1) ; base 16: 1 at 14 2 at 15 ended 0 next 3 clock 3 ran 1 last Some(1) finalized false; place 16; ",
        events: "",
    };
    run_on(&rt, Relay::new(), run)
}

#[test]
fn a_cut_shows_what_the_last_command_ended(rt: HostRuntime) -> Result<(), Fail> {
    let steps = [
        Step::Call(single(1), 0),
        Step::Finalize,
        Step::Cut,
        Step::Base,
        Step::EndOf(0),
    ];
    on_buffer(
        &rt,
        &steps,
        "#1; final, 1 program_error; volume 0: Issue Finalize ; base 2: ended 1, 1 program_error next 2 clock 0 ran 0 last None finalized true; ended, 1 program_error; ",
        "",
    )
}

#[test]
fn places_are_spent_at_their_end(rt: HostRuntime) -> Result<(), Fail> {
    let send = Step::Procedure(0);
    let steps = [
        send,
        send,
        Step::Cut,
        Step::Tick(1),
        Step::Call(single(0), 5),
        Step::Finalize,
        Step::CallStatus,
    ];
    let run = Run {
        order: Order::Textual,
        start: from(1, 18446744073709551614),
        steps: &steps,
        text: "done 0; refused 8; refused 8; clock 1; #1, 1 done 5; final; place 18446744073709551618; ",
        events: "Procedure Tick(1) Issue Finalize ",
    };
    run_on(&rt, Signal::new(), run)
}
