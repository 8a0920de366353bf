// SPDX-License-Identifier: MIT
//! The order of refusals, what they leave unchanged, and their texts.

use crate::transcript::{Run, Step, from, run_on};
use po_classic_units::Allocator;
use po_core::{MakeError, Order, Refusal, Start};
use po_unit::EntryRef;
use std::fmt::Write;
use std::process::Abort;
use std::test::Fail;

/// A call on no entry of the allocator.
const NOTHING: Step = Step::Call(
    EntryRef {
        declaration: 3,
        index: None,
    },
    1,
);

/// A call on the private family Grant, with an index that it doesn't have.
const GRANT: Step = Step::Call(
    EntryRef {
        declaration: 2,
        index: Some(9),
    },
    1,
);

/// A call on the single entry Request, with an index.
const INDEXED: Step = Step::Call(
    EntryRef {
        declaration: 0,
        index: Some(1),
    },
    1,
);

/// A call on the entry Request.
const REQUEST: Step = Step::Call(
    EntryRef {
        declaration: 0,
        index: None,
    },
    1,
);

/// A call on the entry Claim, whose calls are requeued without abort.
const CLAIM: Step = Step::Call(
    EntryRef {
        declaration: 1,
        index: None,
    },
    1,
);

/// A run of a procedure that the allocator doesn't have.
const NO_PROCEDURE: Step = Step::Run(1, 1);

/// A run of the procedure Release.
const RELEASE: Step = Step::Procedure(1);

/// Compares what a new allocator of one answers.
fn on_allocator<R: Abort + AllocGlobal>(
    rt: &R,
    start: Start,
    steps: &[Step],
    text: &str,
    events: &str,
) -> Result<(), Fail> {
    let run = Run {
        order: Order::Textual,
        start,
        steps,
        text,
        events,
    };
    run_on(rt, Allocator::new(1), run)
}

// If several conditions hold, the first in the order of a call is answered: here no number is left for a call, and no place for
// a procedure or a cut; after the finalization the object is finalized too.
#[test]
fn refusals_come_by_rising_number(rt: HostRuntime) -> Result<(), Fail> {
    let start = from(18446744073709551615, 18446744073709551615);
    let steps = [
        NOTHING,
        GRANT,
        INDEXED,
        REQUEST,
        NO_PROCEDURE,
        RELEASE,
        Step::Cut,
        Step::Cancel(0),
        Step::Cancel(18446744073709551615),
        Step::Function(0),
        Step::Count(EntryRef {
            declaration: 3,
            index: Some(1),
        }),
        Step::Count(EntryRef {
            declaration: 2,
            index: Some(9),
        }),
        Step::Count(EntryRef {
            declaration: 2,
            index: Some(1),
        }),
        Step::Finalize,
        NOTHING,
        GRANT,
        INDEXED,
        REQUEST,
        NO_PROCEDURE,
        RELEASE,
        Step::Cut,
    ];
    on_allocator(
        &rt,
        start,
        &steps,
        "refused 1; refused 2; refused 3; refused 8; refused 4; refused 8; refused 8; refused 5; refused 5; \
         value 1; refused 1; refused 3; count 0; \
         final; refused 1; refused 2; refused 3; refused 7; refused 4; refused 7; refused 8; ",
        "Finalize ",
    )
}

// After a refusal, the calls ended by the latest command that wasn't refused are still shown. The release gets the last place
// that a procedure may have.
#[test]
fn refusals_leave_what_was_ended(rt: HostRuntime) -> Result<(), Fail> {
    let start = from(1, 18446744073709551609);
    let steps = [
        REQUEST,
        CLAIM,
        CLAIM,
        RELEASE,
        NOTHING,
        Step::EndedNow,
        GRANT,
        Step::EndedNow,
        INDEXED,
        Step::EndedNow,
        NO_PROCEDURE,
        Step::EndedNow,
        Step::Cancel(4),
        Step::EndedNow,
        Step::Cancel(1),
        Step::EndedNow,
        RELEASE,
        Step::EndedNow,
        Step::Cut,
        Step::EndedNow,
        Step::Finalize,
        REQUEST,
        Step::EndedNow,
    ];
    on_allocator(
        &rt,
        start,
        &steps,
        "#1, 1 done 1; #2; #3; done 1, 2 done 1; \
         refused 1; now, 2 done 1 of 0; refused 2; now, 2 done 1 of 0; refused 3; now, 2 done 1 of 0; \
         refused 4; now, 2 done 1 of 0; refused 5; now, 2 done 1 of 0; refused 6; now, 2 done 1 of 0; \
         refused 8; now, 2 done 1 of 0; refused 8; now, 2 done 1 of 0; \
         final, 3 program_error; refused 7; now, 3 program_error of 0; ",
        "Issue Serve(2) Issue Issue Procedure Serve(2) Finalize ",
    )
}

#[test]
fn refusals_have_texts(rt: HostRuntime) -> Result<(), Fail> {
    let refusals = [
        Refusal::NoSuchEntry,
        Refusal::PrivateEntry,
        Refusal::BadIndex,
        Refusal::NoSuchOperation,
        Refusal::UnknownCall,
        Refusal::AlreadyEnded,
        Refusal::Finalized,
        Refusal::NumbersSpent,
        Refusal::OutOfMemory,
        Refusal::NoCall,
        Refusal::TooManyCalls,
    ];
    let mut text = String::new(rt.alloc());
    for refusal in refusals {
        write!(text, "{} {refusal}; ", refusal.number())?;
    }
    write!(
        text,
        "{}; {}",
        MakeError::ShapeMismatch,
        MakeError::OutOfMemory
    )?;
    assert_eq!(rt;
        text.as_str(),
        "1 the object has no such entry; 2 the entry is private: a requeue alone can name it; \
         3 the index is missing, not wanted, or out of range; 4 the object has no such procedure or function; \
         5 no call has that number; 6 the call has ended; 7 the object is finalized; \
         8 no number is left for a call, or no place for an event; 9 out of memory; \
         10 no call of that seat is queued; 11 too many calls; \
         the unit and its shape have different numbers of entries; out of memory"
    );
    Ok(())
}
