// SPDX-License-Identifier: MIT
//! Scripts whose allocations are refused: such a run ends because memory runs out, and what it wrote is the answers of the
//! first lines, up to some line.

use crate::refusals::Refusals;
use po_language::RunError;
use po_script::run_script;
use po_streams::OverStd;
use std::io::{self, Print};

/// A script on the pulse.
const PULSE: &str = "unit pulse\n\
                     call Wait 1\n\
                     call Wait 2\n\
                     call Signal 3\n\
                     call Signal 4\n";

/// What its lines write.
const PULSE_ANSWERS: [&str; 4] = [
    "#1\n",
    "#2\n",
    "#3\n1 done 1\n2 done 2\n3 done 3\n",
    "#4\n4 done 4\n",
];

/// A script on the allocator, which is finalized midway.
const ALLOCATOR: &str = "unit allocator 1\n\
                         call Request 1\n\
                         call Request 1\n\
                         call Claim 1\n\
                         timed 9 Request 1\n\
                         final\n\
                         call Request 1\n\
                         proc Release 1\n\
                         func State 0\n\
                         tick 1\n\
                         final\n\
                         cancel 2\n\
                         cancel 5\n\
                         show\n";

/// What its lines write.
const ALLOCATOR_ANSWERS: [&str; 13] = [
    "#1\n1 done 1\n",
    "#2\n",
    "#3\n",
    "#4\n",
    "final\n2 program_error\n3 program_error\n4 program_error\n",
    "refused 7\n",
    "refused 7\n",
    "refused 7\n",
    "refused 7\n",
    "refused 7\n",
    "refused 6\n",
    "refused 5\n",
    "Request 0\nClaim 0\nGrant(1) 0\nclock 0\nnext 5\n",
];

/// How many bytes a script may write.
const MOST: usize = 512;

/// Returns whether the text is the answers of the first lines, up to some line.
fn is_of_lines(text: &[u8], answers: &[&str]) -> bool {
    let mut rest = text;
    for answer in answers {
        if rest.is_empty() {
            return true;
        }
        let Some(behind) = rest.strip_prefix(answer.as_bytes()) else {
            return false;
        };
        rest = behind;
    }
    rest.is_empty()
}

/// Runs the script, and writes its answers to `text`, which takes no memory. Returns its fault, and how many bytes were
/// written.
fn write<R: AllocGlobal>(rt: &R, script: &str, text: &mut [u8]) -> (Result<(), RunError>, usize) {
    let most = text.len();
    let mut reader = OverStd::new(script.as_bytes());
    let mut writer = OverStd::new(text);
    let ran = run_script(rt.alloc(), &mut reader, &mut writer);
    (ran, most.saturating_sub(writer.into_inner().len()))
}

/// Runs the script, once more if memory runs out, prints what it wrote, and counts how often memory ran out.
fn print<R: Print + AllocGlobal>(
    rt: &R,
    script: &str,
    answers: &[&str],
    refusals: &mut Refusals,
) -> io::Result<()> {
    for _ in 0..2 {
        let mut bytes = [0u8; MOST];
        let (ran, count) = write(rt, script, &mut bytes);
        let text = &bytes[..count.min(MOST)];
        match ran {
            Ok(()) => return print!(rt; "{}", str::from_utf8(text).unwrap_or("no text\n")),
            Err(RunError::Memory) => refusals.note(is_of_lines(text, answers)),
            Err(fault) => return println!(rt; "{fault}"),
        }
    }
    println!(rt; "refused twice")
}

/// Runs both scripts, and counts how often memory runs out.
pub(crate) fn run<R: Print + AllocGlobal>(rt: &R, refusals: &mut Refusals) -> io::Result<()> {
    print(rt, PULSE, &PULSE_ANSWERS, refusals)?;
    print(rt, ALLOCATOR, &ALLOCATOR_ANSWERS, refusals)
}
