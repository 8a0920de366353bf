// SPDX-License-Identifier: MIT
//! A line without an end, and a script of many lines.

use crate::fakes::{Endless, Narrow};
use crate::script_runs::{run, text_of};
use po_script::run_script;
use std::fmt::Write;
use std::test::Fail;

/// The read that gives one byte too many for a line is the last.
#[test]
fn stops_at_a_byte_too_many(rt: HostRuntime) -> Result<(), Fail> {
    let mut script = Endless { reads: 0 };
    let mut writer = Narrow::new(rt.alloc(), 1, 0, true);
    let ran = run_script(rt.alloc(), &mut script, &mut writer);
    assert_eq!(rt; text_of(rt.alloc(), ran)?.as_str(), "line 1: too long");
    assert_eq!(rt; script.reads, 4097);
    Ok(())
}

/// How often the long script puts a value into the buffer and gets it back.
const ROUNDS: u64 = 10000;

/// A script of 20,001 lines ends well within the time of a test.
#[test]
fn runs_many_calls(rt: HostRuntime) -> Result<(), Fail> {
    let mut script = String::from_str(rt.alloc(), "unit buffer 1\n")?;
    let mut text = String::new(rt.alloc());
    for round in 0..ROUNDS {
        let put = 2 * round + 1;
        let get = 2 * round + 2;
        write!(script, "call Put {round}\ncall Get 0\n")?;
        write!(
            text,
            "#{put}\n{put} done {round}\n#{get}\n{get} done {round}\n"
        )?;
    }
    let (fault, written) = run(rt.alloc(), script.as_bytes())?;
    assert_eq!(rt; fault.as_str(), "");
    assert!(rt; written.as_slice() == text.as_bytes());
    Ok(())
}
