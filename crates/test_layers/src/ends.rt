// SPDX-License-Identifier: MIT
//! Readers that give the script in pieces or fail, and writers that take the answers in pieces or fail.

use crate::fakes::{Asked, Narrow, Pieces};
use crate::script_runs::text_of;
use po_language::RunError;
use po_script::run_script;
use po_streams::{OverStd, Sink, Source};
use std::alloc::Global;
use std::process::Abort;
use std::test::Fail;

/// A script.
const SCRIPT: &str = "unit buffer 2\ncall Get 0\ncall Put 7\n";

/// What the script writes.
const ANSWERS: &str = "#1\n#2\n2 done 7\n1 done 7\n";

/// The sizes of the pieces that are read or written.
const SIZES: [usize; 4] = [1, 2, 3, 4096];

/// Runs the script in pieces of each size, from a reader that ends or fails after the last one.
fn read_in_pieces(
    rt: &impl Abort,
    alloc: Global,
    script: &str,
    fails: bool,
    text: &str,
    fault: &str,
) -> Result<(), Fail> {
    for size in SIZES {
        let mut reader = Pieces::new(script.as_bytes(), size, fails);
        let mut writer = OverStd::new(Vec::new(alloc));
        let ran = run_script(alloc, &mut reader, &mut writer);
        assert_eq!(rt; text_of(alloc, ran)?.as_str(), fault, "{size}: {script}");
        assert_eq!(rt;
            writer.into_inner().as_slice(),
            text.as_bytes(),
            "{size}: {script}"
        );
    }
    Ok(())
}

/// In which pieces the script is read doesn't matter.
#[test]
fn reads_in_pieces(rt: HostRuntime) -> Result<(), Fail> {
    read_in_pieces(&rt, rt.alloc(), SCRIPT, false, ANSWERS, "")?;
    let script = "unit buffer 2\ncall Put 1\ncall Get 2\ncall Put";
    let text = "#1\n1 done 1\n#2\n2 done 1\n";
    read_in_pieces(&rt, rt.alloc(), script, false, text, "line 4: bad argument")
}

/// If a read fails, the lines before it are answered, and the line that was not read whole is ignored.
#[test]
fn reads_up_to_a_failure(rt: HostRuntime) -> Result<(), Fail> {
    for (script, text) in [
        ("", ""),
        ("hello", ""),
        ("unit buffer 1\ncall Put 7\ncal", "#1\n1 done 7\n"),
        ("unit buffer 1\ncall Put 7\ncall Put", "#1\n1 done 7\n"),
        ("unit buffer 1\ncall Put 7", ""),
        (SCRIPT, ANSWERS),
    ] {
        read_in_pieces(&rt, rt.alloc(), script, true, text, "read failed")?;
    }
    Ok(())
}

/// Runs the script into a writer that takes `size` bytes a call, and has room for `room` bytes.
fn write_into(
    alloc: Global,
    size: usize,
    room: usize,
    fails: bool,
) -> Result<(String, Vec<u8>), Fail> {
    let mut writer = Narrow::new(alloc, size, room, fails);
    let ran = run_script(alloc, &mut OverStd::new(SCRIPT.as_bytes()), &mut writer);
    Ok((text_of(alloc, ran)?, writer.bytes))
}

/// A writer with room for all answers gets them, however few bytes it takes at a time.
#[test]
fn writes_in_pieces(rt: HostRuntime) -> Result<(), Fail> {
    assert_eq!(rt; ANSWERS.len(), 24);
    for size in SIZES {
        for fails in [false, true] {
            let (fault, written) = write_into(rt.alloc(), size, 24, fails)?;
            assert_eq!(rt; fault.as_str(), "", "{size}");
            assert_eq!(rt; written.as_slice(), ANSWERS.as_bytes(), "{size}");
        }
    }
    Ok(())
}

/// A writer that has no room for all answers, and then fails or takes none, has their first bytes.
#[test]
fn writes_up_to_a_failure(rt: HostRuntime) -> Result<(), Fail> {
    for room in 0..24 {
        for size in SIZES {
            for fails in [false, true] {
                let (fault, written) = write_into(rt.alloc(), size, room, fails)?;
                assert_eq!(rt; fault.as_str(), "write failed", "{room}, {size}");
                assert_eq!(rt; written.len(), room, "{room}, {size}");
                assert!(rt;
                    ANSWERS.as_bytes().starts_with(written.as_slice()),
                    "{room}, {size}"
                );
            }
        }
    }
    Ok(())
}

/// Readers and writers of std that fail, and the text for running out of memory.
#[test]
fn sees_failures_of_std(rt: HostRuntime) -> Result<(), Fail> {
    let mut writer = OverStd::new(Vec::new(rt.alloc()));
    let ran = run_script(rt.alloc(), &mut OverStd::new(Asked::new(true)), &mut writer);
    assert_eq!(rt; text_of(rt.alloc(), ran)?.as_str(), "read failed");

    let mut reader = OverStd::new(SCRIPT.as_bytes());
    let ran = run_script(rt.alloc(), &mut reader, &mut OverStd::new(Asked::new(true)));
    assert_eq!(rt; text_of(rt.alloc(), ran)?.as_str(), "write failed");

    let ran = Err(RunError::Memory);
    assert_eq!(rt; text_of(rt.alloc(), ran)?.as_str(), "out of memory");
    Ok(())
}

/// Each call over std calls what is below it once, and fails exactly if that fails.
#[test]
fn asks_std_once_a_call(rt: HostRuntime) {
    for fails in [false, true] {
        let mut over = OverStd::new(Asked::new(fails));
        let mut buffer = [0u8; 2];
        for _ in 0..3 {
            assert_eq!(rt; over.read(&mut buffer).is_err(), fails);
            assert_eq!(rt; over.write(b"ab").is_err(), fails);
        }
        assert_eq!(rt; over.into_inner().calls, 6);
    }
}
