// SPDX-License-Identifier: MIT
//! Why a line isn't carried out.

ghost use Rattle.po_ada_language.specs.declared.fault.Stop.TheVariants.{OutOfMemory};

use po_language::FaultKind;
use std::alloc::{AllocError, AllocFailed, Global};
use std::fmt::Write;

/// The most bytes of a word that are shown.
const SHOWN: usize = 40;

/// What is wrong with a line.
#[derive(Debug, Drop)]
pub struct LineFault {
    pub kind: FaultKind,
    /// What was expected, or no text.
    pub detail: String,
}

/// Why a line isn't carried out.
#[derive(Debug, Drop)]
pub enum Stop {
    /// The line has a fault.
    Fault(LineFault),
    /// The Ada text has faults: the lines that tell them.
    Text(String),
    /// The Ada text is in the file of this name, which hasn't been read.
    Unread(String),
    /// Memory ran out.
    OutOfMemory,
}

impl From<AllocError> for Stop {
    ghost use Rattle.std.specs.Prelude.{◌≡◌};

    ghost from_gives = { λ _ stop. stop ≡ OutOfMemory };

    fn from(_error: AllocError) -> Stop {
        Stop::OutOfMemory
    }
}

impl<T: Drop> From<AllocFailed<T>> for Stop {
    ghost use Rattle.std.specs.Prelude.{◌≡◌};

    ghost from_gives = { λ _ stop. stop ≡ OutOfMemory };

    fn from(_error: AllocFailed<T>) -> Stop {
        Stop::OutOfMemory
    }
}

/// Adds a byte as it is, or its number if it isn't printable.
fn push_byte(text: &mut String, byte: u8) -> Result<(), AllocError> {
    if byte.is_ascii_graphic() {
        text.push(char::from(byte))?;
        Ok(())
    } else {
        write!(text, "\\x{byte:02x}")
    }
}

/// Adds the word between quotes, cut short if it is long.
pub fn push_word(text: &mut String, word: &[u8]) -> Result<(), AllocError> {
    text.push_str("'")?;
    for byte in word.iter().take(SHOWN) {
        push_byte(text, *byte)?;
    }
    if word.len() > SHOWN {
        text.push_str("..")?;
    }
    text.push_str("'")
}

/// Adds the line that tells the fault of the line with this number.
pub fn push_fault(text: &mut String, number: u64, fault: &LineFault) -> Result<(), AllocError> {
    let kind = fault.kind;
    write!(text, "line {number}: {kind}")?;
    if !fault.detail.is_empty() {
        text.push_str(": ")?;
        text.push_str(fault.detail.as_str())?;
    }
    text.push_str("\n")
}

/// Returns the fault of a line in which this word, or none, stands where something else was expected.
fn mismatch(
    alloc: Global,
    kind: FaultKind,
    expected: &str,
    word: Option<&[u8]>,
) -> Result<LineFault, AllocError> {
    let mut detail = String::from_str(alloc, "expected ")?;
    detail.push_str(expected)?;
    match word {
        Some(word) => {
            detail.push_str(", and here is ")?;
            push_word(&mut detail, word)?;
        }
        None => detail.push_str(", and the line ends")?,
    }
    Ok(LineFault { kind, detail })
}

/// Returns why a line isn't carried out in which this word, or none, stands where something else was expected.
fn stop_at(alloc: Global, kind: FaultKind, expected: &str, word: Option<&[u8]>) -> Stop {
    match mismatch(alloc, kind, expected, word) {
        Ok(fault) => Stop::Fault(fault),
        Err(_) => Stop::OutOfMemory,
    }
}

/// Returns why an operation isn't carried out, in whose line this word, or none, stands where something else was expected.
pub fn bad_argument(alloc: Global, expected: &str, word: Option<&[u8]>) -> Stop {
    stop_at(alloc, FaultKind::BadArgument, expected, word)
}

/// Returns why no object is made by a `unit` line in which this word, or none, stands where something else was expected.
pub fn bad_unit(alloc: Global, expected: &str, word: Option<&[u8]>) -> Stop {
    stop_at(alloc, FaultKind::BadUnit, expected, word)
}

/// Returns the fault of this kind alone.
pub fn fault_of(alloc: Global, kind: FaultKind) -> Stop {
    Stop::Fault(LineFault {
        kind,
        detail: String::new(alloc),
    })
}

/// Returns the fault of a `unit` line whose object can't be made, for this reason.
pub fn no_object(alloc: Global, reason: &str) -> Stop {
    match String::from_str(alloc, reason) {
        Ok(detail) => Stop::Fault(LineFault {
            kind: FaultKind::BadUnit,
            detail,
        }),
        Err(_) => Stop::OutOfMemory,
    }
}
