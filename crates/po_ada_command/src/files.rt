// SPDX-License-Identifier: MIT
//! Reads files.

use po_ada_script::RunFault;
use po_ada_session::{BODY, DECLARATION, TextFile};
use std::alloc::{AllocError, Global};
use std::fs;
use std::io::{Error, ErrorKind};
use std::rt::Files;

/// Returns why there is nothing of the file of this name, if reading it failed so.
fn fault_of(name: String, error: Error) -> RunFault {
    match error.kind() {
        ErrorKind::OutOfMemory => RunFault::OutOfMemory,
        _ => RunFault::Unread(name),
    }
}

/// Reads the file of this name alone.
fn open_alone<R: Files + AllocGlobal>(rt: &R, name: String) -> Result<TextFile, RunFault> {
    match fs::read(rt, name.as_str()) {
        Ok(bytes) => Ok(TextFile::new(name, bytes)),
        Err(error) => Err(fault_of(name, error)),
    }
}

/// Reads the file of this name alone, if there is one.
fn open_other<R: Files + AllocGlobal>(
    rt: &R,
    name: Option<String>,
) -> Result<Option<TextFile>, RunFault> {
    let Some(name) = name else {
        return Ok(None);
    };
    match fs::read(rt, name.as_str()) {
        Ok(bytes) => Ok(Some(TextFile::new(name, bytes))),
        Err(error) if error.kind() == ErrorKind::NotFound => Ok(None),
        Err(error) => Err(fault_of(name, error)),
    }
}

/// Returns the name with the other ending, if it has this one.
fn renamed(
    alloc: Global,
    name: &str,
    ending: &str,
    other: &str,
) -> Result<Option<String>, AllocError> {
    match name.strip_suffix(ending) {
        Some(stem) => Ok(Some(format!(in alloc; "{stem}{other}")?)),
        None => Ok(None),
    }
}

/// Reads the file of this name. If it is NAME.ads or NAME.adb, and there are both, both are read, and make one text: a package's
/// declaration, and after it its body.
pub fn open<R: Files + AllocGlobal>(rt: &R, name: String) -> Result<TextFile, RunFault> {
    let alloc = rt.alloc();
    let declaration = renamed(alloc, name.as_str(), BODY, DECLARATION)?;
    let body = renamed(alloc, name.as_str(), DECLARATION, BODY)?;
    let file = open_alone(rt, name)?;
    if let Some(declaration) = open_other(rt, declaration)? {
        return Ok(file.after(declaration)?);
    }
    match open_other(rt, body)? {
        Some(body) => Ok(body.after(file)?),
        None => Ok(file),
    }
}
