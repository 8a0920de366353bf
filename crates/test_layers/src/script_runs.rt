// SPDX-License-Identifier: MIT
//! Runs a script, and returns what is seen of its run.

use po_language::RunError;
use po_script::run_script;
use po_streams::OverStd;
use std::alloc::Global;
use std::test::Fail;

/// Returns the fault's text, which is empty if there is no fault.
pub(crate) fn text_of(alloc: Global, ran: Result<(), RunError>) -> Result<String, Fail> {
    match ran {
        Ok(()) => Ok(String::new(alloc)),
        Err(fault) => Ok(fault.to_string(alloc)?),
    }
}

/// Returns the text of the run's fault, and what was written.
pub(crate) fn run(alloc: Global, script: &[u8]) -> Result<(String, Vec<u8>), Fail> {
    let mut reader = OverStd::new(script);
    let mut writer = OverStd::new(Vec::new(alloc));
    let ran = run_script(alloc, &mut reader, &mut writer);
    Ok((text_of(alloc, ran)?, writer.into_inner()))
}
