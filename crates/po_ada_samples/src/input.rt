// SPDX-License-Identifier: MIT
//! Texts, each after a line with its name.

use anyhow::Result;
use std::alloc::Global;

/// What a line begins with that names the next text.
const MARK: &[u8] = b"-- text ";

/// A text and its name.
#[derive(Drop)]
pub struct Sample {
    pub name: String,
    pub bytes: Vec<u8>,
}

/// Returns the name on a line that begins a text; none on another line.
fn named(alloc: Global, line: &[u8]) -> Result<Option<String>> {
    let Some(rest) = line.strip_prefix(MARK) else {
        return Ok(None);
    };
    let mut name = String::new(alloc);
    for byte in rest {
        if byte.is_ascii_graphic() {
            name.push(char::from(*byte))?;
        }
    }
    Ok(Some(name))
}

/// Returns the texts of this input, each after a line `-- text NAME`.
pub fn samples(alloc: Global, bytes: &[u8]) -> Result<Vec<Sample>> {
    let mut list = Vec::new(alloc);
    for line in bytes.split(|byte| *byte == b'\n') {
        if let Some(name) = named(alloc, line)? {
            let bytes = Vec::new(alloc);
            list.push(Sample { name, bytes })?;
        } else if let Some(sample) = list.last_mut() {
            sample.bytes.extend_from_slice(line)?;
            sample.bytes.push(b'\n')?;
        }
    }
    Ok(list)
}
