// SPDX-License-Identifier: MIT
//! The known word that is nearest to an unknown one.

use std::alloc::{AllocError, Global};
use strsim::osa_distance;

/// The most bytes of a word for which a nearest one is looked for.
const LONGEST: usize = 32;

/// Returns the word in small letters, without bytes that aren't ASCII.
fn lowered(alloc: Global, word: &[u8]) -> Result<String, AllocError> {
    let mut text = String::new(alloc);
    for byte in word {
        if byte.is_ascii() {
            text.push(char::from(byte.to_ascii_lowercase()))?;
        }
    }
    Ok(text)
}

/// Returns the known word that is the fewest edits from this one, the first if there are several. At most one edit is allowed
/// in a word of up to four bytes, and one more for each five bytes. Capital letters count as small ones. A known word has no
/// nearest one.
pub(crate) fn nearest(
    alloc: Global,
    word: &[u8],
    known: &[&'static str],
) -> Result<Option<&'static str>, AllocError> {
    if word.len() > LONGEST || known.iter().any(|other| other.as_bytes() == word) {
        return Ok(None);
    }
    let word = lowered(alloc, word)?;
    let mut least = 2 + word.len() / 5;
    let mut found = None;
    for candidate in known {
        let other = lowered(alloc, candidate.as_bytes())?;
        let distance = osa_distance(alloc, word.as_str(), other.as_str())?;
        if distance < least {
            least = distance;
            found = Some(*candidate);
        }
    }
    Ok(found)
}
