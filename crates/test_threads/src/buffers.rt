// SPDX-License-Identifier: MIT
//! The buffer for one value, on which most scenes are played.

use crate::scenes::Made;
use po_classic_units::{Buffer, ScriptUnit};
use std::alloc::{AllocError, Global};

/// The entry that puts a value into the buffer.
pub(crate) const PUT: u16 = 0;

/// The entry that takes a value from the buffer.
pub(crate) const GET: u16 = 1;

/// Makes an empty buffer for one value.
pub(crate) fn buffer(alloc: Global) -> Result<Made<Buffer>, AllocError> {
    let unit = Buffer::new(alloc, 1)?;
    let shape = unit.shape(alloc).map_err(|_| AllocError)?;
    Ok((unit, shape))
}
