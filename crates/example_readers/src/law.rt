// SPDX-License-Identifier: MIT
//! The law of readers and writers, for every history of such an object.

ghost use Rattle.std.specs.Prelude.{◌≡◌, ◌++◌};
ghost use Rattle.po_history.specs.Histories.{joined};
ghost use Rattle.po_core.specs.Cutting.{AreVolumes};
ghost use Rattle.po_receipts.specs.OneHistory.{IsWholeLog};
ghost use Rattle.example_readers.specs.Exclusion.{WritersAreAlone};
ghost use Rattle.example_readers.specs.ReadersWriters.{new_readers_writers, readers_writers_meaning};

use crate::readers_writers::ReadersWriters;
use po_core::{Core, Event, Record, Volume};
use po_log::Seen;

/// States the law: at each point in the history of every object of readers and writers that began with nobody inside, at most
/// one writer is inside, and while one is, no reader is.
///
/// The history is all volumes that were cut off, in order, and then the present events.
pub fn exclusion_law<R: Record<ReadersWriters>>(
    core: &Core<ReadersWriters, R>,
    volumes: &[Volume<u64>],
)
    requires new { core.now.object.setup.opening ≡ new_readers_writers core.now.object.setup.opening.most }
    requires volumes { AreVolumes readers_writers_meaning core.now.object volumes.now }
    ensures law { WritersAreAlone core.now.object.setup (joined volumes.now ++ core.now.object.events) }
{
    // Only for the prover: by the headline the history is legal.
    core.headline();
}

/// States the same law for the whole history of an object, whatever was cut off.
pub fn exclusion_law_of_log<R: Record<ReadersWriters>>(
    core: &Core<ReadersWriters, R>,
    log: &Seen<Event<u64>>,
)
    requires new { core.now.object.setup.opening ≡ new_readers_writers core.now.object.setup.opening.most }
    requires whole { IsWholeLog readers_writers_meaning core.now.object log.now.items }
    ensures law { WritersAreAlone core.now.object.setup log.now.items }
{
    // Only for the prover: by the headline the history is legal.
    core.headline();
}
