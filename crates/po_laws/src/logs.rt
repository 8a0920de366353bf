// SPDX-License-Identifier: MIT
//! The same laws, of the whole histories of closed objects, with a record in memory or none.

ghost use Rattle.po_classic_units.specs.Allocator.{IsNewAllocator, allocator_meaning};
ghost use Rattle.po_classic_units.specs.Buffer.{IsNewBuffer, buffer_meaning};
ghost use Rattle.po_classic_units.specs.Meeting.{IsNewMeeting, meeting_meaning};
ghost use Rattle.po_classic_units.specs.Pulse.{IsNewPulse, pulse_meaning};
ghost use Rattle.po_receipts.specs.OneHistory.{IsWholeLog};
ghost use Rattle.po_laws.specs.AllocatorLaw.{AllocatorStaysWithin};
ghost use Rattle.po_laws.specs.BufferLaw.{BufferIsFifo};
ghost use Rattle.po_laws.specs.MeetingLaw.{MeetingGathers};
ghost use Rattle.po_laws.specs.PulseLaw.{PulseReleasesAll};

use po_classic_units::{Allocator, Buffer, Meeting, Pulse};
use po_core::{Core, Event, Record};
use po_log::Seen;

/// Proves the law of the buffer, as in `buffer_law`, of the whole history of an object.
pub fn buffer_law_of_log<R: Record<Buffer>>(core: &Core<Buffer, R>, log: &Seen<Event<u64>>)
    requires new { IsNewBuffer core.now.object.setup.opening }
    requires whole { IsWholeLog buffer_meaning core.now.object log.now.items }
    ensures law { BufferIsFifo core.now.object.setup log.now.items }
{
    core.headline();
}

/// Proves the law of the allocator, as in `allocator_law`, of the whole history of an object.
pub fn allocator_law_of_log<R: Record<Allocator>>(core: &Core<Allocator, R>, log: &Seen<Event<u64>>)
    requires new { IsNewAllocator core.now.object.setup.opening }
    requires whole { IsWholeLog allocator_meaning core.now.object log.now.items }
    ensures law { AllocatorStaysWithin core.now.object.setup log.now.items }
{
    core.headline();
}

/// Proves the law of the pulse, as in `pulse_law`, of the whole history of an object.
pub fn pulse_law_of_log<R: Record<Pulse>>(core: &Core<Pulse, R>, log: &Seen<Event<u64>>)
    requires new { IsNewPulse core.now.object.setup.opening }
    requires whole { IsWholeLog pulse_meaning core.now.object log.now.items }
    ensures law { PulseReleasesAll core.now.object.setup log.now.items }
{
    core.headline();
}

/// Proves the law of the meeting, as in `meeting_law`, of the whole history of an object.
pub fn meeting_law_of_log<R: Record<Meeting>>(core: &Core<Meeting, R>, log: &Seen<Event<u64>>)
    requires new { IsNewMeeting core.now.object.setup.opening }
    requires whole { IsWholeLog meeting_meaning core.now.object log.now.items }
    ensures law { MeetingGathers core.now.object.setup log.now.items }
{
    core.headline();
}
