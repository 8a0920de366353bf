// SPDX-License-Identifier: MIT
//! The laws of four units, which hold of every history of an object of these units.
//!
//! Each depends only on the headline of the core and on the unit's meaning.

ghost use Rattle.std.specs.Prelude.{◌++◌};
ghost use Rattle.po_classic_units.specs.Allocator.{IsNewAllocator, allocator_meaning};
ghost use Rattle.po_classic_units.specs.Buffer.{IsNewBuffer, buffer_meaning};
ghost use Rattle.po_classic_units.specs.Meeting.{IsNewMeeting, meeting_meaning};
ghost use Rattle.po_classic_units.specs.Pulse.{IsNewPulse, pulse_meaning};
ghost use Rattle.po_history.specs.Histories.{joined};
ghost use Rattle.po_core.specs.Cutting.{AreVolumes};
ghost use Rattle.po_laws.specs.AllocatorLaw.{AllocatorStaysWithin};
ghost use Rattle.po_laws.specs.BufferLaw.{BufferIsFifo};
ghost use Rattle.po_laws.specs.MeetingLaw.{MeetingGathers};
ghost use Rattle.po_laws.specs.PulseLaw.{PulseReleasesAll};

use po_classic_units::{Allocator, Buffer, Meeting, Pulse};
use po_core::{Core, Record, Volume};

/// Proves the law of the buffer: first in, first out. It holds at each point of the history of every object that was opened
/// with a new buffer. The values that Gets completed with are the first of those that Puts completed with, in their order. The
/// Puts that have completed exceed the Gets by at most the buffer's capacity.
///
/// The history is the events of all volumes that were cut off, in their order, then the present events.
pub fn buffer_law<R: Record<Buffer>>(core: &Core<Buffer, R>, volumes: &[Volume<u64>])
    requires new { IsNewBuffer core.now.object.setup.opening }
    requires volumes { AreVolumes buffer_meaning core.now.object volumes.now }
    ensures law { BufferIsFifo core.now.object.setup (joined volumes.now ++ core.now.object.events) }
{
    core.headline();
}

/// Proves the law of the allocator, at each point of the history of every object that was opened with a new allocator, if
/// `Grant` is private: what calls were granted less what was released is from 0 to the allocator's size.
///
/// The history is the events of all volumes that were cut off, in their order, then the present events.
pub fn allocator_law<R: Record<Allocator>>(core: &Core<Allocator, R>, volumes: &[Volume<u64>])
    requires new { IsNewAllocator core.now.object.setup.opening }
    requires volumes { AreVolumes allocator_meaning core.now.object volumes.now }
    ensures law { AllocatorStaysWithin core.now.object.setup (joined volumes.now ++ core.now.object.events) }
{
    core.headline();
}

/// Proves the law of the pulse, in the history of every object that was opened with a new pulse, if `Reset` is private: each
/// Signal releases all calls that wait on `Wait`, in order, and then completes, and no call on `Wait` completes otherwise.
///
/// The history is the events of all volumes that were cut off, in their order, then the present events.
pub fn pulse_law<R: Record<Pulse>>(core: &Core<Pulse, R>, volumes: &[Volume<u64>])
    requires new { IsNewPulse core.now.object.setup.opening }
    requires volumes { AreVolumes pulse_meaning core.now.object volumes.now }
    ensures law { PulseReleasesAll core.now.object.setup (joined volumes.now ++ core.now.object.events) }
{
    core.headline();
}

/// Proves the law of the meeting, in the history of every object that was opened with a new meeting: calls complete together,
/// as many as the meeting's size, in order of arrival, and the call that was issued last completes last.
///
/// The history is the events of all volumes that were cut off, in their order, then the present events.
pub fn meeting_law<R: Record<Meeting>>(core: &Core<Meeting, R>, volumes: &[Volume<u64>])
    requires new { IsNewMeeting core.now.object.setup.opening }
    requires volumes { AreVolumes meeting_meaning core.now.object volumes.now }
    ensures law { MeetingGathers core.now.object.setup (joined volumes.now ++ core.now.object.events) }
{
    core.headline();
}
