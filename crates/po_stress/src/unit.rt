// SPDX-License-Identifier: MIT
//! The units that a run can load.

ghost use Rattle.std.specs.Prelude.{◌≡◌};
ghost use Rattle.po_stress.specs.Units.{is_paired};

/// A unit, with what the threads of a run do with it.
#[derive(Clone, Copy, Debug, PartialEq, Eq)]
pub enum StressUnit {
    /// A buffer for four values: threads with an even seat call Put, the others call Get.
    Buffer,
    /// An allocator of three pieces: each thread calls Request for one to three, and then releases that many.
    Allocator,
    /// A meeting of all threads, each of which calls Wait.
    Meeting,
    /// A buffer for two values, as with `Buffer`, but each call is timed, and one more thread raises the clock and tries to
    /// cancel each seat's call.
    Race,
}

impl StressUnit {
    /// Returns whether half of the threads wait for the other half, so that their number has to be even.
    pub fn is_paired(self) -> bool
        ensures { result ≡ is_paired self }
    {
        matches!(self, StressUnit::Buffer | StressUnit::Race)
    }
}
