// SPDX-License-Identifier: MIT
//! How many calls ended in each way.

ghost use Rattle.std.specs.Prelude.{ℕ, ◌≡◌, ◌<◌, ◌+◌, ◌^◌, ◌++◌, ◌∷◌, [], List};
ghost use Rattle.po_calls.specs.declared.call.Deadline.{Deadline};
ghost use Rattle.po_receipts.specs.declared.receipt.Receipt.{Receipt};
ghost use Rattle.po_receipts.specs.declared.receipt.Receipt.TheVariants.{Called};
ghost use Rattle.po_stress.specs.Ends.{AreEndsOf, all_of};

use po_core::End;

/// How many calls ended in each way.
#[derive(Clone, Copy, Debug, PartialEq, Eq)]
pub(crate) struct Ends {
    /// How many completed, or ended by an exception that their body raised.
    pub(crate) completed: u64,
    /// How many were cancelled.
    pub(crate) cancelled: u64,
    /// How many ended by Program_Error.
    pub(crate) program_error: u64,
}

impl Ends {
    /// Returns the counts of no calls.
    pub(crate) fn new() -> Ends
        ensures { (result.completed ≡ 0) × (result.cancelled ≡ 0) × (result.program_error ≡ 0) }
    {
        Ends {
            completed: 0,
            cancelled: 0,
            program_error: 0,
        }
    }

    /// Counts a call that ended in this way.
    pub(crate) fn count(&mut self, end: End<u64>)
        requires room { all_of self.old + 1 < 2 ^ 64 }
        ensures { (receipts : List (Receipt ℕ)) (number entry value : ℕ) (deadline : Deadline)
            → AreEndsOf receipts self.old → AreEndsOf (receipts ++ Called number entry value deadline end ∷ []) self.new }
    {
        match end {
            End::Completed(_) | End::Raised(_) => self.completed += 1,
            End::Cancelled => self.cancelled += 1,
            End::ProgramError => self.program_error += 1,
        }
    }

    /// Adds the counts of other calls.
    pub(crate) fn add(&mut self, ends: Ends)
        requires room { all_of self.old + all_of ends < 2 ^ 64 }
        ensures completed { self.new.completed ≡ self.old.completed + ends.completed }
        ensures cancelled { self.new.cancelled ≡ self.old.cancelled + ends.cancelled }
        ensures program_error { self.new.program_error ≡ self.old.program_error + ends.program_error }
    {
        self.completed += ends.completed;
        self.cancelled += ends.cancelled;
        self.program_error += ends.program_error;
    }
}
