// SPDX-License-Identifier: MIT
//! What a script is read from.

ghost use Rattle.std.specs.Prelude.{◌≡◌, ℕ, ◌<◌, ◌≤◌, Bool, true, ◌||◌, ◌==◌, List, Option, None, length, take, min, IfOk, OnOk, OnErr};
ghost use Rattle.std.specs.Io.KnownBytes.{Consumes, IsAtEnd, Keeps};
ghost use Rattle.po_streams.specs.Source.{CountsMore};

/// A call of what is under a source or a sink failed.
#[derive(Clone, Copy, Debug, PartialEq, Eq)]
pub struct IoFailed;

/// What gives the bytes of a script.
pub trait Source {
    /// The bytes that it still has to give, if it says which.
    ghost left: { Self → Option (List ℕ) };
    /// Whether a call has failed.
    ghost failed: { Self → Bool };
    /// Whether a call has given no byte.
    ghost ended: { Self → Bool };
    /// How many calls have given bytes, if it says so.
    ghost reads: { Self → Option ℕ } = { λ _. None };

    /// Puts the next bytes at the front of the buffer, and returns how many; 0 is the end.
    fn read(&mut self, buffer: &mut [u8]) -> Result<usize, IoFailed>
        requires { 0 < length buffer.old }
        ensures within { IfOk result (λ count. count ≤ length buffer.new) }
        ensures given { IfOk result (λ count.
            Consumes (left self.old) (left self.new) (take count buffer.new)) }
        ensures end { IfOk result (λ count. count ≡ 0 → IsAtEnd (left self.new)) }
        ensures at_end { IfOk result (λ count. ended self.new ≡ (ended self.old || (count == 0))) }
        ensures counted { IfOk result (λ count. CountsMore (reads self.old) (reads self.new) (min count 1)) }
        ensures fine { OnOk result (failed self.new ≡ failed self.old) }
        ensures err { OnErr result ((failed self.new ≡ true)
            × (ended self.new ≡ ended self.old)
            × Keeps (left self.old) (left self.new)
            × CountsMore (reads self.old) (reads self.new) 0) };
}
