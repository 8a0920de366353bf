// SPDX-License-Identifier: MIT
//! What a script's answers are written to.

ghost use Rattle.std.specs.Prelude.{◌≡◌, ℕ, ◌<◌, ◌≤◌, Bool, true, ◌||◌, ◌==◌, List, Option, length, take, IfOk, OnOk, OnErr};
ghost use Rattle.std.specs.Io.KnownBytes.{Appends, Keeps};

use crate::source::IoFailed;

/// What takes the bytes of the answers.
pub trait Sink {
    /// The bytes that it holds, if it says which.
    ghost taken: { Self → Option (List ℕ) };
    /// Whether a call has failed.
    ghost failed: { Self → Bool };
    /// Whether a call has taken no byte.
    ghost stuck: { Self → Bool };

    /// Takes bytes from the front, and returns how many.
    fn write(&mut self, bytes: &[u8]) -> Result<usize, IoFailed>
        requires { 0 < length bytes.now }
        ensures within { IfOk result (λ count. count ≤ length bytes.now) }
        ensures took { IfOk result (λ count.
            Appends (taken self.old) (taken self.new) (take count bytes.now)) }
        ensures at_stuck { IfOk result (λ count. stuck self.new ≡ (stuck self.old || (count == 0))) }
        ensures fine { OnOk result (failed self.new ≡ failed self.old) }
        ensures err { OnErr result ((failed self.new ≡ true)
            × (stuck self.new ≡ stuck self.old)
            × Keeps (taken self.old) (taken self.new)) };
}

/// Writes all the bytes. At an error, some of them were taken, and the sink failed or took no byte.
pub fn write_all<W: Sink>(writer: &mut W, bytes: &[u8]) -> Result<(), IoFailed>
    ensures ok { OnOk result (Appends (W.taken writer.old) (W.taken writer.new) bytes.now
        × (W.failed writer.new ≡ W.failed writer.old)
        × (W.stuck writer.new ≡ W.stuck writer.old)) }
    ensures err { OnErr result ((count : ℕ)
        × Appends (W.taken writer.old) (W.taken writer.new) (take count bytes.now)
        × ((W.failed writer.new || W.stuck writer.new) ≡ true)) }
{
    let mut rest = bytes;
    while !rest.is_empty() {
        let count = writer.write(rest)?;
        if count == 0 {
            return Err(IoFailed);
        }
        rest = &rest[count..];
    }
    Ok(())
}
