// SPDX-License-Identifier: MIT
//! Gives the bytes of a source one after another.

ghost use Rattle.std.specs.Prelude.{◌≡◌, ◌≢◌, ◌≤◌, ◌∷◌, [], List, Option, None, ℕ, drop, IfOk, OnOk, OnErr, true};
ghost use Rattle.std.specs.Io.KnownBytes.{IsAtEnd};

use po_streams::{IoFailed, Source};

/// The bytes of a source's latest read.
#[derive(Drop)]
pub(crate) struct Chunk {
    bytes: [u8; 4096],
    /// How many bytes the source gave.
    count: usize,
    /// How many of them were taken.
    taken: usize,
    ghost given: { count ≤ 4096 },
    ghost within: { taken ≤ count },
}

impl Chunk {
    ghost use Rattle.po_script.specs.Chunk.{pending, Given, IsNext, EndsAtNone};

    /// Returns a chunk before the first read.
    pub(crate) fn new() -> Chunk
        ensures { pending result ≡ [] }
    {
        Chunk {
            bytes: [0; 4096],
            count: 0,
            taken: 0,
        }
    }

    /// Returns the next byte without taking it, or `None` at the end of the source. Reads if all given bytes are taken.
    pub(crate) fn peek<R: Source>(&mut self, reader: &mut R) -> Result<Option<u8>, IoFailed>
        ensures given { (bytes : List ℕ) (start : Option (List ℕ)) (first : Option ℕ)
            → Given (pending self.old) bytes start (R.left reader.old) first (R.reads reader.old)
            → Given (pending self.new) bytes start (R.left reader.new) first (R.reads reader.new) }
        ensures next { IfOk result (λ next. IsNext next (pending self.new)) }
        ensures end { IfOk result (λ next. next ≡ None → IsAtEnd (R.left reader.new)) }
        ensures ended { IfOk result (λ next. EndsAtNone next (R.ended reader.old) (R.ended reader.new)) }
        ensures fine { OnOk result (R.failed reader.new ≡ R.failed reader.old) }
        ensures err { OnErr result ((R.failed reader.new ≡ true) × (pending self.new ≡ [])) }
    {
        if self.taken < self.count {
            return Ok(Some(self.bytes[self.taken]));
        }
        let count = reader.read(&mut self.bytes)?;
        self.taken = 0;
        self.count = count;
        if count == 0 {
            return Ok(None);
        }
        Ok(Some(self.bytes[0]))
    }

    /// Takes the next byte.
    pub(crate) fn pass(&mut self)
        requires { pending self.old ≢ [] }
        ensures { pending self.new ≡ drop 1 (pending self.old) }
    {
        self.taken += 1;
    }
}
