// SPDX-License-Identifier: MIT
//! Cuts the bytes of a script into lines.

ghost use Rattle.std.specs.Prelude.{◌≡◌, ◌+◌, ◌<◌, ◌≤◌, ◌∷◌, [], List, Option, ℕ, eqb, nat_lt, vec_len, vec_capacity, length, true, false, IfOk, OnOk, OnErr};
ghost use Rattle.std.specs.Io.KnownBytes.{IsAtEnd};
ghost use Rattle.po_script.specs.declared.cutter.TheConstants.{LINE_LIMIT, SCRIPT_LIMIT, KEPT};

use crate::chunk::Chunk;
use po_streams::{IoFailed, Source};
use std::alloc::{AllocError, Global};

/// The most bytes that a line may have, without its newline.
pub const LINE_LIMIT: usize = 4096;

/// The most bytes that a script may have.
pub const SCRIPT_LIMIT: u64 = 67108864;

/// How many bytes of a line are kept: one more than it may have, so that a line that is too long shows.
const KEPT: usize = 4097;

/// What comes next in a script.
#[derive(Clone, Copy, Debug, PartialEq, Eq)]
pub enum Piece {
    /// One more byte of the line. It is taken.
    Letter,
    /// The newline that ends the line. It isn't taken yet.
    Newline,
    /// The end of the script, and of its last line.
    End,
    /// One byte more than a script may have.
    Past,
}

/// A script as far as it is cut.
#[derive(Drop)]
pub struct Cutter {
    /// The bytes after the last newline, at most the first `KEPT` of them.
    line: Vec<u8>,
    /// The number of that line.
    number: u64,
    /// How many bytes are cut.
    total: u64,
    chunk: Chunk,
    ghost room: { KEPT ≤ vec_capacity line },
    ghost short: { vec_len line ≤ KEPT },
    ghost few: { total ≤ SCRIPT_LIMIT },
    ghost numbered: { number ≤ total + 1 },
}

impl Cutter {
    ghost use Rattle.po_script.specs.Chunk.{pending};
    ghost use Rattle.po_script.specs.Cutter.{Cuts, GoesOn, Stays, Steps, kept, number_of, total_of, waiting};

    /// Returns a cutter before the first byte.
    pub fn new(alloc: Global) -> Result<Cutter, AllocError>
        ensures { IfOk result (λ cutter. (start : Option (List ℕ)) (first : Option ℕ) → Cuts cutter [] start start first first) }
    {
        let line = Vec::with_capacity(alloc, KEPT)?;
        Ok(Cutter {
            line,
            number: 1,
            total: 0,
            chunk: Chunk::new(),
        })
    }

    /// Returns the line being cut, at most the bytes that are kept of it.
    pub fn line(&self) -> &[u8]
        ensures { result.now ≡ kept self.now }
    {
        self.line.as_slice()
    }

    /// Returns the number of that line.
    pub fn number(&self) -> u64
        ensures { result ≡ number_of self.now }
    {
        self.number
    }

    /// Returns whether that line has more bytes than a line may have.
    pub fn is_too_long(&self) -> bool
        ensures { result ≡ nat_lt LINE_LIMIT (length (kept self.now)) }
    {
        self.line.len() > LINE_LIMIT
    }

    /// Takes this byte of the line.
    fn letter(&mut self, byte: u8)
        requires room { self.old.total < SCRIPT_LIMIT }
        requires other { eqb byte 10 ≡ false }
        requires next { (more : List ℕ) × (pending self.old.chunk ≡ byte ∷ more) }
        ensures on { GoesOn self.old self.new (byte ∷ []) }
        ensures total { self.new.total ≡ self.old.total + 1 }
    {
        if self.line.len() < KEPT {
            self.line.push_reserved(byte);
        }
        self.total += 1;
        self.chunk.pass();
    }

    /// Takes the next byte of the line, or says what comes instead. Reads if all given bytes are cut.
    pub fn next<R: Source>(&mut self, reader: &mut R) -> Result<Piece, IoFailed>
        ensures step { IfOk result (λ step. Steps step self.old self.new (R.left reader.old) (R.left reader.new)
            (R.reads reader.old) (R.reads reader.new) (R.ended reader.old) (R.ended reader.new)) }
        ensures end { IfOk result (λ step. step ≡ Piece.End → IsAtEnd (R.left reader.new)) }
        ensures fine { OnOk result (R.failed reader.new ≡ R.failed reader.old) }
        ensures err { OnErr result ((R.failed reader.new ≡ true) × (waiting self.new ≡ [])
            × Stays self.old self.new (R.left reader.old) (R.left reader.new) (R.reads reader.old) (R.reads reader.new)) }
    {
        let byte = match self.chunk.peek(reader)? {
            None => return Ok(Piece::End),
            Some(byte) => byte,
        };
        if self.total == SCRIPT_LIMIT {
            return Ok(Piece::Past);
        }
        if byte == b'\n' {
            return Ok(Piece::Newline);
        }
        self.letter(byte);
        Ok(Piece::Letter)
    }

    /// Takes the newline that comes next, and begins the line after it.
    pub fn newline(&mut self)
        requires room { total_of self.old < SCRIPT_LIMIT }
        requires next { (more : List ℕ) × (waiting self.old ≡ 10 ∷ more) }
        ensures on { GoesOn self.old self.new (10 ∷ []) }
        ensures total { total_of self.new ≡ total_of self.old + 1 }
    {
        self.line.clear();
        self.number += 1;
        self.total += 1;
        self.chunk.pass();
    }
}
