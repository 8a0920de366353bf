// SPDX-License-Identifier: MIT
//! What a check tells its findings.

ghost use Rattle.std.specs.Prelude.{◌∷◌, [], ◌≡◌, Bool, List, Option, OnOk, IfErr};
ghost use Rattle.po_check.specs.Reports.{Tells, FailsAs, claim_of};

use crate::error::CheckError;
use crate::finding::Finding;
use po_unit::Shape;

/// What a check tells its findings, line by line, as they are found.
pub trait Report {
    ghost use Rattle.po_check.specs.declared.claim.Claim.{Claim};

    /// What it was told, if it says that.
    ghost told: { Self → Option (List Claim) };
    /// Whether a write of it has failed.
    ghost failed: { Self → Bool };

    /// Takes what was found in a line. What explains it are the line's bytes, at most the first 4,097, and the declarations of
    /// the unit's entries (9.5.2), if the unit is known.
    fn report(
        &mut self,
        finding: Finding,
        line: &[u8],
        shape: Option<&Shape>,
    ) -> Result<(), CheckError>
        ensures ok { OnOk result (Tells (told self.old) (told self.new) (claim_of finding ∷ [])) }
        ensures fine { OnOk result (failed self.new ≡ failed self.old) }
        // Whenever it fails it was told nothing.
        ensures err { IfErr result (λ fault. FailsAs fault (failed self.old) (failed self.new) × (told self.new ≡ told self.old)) };
}
