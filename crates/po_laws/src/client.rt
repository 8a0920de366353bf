// SPDX-License-Identifier: MIT
//! The law of a driven object whose client has the data, the barriers and the bodies of a unit: it does what the serial object
//! of that unit does.

ghost use Rattle.po_classic_units.specs.Pulse.{pulse_meaning};
ghost use Rattle.po_laws.specs.Client.{KeepsCallers};
ghost use Rattle.po_laws.specs.Serial.{DrivesSerially};

use po_classic_units::Pulse;
use po_unit::Unit;

/// Proves that a client whose barriers and bodies are a unit's does what the serial object does, from its opening on, whatever
/// calls arrive, procedures run and attempts are made to cancel. What it did is a history of serial protected actions of the
/// unit, in textual order. When the driven object rests, the serial object is at rest, with the same data and calls. Each body
/// that the client was told to run is the one that the serial object runs.
///
/// No limit of a queue is set, calls arrive by entry calls, and a requeue passes on the call's own value, which was known
/// before.
pub fn client_law<U: Unit<Value = u64>>(opening: &U)
    requires { KeepsCallers U.meaning }
    ensures { DrivesSerially U.meaning opening.now }
{}

/// Proves the same of a client with a pulse, whose bodies requeue and whose barriers read counts.
pub fn pulse_client_law(opening: &Pulse)
    ensures { DrivesSerially pulse_meaning opening.now }
{
    client_law(opening);
}
