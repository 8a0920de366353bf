// SPDX-License-Identifier: MIT
//! What an object keeps of what has happened, and how an event is added to it.

ghost use Rattle.std.specs.Prelude.{◌≡◌, ◌<◌, ◌+◌, ◌∷◌, ◌++◌, [], ℕ, Bool, List, None, length, OnOk, OnErr, IfErr};
ghost use Rattle.po_engine.specs.Tickets.{uncollected};
ghost use Rattle.po_history.specs.declared.event.Event.{Event as AnEvent};
ghost use Rattle.po_engine.specs.Pick.{owed};
ghost use Rattle.po_core.specs.Base.{Base as BaseView};
ghost use Rattle.po_core.specs.Setup.{Setup as WhatWasMade};
ghost use Rattle.po_core.specs.Tickets.{capacity_of};
ghost use Rattle.po_core.specs.Refusals.{MayRefuse, if_full, if_uncounted};
ghost use Rattle.po_core.specs.Noting.{Known, known_of, MayPush, IsPushed, MayNote};

use crate::Setup;
use crate::refusal::Refusal;
use po_calls::Ticket;
use po_engine::State;
use po_history::Event;
use po_unit::Unit;

/// What an object keeps of what has happened: in memory, or for proofs alone.
pub trait Record<U: Unit> {
    /// What the history replays from.
    ghost base: { WhatWasMade U → Self → BaseView U U.Value };

    /// The events since the base.
    ghost events: { Self → List (AnEvent U.Value) };

    /// The record is that of an object in this state, and has room for these numbers of events and of calls.
    ghost IsOf: { WhatWasMade U → Self → Known U U.Value → ℕ → ℕ → Type 0 };

    /// Whether its objects take all their memory when they are made, so that the number of their uncollected calls is fixed.
    ghost is_bounded: { Bool };

    /// Recalls for proofs whether all memory was taken when the object was made, or some is taken for each call.
    fn recall_kind(&self, setup: &Setup<U>, state: &State<U>)
        requires { IsOf setup.now self.now (known_of state.now) (owed U.meaning state.now.state) 0 }
        ensures { state.now.is_fixed ≡ is_bounded };

    /// Makes room for a call of this rank, and for all events that it may cause.
    fn reserve_call(
        &mut self,
        setup: &Setup<U>,
        state: &mut State<U>,
        rank: u8,
    ) -> Result<(), Refusal>
        requires { IsOf setup.now self.old (known_of state.old) (owed U.meaning state.old.state) 0 }
        ensures same { state.new ≡ record state.old { capacity = state.new.capacity } }
        ensures capacity { capacity_of state.new ≡ capacity_of state.old }
        ensures base { base setup.now self.new ≡ base setup.now self.old }
        ensures events { events self.new ≡ events self.old }
        ensures ok { OnOk result (IsOf setup.now self.new (known_of state.new) (owed U.meaning state.old.state + rank + 3) 1) }
        ensures room { OnOk result (uncollected state.new.tickets < state.new.capacity) }
        ensures err { OnErr result (IsOf setup.now self.new (known_of state.new) (owed U.meaning state.old.state) 0) }
        ensures allowed { OnOk result (if_full (capacity_of state.old) state.old.tickets ≡ None) }
        ensures refused { IfErr result (MayRefuse (capacity_of state.old) (if_full (capacity_of state.old) state.old.tickets)) };

    /// Makes room for one event that belongs to no call, at this place.
    fn reserve_event(
        &mut self,
        setup: &Setup<U>,
        state: &State<U>,
        place: u128,
    ) -> Result<(), Refusal>
        requires has { IsOf setup.now self.old (known_of state.now) (owed U.meaning state.now.state) 0 }
        requires place { place ≡ (base setup.now self.old).place + length (events self.old) }
        ensures base { base setup.now self.new ≡ base setup.now self.old }
        ensures events { events self.new ≡ events self.old }
        ensures ok { OnOk result (IsOf setup.now self.new (known_of state.now) (owed U.meaning state.now.state + 1) 0) }
        ensures low { OnOk result (place < 36_893_488_147_419_103_232) }
        ensures err { OnErr result (IsOf setup.now self.new (known_of state.now) (owed U.meaning state.now.state) 0) }
        ensures allowed { OnOk result (if_uncounted (capacity_of state.now) place ≡ None) }
        ensures refused { IfErr result (MayRefuse (capacity_of state.now) (if_uncounted (capacity_of state.now) place)) };

    /// Adds an event as the last.
    fn push(&mut self, event: Event<U::Value>)
        requires { MayPush U.meaning (λ setup. IsOf setup self.old) (λ setup. base setup self.old) (events self.old) event }
        ensures base { (setup : WhatWasMade U) → base setup self.new ≡ base setup self.old }
        ensures events { events self.new ≡ events self.old ++ event ∷ [] }
        ensures has { (setup : WhatWasMade U) (s : Known U U.Value) (room calls : ℕ) → IsOf setup self.old s (room + 1) calls → IsOf setup self.new s room calls };

    /// Notes the calls that the last event ended and the one that it issued, and gives back the room that the state after it
    /// doesn't need. Of the calls that the command ended, the first `noted` are noted already.
    fn note_calls(
        &mut self,
        setup: &Setup<U>,
        state: &State<U>,
        noted: usize,
        ticket: Option<Ticket>,
    )
        requires { IsPushed (IsOf setup.now self.old) U.meaning setup.now (base setup.now self.old) (events self.old) state.now noted ticket }
        ensures base { base setup.now self.new ≡ base setup.now self.old }
        ensures events { events self.new ≡ events self.old }
        ensures has { IsOf setup.now self.new (known_of state.now) (owed U.meaning state.now.state) 0 };
}

/// Notes the event that has led to this state. Of the calls that the command ended, the first `noted` are noted already.
pub(crate) fn note<U: Unit, R: Record<U>>(
    kept: &mut R,
    setup: &Setup<U>,
    state: &State<U>,
    event: Event<U::Value>,
    noted: usize,
    ticket: Option<Ticket>,
)
    requires { MayNote (R.IsOf setup.now kept.old) U.meaning setup.now (R.base setup.now kept.old) (R.events kept.old) state.now event noted ticket }
    ensures base { R.base setup.now kept.new ≡ R.base setup.now kept.old }
    ensures events { R.events kept.new ≡ R.events kept.old ++ event ∷ [] }
    ensures has { R.IsOf setup.now kept.new (known_of state.now) (owed U.meaning state.now.state) 0 }
{
    kept.push(event);
    kept.note_calls(setup, state, noted, ticket);
}
