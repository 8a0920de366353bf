// SPDX-License-Identifier: MIT
//! How a record notes the calls that an event ended, after it has noted the event.

ghost use Rattle.std.specs.Prelude.{◌≡◌, ◌<◌, ◌≤◌, ◌+◌, ◌-◌, ◌∷◌, ◌++◌, ℕ, [], None, All, count_by, length, take, vec_len, vec_capacity};
ghost use Rattle.po_engine.specs.Ending.{has_ended};
ghost use Rattle.po_engine.specs.Pick.{owed};
ghost use Rattle.po_core.specs.Outcomes.{AreOutcomes, IsCallOf};

use po_engine::{Ended, State};
use po_history::History;
use po_unit::Unit;

/// Notes further calls that have ended, and how they ended.
fn note_ends<V: Copy>(history: &mut History<V>, ended: &mut Vec<Ended<V>>, now: &[Ended<V>])
    requires room { vec_len ended.old + length now.now ≤ vec_capacity ended.old }
    requires once { (n : ℕ) → count_by (has_ended n) (ended.old.items ++ now.now) ≤ 1 }
    requires calls { All (λ x. IsCallOf history.old x.number) (ended.old.items ++ now.now) }
    requires outcomes { AreOutcomes history.old ended.old.items }
    ensures rest { history.new ≡ record history.old { outcomes = history.new.outcomes } }
    ensures len { length history.new.outcomes ≡ length history.old.outcomes }
    ensures ended { ended.new.items ≡ ended.old.items ++ now.now }
    ensures capacity { vec_capacity ended.new ≡ vec_capacity ended.old }
    ensures outcomes { AreOutcomes history.new ended.new.items }
{
    for call in now {
        history.set_outcome(call.number, call.end);
        ended.push_reserved(*call);
    }
}

/// Notes the calls that the last event ended, and gives back the room that the state after it doesn't need. Of the calls that
/// the command ended, the first `noted` are noted already.
pub(crate) fn note_calls<U: Unit>(
    history: &mut History<U::Value>,
    ended: &mut Vec<Ended<U::Value>>,
    state: &State<U>,
    noted: usize,
)
    requires serving { state.now.serving ≡ None }
    requires noted { state.now.before + noted ≡ vec_len ended.old }
    requires shown { ended.old.items ≡ take (vec_len ended.old) state.now.state.ended }
    requires for_all { length state.now.keys ≤ vec_capacity ended.old }
    requires room { owed U.meaning state.now.state ≤ history.old.owed }
    requires before { vec_len ended.old ≤ length state.now.state.ended }
    requires once { (n : ℕ) → count_by (has_ended n) state.now.state.ended ≤ 1 }
    requires calls { All (λ x. IsCallOf history.old x.number) state.now.state.ended }
    requires outcomes { AreOutcomes history.old ended.old.items }
    ensures rest { history.new ≡ record history.old {
      owed = owed U.meaning state.now.state;
      outcomes = history.new.outcomes;
    } }
    ensures len { length history.new.outcomes ≡ length history.old.outcomes }
    ensures ended { ended.new.items ≡ state.now.state.ended }
    ensures capacity { vec_capacity ended.new ≡ vec_capacity ended.old }
    ensures outcomes { AreOutcomes history.new state.now.state.ended }
{
    state.recall_invariant();
    let unused = history.owed() - state.owed() as usize;
    history.release(unused);
    note_ends(history, ended, &state.ended_now()[noted..]);
}
