// SPDX-License-Identifier: MIT
//! Counts the calls of a history, by how they ended.

ghost use Rattle.std.specs.Prelude.{◌≡◌, count_by};
ghost use Rattle.po_core.specs.Base.{is_issue};
ghost use Rattle.po_stress.specs.Counts.{ends_as, issues_ended};

use po_core::{Core, End, Event};
use po_unit::Unit;

/// How a call ended, as far as a report distinguishes it.
#[derive(Clone, Copy)]
pub(crate) enum Ending {
    /// Its body completed, or raised an exception.
    Done,
    /// It was cancelled.
    GivenUp,
    /// Program_Error was raised at the call.
    Failed,
}

/// Returns whether the call ended in this way.
fn is_such<V: Copy>(end: End<V>, ending: Ending) -> bool
    ensures { result ≡ ends_as ending end }
{
    match ending {
        Ending::Done => matches!(end, End::Completed(_) | End::Raised(_)),
        Ending::GivenUp => matches!(end, End::Cancelled),
        Ending::Failed => matches!(end, End::ProgramError),
    }
}

/// Returns whether the event issues a call.
fn is_issue<V: Copy>(event: Event<V>) -> bool
    ensures { result ≡ is_issue event }
{
    matches!(event, Event::Issue { .. })
}

/// Returns whether the event issues a call that has ended in this way.
fn issues_ended<U: Unit>(core: &Core<U>, event: Event<U::Value>, ending: Ending) -> bool
    ensures { result ≡ issues_ended ending core.now.object.state.ended event }
{
    let Event::Issue { n, .. } = event else {
        return false;
    };
    match core.outcome(n) {
        Some(end) => is_such(end, ending),
        None => false,
    }
}

/// Returns how many calls these events issue.
pub(crate) fn issued<V: Copy>(events: &[Event<V>]) -> u64
    ensures { result ≡ count_by is_issue events.now }
{
    events.iter().filter(|event| is_issue(**event)).count() as u64
}

/// Returns how many of the calls that the history issues have ended in this way.
pub(crate) fn ended<U: Unit>(core: &Core<U>, ending: Ending) -> u64
    ensures { result ≡ count_by (issues_ended ending core.now.object.state.ended) core.now.object.events }
{
    core.events()
        .iter()
        .filter(|event| issues_ended(core, **event, ending))
        .count() as u64
}
