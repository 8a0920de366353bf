// SPDX-License-Identifier: MIT
//! Objects that keep their history, and for which memory for each call and each procedure is refused once.

use crate::explorer::Explorer;
use crate::objects::Shelf;
use crate::recorded::open_and_play;
use crate::refusing::Refusing;
use crate::scene::Scene;
use crate::station::Station;
use crate::told::{Answer, Told};
use po_core::{Core, Event, Recorded};
use std::alloc::AllocError;
use std::sync::{Arc, Wait};
use std::thread::Threads;
use std::time::Clock;

/// Returns the history's answer to the call with this number.
fn answer_to_call(core: &Core<Station>, number: u64) -> Answer {
    match core.outcome(number) {
        Some(end) => Answer::Ended(end),
        None => Answer::Nothing,
    }
}

/// Returns the history's answer to the seat's caller, if that caller asked for the event.
fn answer_to(core: &Core<Station>, event: Event<u64>, seat: u16) -> Option<Answer> {
    match event {
        Event::Issue { n, owner, .. } if owner == seat => Some(answer_to_call(core, n)),
        Event::Procedure { owner, reply, .. } if owner == seat => Some(Answer::Replied(reply)),
        _ => None,
    }
}

/// Returns whether the seat's caller was answered as the history says, and nothing else.
fn has_answers(core: &Core<Station>, told: &Told, seat: u16) -> bool {
    let mut given = 0usize;
    for event in core.events() {
        if let Some(answer) = answer_to(core, *event, seat) {
            if told.answers.get(given).copied() != Some(answer) {
                return false;
            }
            given = given.saturating_add(1);
        }
    }
    given == told.answers.len()
}

/// Returns whether all that the thread asked for was refused once, and then answered as the history says.
fn is_told(core: &Core<Station>, told: &Told, scene: Scene, thread: u16) -> bool {
    told.refusals == scene.asks(thread as usize) && has_answers(core, told, thread)
}

/// Returns whether that holds for all threads, each of which has its own seat.
fn are_told(shelf: &Shelf<Recorded<Station>, Refusing>, scene: Scene) -> bool {
    let mut thread = 0u16;
    for told in &shelf.told {
        if !is_told(shelf.closed.core(), told, scene, thread) {
            return false;
        }
        thread = thread.saturating_add(1);
    }
    true
}

/// Plays the scene in the explorer's next schedule. Returns whether all threads came to an end, and every answer is the
/// history's.
pub(crate) fn agrees<W: Threads + Wait + Clock + AllocGlobal + Copy + Drop + Send + Sync + 'static>(
    rt: W,
    explorer: &Arc<Explorer>,
    scene: Scene,
) -> Result<bool, AllocError> {
    let shelf = open_and_play::<Refusing, W>(rt, explorer, scene)?;
    Ok(match shelf {
        Some(shelf) => shelf.closed.none_pending() && are_told(&shelf, scene),
        None => false,
    })
}
