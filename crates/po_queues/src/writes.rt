// SPDX-License-Identifier: MIT
//! Writes to one side of a link, and to one end of a queue.

ghost use Rattle.std.specs.Prelude.{◌≡◌, ◌<◌, length, None, Some, slice_index_or, slice_set};
ghost use Rattle.std.specs.Prelude.{if◌then◌else◌};
ghost use Rattle.po_queues.specs.QueuedKeys.{is_missing, is_this};
ghost use Rattle.po_queues.specs.Links.{write_after, write_before};

use crate::link::Link;

/// Sets which key comes after this one, if there is a key and it is queued.
#[tactic(auto, using(crate::proofs::WriteLemmas::write_steps))]
pub(crate) fn set_after(links: &mut Vec<Option<Link>>, key: Option<usize>, after: Option<usize>)
    ensures { links.new.items ≡ write_after links.old.items key after }
{
    if let Some(k) = key {
        if k < links.len() {
            links[k] = match links[k] {
                None => None,
                Some(link) => Some(Link { after, ..link }),
            };
        }
    }
}

/// Sets which key comes before this one, if there is a key and it is queued.
#[tactic(auto, using(crate::proofs::WriteLemmas::write_steps))]
pub(crate) fn set_before(links: &mut Vec<Option<Link>>, key: Option<usize>, before: Option<usize>)
    ensures { links.new.items ≡ write_before links.old.items key before }
{
    if let Some(k) = key {
        if k < links.len() {
            links[k] = match links[k] {
                None => None,
                Some(link) => Some(Link { before, ..link }),
            };
        }
    }
}

/// Makes the key the first of the entry with this index, if the entry had no last one.
pub(crate) fn set_first(
    firsts: &mut Vec<Option<usize>>,
    last: Option<usize>,
    index: usize,
    key: usize,
)
    requires { index < length firsts.old.items }
    ensures { firsts.new.items
        ≡ (if is_missing last
        then slice_set firsts.old.items index (Some key)
        else firsts.old.items) }
{
    if last.is_none() {
        firsts[index] = Some(key);
    }
}

/// Replaces the end of the queue of the entry with this index by another key or none, if the end is this key.
pub(crate) fn replace_if(
    ends: &mut Vec<Option<usize>>,
    index: usize,
    key: usize,
    other: Option<usize>,
)
    requires { index < length ends.old.items }
    ensures { ends.new.items
        ≡ (if is_this (slice_index_or ends.old.items index None) key
        then slice_set ends.old.items index other else ends.old.items) }
{
    if ends[index] == Some(key) {
        ends[index] = other;
    }
}
