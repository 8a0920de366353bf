// SPDX-License-Identifier: MIT
//! Service orders.

/// The order in which the entries are examined when the queues are serviced. Within a queue it is always the order of arrival
/// (D.4). All three are this project's own choices, within what the standard leaves open (9.5.3).
#[derive(Clone, Copy, Debug, PartialEq, Eq)]
pub enum Order {
    /// By rising flat number.
    Textual,
    /// The entry whose first call was queued earliest comes first.
    Oldest,
    /// From the entry after the one that servicing served last, upwards and around to that one. If none was served, from entry
    /// 0.
    Rotating,
}
