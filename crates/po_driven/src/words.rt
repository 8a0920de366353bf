// SPDX-License-Identifier: MIT
//! What an object and its client say to each other besides the action.

/// The call that an action is about: who issued it, and its ticket if it is queued.
#[repr(C)]
#[derive(Clone, Copy)]
pub struct NamedCall {
    pub caller: u64,
    pub key: usize,
    pub number: u64,
}

/// What the client says about a barrier (9.5.2, 9.5.3).
#[derive(Clone, Copy, Debug, PartialEq, Eq)]
pub enum Barrier {
    /// The entry is closed.
    Closed,
    /// The entry is open.
    Open,
    /// Its evaluation propagated an exception.
    Raised,
}

/// How a body requeues its call (9.5.4).
#[derive(Clone, Copy, Debug, PartialEq, Eq)]
pub struct Requeue {
    /// The entry to which the call goes.
    pub target: u16,
    /// Whether the call may be cancelled while it is queued there.
    pub with_abort: bool,
    /// Whether its caller was aborted while the body ran.
    pub aborted: bool,
    /// Whether the call's time has come.
    pub due: bool,
}

/// How the body of the call in service ended (9.5.2, 9.5.4).
#[derive(Clone, Copy, Debug, PartialEq, Eq)]
pub enum BodyEnd {
    /// It completed, or an exception ended it: the client sees to the caller.
    Completed,
    /// Like `Completed`, but all queued calls end by Program_Error too.
    Failed,
    /// It requeued its call to an entry of this object.
    Requeued(Requeue),
    /// It requeued its call to another object or a task: the client sees to the call.
    RequeuedElsewhere,
}

/// What comes of an attempt to cancel a queued call (9.5.3, 9.5.4).
#[derive(Clone, Copy, Debug, PartialEq, Eq)]
pub enum Cancellation {
    /// The call is cancelled.
    Made,
    /// The call is queued by a requeue without abort, so it stays. An abort is remembered.
    Kept,
    /// No call is queued with that ticket.
    Unknown,
    /// The object isn't at rest, and nothing has changed.
    Refused,
}
