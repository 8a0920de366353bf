// SPDX-License-Identifier: MIT
//! What a client is to do next.

/// What a client is to do next.
#[derive(Clone, Copy, Debug, PartialEq, Eq)]
pub enum Action {
    /// Nothing: the protected action is over (9.5.1).
    Rest,
    /// Evaluate the barrier of this entry, and answer (9.5.2).
    Evaluate(u16),
    /// Run the body of this entry for the step's caller, and say how it ended (9.5.2).
    Run(u16),
    /// The call of the step's caller is queued, and the step has its ticket. Then evaluate the barrier of this entry, and
    /// answer.
    Queued(u16),
    /// The call of the step's caller is cancelled: wake the caller, then ask for what is next (9.5.3, 9.7.2, 9.7.3).
    Cancelled,
    /// The call of the step's caller ends by Program_Error: wake the caller, then ask for what is next (9.4, 9.5.3, D.7).
    ProgramError,
    /// Memory for one more call was refused, and nothing has changed.
    NoMemory,
    /// The object doesn't accept this now, and nothing has changed.
    Refused,
}
