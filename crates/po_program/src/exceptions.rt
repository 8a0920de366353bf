// SPDX-License-Identifier: MIT
//! The numbers of exceptions.
//!
//! A number is an exception and a message: the exception times 2 ** 24, plus 0 if there is no message, 1 plus the number that
//! the message is, or 2 ** 23 plus the position of the message in a table.

/// How many numbers an exception has.
pub const MESSAGES: u32 = 16_777_216;

/// The number of Constraint_Error without a message (11.1).
pub const CONSTRAINT_ERROR: u32 = MESSAGES;

/// The number of Program_Error without a message (11.1).
pub const PROGRAM_ERROR: u32 = 2 * MESSAGES;

/// The number of Storage_Error without a message: calls are nested too deep, or there are no slots left for a frame (11.1).
pub const STORAGE_ERROR: u32 = 3 * MESSAGES;

/// The number of Tasking_Error without a message (11.1).
pub const TASKING_ERROR: u32 = 4 * MESSAGES;

/// The number of Assertion_Error without a message (11.4.2).
pub const ASSERTION_ERROR: u32 = 5 * MESSAGES;

/// The number of this runtime's limit on turns of loops. Ada has no such exception, and no handler serves it.
pub const TOO_MANY_TURNS: u32 = 6 * MESSAGES;

/// The number of this runtime's limit on requeues in a row. Ada has no such exception.
pub const TOO_MANY_REQUEUES: u32 = 7 * MESSAGES;

/// The number of the first exception that a text declares.
pub const FIRST_DECLARED: u32 = 8 * MESSAGES;
