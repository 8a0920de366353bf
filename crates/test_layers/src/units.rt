// SPDX-License-Identifier: MIT
//! The operations of each unit, compared with values worked out by hand.

mod allocator;
mod broadcast;
mod buffer;
mod meeting;
mod operations;
mod pulse;
mod relay;
mod signal;
mod trap;
