// SPDX-License-Identifier: MIT
//! Numbers drawn by lot.

/// Numbers drawn by lot, the same in each run (a linear congruential generator).
#[derive(Clone, Copy)]
pub struct Lot {
    state: u64,
}

impl Lot {
    /// Returns the numbers that follow from this one.
    pub fn new(seed: u64) -> Lot {
        Lot { state: seed }
    }

    /// Returns the next number, below this bound.
    pub fn below(&mut self, bound: usize) -> usize {
        self.state = self
            .state
            .wrapping_mul(6_364_136_223_846_793_005)
            .wrapping_add(1_442_695_040_888_963_407);
        let drawn = self.state >> 33;
        (drawn as usize).checked_rem(bound).unwrap_or(0)
    }
}
