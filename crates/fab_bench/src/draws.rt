//! Random numbers that a circuit is grown from.

use fab_site::pick;

/// A stream of random numbers, made by shifts and exclusive ors.
#[derive(Clone, Copy)]
pub struct Draws {
    state: u64,
}

impl Draws {
    /// The stream of a seed.
    pub fn new(seed: u64) -> Draws {
        let mut draws = Draws {
            state: seed.wrapping_mul(0x9e37_79b9_7f4a_7c15) | 1,
        };
        for _ in 0..8 {
            let _ = draws.next();
        }
        draws
    }

    /// The next number.
    pub fn next(&mut self) -> u32 {
        let mut state = self.state;
        state ^= state.wrapping_shl(13);
        state ^= state >> 7;
        state ^= state.wrapping_shl(17);
        self.state = state;
        (state & 0xffff_ffff) as u32
    }

    /// A number below `n`, or 0.
    pub fn below(&mut self, n: u32) -> u32 {
        pick(self.next(), n)
    }

    /// A number from `low` to `high`.
    pub fn between(&mut self, low: u32, high: u32) -> u32 {
        low.saturating_add(self.below(high.saturating_sub(low).saturating_add(1)))
    }
}
