//! Pseudo-random draws, the same in every run of the tests.

/// A linear congruence modulo 2^31; a draw is the state without its 16 lowest bits, a number below 2^15.
#[derive(Drop)]
pub struct Draws {
    state: u32,
}

impl Draws {
    /// Draws from a seed below 2^31.
    pub fn from_seed(seed: u32) -> Draws {
        Draws { state: seed }
    }

    /// The next draw.
    pub fn next(&mut self) -> u32 {
        let state = self.state.wrapping_mul(1_103_515_245).wrapping_add(12_345);
        self.state = state & 0x7fff_ffff;
        self.state >> 16
    }
}
