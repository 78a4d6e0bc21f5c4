//! Pseudo-random draws, one after another.
ghost use Rattle.std.specs.Prelude.{◌≡◌, ◌^◌, ◌<◌};
ghost use Rattle.trop_sample.specs.Draws.{next_state, drawn};

use std::marker::Model;

/// A generator of draws. Contracts see its state, a number below 2^31.
#[derive(Drop)]
pub struct Draws {
    state: u32,
}

impl Model for Draws {
    ghost use Rattle.std.specs.Prelude.{ℕ, ◌<◌, ◌^◌};

    ghost Value = { ℕ };

    ghost view = { λ a. a.state };

    ghost invariant = { λ a. a.state < 2 ^ 31 };
}

impl Draws {
    pub fn from_seed(seed: u32) -> Draws
        requires { seed < 2 ^ 31 }
        ensures { result ≡ seed }
    {
        Draws { state: seed }
    }

    /// The next draw, a number below 2^15.
    pub fn draw(&mut self) -> u32
        ensures state { self.new ≡ next_state self.old }
        ensures value { result ≡ drawn self.new }
        ensures small { result < 2 ^ 15 }
    {
        let product = 1_103_515_245 * u64::from(self.state);
        self.state = ((product + 12_345) % (1 << 31)) as u32;
        self.state / 65_536
    }
}
