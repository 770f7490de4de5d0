//! Pseudo-random numbers for the comparisons and the benchmark: always the same from the same seed.
#![tactic(auto)]

ghost use Rattle.std.specs.Prelude.{◌≡◌, ℕ, ◌+◌, ◌*◌, ◌%◌, ◌^◌};

use std::marker::Model;

// A row of such numbers, as the one that was drawn last.
#[derive(Clone, Copy)]
pub struct Draws {
    state: u32,
}

impl Model for Draws {
    ghost Value = { ℕ };

    ghost view = { λ d. d.state };

    ghost inverse = { λ n. record { state = n } };
}

impl Draws {
    pub fn new(seed: u32) -> Draws
        ensures { result ≡ seed }
    {
        Draws { state: seed }
    }

    // The number that was drawn last, the seed if none was.
    pub fn last(&self) -> u32
        ensures { result ≡ self.now }
    {
        self.state
    }

    pub fn next(&mut self) -> u32
        ensures state { self.new ≡ (1664525 * self.old + 1013904223) % 2 ^ 32 }
        ensures drawn { result ≡ self.new }
    {
        *self = Draws::new(self.last().wrapping_mul(1664525).wrapping_add(1013904223));
        self.last()
    }
}
