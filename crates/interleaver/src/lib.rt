//! The interleaver of a symbol and its undoing.
#![tactic(auto)]

ghost use Rattle.std.specs.Prelude.{◌<◌, ◌≤◌};
ghost use Rattle.interleaver.specs.Interleaver.{Permutation};

use standard::modulation::Modulation;

mod steps;

// The interleaver of symbols that have so many subchannels.
#[derive(Clone, Copy)]
pub struct Interleaver {
    pub subchannels: usize,
    pub modulation: Modulation,
    ghost some: { 0 < subchannels },
    ghost few: { subchannels ≤ 16 },
}

// Interleaving is a permutation, and loses nothing: see the contract.
pub fn interleaving_permutes()
    ensures { Permutation }
{}
