ghost use Rattle.std.specs.Prelude.{◌≡◌, ℕ, ◌/◌, ◌%◌, ◌<◌, ◌≤◌, Bool, min, slice_index};
ghost use Rattle.search_bench.specs.Counted.{Inside, Small, by_bit};
ghost use Rattle.search_bench.specs.Heard.{cost};
ghost use Rattle.search_bench.specs.Tables.{total, weight};

use crate::counted::Step;
use draws::Draws;
use std::array;

// The taps of both coded bits among the five middle bits.
const X_TAPS: usize = 0b11100;

const Y_TAPS: usize = 0b01101;

// A coded bit as it was heard, and what the other costs. The tables have a row for every pair of them, whose number tells
// the pair; only here is it taken apart.
#[derive(Clone, Copy)]
struct HeardBit {
    bit: bool,
    weight: u16,
}

impl HeardBit {
    fn x(kind: usize) -> HeardBit
        ensures { result.weight ≡ min (kind / 4 % 8) 4 }
    {
        HeardBit {
            bit: kind % 2 == 1,
            weight: (kind / 4 % 8).min(4) as u16,
        }
    }

    fn y(kind: usize) -> HeardBit
        ensures { result.weight ≡ min (kind / 32) 4 }
    {
        HeardBit {
            bit: kind / 2 % 2 == 1,
            weight: (kind / 32).min(4) as u16,
        }
    }

    fn cost(self, sent: bool) -> u16
        ensures { result ≤ self.weight }
    {
        if sent == self.bit { 0 } else { self.weight }
    }
}

fn odd(bits: usize) -> bool {
    bits.count_ones() % 2 == 1
}

fn total_of(kind: usize) -> u16
    requires { kind < 256 }
    ensures { result ≡ weight kind }
{
    HeardBit::x(kind).weight + HeardBit::y(kind).weight
}

fn costs_of(kind: usize) -> [u16; 32]
    requires { kind < 256 }
    ensures { (h : ℕ) → h < 32 → slice_index result h ≤ weight kind }
{
    let x = HeardBit::x(kind);
    let y = HeardBit::y(kind);
    array::from_fn(|middle| x.cost(odd(middle & X_TAPS)) + y.cost(odd(middle & Y_TAPS)))
}

pub fn totals() -> [u16; 256]
    ensures { (kind : ℕ) → slice_index result kind ≡ total kind }
{
    array::from_fn(total_of)
}

pub fn costs() -> [[u16; 32]; 256]
    ensures { (kind h : ℕ) → h < 32 → cost result kind h ≤ total kind }
{
    array::from_fn(costs_of)
}

// The state has a register of six bits and a count up to 39.
fn target(at: usize) -> u16
    requires { at < 5120 }
    ensures { result < 2560 }
{
    let count = at / 128;
    let next = if at % 5 > 0 {
        count
    } else if count < 39 {
        count + 1
    } else {
        0
    };
    (64 * next + at % 64) as u16
}

fn step(at: usize) -> Step
    requires { at < 5120 }
    ensures { result.to < 2560 }
{
    Step {
        to: target(at),
        cost: (at / 3 % 7 % 3) as u8,
    }
}

fn steps_from(state: usize) -> [Step; 2]
    requires { state < 2560 }
    ensures inside { (b : Bool) → (by_bit result b).to < 2560 }
    ensures small { (b : Bool) → (by_bit result b).cost ≤ 255 }
{
    [step(2 * state), step(2 * state + 1)]
}

pub fn steps() -> [[Step; 2]; 2560]
    ensures inside { Inside result }
    ensures small { Small result }
{
    array::from_fn(steps_from)
}

// Kinds that differ from stage to stage, any row of the tables.
pub(crate) fn kinds() -> [u8; 7680] {
    let mut draws = Draws::new(1);
    array::from_fn(|_| (draws.next() >> 24) as u8)
}
