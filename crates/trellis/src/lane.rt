ghost use Rattle.std.specs.Prelude.{◌≡◌, ℕ, ◌+◌, ◌<◌, ◌≤◌, slice_index};
ghost use Rattle.paths.proofs.Lanes.{Chunk, values, wide};
ghost use Rattle.paths.proofs.Rows.{Alike, Selected};

use crate::trellis::NO_PATH;
use std::simd::prelude::*;

// The lanes of a row: one for each state of a trellis whose path is wanted.
pub(crate) const LANES: usize = 64;

// The lanes that go into one vector.
const CHUNK: usize = 16;

// A row of costs.
pub(crate) type Row<L> = [L; LANES];

// One cost in a row, of either width.
pub(crate) trait Lane: Copy {
    // the cost that it stands for; 2 ^ 29 where there is no open path
    ghost value: { Self → ℕ };

    // what the cost of an open path must stay below
    ghost top: { ℕ };

    fn zero() -> Self
        ensures { value result ≡ 0 };

    // No open path.
    fn none() -> Self
        ensures { value result ≡ NO_PATH };

    // What an entry charges.
    fn of(cost: u16) -> Self
        requires { cost ≤ 255 }
        ensures { value result ≡ cost };

    // A row where no path has come anywhere.
    fn blank() -> Row<Self>
        ensures { (t : ℕ) → t < LANES → slice_index (values value result) t ≡ NO_PATH };

    fn plus(self, more: Self) -> Self
        requires capped { value self ≤ NO_PATH }
        requires more { value more ≤ NO_PATH }
        requires room { value self < NO_PATH → value more < NO_PATH → value self + value more < top }
        ensures { Alike (value result) (value self + value more) };

    // Of sixteen lanes from `at` on, the less of each pair of candidates into `next`; a bit of the answer is set where
    // that is the second.
    fn select_chunk(a: &Row<Self>, b: &Row<Self>, next: &mut Row<Self>, at: usize) -> u64
        requires { at + CHUNK ≤ LANES }
        ensures { Chunk (values value a.now) (values value b.now) (values value next.old) (values value next.new) result at };

    fn cost(self) -> u64
        ensures { result ≡ value self };
}

// The less of each pair of candidates into `next`; a bit of the answer is set where that is the second.
pub(crate) fn select<L: Lane>(a: &Row<L>, b: &Row<L>, next: &mut Row<L>) -> u64
    ensures { Selected (values L.Lane.value a.now) (values L.Lane.value b.now) (values L.Lane.value next.new) result }
{
    let mut word = 0u64;
    // by number, which places the bits too
    for g in 0..LANES / CHUNK {
        let at = CHUNK * g;
        word |= L::select_chunk(a, b, next, at) << at as u32;
    }
    word
}

// Sixteen bits: 65,535 stands for no open path, and adding to it leaves it there.
impl Lane for u16 {
    ghost value = { wide };

    ghost top = { 65535 };

    fn zero() -> u16 {
        0
    }

    fn none() -> u16 {
        u16::MAX
    }

    fn of(cost: u16) -> u16 {
        cost
    }

    fn blank() -> Row<u16> {
        [u16::MAX; LANES]
    }

    fn plus(self, more: u16) -> u16 {
        self.saturating_add(more)
    }

    fn select_chunk(a: &Row<u16>, b: &Row<u16>, next: &mut Row<u16>, at: usize) -> u64 {
        let x = u16x16::from_slice(&a[at..at + CHUNK]);
        let y = u16x16::from_slice(&b[at..at + CHUNK]);
        x.simd_min(y).copy_to_slice(&mut next[at..at + CHUNK]);
        y.simd_lt(x).to_bitmask()
    }

    fn cost(self) -> u64 {
        if self < u16::MAX {
            u64::from(self)
        } else {
            NO_PATH
        }
    }
}

// Thirty-two bits: each stage caps its sums at 2 ^ 29.
impl Lane for u32 {
    ghost value = { λ x. x };

    ghost top = { 536870912 };

    fn zero() -> u32 {
        0
    }

    fn none() -> u32 {
        NO_PATH as u32
    }

    fn of(cost: u16) -> u32 {
        u32::from(cost)
    }

    fn blank() -> Row<u32> {
        [NO_PATH as u32; LANES]
    }

    fn plus(self, more: u32) -> u32 {
        self + more
    }

    fn select_chunk(a: &Row<u32>, b: &Row<u32>, next: &mut Row<u32>, at: usize) -> u64 {
        let x = u32x16::from_slice(&a[at..at + CHUNK]);
        let y = u32x16::from_slice(&b[at..at + CHUNK]);
        let less = y.simd_lt(x);
        let least = less.select(y, x).simd_min(u32x16::splat(NO_PATH as u32));
        least.copy_to_slice(&mut next[at..at + CHUNK]);
        less.to_bitmask()
    }

    fn cost(self) -> u64 {
        u64::from(self)
    }
}
