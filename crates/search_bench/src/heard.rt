ghost use Rattle.std.specs.Prelude.{◌≡◌, ℕ, ◌+◌, ◌*◌, ◌/◌, ◌%◌, ◌<◌, ◌≤◌, length, nat_lt, slice_index};
ghost use Rattle.paths.specs.Registers.{open_if};
ghost use Rattle.search_bench.specs.HeardLaws.{heard_lawful};
ghost use Rattle.search_bench.specs.Heard.{Fair, Low, ended, flips, heard as hearing, price as priced, share as shared};

use trellis::{Branch, Entry, Trellis};

// What was heard of a burst, as a receiver would have it: a kind for each stage, and for each kind what the coded bits
// cost that the 32 values of the five middle bits make, with the sum of both weights. A kind is no more than its index
// in both tables. The sums stand apart: in one struct with the costs, of 66 bytes, the narrow search took 14.9 to 15.1 ns
// a stage, past the bar of 15 in 11 of 14 runs, for 14.8 to 14.9 in all of 22.
#[derive(Drop)]
pub struct Heard<'a> {
    pub kinds: &'a [u8],
    pub costs: &'a [[u16; 32]; 256],
    pub totals: &'a [u16; 256],
    pub narrow: bool,
    ghost short: { length kinds.now ≤ 7680 },
    ghost fair: { Fair costs.now totals.now },
    ghost low: { Low totals.now },
}

fn flip(t: usize, second: bool) -> bool
    ensures { result ≡ flips t second }
{
    (t % 2 == 1) != second
}

impl Heard<'_> {
    fn share(&self, kind: u8, t: usize, second: bool) -> u16
        requires { t < 64 }
        ensures { result ≡ shared self.now.costs.now self.now.totals.now kind t second }
    {
        let kind = usize::from(kind);
        let cost = self.costs[kind][t / 2];
        if flip(t, second) {
            self.totals[kind] - cost
        } else {
            cost
        }
    }

    // Whether bit 1 is closed in this stage, and is the newest of the state. The stage is asked first, since its answer
    // hardly changes, and a processor foresees it.
    fn is_last(&self, stage: usize, t: usize) -> bool
        requires { stage < length self.now.kinds.now }
        ensures { result ≡ ended (length self.now.kinds.now) stage t }
    {
        self.kinds.len() < stage + 9 && t % 2 == 1
    }

    // `None` where the branch is closed.
    fn price(&self, stage: usize, t: usize, second: bool) -> Option<u16>
        requires early { stage < length self.now.kinds.now }
        requires low { t < 64 }
        ensures { let cost = priced self.now.kinds.now self.now.costs.now self.now.totals.now stage t second in
            result ≡ open_if (nat_lt cost 256) cost }
    {
        let cost = self.share(self.kinds[stage], t, second);
        if self.is_last(stage, t) {
            None
        } else {
            Some(cost)
        }
    }
}

impl Trellis for Heard<'_> {
    ghost model = { λ x. hearing x.kinds.now x.costs.now x.totals.now x.narrow };

    ghost lawful = { λ x. heard_lawful x.kinds.now x.costs.now x.totals.now x.narrow x.short x.fair x.low };

    fn stages(&self) -> usize {
        self.kinds.len()
    }

    fn states(&self) -> usize {
        64
    }

    fn start(&self) -> usize {
        0
    }

    fn is_end(&self, state: usize) -> bool {
        state == 0
    }

    fn wants_path(&self) -> bool {
        true
    }

    fn is_narrow(&self) -> bool {
        self.narrow
    }

    fn branch(&self, stage: usize, state: usize, bit: bool) -> Option<Branch> {
        let seven = 2 * state + usize::from(bit);
        let cost = self.price(stage, seven % 64, seven / 64 == 1)?;
        Some(Branch {
            to: seven % 64,
            cost: u32::from(cost),
        })
    }

    fn entry(&self, stage: usize, state: usize, second: bool) -> Option<Entry> {
        let cost = self.price(stage, state, second)?;
        Some(Entry {
            from: state / 2 + 32 * usize::from(second),
            bit: state % 2 == 1,
            cost,
        })
    }
}
