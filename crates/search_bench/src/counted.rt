ghost use Rattle.std.specs.Prelude.{◌≡◌, ℕ, ◌≤◌};
ghost use Rattle.std.specs.Option.{option_map};
ghost use Rattle.search_bench.specs.Counted.{Inside, Small, counted as counting};
ghost use Rattle.search_bench.specs.CountedLaws.{counted_lawful};

use trellis::{Branch, Entry, Trellis};

// Where a bit leads from a state, and what it costs.
#[derive(Clone, Copy)]
pub struct Step {
    pub to: u16,
    pub cost: u8,
}

// A trellis of 2,560 states, its branches in a table by state and bit.
#[derive(Drop)]
pub struct Counted<'a> {
    pub stages: usize,
    pub steps: &'a [[Step; 2]; 2560],
    ghost short: { stages ≤ 7680 },
    ghost inside: { Inside steps.now },
    ghost small: { Small steps.now },
}

impl Trellis for Counted<'_> {
    ghost model = { λ x. counting x.stages x.steps.now };

    ghost lawful = { λ x. counted_lawful x.stages x.steps.now x.short x.inside x.small };

    fn stages(&self) -> usize {
        self.stages
    }

    fn states(&self) -> usize {
        2560
    }

    fn start(&self) -> usize {
        0
    }

    fn is_end(&self, state: usize) -> bool {
        true
    }

    fn wants_path(&self) -> bool {
        false
    }

    fn is_narrow(&self) -> bool {
        false
    }

    fn branch(&self, stage: usize, state: usize, bit: bool) -> Option<Branch> {
        let step = &self.steps[state][usize::from(bit)];
        Some(Branch {
            to: usize::from(step.to),
            cost: u32::from(step.cost),
        })
    }

    // No path is wanted here, so none is asked for; the answer is the model's all the same.
    fn entry(&self, stage: usize, state: usize, second: bool) -> Option<Entry>
        ensures { let m = counting self.now.stages self.now.steps.now in
            option_map (λ e. (e.from, e.bit, e.cost)) result ≡ m.entry stage state second }
    {
        None
    }
}
