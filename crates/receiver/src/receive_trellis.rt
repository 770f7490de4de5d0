ghost use Rattle.std.specs.Prelude.{◌≡◌, ◌+◌, ◌*◌, ◌<◌, ◌≤◌, length, not};
ghost use Rattle.inner_words.proofs.Laws.{lawful as receiving_lawful};
ghost use Rattle.inner_words.specs.Receiving.{allowed, cost as costing, receiving};
ghost use Rattle.receiver.specs.Kinds.{Costs, Kinds};
ghost use Rattle.words.specs.Words.{digit, flags};

use crate::costs::Row;
use trellis::{Branch, Entry, Trellis};

// The stages at the end whose bit is 0 in every inner word.
const TAIL: usize = 8;

// The trellis of the inner words, which charges each heard bit that a word would have otherwise.
#[derive(Drop)]
pub(crate) struct ReceiveTrellis<'a> {
    // for the model alone; kept at run time, since a ghost field states a fact and holds no value
    pub(crate) period: usize,
    pub(crate) heard: &'a [bool],
    // for each stage the number of its row of costs, by what was heard of it; and the rows
    pub(crate) rows: &'a [u8],
    pub(crate) costs: &'a [Row; 9],
    ghost short: { length rows.now ≤ 7680 },
    ghost kinded: { Kinds period (flags heard.now) rows.now (length rows.now) },
    ghost costed: { Costs costs.now },
}

impl ReceiveTrellis<'_> {
    // What a bit costs from a register.
    fn cost(&self, stage: usize, register: usize, bit: bool) -> u16
        requires early { stage < length self.now.rows.now }
        requires low { register < 64 }
        ensures { result ≡ costing self.now.period (flags self.now.heard.now) stage (2 * register + digit bit) }
    {
        self.costs[usize::from(self.rows[stage])][usize::from(bit)][register]
    }

    // Bit 1 is closed in the tail.
    fn closes(&self, stage: usize, bit: bool) -> bool
        requires early { stage < length self.now.rows.now }
        ensures { result ≡ not (allowed (length self.now.rows.now) stage bit) }
    {
        bit && self.rows.len() <= stage + TAIL
    }
}

impl Trellis for ReceiveTrellis<'_> {
    ghost model = { λ x. receiving x.period (length x.rows.now) (flags x.heard.now) };

    ghost lawful = { λ x. receiving_lawful x.period (length x.rows.now) (flags x.heard.now) x.short };

    fn stages(&self) -> usize {
        self.rows.len()
    }

    fn states(&self) -> usize {
        64
    }

    fn start(&self) -> usize {
        0
    }

    // The tail leads every open path to state 0, so all states may be ends.
    fn is_end(&self, _state: usize) -> bool {
        true
    }

    fn wants_path(&self) -> bool {
        true
    }

    fn is_narrow(&self) -> bool {
        true
    }

    fn branch(&self, stage: usize, state: usize, bit: bool) -> Option<Branch> {
        if self.closes(stage, bit) {
            return None;
        }
        Some(Branch {
            to: (2 * state + usize::from(bit)) % 64,
            cost: u32::from(self.cost(stage, state, bit)),
        })
    }

    fn entry(&self, stage: usize, state: usize, second: bool) -> Option<Entry> {
        let from = state / 2 + 32 * usize::from(second);
        let bit = state % 2 == 1;
        if self.closes(stage, bit) {
            return None;
        }
        Some(Entry {
            from,
            bit,
            cost: self.cost(stage, from, bit),
        })
    }
}
