ghost use Rattle.std.specs.Prelude.{◌≡◌, ℕ, ◌+◌, ◌*◌, ◌<◌, ◌≤◌, ◌&&◌, ◌==◌};
ghost use Rattle.search_check.specs.Small.{Cheap, as_entry, count as counted, find as found, leads_to, small as smallest};
ghost use Rattle.std.specs.Option.{option_map};
ghost use Rattle.search_check.specs.SmallLaws.{small_lawful};

use trellis::{Branch, Entry, Trellis};

// A trellis of up to 8 stages and 8 states. Sixteen branches for each stage, that of a state's bit at twice the state
// and the bit. Branches to no state and branches into a state that has two already are closed too.
#[derive(Drop)]
pub struct Small {
    pub stages: usize,
    pub states: usize,
    pub start: usize,
    // the ends are the states below it
    pub ends: usize,
    // in one row a stage, since entries are counted and found over states and bits in turn: nested by bit, each of these
    // flattens it first, and a literal of [[[_; 2]; 8]; 8] is more than the borrow checker covers
    pub branches: [[Option<Branch>; 16]; 8],
    pub wanted: bool,
    pub narrow: bool,
    ghost short: { stages ≤ 8 },
    ghost few: { states ≤ 8 },
    ghost inside: { start < states },
    ghost cheap: { Cheap branches },
}

fn leads(cell: Option<Branch>, state: usize) -> bool
    ensures { result ≡ leads_to state cell }
{
    cell.is_some_and(|branch| branch.to == state)
}

impl Small {
    // How many of the branches below j lead to the state.
    fn count(&self, stage: usize, state: usize, j: usize) -> usize
        requires early { stage < 8 }
        requires low { j ≤ 16 }
        ensures { result ≡ counted self.now.branches stage state j }
    {
        self.branches[stage][..j]
            .iter()
            .filter(|cell| leads(**cell, state))
            .count()
    }

    // The branch that leads to the state and has so many others before it.
    fn find(&self, stage: usize, state: usize, before: usize) -> Option<Entry>
        requires { stage < 8 }
        ensures { option_map (λ e. (e.from, e.bit, e.cost)) result ≡ as_entry self.now.branches stage (found self.now.branches stage state before (2 * self.now.states)) }
    {
        for (j, cell) in self.branches[stage][..2 * self.states].iter().enumerate() {
            if let Some(branch) = cell {
                if branch.to == state && self.count(stage, state, j) == before {
                    return Some(Entry {
                        from: j / 2,
                        bit: j % 2 == 1,
                        cost: branch.cost as u16,
                    });
                }
            }
        }
        None
    }
}

impl Trellis for Small {
    ghost model = { λ x. smallest x.stages x.states x.start x.ends x.branches x.wanted x.narrow };

    ghost lawful = { λ x. small_lawful x.stages x.states x.start x.ends x.branches x.wanted x.narrow x.short x.few x.inside x.cheap };

    fn stages(&self) -> usize {
        self.stages
    }

    fn states(&self) -> usize {
        self.states
    }

    fn start(&self) -> usize {
        self.start
    }

    fn is_end(&self, state: usize) -> bool {
        state < self.ends
    }

    fn wants_path(&self) -> bool {
        self.wanted
    }

    fn is_narrow(&self) -> bool {
        self.narrow
    }

    fn branch(&self, stage: usize, state: usize, bit: bool) -> Option<Branch> {
        let j = 2 * state + usize::from(bit);
        let branch = self.branches[stage][j]?;
        if branch.to < self.states && self.count(stage, branch.to, j) < 2 {
            Some(branch)
        } else {
            None
        }
    }

    fn entry(&self, stage: usize, state: usize, second: bool) -> Option<Entry> {
        self.find(stage, state, usize::from(second))
    }
}
