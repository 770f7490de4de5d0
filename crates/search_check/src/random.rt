ghost use Rattle.std.specs.Prelude.{◌<◌, ◌≤◌};
ghost use Rattle.search_check.specs.Small.{Cheap, CheapCell, CheapStage};

use crate::small::Small;
use draws::Draws;
use trellis::Branch;

// How many states a trellis has, one at least.
#[derive(Clone, Copy)]
struct States {
    count: usize,
    ghost some: { 0 < count },
}

impl States {
    // The state that a number picks.
    fn pick(self, number: u32) -> usize
        ensures { result < self.count }
    {
        number as usize % self.count
    }
}

// What is drawn for the trellises.
#[derive(Clone, Copy)]
pub(crate) struct Random {
    draws: Draws,
}

impl Random {
    pub(crate) fn new(seed: u32) -> Random {
        Random {
            draws: Draws::new(seed),
        }
    }

    // One branch: mostly open, mostly of little cost, so that ties are common.
    fn branch(&mut self, states: States) -> Option<Branch>
        ensures { CheapCell result }
    {
        let x = self.draws.next();
        if x >> 28 < 3 {
            return None;
        }
        Some(Branch {
            to: states.pick(x >> 8),
            cost: if x >> 20 & 3 == 0 {
                x >> 16 & 15
            } else {
                x >> 16 & 1
            },
        })
    }

    // The branches of a stage; with `twins` both bits of a state lead to the same one.
    fn stage(&mut self, states: States, twins: bool) -> [Option<Branch>; 16]
        ensures { CheapStage result }
    {
        let mut stage = [None; 16];
        let mut last = None;
        for (j, cell) in stage.iter_mut().enumerate() {
            let branch = self.branch(states);
            if j % 2 == 0 || !twins {
                last = branch;
            }
            *cell = last;
        }
        stage
    }

    fn branches(&mut self, states: States, twins: bool) -> [[Option<Branch>; 16]; 8]
        ensures { Cheap result }
    {
        let mut branches = [[None; 16]; 8];
        for stage in branches.iter_mut() {
            *stage = self.stage(states, twins);
        }
        branches
    }

    // The trellis of this number.
    pub(crate) fn small(&mut self, number: u32) -> Small {
        let states = States {
            count: 1 + (number / 9 % 8) as usize,
        };
        let branches = self.branches(states, number % 5 == 0);
        let x = self.draws.last();
        Small {
            stages: (number % 9) as usize,
            states: states.count,
            start: states.pick(x >> 4),
            ends: (x >> 12) as usize % (states.count + 1),
            branches,
            wanted: number % 4 > 0,
            narrow: number / 4 % 2 == 0,
        }
    }
}
