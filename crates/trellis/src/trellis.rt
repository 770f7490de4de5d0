ghost use Rattle.std.specs.Prelude.{◌≡◌, ◌<◌, true, IfSome};
ghost use Rattle.std.specs.Option.{option_map};
ghost use Rattle.paths.specs.Model.{Lawful, Model};

// In a row, the cost of a state where no path has come: above that of any path. Rows of costs are numbers and not
// options, since the memory lent is words, and lanes go into vectors.
pub(crate) const NO_PATH: u64 = 536870912;

// Where a bit leads from a state.
#[derive(Clone, Copy)]
pub struct Branch {
    pub to: usize,
    // at most 255
    pub cost: u32,
}

// A branch as the state that it leads to sees it.
#[derive(Clone, Copy)]
pub struct Entry {
    // the predecessor
    pub from: usize,
    pub bit: bool,
    // at most 255
    pub cost: u16,
}

// A trellis of up to 7,680 stages and up to 4,096 states, or 64 if its path is wanted. A state is a number with a clause: how
// many there are is known at run time alone, and a type for one would be made and taken apart at each branch.
pub trait Trellis {
    // what is searched: all that the replies say
    ghost model: { Self → Model };

    // the proof, by each implementor, that the model keeps its bounds
    ghost lawful: { (x : Self) → Lawful (model x) };

    fn stages(&self) -> usize
        ensures { result ≡ (model self.now).stages };

    fn states(&self) -> usize
        ensures { result ≡ (model self.now).states };

    fn start(&self) -> usize
        ensures { result ≡ (model self.now).start };

    fn is_end(&self, state: usize) -> bool
        requires { state < (model self.now).states }
        ensures { result ≡ (model self.now).ends state };

    // Whether the path is wanted, and not its cost alone.
    fn wants_path(&self) -> bool
        ensures { result ≡ (model self.now).wanted };

    // Whether every open path costs less than 65,535, so that the search may keep costs in 16 bits.
    fn is_narrow(&self) -> bool
        ensures { result ≡ (model self.now).narrow };

    // The branch by which `bit` leaves the state; `None` where it is closed.
    fn branch(&self, stage: usize, state: usize, bit: bool) -> Option<Branch>
        requires early { stage < (model self.now).stages }
        requires low { state < (model self.now).states }
        ensures { option_map (λ b. (b.to, b.cost)) result ≡ (model self.now).branch stage state bit };

    // The first or the second open branch into the state, by rising predecessor and then bit, if there is one.
    fn entry(&self, stage: usize, state: usize, second: bool) -> Option<Entry>
        requires wanted { (model self.now).wanted ≡ true }
        requires early { stage < (model self.now).stages }
        requires low { state < (model self.now).states }
        ensures { option_map (λ e. (e.from, e.bit, e.cost)) result ≡ (model self.now).entry stage state second };

    // The predecessor that the entry names if it is open, of a trellis that can tell it without asking for that; `None` if it
    // cannot. Where it is told no entry makes the search jump, which else takes up to 34 times as long in 16 bits, and 4 in 32,
    // where a table says which entries close.
    fn predecessor(&self, stage: usize, state: usize, second: bool) -> Option<usize>
        requires early { stage < (model self.now).stages }
        requires low { state < (model self.now).states }
        ensures within { IfSome result (λ from. from < (model self.now).states) }
        ensures named { IfSome result (λ from. IfSome ((model self.now).entry stage state second) (λ e. from ≡ e.0)) }
    {
        None
    }
}
