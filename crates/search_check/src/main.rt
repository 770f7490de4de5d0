//! Compares the search with every path of small trellises.
#![tactic(auto)]

mod compare;
mod every;
mod random;
mod small;

use compare::{Outcome, compare};
use random::Random;
use std::io;
use trellis::WORK_WORDS;

const TRELLISES: u32 = 20000;

#[derive(Clone, Copy, Default)]
struct Tally {
    differed: u32,
    barred: u32,
    tied: u32,
    paths: u32,
}

impl Tally {
    fn add(&mut self, outcome: Outcome) {
        self.differed = self.differed.saturating_add(u32::from(!outcome.same));
        self.barred = self.barred.saturating_add(u32::from(!outcome.found));
        self.tied = self.tied.saturating_add(u32::from(outcome.tied));
        self.paths = self
            .paths
            .saturating_add(u32::from(outcome.found && outcome.wanted));
    }
}

fn try_all(work: &mut [u64]) -> Tally {
    let mut tally = Tally::default();
    let mut random = Random::new(1);
    for number in 0..TRELLISES {
        tally.add(compare(&random.small(number), work));
    }
    tally
}

fn main(rt: HostRuntime) -> io::Result<()> {
    // the memory is never cleared between searches
    let mut work = [0u64; WORK_WORDS];
    let tally = try_all(&mut work);
    println!(rt;
        "{} trellises compared with every path of theirs",
        TRELLISES
    )?;
    println!(rt;
        "{} have no open path to an end, {} several of the least cost",
        tally.barred, tally.tied
    )?;
    println!(rt; "{} paths found", tally.paths)?;
    println!(rt; "{} answers differ", tally.differed)
}
