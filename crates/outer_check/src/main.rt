//! Damages outer words of every profile and corrects them: what must come back comes back, and what comes back is an outer word.
#![tactic(auto)]

mod attempt;
mod damage;

use attempt::{Attempt, BLOCK, MESSAGE, Outcome, Tried};
use damage::{PLACES, Place, Random, VALUES, Value};
use standard::shape::Shape;
use std::io;

// How often each kind of damage is done.
const ROUNDS: usize = 10;

#[derive(Clone, Copy, Default)]
struct Tally {
    tried: u32,
    corrected: u32,
    refused: u32,
    other: u32,
    wrong: u32,
}

impl Tally {
    fn add(&mut self, outcome: Outcome) {
        let counter = match outcome {
            Outcome::Corrected => &mut self.corrected,
            Outcome::Refused => &mut self.refused,
            Outcome::Other => &mut self.other,
            Outcome::Wrong => &mut self.wrong,
        };
        *counter = counter.saturating_add(1);
    }
}

// The tries of one shape.
#[derive(Drop)]
struct Trial {
    tried: Tried,
    random: Random,
    tally: Tally,
}

impl Trial {
    // A new word.
    fn word(&mut self) -> [u8; BLOCK] {
        let mut message = [0; MESSAGE];
        self.random.fill(&mut message);
        self.tried.word(&message)
    }

    fn damage(&mut self, block: &mut [u8; BLOCK], place: Place, value: Value, count: usize) {
        let shape = self.tried.shape;
        for i in 0..count {
            let k = place.index(i, shape, &mut self.random);
            block[k] = value.instead_of(block[k], &mut self.random);
        }
    }

    fn try_block(&mut self, word: &[u8; BLOCK], before: [u8; BLOCK]) {
        let attempt = Attempt::new(self.tried, before);
        self.tally.tried = self.tally.tried.saturating_add(1);
        if !attempt.all_agree() {
            self.tally.add(Outcome::Wrong);
        }
        self.tally.add(attempt.outcome(word));
    }

    // A new word, damaged in one way.
    fn try_damage(&mut self, place: Place, value: Value, count: usize) {
        let word = self.word();
        let mut before = word;
        self.damage(&mut before, place, value, count);
        self.try_block(&word, before);
    }

    // One kind of value at every kind of place.
    fn try_places(&mut self, value: Value, count: usize) {
        for place in PLACES {
            self.try_damage(place, value, count);
        }
    }

    // Every kind of place and of value, `count` times in a block.
    fn try_kinds(&mut self, count: usize) {
        for value in VALUES {
            self.try_places(value, count);
        }
    }

    // The words 00 00 .. and FF FF .., received for another one.
    fn try_constants(&mut self) {
        let word = self.word();
        self.try_block(&word, [0; BLOCK]);
        self.try_block(&word, [0xFF; BLOCK]);
    }

    // From no damage to five more than the limit, and to every byte.
    fn try_counts(&mut self) {
        for count in 0..self.tried.shape.limit + 6 {
            self.try_kinds(count);
        }
        self.try_kinds(self.tried.shape.block());
        self.try_constants();
    }
}

fn try_shape(tried: Tried) -> Tally {
    let mut trial = Trial {
        tried,
        random: Random::new(1),
        tally: Tally::default(),
    };
    for _ in 0..ROUNDS {
        trial.try_counts();
    }
    trial.tally
}

fn report(rt: HostRuntime, tried: Tried) -> io::Result<()> {
    let Shape { size, limit } = tried.shape;
    let n = tried.shape.block();
    let Tally {
        tried,
        corrected,
        refused,
        other,
        wrong,
    } = try_shape(tried);
    println!(rt;
        "{size}/{n}/{limit}: {tried} tried, {corrected} corrected, {refused} refused, {other} to another outer word, {wrong} wrong"
    )
}

fn main(rt: HostRuntime) -> io::Result<()> {
    // the shapes of the seven rates, told here since a check takes no value from what it checks
    for (size, limit) in [
        (12, 0),
        (24, 4),
        (36, 2),
        (48, 8),
        (72, 4),
        (96, 6),
        (108, 6),
    ] {
        report(
            rt,
            Tried {
                shape: Shape { size, limit },
            },
        )?;
    }
    Ok(())
}
