//! The scrambler (data randomizer): a register of fifteen stages whose bits are added to the data.
#![tactic(auto)]

ghost use Rattle.std.specs.Prelude.{ℕ, ◌*◌, ◌<◌, ◌≤◌, ◌^◌, get_or, length, ◌≡◌};
ghost use Rattle.scrambler.specs.Eight.{key as keyed};
ghost use Rattle.scrambler.specs.Scrambler.{after, scrambled, start as started};
ghost use Rattle.words.specs.Words.{word};

use std::marker::Model;

// Its fifteen stages as a number, stage 1 highest.
#[derive(Clone, Copy, Debug, PartialEq, Eq)]
pub struct Register {
    stages: u16,
}

impl Model for Register {
    ghost Value = { ℕ };

    ghost view = { λ r. r.stages };

    ghost invariant = { λ r. r.stages < 2 ^ 15 };

    ghost inverse = { λ n. record { stages = n } };
}

impl From<Register> for u16 {
    ghost from_gives = { λ r n. (n ≡ r) × (n < 2 ^ 15) };

    fn from(register: Register) -> u16 {
        register.stages
    }
}

impl Register {
    pub fn new(stages: u16) -> Register
        requires { stages < 2 ^ 15 }
        ensures { result ≡ stages }
    {
        Register { stages }
    }

    // The register that a burst starts from.
    pub fn start(bsid: u8, uiuc: u8, frame: u8) -> Register
        requires bsid { bsid ≤ 15 }
        requires uiuc { uiuc ≤ 15 }
        requires frame { frame ≤ 15 }
        ensures value { result ≡ started bsid uiuc frame }
        ensures below { result < 2 ^ 15 }
    {
        Register {
            stages: bsid as u16 * 2048 + 1536 + uiuc as u16 * 32 + 16 + frame as u16,
        }
    }

    // The next eight new bits, the first highest, and the register after them. What is pushed comes out fourteen bits
    // later, so the register gives all eight: they are the low bits of its sum with itself moved by one stage.
    fn eight(self) -> (u8, Register)
        ensures key { result.0 ≡ keyed 8 self }
        ensures register { result.1 ≡ after 8 self }
    {
        let fresh = ((self.stages ^ (self.stages >> 1)) % 256) as u8;
        let stages = fresh as u16 * 128 + self.stages / 256;
        (fresh.reverse_bits(), Register::new(stages))
    }

    // Scrambles the bytes from the register on, and returns the register that is left. To scramble again from the same
    // register undoes it.
    pub fn scramble(self, bytes: &mut [u8]) -> Register
        ensures bytes { (i : ℕ) → i < length bytes.old → get_or bytes.new i 0 ≡ scrambled self (word bytes.old) i }
        ensures register { result ≡ after (8 * length bytes.old) self }
        ensures below { result < 2 ^ 15 }
        ensures undone { (i : ℕ) → i < length bytes.old → scrambled self (word bytes.new) i ≡ get_or bytes.old i 0 }
    {
        // read, so that the proof has the invariant of the type at hand
        let _ = &self.stages;
        let mut left = self;
        for byte in bytes.iter_mut() {
            let (key, next) = left.eight();
            *byte ^= key;
            left = next;
        }
        left
    }
}
