ghost use Rattle.std.specs.Prelude.{◌+◌, ◌*◌, ◌<◌};

use draws::Draws;
use standard::shape::Shape;

// What is drawn for messages and damage.
#[derive(Drop)]
pub(crate) struct Random {
    draws: Draws,
}

impl Random {
    pub(crate) fn new(seed: u32) -> Random {
        Random {
            draws: Draws::new(seed),
        }
    }

    // The low bits of what is drawn repeat soon.
    fn next(&mut self) -> usize {
        (self.draws.next() >> 8) as usize
    }

    fn byte(&mut self) -> u8 {
        (self.next() % 256) as u8
    }

    pub(crate) fn fill(&mut self, bytes: &mut [u8]) {
        for byte in bytes.iter_mut() {
            *byte = self.byte();
        }
    }
}

// Where a block is damaged.
#[derive(Clone, Copy)]
pub(crate) enum Place {
    // From the first byte on.
    First,
    // From the last byte back.
    Last,
    // From the first byte of the message on.
    Message,
    Anywhere,
}

pub(crate) const PLACES: [Place; 4] = [Place::First, Place::Last, Place::Message, Place::Anywhere];

impl Place {
    // The byte that is damaged as number `i`.
    pub(crate) fn index(self, i: usize, shape: Shape, random: &mut Random) -> usize
        requires { 0 < shape.size }
        ensures { result < 2 * shape.limit + shape.size }
    {
        let n = shape.block();
        match self {
            Place::First => i % n,
            Place::Last => n - 1 - i % n,
            Place::Message => (shape.parity() + i % n) % n,
            Place::Anywhere => random.next() % n,
        }
    }
}

// What a damaged byte becomes.
#[derive(Clone, Copy)]
pub(crate) enum Value {
    // Another one.
    Other,
    Erased,
    // The same for every damage.
    Same,
}

pub(crate) const VALUES: [Value; 3] = [Value::Other, Value::Erased, Value::Same];

impl Value {
    pub(crate) fn instead_of(self, byte: u8, random: &mut Random) -> u8 {
        match self {
            Value::Other => byte ^ (1 + random.next() % 255) as u8,
            Value::Erased => 0,
            Value::Same => 0xA5,
        }
    }
}
