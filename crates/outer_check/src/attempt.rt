ghost use Rattle.std.specs.Prelude.{◌+◌, ◌*◌, ◌<◌, ◌≤◌};

use corrector::correct_at;
use outer::encode;
use standard::shape::Shape;

// The longest message and the longest block.
pub(crate) const MESSAGE: usize = 108;

pub(crate) const BLOCK: usize = 120;

// A shape whose messages are not empty, and which fits the longest message and block.
#[derive(Clone, Copy)]
pub(crate) struct Tried {
    pub(crate) shape: Shape,
    ghost some: { 0 < shape.size },
    ghost short: { shape.size ≤ 108 },
    ghost room: { 2 * shape.limit + shape.size ≤ 120 },
}

impl Tried {
    // The outer word of a message.
    pub(crate) fn word(self, message: &[u8; MESSAGE]) -> [u8; BLOCK] {
        let mut word = [0; BLOCK];
        encode(self.shape, 1, message, &mut word);
        word
    }

    // Whether a block is what is sent for its message.
    fn is_word(self, block: &[u8; BLOCK]) -> bool {
        let size = self.shape.size;
        let mut message = [0; MESSAGE];
        message[..size].copy_from_slice(&block[self.shape.parity()..self.shape.block()]);
        self.differing(block, &self.word(&message)) == 0
    }

    // In how many bytes two blocks differ.
    fn differing(self, a: &[u8; BLOCK], b: &[u8; BLOCK]) -> usize {
        let n = self.shape.block();
        a[..n].iter().zip(&b[..n]).filter(|(x, y)| x != y).count()
    }

    fn same(self, a: &[u8; BLOCK], b: &[u8; BLOCK]) -> bool {
        let n = self.shape.block();
        a[..n] == b[..n]
    }
}

// What came of a damaged block.
#[derive(Clone, Copy)]
pub(crate) enum Outcome {
    // The word that was sent, and how many bytes were wrong.
    Corrected,
    // No answer, and more bytes were wrong than the limit; the block is as it was.
    Refused,
    // More bytes were wrong than the limit, and another outer word is within it.
    Other,
    Wrong,
}

// A block, before and after it was corrected, and what the corrector answered.
#[derive(Drop)]
pub(crate) struct Attempt {
    tried: Tried,
    before: [u8; BLOCK],
    after: [u8; BLOCK],
    answer: Option<usize>,
}

impl Attempt {
    pub(crate) fn new(tried: Tried, before: [u8; BLOCK]) -> Attempt {
        let mut after = before;
        let answer = correct_at(&mut after, 0, tried.shape, tried.shape.limit);
        Attempt {
            tried,
            before,
            after,
            answer,
        }
    }

    // What came of it, if `word` was sent.
    pub(crate) fn outcome(&self, word: &[u8; BLOCK]) -> Outcome {
        let tried = self.tried;
        let limit = tried.shape.limit;
        let wrong = tried.differing(word, &self.before);
        let changed = tried.differing(&self.before, &self.after);
        match self.answer {
            Some(count) if count > limit || count != changed || !tried.is_word(&self.after) => {
                Outcome::Wrong
            }
            Some(_) if tried.same(word, &self.after) => Outcome::Corrected,
            Some(_) if wrong > limit => Outcome::Other,
            None if wrong > limit && changed == 0 => Outcome::Refused,
            _ => Outcome::Wrong,
        }
    }

    // With the smaller limit `most` the same word comes back if it is within it, and none if it is not.
    fn agrees(&self, most: usize) -> bool
        requires { most ≤ self.now.tried.shape.limit }
    {
        let tried = self.tried;
        let mut block = self.before;
        let again = correct_at(&mut block, 0, tried.shape, most);
        match self.answer {
            Some(count) if count <= most => again == self.answer && tried.same(&block, &self.after),
            _ => again == None && tried.same(&block, &self.before),
        }
    }

    // It agrees with every smaller limit.
    pub(crate) fn all_agree(&self) -> bool {
        (0..self.tried.shape.limit).all(|most| self.agrees(most))
    }
}
