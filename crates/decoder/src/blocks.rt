ghost use Rattle.std.specs.Prelude.{◌≡◌, ℕ, ◌+◌, ◌*◌, ◌/◌, ◌%◌, ◌<◌, ◌≤◌, length, MatchResult, slice_index};
ghost use Rattle.coder.specs.Sending.{profiled};
ghost use Rattle.decoder.specs.Blocks.{BlocksTaken, NoBlock, OneTaken, messages};
ghost use Rattle.scrambler.specs.Scrambler.{scrambled, start};
ghost use Rattle.standard.specs.Refusals.{asked, capacity as capable};
ghost use Rattle.standard.specs.declared.refusal.Refusal.TheVariants.{Block};
ghost use Rattle.words.specs.Words.{word};

use coder::{MESSAGE_BYTES, register};
use corrector::correct_at;
use standard::order::{BLOCK_BYTES, Order};
use standard::refusal::Refusal;

// The blocks of an order, one after another, in a fixed array: the calls have no heap.
#[derive(Drop)]
pub(crate) struct Blocks {
    pub(crate) order: Order,
    pub(crate) bytes: [u8; BLOCK_BYTES],
}

impl Blocks {
    // Makes of block `b` the outer word to take, and says in how many bytes it differed.
    fn take_block(&mut self, b: usize) -> Option<usize>
        requires { b < self.old.order.symbols }
        ensures order { self.new.order ≡ self.old.order }
        ensures taken { OneTaken (asked self.old.order) b (word self.old.bytes) (word self.new.bytes) result }
        ensures before { (k : ℕ) → k < (profiled (asked self.old.order)).block * b → slice_index self.new.bytes k ≡ slice_index self.old.bytes k }
        ensures past { (k : ℕ) → (profiled (asked self.old.order)).block * (b + 1) ≤ k → slice_index self.new.bytes k ≡ slice_index self.old.bytes k }
    {
        let shape = self.order.profile().shape();
        let at = shape.block() * b;
        let wrong = correct_at(&mut self.bytes, at, shape, shape.limit)?;
        if b + 1 == self.order.symbols() && self.bytes[at + (shape.block() - 1)] != 0 {
            return None;
        }
        Some(wrong)
    }

    // Makes of each block the outer word to take, and says in how many bytes they differed together; or refuses the
    // first that has none.
    pub(crate) fn take(&mut self) -> Result<u32, Refusal>
        ensures order { self.new.order ≡ self.old.order }
        ensures taken { MatchResult result (λ sum. BlocksTaken (asked self.old.order) self.old.order.symbols (word self.old.bytes) (word self.new.bytes) sum) (λ e. (k : ℕ) × (e ≡ Block k) × NoBlock (asked self.old.order) (word self.old.bytes) k) }
    {
        let mut sum: u32 = 0;
        for b in 0..self.order.symbols() {
            let wrong = self.take_block(b).ok_or(Refusal::Block(b as u8 + 1))?;
            sum += wrong as u32;
        }
        Ok(sum)
    }

    // The message bytes of the blocks, one after another.
    fn messages(&self) -> [u8; MESSAGE_BYTES]
        ensures { (i : ℕ) → i < self.now.order.symbols * (profiled (asked self.now.order)).message → slice_index result i
            ≡ messages (profiled (asked self.now.order)).message (profiled (asked self.now.order)).limit (word self.now.bytes) i }
    {
        let shape = self.order.profile().shape();
        let mut all = [0; MESSAGE_BYTES];
        // by places: after `chunks_exact_mut` a proof knows no element
        for b in 0..self.order.symbols() {
            let at = shape.size * b;
            let from = shape.block() * b + shape.parity();
            all[at..at + shape.size].copy_from_slice(&self.bytes[from..from + shape.size]);
        }
        all
    }

    // Writes the data of the blocks, which are all outer words: the tail is dropped, and the scrambler undone.
    pub(crate) fn write_data(&self, out: &mut [u8])
        requires { capable self.now.order.rate self.now.order.symbols ≤ length out.old }
        ensures written { (i : ℕ) → i < capable self.now.order.rate self.now.order.symbols → slice_index out.new i
            ≡ scrambled (start self.now.order.bsid self.now.order.uiuc self.now.order.frame) (messages (profiled (asked self.now.order)).message (profiled (asked self.now.order)).limit (word self.now.bytes)) i }
        ensures past { (i : ℕ) → capable self.now.order.rate self.now.order.symbols ≤ i → slice_index out.new i ≡ slice_index out.old i }
    {
        let count = self.order.capacity();
        let all = self.messages();
        let data = &mut out[..count];
        data.copy_from_slice(&all[..count]);
        register(self.order).scramble(data);
    }
}
