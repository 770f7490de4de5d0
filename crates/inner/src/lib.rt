//! The encoder of the inner code, for a whole burst.
#![tactic(auto)]

ghost use Rattle.std.specs.Prelude.{ℕ, ◌+◌, ◌*◌, ◌<◌, ◌≤◌, get_or, length, false, ◌≡◌};
ghost use Rattle.inner_code.specs.Inner.{coded as codeword, x as x_output, y as y_output};
ghost use Rattle.inner.specs.Outputs.{bit, kept, offset as offset_of, x_in, y_in};
ghost use Rattle.standard.specs.Profiles.{period as periodic, punctured};
ghost use Rattle.words.specs.Words.{bits, word};

use standard::order::BLOCK_BYTES;
use standard::profile::{Coded, InnerRate};
use words::bit_at;

// X and Y at eight places at once. The window holds their eight input bits and the six before, the newest lowest.
fn window_outputs(window: u16) -> (u8, u8)
    ensures x { (b : ℕ) → b < 8 → bit result.0 b ≡ x_in window b }
    ensures y { (b : ℕ) → b < 8 → bit result.1 b ≡ y_in window b }
{
    let x = window ^ (window >> 1) ^ (window >> 2) ^ (window >> 3) ^ (window >> 6);
    let y = window ^ (window >> 2) ^ (window >> 3) ^ (window >> 5) ^ (window >> 6);
    ((x % 256) as u8, (y % 256) as u8)
}

// X and Y at every place of a burst, as bytes again; not in pairs, since an entry of the puncturing takes one row whole.
// The rows are fixed arrays, since the calls have no heap.
#[derive(Drop)]
struct Outputs {
    xs: [u8; BLOCK_BYTES],
    ys: [u8; BLOCK_BYTES],
}

// Where an entry of the puncturing table finds its bits.
#[derive(Clone, Copy)]
struct Source<'a> {
    outputs: &'a [u8],
    // in each period
    place: usize,
}

impl Outputs {
    fn of(bytes: &[u8]) -> Outputs
        requires { length bytes.now ≤ BLOCK_BYTES }
        ensures x { (k : ℕ) → k < 8 * length bytes.now → bits (word result.xs) k ≡ x_output (bits (word bytes.now)) k }
        ensures y { (k : ℕ) → k < 8 * length bytes.now → bits (word result.ys) k ≡ y_output (bits (word bytes.now)) k }
    {
        let mut xs = [0; BLOCK_BYTES];
        let mut ys = [0; BLOCK_BYTES];
        let mut window: u16 = 0;
        // by index: after a `zip` with `iter_mut` a proof knows no element
        for (i, byte) in bytes.iter().enumerate() {
            window = (window % 64) * 256 + *byte as u16;
            (xs[i], ys[i]) = window_outputs(window);
        }
        Outputs { xs, ys }
    }

    fn source<'a>(&'a self, entry: Coded) -> Source<'a>
        ensures long { length result.outputs.now ≡ BLOCK_BYTES }
        ensures place { result.place ≡ offset_of entry }
        ensures kept { (k : ℕ) → bits (word result.outputs.now) (k + result.place) ≡ kept (bits (word self.now.xs)) (bits (word self.now.ys)) k entry }
    {
        let (outputs, place) = match entry {
            Coded::X1 => (&self.xs, 0),
            Coded::Y1 => (&self.ys, 0),
            Coded::Y2 => (&self.ys, 1),
            Coded::X3 => (&self.xs, 2),
            Coded::Y4 => (&self.ys, 3),
            Coded::X5 => (&self.xs, 4),
        };
        Source { outputs, place }
    }

    // The coded bits of every period: those that the puncturing keeps.
    fn puncture(&self, rate: InnerRate, periods: usize, coded: &mut [bool])
        requires held { periodic rate * periods ≤ 8 * BLOCK_BYTES }
        requires room { (periodic rate + 1) * periods ≤ length coded.old }
        ensures punctured { (q i : ℕ) → q < periods → i ≤ periodic rate → get_or coded.new ((periodic rate + 1) * q + i) false ≡ kept (bits (word self.now.xs)) (bits (word self.now.ys)) (periodic rate * q) (get_or (punctured rate) i Coded.X1) }
        ensures past { (j : ℕ) → (periodic rate + 1) * periods ≤ j → get_or coded.new j false ≡ get_or coded.old j false }
    {
        let period = rate.period();
        for (index, entry) in rate.puncturing().iter().enumerate() {
            self.source(*entry).spread(index, period, periods, coded);
        }
    }
}

impl Source<'_> {
    // One coded bit of every period: the source's bit is bit `index` of its coded bits.
    #[tactic(auto, using(crate::proofs::Periods::among))]
    fn spread(self, index: usize, period: usize, periods: usize, coded: &mut [bool])
        requires input { self.place < period }
        requires output { index ≤ period }
        requires held { period * periods ≤ 8 * length self.outputs.now }
        requires room { (period + 1) * periods ≤ length coded.old }
        ensures spread { (q : ℕ) → q < periods → get_or coded.new ((period + 1) * q + index) false ≡ bits (word self.entry.outputs.now) (period * q + self.entry.place) }
        ensures rest { (j : ℕ) → ((q : ℕ) → q < periods → j ≡ (period + 1) * q + index → ⊥) → get_or coded.new j false ≡ get_or coded.old j false }
    {
        // by number: it goes in strides of two lengths, the period and one more
        for q in 0..periods {
            coded[(period + 1) * q + index] = bit_at(self.outputs, period * q + self.place);
        }
    }
}

// The coded bits of the bytes, which are whole periods. What stands past them is left as it is. The caller gives the periods,
// of which the contract speaks: here they would be the length divided again by the rate.
pub fn encode(rate: InnerRate, bytes: &[u8], periods: usize, coded: &mut [bool])
    requires short { length bytes.now ≤ 960 }
    requires whole { 8 * length bytes.now ≡ periodic rate * periods }
    requires room { (periodic rate + 1) * periods ≤ length coded.old }
    ensures encoded { (j : ℕ) → j < (periodic rate + 1) * periods → get_or coded.new j false ≡ codeword (periodic rate) (bits (word bytes.now)) j }
    ensures past { (j : ℕ) → (periodic rate + 1) * periods ≤ j → get_or coded.new j false ≡ get_or coded.old j false }
{
    Outputs::of(bytes).puncture(rate, periods, coded);
}
