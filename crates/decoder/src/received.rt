ghost use Rattle.std.specs.Prelude.{◌≡◌, ℕ, ◌+◌, ◌*◌, ◌<◌, ◌≤◌, length, IfOk, slice_index};
ghost use Rattle.decoder.specs.Hearing.{Received as AreHeard};
ghost use Rattle.decoder.specs.Receiving.{points_rows};
ghost use Rattle.decoder.specs.Steps.{Answers, Bytewise};
ghost use Rattle.standard.specs.Refusals.{asked, capacity as capable, first, refused};
ghost use Rattle.trellis.specs.Search.{search_rows};
ghost use Rattle.words.specs.Words.{bytes as bytewise, flags, value, word};

use crate::blocks::Blocks;
use crate::report::Report;
use coder::{BURST_BITS, block_bytes, interleaver, periods};
use standard::order::{BLOCK_BYTES, Order, Request};
use standard::point::Point;
use standard::refusal::Refusal;
use trellis::PATH_BITS;
use words::number;

// An accepted order, with all the points that it has. Its steps work in fixed arrays of the longest burst: the calls have
// no heap.
#[derive(Clone, Copy)]
pub(crate) struct Received<'a> {
    pub(crate) order: Order,
    points: &'a [Point],
    ghost whole: { length points.now ≡ 192 * order.symbols },
}

// Writes the bytes of the bits.
fn pack(bits: &[bool], bytes: &mut [u8])
    requires { 8 * length bytes.old ≤ length bits.now }
    ensures { (i : ℕ) → i < length bytes.old → slice_index bytes.new i ≡ bytewise (flags bits.now) i }
{
    // by index: after a `zip` with `iter_mut` a proof knows no element
    for (i, byte) in bytes.iter_mut().enumerate() {
        *byte = number(&bits[8 * i..8 * i + 8]) as u8;
    }
}

impl<'a> Received<'a> {
    // The one way to what is received.
    pub(crate) fn accept(request: Request, points: &'a [Point]) -> Result<Received<'a>, Refusal>
        ensures answer { refused result ≡ first (points_rows request (length points.now)) }
        ensures order { IfOk result (λ r. asked r.order ≡ request) }
        ensures points { IfOk result (λ r. r.points.now ≡ points.now) }
    {
        let order = Order::try_from(request)?;
        if points.len() != order.points() {
            return Err(Refusal::PointCount);
        }
        Ok(Received { order, points })
    }

    // Writes the coded bits that the points are decided to.
    fn hear_coded(&self, coded: &mut [bool; BURST_BITS])
        ensures { AreHeard (asked self.now.order) self.now.points.now (flags coded.new) }
    {
        let mut heard = [false; BURST_BITS];
        constellation::hear(self.order.profile().modulation(), self.points, &mut heard);
        interleaver(self.order).deinterleave(self.order.symbols(), &heard, coded);
    }

    // Writes the bytes of the nearest inner word, and says in how many coded bits it differs from what was heard.
    fn receive_bytes(&self, work: &mut [u64], bytes: &mut [u8; BLOCK_BYTES]) -> Result<u32, Refusal>
        ensures answer { refused result ≡ first (search_rows (length work.old)) }
        ensures received { IfOk result (λ wrong. Bytewise (asked self.now.order) self.now.points.now (word bytes.new) wrong) }
    {
        let mut coded = [false; BURST_BITS];
        self.hear_coded(&mut coded);
        let mut path = [false; PATH_BITS];
        let inner = self.order.profile().inner;
        let wrong = receiver::nearest(inner, periods(self.order), &coded, work, &mut path)?;
        let count = block_bytes(self.order);
        pack(&path, &mut bytes[..count]);
        Ok(wrong)
    }

    // Writes the data to an output with room for it.
    pub(crate) fn decode(&self, out: &mut [u8], work: &mut [u64]) -> Result<Report, Refusal>
        requires { capable self.now.order.rate self.now.order.symbols ≤ length out.old }
        ensures { Answers (asked self.now.order) self.now.points.now (length work.old) out.old out.new result }
    {
        let mut bytes = [0; BLOCK_BYTES];
        let wrong_bits = self.receive_bytes(work, &mut bytes)?;
        let mut blocks = Blocks {
            order: self.order,
            bytes,
        };
        let corrected_bytes = blocks.take()?;
        blocks.write_data(out);
        Ok(Report {
            wrong_bits,
            corrected_bytes,
        })
    }
}
