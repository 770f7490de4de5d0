ghost use Rattle.std.specs.Prelude.{◌≡◌, ℕ, ◌+◌, ◌*◌, ◌<◌, ◌≤◌, false, length, IfOk, slice_index, slice_index_or};
ghost use Rattle.coder.specs.Sending.{burst_length, coded_bits, filled, message, profiled, protected, sent as sending};
ghost use Rattle.standard.specs.Refusals.{asked, burst_rows, capacity as capable, first, refused};

use crate::chain::{BURST_BITS, MESSAGE_BYTES, block_bytes, interleaver, periods, register};
use standard::order::{BLOCK_BYTES, Order, Request};
use standard::refusal::Refusal;

// An accepted order, with data that it has room for. Its steps work in fixed arrays of the longest burst: the calls have
// no heap.
#[derive(Clone, Copy)]
pub(crate) struct Burst<'a> {
    pub(crate) order: Order,
    payload: &'a [u8],
    ghost room: { length payload.now ≤ capable order.rate order.symbols },
}

// Writes the payload, filled up with FF.
fn fill(payload: &[u8], data: &mut [u8])
    requires { length payload.now ≤ length data.old }
    ensures { (i : ℕ) → i < length data.old → slice_index data.new i ≡ filled payload.now i }
{
    let given = payload.len();
    data[..given].copy_from_slice(payload);
    data[given..].fill(0xFF);
}

impl<'a> Burst<'a> {
    // The one way to a burst.
    pub(crate) fn accept(request: Request, payload: &'a [u8]) -> Result<Burst<'a>, Refusal>
        ensures answer { refused result ≡ first (burst_rows request (length payload.now)) }
        ensures order { IfOk result (λ b. asked b.order ≡ request) }
        ensures payload { IfOk result (λ b. b.payload.now ≡ payload.now) }
    {
        let order = Order::try_from(request)?;
        if payload.len() > order.capacity() {
            return Err(Refusal::DataLength);
        }
        Ok(Burst { order, payload })
    }

    // Writes what the outer code protects: the data, filled up with FF and scrambled, and the tail.
    fn write_message(&self, out: &mut [u8; MESSAGE_BYTES])
        ensures { (i : ℕ) → i < self.now.order.symbols * (profiled (asked self.now.order)).message → slice_index out.new i ≡ message (asked self.now.order) self.now.payload.now i }
    {
        let count = self.order.capacity();
        let data = &mut out[..count];
        fill(self.payload, data);
        register(self.order).scramble(data);
        out[count] = 0;
    }

    // Writes the blocks of the burst, one for each symbol.
    fn write_blocks(&self, out: &mut [u8; BLOCK_BYTES])
        ensures { (i : ℕ) → i < self.now.order.symbols * (profiled (asked self.now.order)).block → slice_index out.new i ≡ protected (asked self.now.order) self.now.payload.now i }
    {
        let mut message = [0; MESSAGE_BYTES];
        self.write_message(&mut message);
        let shape = self.order.profile().shape();
        outer::encode(shape, self.order.symbols(), &message, out);
    }

    // Writes the coded bits of the burst.
    fn write_coded(&self, coded: &mut [bool; BURST_BITS])
        ensures { (j : ℕ) → j < burst_length (asked self.now.order) → slice_index_or coded.new j false ≡ coded_bits (asked self.now.order) self.now.payload.now j }
    {
        let mut blocks = [0; BLOCK_BYTES];
        self.write_blocks(&mut blocks);
        let count = block_bytes(self.order);
        let rate = self.order.profile().inner;
        inner::encode(rate, &blocks[..count], periods(self.order), coded);
    }

    // Writes the bits of the burst in the order sent.
    pub(crate) fn write_sent(&self, sent: &mut [bool; BURST_BITS])
        ensures bits { (j : ℕ) → j < burst_length (asked self.now.order) → slice_index_or sent.new j false ≡ sending (asked self.now.order) self.now.payload.now j }
        ensures past { (j : ℕ) → burst_length (asked self.now.order) ≤ j → slice_index_or sent.new j false ≡ slice_index_or sent.old j false }
    {
        let mut coded = [false; BURST_BITS];
        self.write_coded(&mut coded);
        interleaver(self.order).interleave(self.order.symbols(), &coded, sent);
    }
}
