ghost use Rattle.std.specs.Prelude.{◌≡◌, ◌+◌, ◌*◌, ◌/◌, ◌≤◌};
ghost use Rattle.coder.specs.Sending.{band, burst_length, profiled};
ghost use Rattle.scrambler.specs.Scrambler.{start};
ghost use Rattle.standard.specs.Modulations.{carrier_bits};
ghost use Rattle.standard.specs.Profiles.{period as periodic};
ghost use Rattle.standard.specs.Refusals.{asked};

use interleaver::Interleaver;
use scrambler::Register;
use standard::order::Order;

// The most bytes that a burst has before the outer step.
pub const MESSAGE_BYTES: usize = 864;

// The most coded bits that a burst has.
pub const BURST_BITS: usize = 9216;

// All sixteen subchannels.
const BAND: usize = 16;

// How many bytes the blocks of an order have.
pub fn block_bytes(order: Order) -> usize
    ensures value { result ≡ order.symbols * (profiled (asked order)).block }
    ensures few { result ≤ 960 }
{
    order.symbols() * order.profile().block
}

// How many periods of the puncturing an order has. Its bytes and its coded bits are whole ones.
pub fn periods(order: Order) -> usize
    ensures value { result ≡ 8 * (order.symbols * (profiled (asked order)).block) / periodic (profiled (asked order)).inner }
    ensures whole { 8 * (order.symbols * (profiled (asked order)).block) ≡ periodic (profiled (asked order)).inner * result }
    ensures coded { (periodic (profiled (asked order)).inner + 1) * result ≡ burst_length (asked order) }
{
    8 * block_bytes(order) / order.profile().inner.period()
}

// The register that scrambling an order starts from.
pub fn register(order: Order) -> Register
    ensures { result ≡ start order.bsid order.uiuc order.frame }
{
    Register::start(order.bsid(), order.uiuc(), order.frame())
}

// The interleaver of an order.
pub fn interleaver(order: Order) -> Interleaver
    ensures band { result.subchannels ≡ band }
    ensures bits { carrier_bits result.modulation ≡ (profiled (asked order)).bits }
{
    Interleaver {
        subchannels: BAND,
        modulation: order.profile().modulation(),
    }
}
