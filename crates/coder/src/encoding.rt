ghost use Rattle.std.specs.Prelude.{◌≡◌, ℕ, ◌*◌, ◌<◌, ◌≤◌, true, false, length, is_ok, IfOk, OnOk, slice_index_or};
ghost use Rattle.coder.specs.Sending.{Sent, burst_length, sent as sending};
ghost use Rattle.standard.specs.Refusals.{burst_rows, encode_rows, first, refused};

use crate::burst::Burst;
use crate::chain::BURST_BITS;
use standard::order::Request;
use standard::point::Point;
use standard::refusal::Refusal;

// The bits of the burst that carries the data, in the order sent; the answer is how many. A refusal changes nothing.
pub fn burst_bits(
    request: Request,
    payload: &[u8],
    sent: &mut [bool; BURST_BITS],
) -> Result<usize, Refusal>
    ensures answer { refused result ≡ first (burst_rows request (length payload.now)) }
    ensures kept { is_ok result ≡ false → sent.new ≡ sent.old }
    ensures count { IfOk result (λ n. n ≡ burst_length request) }
    ensures bits { OnOk result ((j : ℕ) → j < burst_length request → slice_index_or sent.new j false ≡ sending request payload.now j) }
    ensures past { OnOk result ((j : ℕ) → burst_length request ≤ j → slice_index_or sent.new j false ≡ slice_index_or sent.old j false) }
{
    let burst = Burst::accept(request, payload)?;
    burst.write_sent(sent);
    Ok(burst.order.points() * burst.order.profile().bits)
}

// The points of the burst that carries the data. A refusal changes nothing.
pub fn encode(request: Request, payload: &[u8], points: &mut [Point]) -> Result<(), Refusal>
    ensures answer { refused result ≡ first (encode_rows request (length payload.now) (length points.old)) }
    ensures kept { is_ok result ≡ false → points.new ≡ points.old }
    ensures points { OnOk result (Sent request payload.now points.new) }
{
    let burst = Burst::accept(request, payload)?;
    if points.len() != burst.order.points() {
        return Err(Refusal::PointCount);
    }
    let mut sent = [false; BURST_BITS];
    burst.write_sent(&mut sent);
    constellation::map(burst.order.profile().modulation(), &sent, points);
    Ok(())
}
