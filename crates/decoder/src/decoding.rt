ghost use Rattle.std.specs.Prelude.{length};
ghost use Rattle.decoder.specs.Receiving.{Decodes, RoundTrip};

use crate::received::Received;
use crate::report::Report;
use standard::order::Request;
use standard::point::Point;
use standard::refusal::Refusal;

// The data of the burst whose points were received, filling included. A refusal leaves the output as it was.
pub fn decode(
    request: Request,
    points: &[Point],
    out: &mut [u8],
    work: &mut [u64],
) -> Result<Report, Refusal>
    ensures decoded { Decodes request points.now (length work.old) out.old out.new result }
    ensures clean { RoundTrip request points.now (length work.old) out.old out.new result }
{
    let received = Received::accept(request, points)?;
    if out.len() < received.order.capacity() {
        return Err(Refusal::Output);
    }
    received.decode(out, work)
}
