//! Received bursts from standard input: five bytes of a request, then four bytes of each of its points. For each it prints
//! what decoding answers.
#![tactic(auto)]

use decoder::report::Report;
use standard::order::{Order, Request};
use standard::point::Point;
use standard::refusal::Refusal;
use std::alloc::Global;
use std::io::Read;
use trellis::WORK_WORDS;

const INPUT_BYTES: u64 = 65536;

// The 192 points of a symbol, four bytes each.
const SYMBOL_BYTES: usize = 768;

// The most data bytes that a burst has.
const DATA_BYTES: usize = 863;

// The points of as many bytes as make whole ones: both axes in 16 bits, high byte first.
fn points_of(heap: Global, bytes: &[u8]) -> anyhow::Result<Vec<Point>> {
    let mut points = Vec::new(heap);
    let (fours, _) = bytes.as_chunks::<4>();
    for [a, b, c, d] in fours {
        points.push(Point {
            i: i16::from_be_bytes([*a, *b]),
            q: i16::from_be_bytes([*c, *d]),
        })?;
    }
    Ok(points)
}

fn show_data(rt: &HostRuntime, report: Report, bytes: &[u8]) -> anyhow::Result<()> {
    let wrong = report.wrong_bits;
    let corrected = report.corrected_bytes;
    print!(rt; "0 {wrong} {corrected} ")?;
    for byte in bytes {
        print!(rt; "{byte:02X}")?;
    }
    println!(rt; "")?;
    Ok(())
}

// As this program's output has it, which is none of standard's matter: so no `impl Display` for a refusal.
fn show_refusal(rt: &HostRuntime, refusal: Refusal) -> anyhow::Result<()> {
    let number = refusal.number();
    match refusal {
        Refusal::Block(block) => println!(rt; "{number} {block}")?,
        _ => println!(rt; "{number}")?,
    }
    Ok(())
}

// The data of a burst that is taken, in as many bytes as it carries.
fn decoded<'a>(
    request: Request,
    points: &[Point],
    out: &'a mut [u8],
    work: &mut [u64],
) -> Result<(Report, &'a [u8]), Refusal> {
    let report = decoder::decode(request, points, out, work)?;
    let order = Order::try_from(request)?;
    Ok((report, &out[..order.capacity()]))
}

fn show_burst(rt: &HostRuntime, request: Request, points: &[u8]) -> anyhow::Result<()> {
    let points = points_of(rt.alloc(), points)?;
    let mut out = vec![in rt.alloc(); 0u8; DATA_BYTES]?;
    let mut work = vec![in rt.alloc(); 0u64; WORK_WORDS]?;
    match decoded(request, &points, &mut out, &mut work) {
        Ok((report, data)) => show_data(rt, report, data),
        Err(refusal) => show_refusal(rt, refusal),
    }
}

fn run(rt: &HostRuntime) -> anyhow::Result<()> {
    let mut input = Vec::new(rt.alloc());
    rt.stdin().take(INPUT_BYTES).read_to_end(&mut input)?;
    let mut rest = input.as_slice();
    // no iterator over the bursts: the length of one is known once its head is read
    while let Some((head, tail)) = rest.split_first_chunk::<5>() {
        let request = Request::from(*head);
        let Some((points, after)) = tail.split_at_checked(request.symbols as usize * SYMBOL_BYTES)
        else {
            break;
        };
        show_burst(rt, request, points)?;
        rest = after;
    }
    Ok(())
}

fn main(rt: HostRuntime) -> anyhow::Result<()> {
    run(&rt)
}
