use crate::example::{
    BLOCK_BYTES, BSID, DATA, DATA_BYTES, FRAME, INNER, INTERLEAVER, MESSAGE_BYTES, PERIODS, POINTS,
    REQUEST, SHAPE, SYMBOL_BITS, UIUC,
};
use crate::text::{show_bits, show_bytes, show_points};
use anyhow::anyhow;
use scrambler::Register;
use standard::point::Point;
use std::alloc::Global;

fn scrambled() -> [u8; DATA_BYTES] {
    let mut bytes = DATA;
    Register::start(BSID, UIUC, FRAME).scramble(&mut bytes);
    bytes
}

// What the outer code protects: the scrambled data, and the tail.
fn with_tail(scrambled: &[u8; DATA_BYTES]) -> [u8; MESSAGE_BYTES] {
    let mut message = [0u8; MESSAGE_BYTES];
    message[..DATA_BYTES].copy_from_slice(scrambled);
    message
}

fn outer_coded(message: &[u8; MESSAGE_BYTES]) -> [u8; BLOCK_BYTES] {
    let mut block = [0u8; BLOCK_BYTES];
    outer::encode(SHAPE, 1, message, &mut block);
    block
}

fn inner_coded(block: &[u8; BLOCK_BYTES]) -> [bool; SYMBOL_BITS] {
    let mut coded = [false; SYMBOL_BITS];
    inner::encode(INNER, block, PERIODS, &mut coded);
    coded
}

fn interleaved(coded: &[bool; SYMBOL_BITS]) -> [bool; SYMBOL_BITS] {
    let mut sent = [false; SYMBOL_BITS];
    INTERLEAVER.interleave(1, coded, &mut sent);
    sent
}

// The points that the whole chain makes of the data.
fn mapped(heap: Global) -> anyhow::Result<Vec<Point>> {
    let mut points = vec![in heap; Point { i: 0, q: 0 }; POINTS]?;
    coder::encode(REQUEST, &DATA, &mut points).map_err(|_| anyhow!("the example is refused"))?;
    Ok(points)
}

// Prints what each step makes of what the step before it made, from the data on.
pub(crate) fn show(rt: &HostRuntime) -> anyhow::Result<()> {
    show_bytes(rt, "data", &DATA)?;
    let scrambled = scrambled();
    show_bytes(rt, "scrambled", &scrambled)?;
    let block = outer_coded(&with_tail(&scrambled));
    show_bytes(rt, "outer coded", &block)?;
    let coded = inner_coded(&block);
    show_bits(rt, "inner coded", &coded)?;
    show_bits(rt, "interleaved", &interleaved(&coded))?;
    show_points(rt, "points", &mapped(rt.alloc())?)?;
    Ok(())
}
