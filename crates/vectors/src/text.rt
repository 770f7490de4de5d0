use crate::example::{SYMBOL_BITS, SYMBOL_BYTES};
use standard::point::Point;
use std::io;
use words::number;

// Counts to a unit.
const UNIT: i16 = 256;

// Prints a step's name, and below it its bytes as hexadecimal capitals.
pub(crate) fn show_bytes(rt: &impl Print, step: &str, bytes: &[u8]) -> io::Result<()> {
    println!(rt; "{step}")?;
    let mut gap = "";
    for byte in bytes {
        print!(rt; "{gap}{byte:02X}")?;
        gap = " ";
    }
    println!(rt; "")
}

// Prints a step's name, and below it its bits as bytes.
pub(crate) fn show_bits(rt: &impl Print, step: &str, bits: &[bool; SYMBOL_BITS]) -> io::Result<()> {
    let mut bytes = [0u8; SYMBOL_BYTES];
    for (byte, eight) in bytes.iter_mut().zip(bits.chunks(8)) {
        *byte = number(eight) as u8;
    }
    show_bytes(rt, step, &bytes)
}

// Prints a step's name, and below it its points in units, a line for each.
pub(crate) fn show_points(rt: &impl Print, step: &str, points: &[Point]) -> io::Result<()> {
    println!(rt; "{step}")?;
    for point in points {
        println!(rt; "{} {}", point.i / UNIT, point.q / UNIT)?;
    }
    Ok(())
}
