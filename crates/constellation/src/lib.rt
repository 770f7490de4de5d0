//! Bits to the points of carriers, and points decided to bits.
#![tactic(auto)]

ghost use Rattle.std.specs.Prelude.{◌≡◌, ℕ, ◌+◌, ◌*◌, ◌^◌, ◌<◌, ◌≤◌, length, nat_lt, pos, slice_index_or};
ghost use Rattle.constellation.specs.Constellation.{Carried, level, origin, point, width as wide};
ghost use Rattle.constellation.specs.Decisions.{Decided, Decisions, Heard};
ghost use Rattle.constellation.specs.Steps.{AxisHeard, PointHeard, Ranked};
ghost use Rattle.standard.specs.Modulations.{carrier_bits};
ghost use Rattle.words.specs.Words.{flags, value};

use standard::modulation::Modulation;
use standard::point::Point;
use words::number;

// The levels of an axis by their bits, Gray coded: neighbouring levels differ in one bit.
const ONE_BIT: [i16; 2] = [256, -256];

const TWO_BITS: [i16; 4] = [256, 768, -256, -768];

const THREE_BITS: [i16; 8] = [768, 256, 1280, 1792, -768, -256, -1280, -1792];

// The levels of an axis, in counts.
fn levels(modulation: Modulation) -> &'static [i16]
    ensures count { length result.now ≡ 2 ^ wide (carrier_bits modulation) }
    ensures values { (v : ℕ) → v < length result.now → slice_index_or result.now v (pos 0) ≡ level (wide (carrier_bits modulation)) v }
{
    match modulation {
        Modulation::Bpsk | Modulation::Qpsk => &ONE_BIT,
        Modulation::Qam16 => &TWO_BITS,
        Modulation::Qam64 => &THREE_BITS,
    }
}

// Whether the quadrature carries bits: that of BPSK does not.
fn has_quadrature(modulation: Modulation) -> bool
    ensures { result ≡ nat_lt 1 (carrier_bits modulation) }
{
    !matches!(modulation, Modulation::Bpsk)
}

// The level of the bits of an axis, from `at` on.
fn axis_at(modulation: Modulation, sent: &[bool], at: usize) -> i16
    requires { at + wide (carrier_bits modulation) ≤ length sent.now }
    ensures { result ≡ level (wide (carrier_bits modulation)) (value (wide (carrier_bits modulation)) (λ u. flags sent.now (at + u))) }
{
    let v = number(&sent[at..at + modulation.axis_bits()]);
    levels(modulation)[v]
}

// The point of carrier `t`: BPSK has no quadrature.
fn point_at(modulation: Modulation, sent: &[bool], t: usize) -> Point
    requires few { t < 1536 }
    requires within { carrier_bits modulation * t + carrier_bits modulation ≤ length sent.now }
    ensures { result ≡ point (carrier_bits modulation) (flags sent.now) t }
{
    let at = modulation.bits() * t;
    let i = axis_at(modulation, sent, at);
    if !has_quadrature(modulation) {
        return Point { i, q: 0 };
    }
    let q = axis_at(modulation, sent, at + modulation.axis_bits());
    Point { i, q }
}

// The points of the bits, by a modulation that the caller names.
fn map_by(modulation: Modulation, sent: &[bool], points: &mut [Point])
    requires few { length points.old ≤ 1536 }
    requires long { carrier_bits modulation * length points.old ≤ length sent.now }
    ensures { (t : ℕ) → t < length points.old → slice_index_or points.new t origin ≡ point (carrier_bits modulation) (flags sent.now) t }
{
    for (t, p) in points.iter_mut().enumerate() {
        *p = point_at(modulation, sent, t);
    }
}

// The points of the bits. Each modulation has a loop of its own, in which its widths and levels are constants: without
// that here and in the interleaver a whole burst took 5.1 ns a coded bit at rate 2, past the bar of 5; it takes 3.3.
pub fn map(modulation: Modulation, sent: &[bool], points: &mut [Point])
    requires few { length points.old ≤ 1536 }
    requires long { carrier_bits modulation * length points.old ≤ length sent.now }
    ensures { (t : ℕ) → t < length points.old → slice_index_or points.new t origin ≡ point (carrier_bits modulation) (flags sent.now) t }
{
    match modulation {
        Modulation::Bpsk => map_by(Modulation::Bpsk, sent, points),
        Modulation::Qpsk => map_by(Modulation::Qpsk, sent, points),
        Modulation::Qam16 => map_by(Modulation::Qam16, sent, points),
        Modulation::Qam64 => map_by(Modulation::Qam64, sent, points),
    }
}

// The rank, from the lowest, of the level nearest to `x` among `l` that stand 512 apart. The lowest axis value
// is 64 steps below zero.
fn nearest(l: u32, x: i16) -> u32
    requires some { 0 < l }
    requires few { l ≤ 8 }
    ensures { Ranked l x result }
{
    let steps = ((i32::from(x) + 32768) as u32 + 256 * l) / 512;
    steps.saturating_sub(64).min(l - 1)
}

// The bits of the level nearest to `x`; of two equally near, of the greater. Ranks are Gray coded.
fn decide(modulation: Modulation, x: i16) -> u8
    ensures { Decided (wide (carrier_bits modulation)) x result }
{
    let l = levels(modulation).len() as u32;
    let n = nearest(l, x);
    (l - 1 - (n ^ (n >> 1))) as u8
}

// Writes the number as bits, highest first.
fn write_bits(v: u8, bits: &mut [bool])
    requires short { length bits.old ≤ 3 }
    requires among { v < 2 ^ length bits.old }
    ensures { value (length bits.old) (flags bits.new) ≡ v }
{
    let b = bits.len();
    for (u, bit) in bits.iter_mut().enumerate() {
        *bit = (v >> (b - 1 - u)) % 2 == 1;
    }
}

// Writes the bits that `x` is decided to, from `at` on.
fn hear_axis(modulation: Modulation, x: i16, at: usize, bits: &mut [bool])
    requires { at + wide (carrier_bits modulation) ≤ length bits.old }
    ensures { AxisHeard at (wide (carrier_bits modulation)) x (flags bits.old) (flags bits.new) }
{
    let v = decide(modulation, x);
    write_bits(v, &mut bits[at..at + modulation.axis_bits()]);
}

// Writes the bits of carrier `t`.
fn hear_point(modulation: Modulation, p: Point, t: usize, bits: &mut [bool])
    requires few { t < 1536 }
    requires within { carrier_bits modulation * t + carrier_bits modulation ≤ length bits.old }
    ensures { PointHeard (carrier_bits modulation) t p (flags bits.old) (flags bits.new) }
{
    let at = modulation.bits() * t;
    let Point { i, q } = p;
    hear_axis(modulation, i, at, bits);
    if has_quadrature(modulation) {
        hear_axis(modulation, q, at + modulation.axis_bits(), bits);
    }
}

// The bits that the points are decided to, by a modulation that the caller names.
fn hear_by(modulation: Modulation, points: &[Point], bits: &mut [bool])
    requires few { length points.now ≤ 1536 }
    requires bits_long { carrier_bits modulation * length points.now ≤ length bits.old }
    ensures heard { Heard (carrier_bits modulation) (length points.now) points.now (flags bits.new) }
    ensures past { (k : ℕ) → carrier_bits modulation * length points.now ≤ k → flags bits.new k ≡ flags bits.old k }
{
    for (t, &p) in points.iter().enumerate() {
        hear_point(modulation, p, t, bits);
    }
}

// The bits that the points are decided to. Each modulation has a loop of its own, as in `map`: without that
// here and in the interleaver decoding took up to 8 ns a stage more.
pub fn hear(modulation: Modulation, points: &[Point], bits: &mut [bool])
    requires few { length points.now ≤ 1536 }
    requires bits_long { carrier_bits modulation * length points.now ≤ length bits.old }
    ensures heard { Heard (carrier_bits modulation) (length points.now) points.now (flags bits.new) }
    ensures past { (k : ℕ) → carrier_bits modulation * length points.now ≤ k → flags bits.new k ≡ flags bits.old k }
{
    match modulation {
        Modulation::Bpsk => hear_by(Modulation::Bpsk, points, bits),
        Modulation::Qpsk => hear_by(Modulation::Qpsk, points, bits),
        Modulation::Qam16 => hear_by(Modulation::Qam16, points, bits),
        Modulation::Qam64 => hear_by(Modulation::Qam64, points, bits),
    }
}

// Every point is heard in one way, and as it was sent if it has not moved: see the contract.
pub fn decisions_stand()
    ensures { Decisions }
{}

// A point is within reach, and carries its bits: see the contract.
pub fn points_carry_their_bits()
    ensures { Carried }
{}
