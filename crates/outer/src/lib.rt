//! The outer encoder: before each block of a message it writes the block's parity.
#![tactic(auto)]

ghost use Rattle.std.specs.Prelude.{◌≡◌, ℕ, ◌+◌, ◌*◌, ◌<◌, ◌≤◌, length, slice_index, slice_index_or};
ghost use Rattle.field.specs.Field.{◌⊕◌, ◌⊗◌, gexp};
ghost use Rattle.outer_code.specs.Blocks.{block_of, blocks};
ghost use Rattle.outer_code.specs.Outer.{Outer};
ghost use Rattle.outer_code.specs.Parity.{generator, next, parity_of};
ghost use Rattle.words.specs.Words.{part, word};

use field::{log, power};
use standard::shape::Shape;

// The logarithms of the generator's coefficients, highest power first, but for that of x^16, which is 1.
const GENERATOR_LOGS: [u8; 16] = [
    120, 104, 107, 109, 102, 161, 76, 3, 91, 191, 147, 169, 182, 194, 225, 120,
];

// Coefficient `i` of the generator times 02^`exponent`.
fn coefficient(exponent: u8, i: usize) -> u8
    requires low { exponent < 255 }
    requires within { i < 16 }
    ensures { result ≡ gexp exponent ⊗ slice_index_or generator i 0 }
{
    power(exponent as usize + GENERATOR_LOGS[i] as usize)
}

// Adds the generator times 02^`exponent` to the rest.
fn add_generator(rest: &mut [u8; 16], exponent: u8)
    requires { exponent < 255 }
    ensures { (k : ℕ) → k < 16 → slice_index rest.new k ≡ slice_index rest.old k ⊕ (gexp exponent ⊗ slice_index_or generator k 0) }
{
    for (i, place) in rest.iter_mut().enumerate() {
        *place ^= coefficient(exponent, i);
    }
}

// The rest after one more byte of the message. The feedback's logarithm is looked up once for all coefficients.
fn divide(rest: &[u8; 16], byte: u8) -> [u8; 16]
    ensures { result ≡ next rest.now byte }
{
    let feedback = byte ^ rest[0];
    let mut moved = [0; 16];
    moved[..15].copy_from_slice(&rest[1..]);
    if feedback != 0 {
        add_generator(&mut moved, log(feedback));
    }
    moved
}

fn parity(message: &[u8]) -> [u8; 16]
    ensures { result ≡ parity_of message.now }
{
    let mut rest = [0; 16];
    for byte in message {
        rest = divide(&rest, *byte);
    }
    rest
}

// Writes the block of a message: what is sent of its parity, then the message.
fn encode_block(shape: Shape, message: &[u8], coded: &mut [u8])
    requires message { length message.now ≡ shape.size }
    requires coded { length coded.old ≡ 2 * shape.limit + shape.size }
    ensures { coded.new ≡ block_of shape.limit message.now }
{
    let parity = parity(message);
    let sent = shape.parity();
    coded[..sent].copy_from_slice(&parity[..sent]);
    coded[sent..].copy_from_slice(message);
}

// Writes the blocks of `count` messages of one shape. Both slices may be longer, as the arrays of the longest burst are.
pub fn encode(shape: Shape, count: usize, message: &[u8], coded: &mut [u8])
    requires some { 0 < shape.size }
    requires there { count * shape.size ≤ length message.now }
    requires room { count * (2 * shape.limit + shape.size) ≤ length coded.old }
    ensures coded { (i : ℕ) → i < count * (2 * shape.limit + shape.size) → slice_index coded.new i ≡ blocks shape.size shape.limit (word message.now) i }
    ensures past { (k : ℕ) → count * (2 * shape.limit + shape.size) ≤ k → slice_index coded.new k ≡ slice_index coded.old k }
    ensures words { (b : ℕ) → b < count → Outer shape.size shape.limit (part (2 * shape.limit + shape.size) ((2 * shape.limit + shape.size) * b) (word coded.new)) }
{
    let size = shape.size;
    let block = shape.block();
    // by number: after `chunks_exact_mut` a proof knows no element
    for b in 0..count {
        let message = &message[size * b..size * b + size];
        encode_block(shape, message, &mut coded[block * b..block * b + block]);
    }
}
