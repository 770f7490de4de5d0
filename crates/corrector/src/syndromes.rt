ghost use Rattle.std.specs.Prelude.{◌≡◌, ℕ, ◌+◌, ◌-◌, ◌*◌, ◌<◌, true, false, length, slice_index, slice_index_or};
ghost use Rattle.field.specs.Field.{◌⊕◌, ◌⊗◌, gexp, gpow};
ghost use Rattle.outer_theory.proofs.Products.{product};
ghost use Rattle.outer_theory.specs.Syndromes.{V, X, place as placed, syndrome, weight};
ghost use Rattle.words.specs.Words.{word};

use field::{log, power};
use standard::shape::Shape;

// The logarithms of the products (02^1 + 1)(02^2 + 1) .. (02^n + 1), by n.
const PRODUCT_LOGS: [u8; 255] = [
    0, 25, 75, 43, 143, 26, 217, 74, 19, 139, 160, 150, 22, 121, 90, 123, 13, 81, 66, 158, 200,
    210, 190, 131, 130, 131, 74, 178, 116, 42, 108, 153, 188, 203, 84, 116, 86, 10, 194, 45, 129,
    31, 51, 172, 132, 163, 45, 146, 144, 86, 88, 71, 212, 104, 57, 120, 251, 79, 186, 13, 145, 76,
    166, 221, 36, 198, 228, 189, 206, 81, 145, 254, 194, 175, 23, 222, 80, 53, 10, 184, 97, 2, 61,
    118, 158, 73, 60, 227, 147, 95, 157, 111, 130, 33, 235, 156, 152, 87, 226, 239, 243, 35, 1, 75,
    102, 95, 134, 192, 98, 169, 40, 31, 38, 114, 25, 13, 227, 94, 3, 156, 165, 208, 70, 253, 178,
    117, 227, 239, 124, 108, 177, 233, 38, 33, 210, 99, 133, 179, 184, 27, 155, 207, 170, 65, 200,
    216, 178, 231, 182, 115, 3, 181, 152, 16, 217, 121, 35, 76, 169, 69, 150, 3, 68, 250, 113, 85,
    199, 31, 111, 12, 97, 53, 27, 4, 83, 171, 11, 145, 41, 78, 202, 231, 139, 7, 45, 39, 100, 49,
    198, 162, 4, 10, 2, 30, 155, 227, 250, 44, 70, 145, 153, 52, 146, 235, 167, 119, 12, 217, 16,
    107, 93, 9, 87, 65, 181, 225, 37, 183, 70, 4, 1, 103, 85, 88, 102, 138, 35, 200, 22, 194, 170,
    145, 63, 21, 10, 32, 105, 72, 123, 252, 15, 225, 56, 171, 150, 161, 17, 209, 59, 244, 122, 218,
    183, 231, 0,
];

// The sums 0 + 1 + .. + (e - 1), by e.
const TRIANGLES: [u8; 17] = [
    0, 0, 1, 3, 6, 10, 15, 21, 28, 36, 45, 55, 66, 78, 91, 105, 120,
];

// The power of x whose coefficient byte `k` of a block is, counted from the lowest that is sent. That a place lies in the block
// is a clause here and below: a type for a place would be made anew for each byte.
pub(crate) fn place(shape: Shape, k: usize) -> usize
    requires { k < 2 * shape.limit + shape.size }
    ensures is { result ≡ placed (2 * shape.limit) (2 * shape.limit + shape.size) k }
    ensures low { result < 2 * shape.limit + shape.size }
{
    let parity = shape.parity();
    if k < parity {
        parity - 1 - k
    } else {
        shape.block() + parity - 1 - k
    }
}

fn product_log(n: usize) -> u8
    requires { n < 255 }
    ensures is { gexp result ≡ product n }
    ensures low { result < 255 }
{
    PRODUCT_LOGS[n]
}

// The logarithm of the weight at a place, e bytes of the parity being not sent: that of
// 02^(0 + 1 + .. + (e - 1)) times (02^(place + 1) + 1) .. (02^(place + e) + 1), so that two products give it.
pub(crate) fn weight_log(shape: Shape, place: usize) -> usize
    requires { place < 2 * shape.limit + shape.size }
    ensures is { gexp result ≡ weight (16 - 2 * shape.limit) (place + (16 - 2 * shape.limit)) }
    ensures low { result < 255 }
{
    let e = 16 - shape.parity();
    let shift = usize::from(TRIANGLES[e]);
    let above = usize::from(product_log(place + e));
    let below = usize::from(product_log(place));
    (shift + above + 255 - below) % 255
}

// Adds 02^`start` times the power i of 02^`step` to each value i.
pub(crate) fn add_powers(values: &mut [u8], start: usize, step: usize)
    requires low { start < 255 }
    requires short { step < 255 }
    ensures { (i : ℕ) → i < length values.old → slice_index values.new i ≡ slice_index_or values.old i 0 ⊕ (gexp start ⊗ gpow (gexp step) i) }
{
    let mut exponent = start;
    for value in values.iter_mut() {
        *value ^= power(exponent);
        exponent += step;
        if exponent >= 255 {
            exponent -= 255;
        }
    }
}

// Adds what the byte `k` of a block gives to its syndromes.
fn add_byte(syndromes: &mut [u8], byte: u8, shape: Shape, k: usize)
    requires { k < 2 * shape.limit + shape.size }
    ensures { (j : ℕ) → j < length syndromes.old → slice_index syndromes.new j ≡ slice_index_or syndromes.old j 0 ⊕ ((byte ⊗ V (2 * shape.limit) (2 * shape.limit + shape.size) k) ⊗ gpow (X (2 * shape.limit) (2 * shape.limit + shape.size) k) j) }
{
    if byte != 0 {
        let m = place(shape, k);
        add_powers(
            syndromes,
            (usize::from(log(byte)) + weight_log(shape, m)) % 255,
            m,
        );
    }
}

// A block that is only read.
#[derive(Clone, Copy)]
pub(crate) struct Block<'a> {
    pub(crate) bytes: &'a [u8],
    pub(crate) shape: Shape,
    ghost long: { length bytes.now ≡ 2 * shape.limit + shape.size },
}

impl Block<'_> {
    // Adds its weighted syndromes.
    fn add_to(&self, syndromes: &mut [u8])
        ensures { (j : ℕ) → j < length syndromes.old → slice_index syndromes.new j ≡ slice_index_or syndromes.old j 0 ⊕ syndrome (2 * self.now.shape.limit) (2 * self.now.shape.limit + self.now.shape.size) (word self.now.bytes.now) j }
    {
        for (k, byte) in self.bytes.iter().enumerate() {
            add_byte(syndromes, *byte, self.shape, k);
        }
    }

    // Its weighted syndromes: the first 2T of sixteen bytes, a fixed array since nothing is allocated.
    pub(crate) fn syndromes(&self) -> [u8; 16]
        ensures { (j : ℕ) → j < 2 * self.now.shape.limit → slice_index result j ≡ syndrome (2 * self.now.shape.limit) (2 * self.now.shape.limit + self.now.shape.size) (word self.now.bytes.now) j }
    {
        let parity = self.shape.parity();
        let mut sums = [0; 16];
        self.add_to(&mut sums[..parity]);
        sums
    }

    // Whether these errors have the syndromes that are given, so that without them a block is an outer word.
    pub(crate) fn explains(&self, given: &[u8; 16]) -> bool
        ensures yes { result ≡ true → (j : ℕ) → j < 2 * self.now.shape.limit → slice_index given.now j ≡ syndrome (2 * self.now.shape.limit) (2 * self.now.shape.limit + self.now.shape.size) (word self.now.bytes.now) j }
        ensures no { result ≡ false → ((j : ℕ) → j < 2 * self.now.shape.limit → slice_index given.now j ≡ syndrome (2 * self.now.shape.limit) (2 * self.now.shape.limit + self.now.shape.size) (word self.now.bytes.now) j) → ⊥ }
    {
        let explained = self.syndromes();
        let parity = self.shape.parity();
        given[..parity] == explained[..parity]
    }
}
