ghost use Rattle.std.specs.Prelude.{◌≡◌, ℕ, suc, ◌+◌, ◌-◌, ◌*◌, ◌<◌, ◌≤◌, length, slice_index, slice_index_or};
ghost use Rattle.field.specs.Field.{◌⊕◌, ◌⊗◌, gexp, gpow};
ghost use Rattle.outer_theory.proofs.Errors.{Errors};
ghost use Rattle.outer_theory.specs.Sums.{sum};
ghost use Rattle.outer_theory.specs.Syndromes.{X};

use crate::syndromes::{add_powers, place, weight_log};
use field::{inverse, log, mul, power};
use standard::shape::Shape;

// Adds what the coefficient of x^`l` gives to the locator's values at the first powers of 02.
fn add_coefficient(values: &mut [u8], coefficient: u8, l: usize)
    requires { l ≤ 8 }
    ensures { (m : ℕ) → m < length values.old → slice_index values.new m ≡ slice_index_or values.old m 0 ⊕ (coefficient ⊗ gpow (gexp m) l) }
{
    if coefficient != 0 {
        add_powers(values, usize::from(log(coefficient)), l);
    }
}

// Adds the locator's values at the first powers of 02.
fn add_values(values: &mut [u8], locator: &[u8])
    requires { length locator.now ≤ 9 }
    ensures { (m : ℕ) → m < length values.old → slice_index values.new m ≡ slice_index_or values.old m 0 ⊕ sum (length locator.now) (λ l. slice_index_or locator.now l 0 ⊗ gpow (gexp m) l) }
{
    for (l, coefficient) in locator.iter().enumerate() {
        add_coefficient(values, *coefficient, l);
    }
}

// The locator's values at the powers of 02 that a block has: the first of 255 bytes, a fixed array since nothing is allocated.
fn values_of(locator: &[u8; 9], shape: Shape) -> [u8; 255]
    ensures { (m : ℕ) → m < 2 * shape.limit + shape.size → slice_index result m ≡ sum (suc shape.limit) (λ l. slice_index_or locator.now l 0 ⊗ gpow (gexp m) l) }
{
    let n = shape.block();
    let locator = &locator[..shape.limit + 1];
    let mut values = [0; 255];
    add_values(&mut values[..n], locator);
    values
}

// Marks each byte of a block with the locator's value for it: where it is 0, the byte may be wrong. The lengths of what is
// written, here and in `find`, and the bound of a place `k` stay clauses: a type for either would be made for the one call.
pub(crate) fn mark(marks: &mut [u8], locator: &[u8; 9], shape: Shape)
    requires { length marks.old ≡ 2 * shape.limit + shape.size }
    ensures { (k : ℕ) → k < 2 * shape.limit + shape.size → slice_index marks.new k ≡ sum (suc shape.limit) (λ l. slice_index_or locator.now l 0 ⊗ gpow (X (2 * shape.limit) (2 * shape.limit + shape.size) k) l) }
{
    let values = values_of(locator, shape);
    for (k, mark) in marks.iter_mut().enumerate() {
        *mark = values[place(shape, k)];
    }
}

// Takes the error whose locator is `x` out of the power sums, at the price of the last of them: each other error is
// multiplied by the sum of its locator and `x`.
fn fold(sums: &mut [u8; 16], x: u8, shape: Shape)
    ensures { (j : ℕ) → j < shape.limit → slice_index sums.new j ≡ slice_index_or sums.old (j + 1) 0 ⊕ (x ⊗ slice_index_or sums.old j 0) }
{
    // Each turn reads two neighbours and writes one, which no iterator lends.
    for j in 0..shape.limit {
        sums[j] = sums[j + 1] ^ mul(x, sums[j]);
    }
}

// What is known of a block: its syndromes, and for each byte the locator's value, which is 0 where the byte may be wrong.
#[derive(Clone, Copy)]
pub(crate) struct Findings<'a> {
    pub(crate) syndromes: [u8; 16],
    pub(crate) marks: &'a [u8],
    pub(crate) shape: Shape,
    ghost long: { length marks.now ≡ 2 * shape.limit + shape.size },
}

impl Findings<'_> {
    // The error at byte `k`, which is marked: all other marked bytes are taken out of the syndromes, and what is left is divided
    // by the weight of the byte and its distances from them.
    fn error_at(&self, k: usize) -> u8
        requires within { k < 2 * self.now.shape.limit + self.now.shape.size }
        requires marked { slice_index self.now.marks.now k ≡ 0 }
        ensures { (e : ℕ → ℕ) → Errors self.now.shape.limit (2 * self.now.shape.limit + self.now.shape.size) self.now.syndromes self.now.marks.now e → result ≡ e k }
    {
        let shape = self.shape;
        let m = place(shape, k);
        let x = power(m);
        let mut sums = self.syndromes;
        let mut divisor = power(weight_log(shape, m));
        for (i, mark) in self.marks.iter().enumerate() {
            if i != k && *mark == 0 {
                let y = power(place(shape, i));
                fold(&mut sums, y, shape);
                divisor = mul(divisor, x ^ y);
            }
        }
        mul(sums[0], inverse(divisor))
    }

    // The error at byte `k`.
    fn error_of(&self, k: usize) -> u8
        requires { k < 2 * self.now.shape.limit + self.now.shape.size }
        ensures { (e : ℕ → ℕ) → Errors self.now.shape.limit (2 * self.now.shape.limit + self.now.shape.size) self.now.syndromes self.now.marks.now e → result ≡ e k }
    {
        if self.marks[k] == 0 {
            self.error_at(k)
        } else {
            0
        }
    }

    // Finds the errors of the block, if there are any at the marked bytes alone that explain the syndromes.
    pub(crate) fn find(&self, errors: &mut [u8])
        requires { length errors.old ≡ 2 * self.now.shape.limit + self.now.shape.size }
        ensures { (e : ℕ → ℕ) → Errors self.now.shape.limit (2 * self.now.shape.limit + self.now.shape.size) self.now.syndromes self.now.marks.now e → (k : ℕ) → k < 2 * self.now.shape.limit + self.now.shape.size → slice_index errors.new k ≡ e k }
    {
        for (k, error) in errors.iter_mut().enumerate() {
            *error = self.error_of(k);
        }
    }
}
