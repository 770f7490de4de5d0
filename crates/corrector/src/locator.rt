ghost use Rattle.std.specs.Prelude.{◌≡◌, ℕ, suc, ◌+◌, ◌-◌, ◌*◌, ◌<◌, ◌≤◌, ◌≢◌, ◌==◌, List, true, length, position, slice_index, slice_index_or};
ghost use Rattle.field.specs.Field.{◌⊕◌, ◌⊗◌};
ghost use Rattle.outer_theory.proofs.Rows.{Reduced, Swept, applied, at, left_in};
ghost use Rattle.outer_theory.specs.Sums.{sum};
ghost use Rattle.words.specs.Words.{digit, flags};

use field::{inverse, mul};
use standard::shape::Shape;
use std::array;

// The sum of the products of a row's coefficients and the first syndromes.
fn combine(row: &[u8; 9], syndromes: &[u8], shape: Shape) -> u8
    requires { shape.limit < length syndromes.now }
    ensures { result ≡ sum (suc shape.limit) (λ l. slice_index_or row.now l 0 ⊗ slice_index_or syndromes.now l 0) }
{
    let mut sum = 0;
    for (coefficient, syndrome) in row[..shape.limit + 1].iter().zip(syndromes) {
        sum ^= mul(*coefficient, *syndrome);
    }
    sum
}

// Adds `factor` times a row to another.
fn add_multiple(row: &mut [u8; 9], other: &[u8; 9], factor: u8)
    ensures { (l : ℕ) → l < 9 → slice_index row.new l ≡ slice_index_or row.old l 0 ⊕ (factor ⊗ slice_index_or other.now l 0) }
{
    // by index: after a `zip` with `iter_mut` a proof knows no element
    for (l, coefficient) in row.iter_mut().enumerate() {
        *coefficient ^= mul(factor, other[l]);
    }
}

// 1 at place `r`, and 0 elsewhere.
fn unit_row(r: usize) -> [u8; 9]
    ensures { (l : ℕ) → l < 9 → slice_index result l ≡ digit (l == r) }
{
    array::from_fn(|l| u8::from(l == r))
}

// Row r has 1 at place r, and 0 elsewhere.
fn unit_rows() -> [[u8; 9]; 9]
    ensures { (r l : ℕ) → r < 9 → l < 9 → at result r l ≡ digit (l == r) }
{
    array::from_fn(unit_row)
}

// The first place that is true.
fn first_true(flags: &[bool; 9]) -> Option<usize>
    ensures { result ≡ position (λ flag. flag) flags.now }
{
    flags.iter().position(|flag| *flag)
}

// An equation that a locator's coefficients meet: they combine the T + 1 syndromes from the `first` on to 0.
#[derive(Drop)]
struct Equation {
    syndromes: [u8; 16],
    first: usize,
    shape: Shape,
    ghost within: { first < shape.limit },
}

// Rows of coefficients, and which of them are left. With `[Option<[u8; 9]>; 9]` for both, `clear` would unwrap two rows that
// are known to be there, and the end a third.
#[derive(Drop)]
struct Elimination {
    rows: [[u8; 9]; 9],
    left: [bool; 9],
}

impl Elimination {
    // All rows are left.
    fn start() -> Elimination
        ensures { (limit : ℕ) (s : List ℕ) → limit ≤ 8 → Reduced limit result.rows result.left s 0 }
    {
        Elimination {
            rows: unit_rows(),
            left: [true; 9],
        }
    }

    // Row `r` applied to the equation's syndromes.
    fn apply(&self, r: usize, equation: &Equation) -> u8
        requires { r ≤ equation.now.shape.limit }
        ensures { result ≡ applied equation.now.shape.limit self.now.rows r equation.now.syndromes equation.now.first }
    {
        combine(
            &self.rows[r],
            &equation.syndromes[equation.first..],
            equation.shape,
        )
    }

    // Makes row `r` vanish on the equation's syndromes, by means of row `p`, which does not.
    fn clear(&mut self, r: usize, p: usize, equation: &Equation)
        requires earlier { p < r }
        requires row { r ≤ equation.now.shape.limit }
        requires pivot { applied equation.now.shape.limit self.old.rows p equation.now.syndromes equation.now.first ≢ 0 }
        ensures left { self.new.left ≡ self.old.left }
        ensures other { (i l : ℕ) → (i ≢ r) → at self.new.rows i l ≡ at self.old.rows i l }
        ensures changed { (c : ℕ) × ((l : ℕ) → l ≤ equation.now.shape.limit → at self.new.rows r l ≡ at self.old.rows r l ⊕ (c ⊗ at self.old.rows p l)) }
        ensures gone { applied equation.now.shape.limit self.new.rows r equation.now.syndromes equation.now.first ≡ 0 }
    {
        let divisor = self.apply(p, equation);
        let factor = mul(self.apply(r, equation), inverse(divisor));
        let pivot = self.rows[p];
        add_multiple(&mut self.rows[r], &pivot, factor);
    }

    // Makes every row that is left vanish on the equation's syndromes but one, the pivot. `None` if all of them do.
    fn sweep(&mut self, equation: &Equation) -> Option<usize>
        requires { Reduced equation.now.shape.limit self.old.rows self.old.left equation.now.syndromes equation.now.first }
        ensures left { self.new.left ≡ self.old.left }
        ensures swept { Swept equation.now.shape.limit self.new.rows self.new.left equation.now.syndromes equation.now.first (equation.now.shape.limit + 1) result }
    {
        let mut pivot = None;
        // `r` is the pivot's number too, and `clear` writes all rows
        for r in 0..equation.shape.limit + 1 {
            if self.left[r] && self.apply(r, equation) != 0 {
                match pivot {
                    None => pivot = Some(r),
                    Some(p) => self.clear(r, p, equation),
                }
            }
        }
        pivot
    }

    // One equation more that the rows that are left meet, and at most one row less.
    fn eliminate(&mut self, equation: &Equation)
        requires { Reduced equation.now.shape.limit self.old.rows self.old.left equation.now.syndromes equation.now.first }
        ensures { Reduced equation.now.shape.limit self.new.rows self.new.left equation.now.syndromes (equation.now.first + 1) }
    {
        if let Some(pivot) = self.sweep(equation) {
            self.left[pivot] = false;
        }
    }

    // A row that is left.
    fn first_left(&self, shape: Shape) -> usize
        requires { 0 < left_in (suc shape.limit) self.now.left }
        ensures row { result ≤ shape.limit }
        ensures left { flags self.now.left result ≡ true }
    {
        first_true(&self.left).unwrap()
    }
}

// The coefficients of a locator, lowest power first: one is 1, and they combine the T + 1 syndromes from each of the first
// T on to 0. There are more coefficients than equations, so elimination always leaves a row.
pub(crate) fn locator(syndromes: &[u8; 16], shape: Shape) -> [u8; 9]
    ensures one { (l : ℕ) × (l ≤ shape.limit) × (slice_index result l ≡ 1) }
    ensures vanish { (j : ℕ) → j < shape.limit → sum (suc shape.limit) (λ l. slice_index_or result l 0 ⊗ slice_index_or syndromes.now (j + l) 0) ≡ 0 }
{
    let mut elimination = Elimination::start();
    for j in 0..shape.limit {
        elimination.eliminate(&Equation {
            syndromes: *syndromes,
            first: j,
            shape,
        });
    }
    let r = elimination.first_left(shape);
    elimination.rows[r]
}
