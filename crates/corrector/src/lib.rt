//! The outer corrector: it turns a block into the only outer word within the limit, or refuses it.
#![tactic(auto)]

mod errors;
mod locator;
mod syndromes;

ghost use Rattle.std.specs.Prelude.{◌≡◌, ℕ, ◌+◌, ◌-◌, ◌*◌, ◌<◌, ◌≤◌, true, false, length, MatchOption, slice_index, slice_index_or};
ghost use Rattle.field.specs.Field.{◌⊕◌};
ghost use Rattle.outer_theory.specs.Correction.{Corrected, Refused};
ghost use Rattle.outer_theory.specs.Sums.{count};
ghost use Rattle.outer_theory.specs.Syndromes.{syndrome};
ghost use Rattle.words.specs.Words.{part, word};

use errors::{Findings, mark};
use locator::locator;
use standard::shape::Shape;
use syndromes::Block;

fn all_zero(bytes: &[u8]) -> bool
    ensures yes { result ≡ true → (j : ℕ) → j < length bytes.now → slice_index bytes.now j ≡ 0 }
    ensures no { result ≡ false → ((j : ℕ) → j < length bytes.now → slice_index bytes.now j ≡ 0) → ⊥ }
{
    bytes.iter().all(|b| *b == 0)
}

fn nonzero(bytes: &[u8]) -> usize
    ensures { result ≡ count (length bytes.now) (word bytes.now) }
{
    bytes.iter().filter(|b| **b != 0).count()
}

// Adds its error to each byte of a block.
fn add_errors(block: &mut [u8], errors: &[u8])
    requires { length errors.now ≡ length block.old }
    ensures { (k : ℕ) → k < length block.old → slice_index block.new k ≡ slice_index_or block.old k 0 ⊕ slice_index_or errors.now k 0 }
{
    // by index: after a `zip` with `iter_mut` a proof knows no element
    for (k, byte) in block.iter_mut().enumerate() {
        *byte ^= errors[k];
    }
}

// What `correct` does, given the syndromes of the block, whether they vanish or not. `within` and `long` stay clauses: a type
// for the limit or for the written block would be made for the one call and taken apart here.
fn repair(block: &mut [u8], given: &[u8; 16], shape: Shape, most: usize) -> Option<usize>
    requires long { length block.old ≡ 2 * shape.limit + shape.size }
    requires within { most ≤ shape.limit }
    requires syndromes { (j : ℕ) → j < 2 * shape.limit → slice_index given.now j ≡ syndrome (2 * shape.limit) (2 * shape.limit + shape.size) (word block.old) j }
    ensures { MatchOption result (Refused shape.size shape.limit most block.old block.new)
        (λ wrong. Corrected shape.size shape.limit most block.old block.new wrong) }
{
    let coefficients = locator(given, shape);
    // fixed arrays of the longest block, since nothing is allocated
    let mut marks = [0; 255];
    let marks = &mut marks[..block.len()];
    mark(marks, &coefficients, shape);
    let mut errors = [0; 255];
    let errors = &mut errors[..block.len()];
    let findings = Findings {
        syndromes: *given,
        marks,
        shape,
    };
    findings.find(errors);
    let wrong = nonzero(errors);
    let found = Block {
        bytes: errors,
        shape,
    };
    if wrong <= most && found.explains(given) {
        add_errors(block, errors);
        Some(wrong)
    } else {
        None
    }
}

// Makes of a block the outer word that differs from it in at most `most` bytes, and says in how many. `None`, and the block as
// it was, if there is no such word.
pub fn correct(block: &mut [u8], shape: Shape, most: usize) -> Option<usize>
    requires long { length block.old ≡ 2 * shape.limit + shape.size }
    requires within { most ≤ shape.limit }
    ensures { MatchOption result (Refused shape.size shape.limit most block.old block.new)
        (λ wrong. Corrected shape.size shape.limit most block.old block.new wrong) }
{
    // without parity every block is a word
    if shape.limit == 0 {
        return Some(0);
    }
    let given = Block {
        bytes: block,
        shape,
    }
    .syndromes();
    if all_zero(&given[..shape.parity()]) {
        return Some(0);
    }
    repair(block, &given, shape, most)
}

// `correct` on the block that stands in a row of bytes from `at` on. The other bytes stay as they are.
pub fn correct_at(bytes: &mut [u8], at: usize, shape: Shape, most: usize) -> Option<usize>
    requires there { at + (2 * shape.limit + shape.size) ≤ length bytes.old }
    requires within { most ≤ shape.limit }
    ensures answer { MatchOption result (Refused shape.size shape.limit most (part (2 * shape.limit + shape.size) at (word bytes.old)) (part (2 * shape.limit + shape.size) at (word bytes.new)))
        (λ wrong. Corrected shape.size shape.limit most (part (2 * shape.limit + shape.size) at (word bytes.old)) (part (2 * shape.limit + shape.size) at (word bytes.new)) wrong) }
    ensures before { (k : ℕ) → k < at → slice_index bytes.new k ≡ slice_index bytes.old k }
    ensures behind { (k : ℕ) → at + (2 * shape.limit + shape.size) ≤ k → slice_index bytes.new k ≡ slice_index bytes.old k }
{
    correct(&mut bytes[at..at + shape.block()], shape, most)
}
