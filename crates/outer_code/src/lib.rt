//! The outer code: a shortened and punctured Reed-Solomon code, and the blocks that are sent.
#![tactic(auto)]

ghost use Rattle.std.specs.Prelude.{ℕ, ◌+◌, ◌*◌, ◌<◌, ◌≤◌};
ghost use Rattle.outer_code.specs.Blocks.{blocks};
ghost use Rattle.outer_code.specs.Outer.{Outer};
ghost use Rattle.words.specs.Words.{Bytes, part};

// Every block of a burst's bytes is an outer word: see the contract.
pub fn sent_blocks_are_outer_words()
    ensures { (size limit : ℕ) → 0 < size → size ≤ 239 → limit ≤ 8 → (w : Bytes) → ((i : ℕ) → w i < 256) → (b : ℕ)
        → Outer size limit (part (2 * limit + size) ((2 * limit + size) * b) (blocks size limit w)) }
{}
