//! Why a block can be corrected: what its syndromes tell of it, and that at most one outer word is near it.
#![tactic(auto)]

ghost use Rattle.std.specs.Prelude.{◌≡◌, ℕ, ◌+◌, ◌*◌, ◌<◌, ◌≤◌, List, length, drop};
ghost use Rattle.outer_code.specs.Blocks.{block_of};
ghost use Rattle.outer_code.specs.Outer.{AreBytes, Outer};
ghost use Rattle.outer_theory.specs.Syndromes.{differing, syndrome};
ghost use Rattle.words.specs.Words.{word};

// Two outer words, each within the limit of one block, are equal.
pub fn near_outer_words_are_equal()
    ensures { (size limit : ℕ) → limit ≤ 8 → size ≤ 239 → (block v w : List ℕ) → length block ≡ 2 * limit + size → Outer size limit v → Outer size limit w
        → differing block v ≤ limit → differing block w ≤ limit → v ≡ w }
{}

// A block is an outer word exactly when its weighted syndromes vanish.
pub fn outer_words_have_no_syndromes()
    ensures vanish { (size limit : ℕ) → limit ≤ 8 → size ≤ 239 → (w : List ℕ) → Outer size limit w
        → (j : ℕ) → j < 2 * limit → syndrome (2 * limit) (2 * limit + size) (word w) j ≡ 0 }
    ensures only { (size limit : ℕ) → limit ≤ 8 → size ≤ 239 → (w : List ℕ) → length w ≡ 2 * limit + size → AreBytes w
        → ((j : ℕ) → j < 2 * limit → syndrome (2 * limit) (2 * limit + size) (word w) j ≡ 0) → Outer size limit w }
{}

// The encoder's parity is the only one: an outer word is the block that is sent for its message.
pub fn parity_is_unique()
    ensures { (size limit : ℕ) → limit ≤ 8 → size ≤ 239 → (w : List ℕ) → Outer size limit w → w ≡ block_of limit (drop (2 * limit) w) }
{}
