//! The inner words, the nearest of them to what was heard, and the trellis whose first path it is.
#![tactic(auto)]

ghost use Rattle.std.specs.Prelude.{◌≡◌, ℕ, ◌+◌, ◌*◌, ◌<◌, ◌≤◌, Some};
ghost use Rattle.inner_code.specs.Inner.{Rated, coded};
ghost use Rattle.inner_words.specs.InnerWords.{Nearest, Tailed, wrong as wrongs};
ghost use Rattle.inner_words.specs.Receiving.{receiving, register};
ghost use Rattle.paths.specs.Answers.{FirstPath, Unreachable};
ghost use Rattle.paths.specs.Model.{Lawful, after};
ghost use Rattle.paths.specs.Ties.{BitsFirst, First};
ghost use Rattle.words.specs.Words.{Bits, Bytes, bits, bytes};

// The open paths of the receive trellis are the inner words, and the one that a search finds is the nearest.
pub fn receive_trellis_stands()
    ensures lawful { (p n : ℕ) (heard : Bits) → n ≤ 7680 → Lawful (receiving p n heard) }
    ensures opens { (p q : ℕ) (heard u : Bits) → Rated p → Tailed (p * q) u → after (receiving p (p * q) heard) u (p * q) ≡ Some (register u (p * q), wrongs p q u heard) }
    ensures closed { (p n : ℕ) (heard u : Bits) (t c : ℕ) → after (receiving p n heard) u n ≡ Some (t, c) → Tailed n u }
    ensures tie { (p n : ℕ) (heard u v : Bits) → Rated p → Tailed n u → Tailed n v → First (receiving p n heard) u v n → BitsFirst u v n }
    ensures nearest { (p q : ℕ) (heard : Bits) (c : ℕ) (u : Bits) → Rated p → FirstPath (receiving p (p * q) heard) c u → Nearest p q heard u × (c ≡ wrongs p q u heard) }
    ensures reachable { (p q : ℕ) (heard : Bits) → Rated p → Unreachable (receiving p (p * q) heard) → ⊥ }
{}

// One word alone is the nearest; where no bit is wrong, it is the word sent.
pub fn nearest_word_is_one()
    ensures unique { (p q : ℕ) (heard u v : Bits) → Nearest p q heard u → Nearest p q heard v → (k : ℕ) → k < p * q → u k ≡ v k }
    ensures injective { (p q : ℕ) (u v : Bits) → Rated p → ((j : ℕ) → j < (p + 1) * q → coded p u j ≡ coded p v j) → (k : ℕ) → k < p * q → u k ≡ v k }
    ensures clean { (p q : ℕ) (heard u w : Bits) → Rated p → Tailed (p * q) u → ((j : ℕ) → j < (p + 1) * q → heard j ≡ coded p u j) → Nearest p q heard w → (k : ℕ) → k < p * q → w k ≡ u k }
{}

// Of whole bytes the tail is the last byte: it is 00.
pub fn tail_is_the_last_byte()
    ensures of_bytes { (w : Bytes) (m : ℕ) → w m ≡ 0 → Tailed (8 * (m + 1)) (bits w) }
    ensures of_bits { (u : Bits) (m : ℕ) → Tailed (8 * (m + 1)) u → bytes u m ≡ 0 }
{}
