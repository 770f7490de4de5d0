//! The convolutional inner code: its encoder by position, its puncturing and its laws.
#![tactic(auto)]

ghost use Rattle.std.specs.Prelude.{ℕ, ◌≡◌};
ghost use Rattle.inner_code.specs.Inner.{coded};
ghost use Rattle.words.specs.Words.{Bits, ◌⊻◌, ones, plus};

// Coding is linear, so the distance of two coded words is the weight of the coded sum: see the contract.
pub fn coding_is_linear()
    ensures linear { (p : ℕ) (u v : Bits) (j : ℕ) → coded p (plus u v) j ≡ coded p u j ⊻ coded p v j }
    ensures apart { (p n : ℕ) (u v : Bits) → ones n (coded p (plus u v)) ≡ ones n (plus (coded p u) (coded p v)) }
{}
