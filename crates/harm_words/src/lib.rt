//! Harmful words, and the reach that the fewest ones in them give.
#![tactic(auto)]

ghost use Rattle.harm_words.specs.Harm.{LeastHarm, Reach, Shape};
ghost use Rattle.std.specs.Prelude.{ℕ, ◌-◌, ◌/◌, ◌<◌};

// The fewest ones of a harmful word give the reach.
pub fn reach_is_by_least_harm()
    ensures { (h : Shape) (w : ℕ) → 0 < w → LeastHarm h w → Reach h ((w - 1) / 2) }
{}
