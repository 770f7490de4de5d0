//! Trellises as models: their paths, the tie rule, what a search finds, and the theory of the search.
#![tactic(auto)]

ghost use Rattle.std.specs.Prelude.{◌≡◌, ℕ, ◌<◌, Bool, ◌⊎◌, List, length, Option};
ghost use Rattle.paths.specs.Answers.{Found};
ghost use Rattle.paths.specs.Model.{Model, Path};
ghost use Rattle.paths.specs.Ties.{First};

// The tie rule is total: of any two paths one is first, and two that are both first are the same bits.
pub fn ties_are_decided()
    ensures total { (m : Model) (p q : Path) (n : ℕ) → First m p q n ⊎ First m q p n }
    ensures same { (m : Model) (p q : Path) (n : ℕ) → First m p q n → First m q p n → (j : ℕ) → j < n → p j ≡ q j }
{}

// What a search promises leaves it one answer: of the model and of the place for the path, not of the memory lent.
pub fn answers_are_determined()
    ensures { (m : Model) (old new other : List Bool) (a b : Option ℕ) → length new ≡ length other → Found m old new a → Found m old other b → (a ≡ b) × (new ≡ other) }
{}
