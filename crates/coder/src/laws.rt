ghost use Rattle.std.specs.Prelude.{◌≡◌, ℕ, List, None};
ghost use Rattle.coder.specs.Cases.{Cases};
ghost use Rattle.coder.specs.Sending.{Lawful};
ghost use Rattle.standard.specs.Refusals.{first, request_rows};
ghost use Rattle.standard.specs.declared.order.Request.{Request};

// What holds of every burst of an accepted request: see the contract.
pub fn bursts_are_lawful()
    ensures { (r : Request) (d : List ℕ) → first (request_rows r) ≡ None → Lawful r d }
{}

// Cases of the rules, worked: see the contract.
pub fn worked_cases()
    ensures { Cases }
{}
