#![tactic(auto)]
// Claims on every accepted copy between a buffer, or memory, and a texture. No code runs here: a function's contract is the claim, and the check
// asks for its proof.
ghost use Rattle.claim_ownership.specs.Demand3.{EveryCopy};
ghost use Rattle.claim_ownership.specs.Empty.{EveryEmptyCopy};

// Demand 3: of copies with no size of 0.
pub fn demand3()
    ensures { EveryCopy }
{}

// Of copies with a size of 0: no regions, no ranges.
pub fn empty_copies()
    ensures { EveryEmptyCopy }
{}
