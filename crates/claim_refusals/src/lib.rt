#![tactic(auto)]
// What the numbers of a refusal say of the copy. No code runs here: each function's contract is a claim, and the check asks for its proof.
ghost use Rattle.claim_refusals.specs.Ends.{EveryTrueEnd};
ghost use Rattle.claim_refusals.specs.Levels.{EveryMissingLevel};
ghost use Rattle.claim_refusals.specs.Second.{EverySecondLevelCheck, RetiredNumber};

// Ends past 32 bits are told as they are.
#[tactic(auto, using(crate::proofs::Ends::every_true_end))]
pub fn true_ends()
    ensures { EveryTrueEnd }
{}

// A level that is not there is told as such.
#[tactic(auto, using(crate::proofs::Levels::every_missing_level))]
pub fn missing_levels()
    ensures { EveryMissingLevel }
{}

// A level that was found is not asked for again.
#[tactic(auto, using(crate::proofs::Second::every_second_level_check))]
pub fn level_laws()
    ensures { EverySecondLevelCheck }
{}

// The number of that check is not used.
#[tactic(auto, using(crate::proofs::Second::retired_number))]
pub fn retired_numbers()
    ensures { RetiredNumber }
{}
