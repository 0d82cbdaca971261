#![tactic(auto)]
// Tests that are joined: each one is computed, and no branch is taken.
ghost use Rattle.std.specs.Prelude.{◌≡◌, ◌&&◌, [], ◌∷◌};
ghost use Rattle.conditions.specs.Conditions.{every};

// Every one of so many tests.
#[tactic(auto, using(crate::proofs::Rules::every_begun, crate::proofs::Rules::every_goes, crate::proofs::Rules::every_ends))]
pub fn all<const N: usize>(tests: [bool; N]) -> bool
    ensures { result ≡ every tests.entry }
{
    let mut all = true;
    for test in tests {
        all &= test;
    }
    all
}
