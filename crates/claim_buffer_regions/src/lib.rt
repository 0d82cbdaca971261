#![tactic(auto)]
// The region of a copy between buffers, its ranges and bytes. No code runs here: the function's contract is the claim, and the check
// asks for its proof.
ghost use Rattle.claim_buffer_regions.specs.Claim.{EveryBufferCopy};

pub fn buffer_regions()
    ensures { EveryBufferCopy }
{}
