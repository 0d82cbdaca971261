#![tactic(auto)]
// The starred points of document 01, and one of copies from memory, evaluated on the definitions. No code runs here: the check asks for the proof.
ghost use Rattle.claim_points.specs.Points.{Starred, RefusedByStandard};

// Each point's sheet has its listing, of the starred ones the paper's; the copy that the paper calls refused by the standard is.
pub fn starred_points()
    ensures listings { Starred }
    ensures standard { RefusedByStandard }
{}
