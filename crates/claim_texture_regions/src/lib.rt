#![tactic(auto)]
// The regions of a copy between textures, as a list, and its ranges. No code runs here: the function's contract is the claims, and the
// check asks for their proof.
ghost use Rattle.claim_texture_regions.specs.Claim.{EveryTextureCopy, EveryTextureRange};

#[tactic(auto, using(crate::proofs::Claims::every_texture_copy, crate::proofs::Ranges::every_texture_range))]
pub fn texture_regions()
    ensures every_texture_copy { EveryTextureCopy }
    ensures ranges { EveryTextureRange }
{}
