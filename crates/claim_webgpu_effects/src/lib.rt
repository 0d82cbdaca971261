#![tactic(auto)]
// What the regions of accepted copies do is what the WebGPU standard's copies do. No code runs here: a function's contract is a
// claim, and the check asks for its proof.
ghost use Rattle.claim_webgpu_effects.specs.Effects.{BufferEffects, TextureEffects};
ghost use Rattle.claim_webgpu_effects.specs.Mixed.{SlicesIntoLayers, LayersIntoSlices, ImagesMissed, TheyDiffer, MixedAccepted, Exhaustive};

// Between a buffer, or memory, and a texture.
pub fn buffer_effects()
    ensures { BufferEffects }
{}

// Between textures of one dimension, and of one image.
pub fn texture_effects()
    ensures { TextureEffects }
{}

// Between 2D and 3D textures: what the regions do, of any number of images; with more than one they differ from the standard. No other
// copy between textures is left.
pub fn mixed_effects()
    ensures slices { SlicesIntoLayers }
    ensures layers { LayersIntoSlices }
    ensures missed { ImagesMissed }
    ensures apart { TheyDiffer }
    ensures accepted { MixedAccepted }
    ensures exhaustive { Exhaustive }
{}
