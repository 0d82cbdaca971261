#![tactic(auto)]
// The planner's whole copies against the WebGPU standard's own. No code runs here: each function's contract is a claim, and
// the check asks for its proof.
ghost use Rattle.claim_webgpu_copies.specs.Bounds.{RecordBounds};
ghost use Rattle.claim_webgpu_copies.specs.Examples.{Examples};
ghost use Rattle.claim_webgpu_copies.specs.WholeCopies.{BufferToBuffer, BufferTexture, BufferTextureWithLayers, TextureToTexture, TextureToTextureWithLayers, OntoItselfParts};

// Records are within their bounds exactly where document 01 has them so.
#[tactic(auto, using(crate::proofs::Records::record_bounds))]
pub fn records_agree()
    ensures { RecordBounds }
{}

// A copy between buffers is planned exactly where the standard's rules on it hold and nothing is excepted.
pub fn buffer_to_buffer_agrees()
    ensures { BufferToBuffer }
{}

// The same of a copy between a buffer, or memory, and a texture, by each reading of the whole size.
pub fn buffer_texture_agrees()
    ensures one_layer { BufferTexture }
    ensures layers { BufferTextureWithLayers }
{}

// The same of a copy between textures, but for one texture onto itself, where the two differ at another z.
pub fn texture_to_texture_agrees()
    ensures one_layer { TextureToTexture }
    ensures layers { TextureToTextureWithLayers }
    ensures onto_itself { OntoItselfParts }
{}

// At a small copy of each exception the planner and the standard differ.
#[tactic(auto, using(crate::proofs::Parting::examples))]
pub fn examples_differ()
    ensures { Examples }
{}
