#![tactic(auto)]
// The planner's tables and rules against the WebGPU standard's own. No code runs here: each function's contract is a claim, and
// the check asks for its proof.
ghost use Rattle.claim_webgpu_rules.specs.Agreement.{FormatTable, LogicalExtents, PhysicalExtents, LevelCounts, Ranges, RangesWithLayers, LinearRules, BufferCopies, SameTexture, SameTextureParts, CompatibleFormats, AllAspects};

// Blocks, bytes, aspects and chosen aspects of every format of the standard (0 to 20) are the standard's.
pub fn tables_agree()
    ensures { FormatTable }
{}

// Level sizes and level counts are the standard's.
pub fn extents_agree()
    ensures logical { LogicalExtents }
    ensures physical { PhysicalExtents }
    ensures counts { LevelCounts }
{}

// The range rule goes on exactly where the standard's rules on a texture's part hold, read without layers; read with them the
// standard refuses some layers of a texture that is copied whole, and that alone more.
pub fn ranges_agree()
    ensures one_layer { Ranges }
    ensures layers { RangesWithLayers }
{}

// The rule of linear data goes on exactly where the standard's holds, with the standard's required bytes.
pub fn linear_data_agrees()
    ensures { LinearRules }
{}

// The rules on formats, aspects and alignment go on exactly where the standard's on a texture and a buffer hold.
pub fn buffer_copies_agree()
    ensures { BufferCopies }
{}

// A texture is copied onto itself exactly where the standard's sets of subresources are disjoint, and, where they are not, one level
// of a 1D or 3D texture at two z.
pub fn same_texture_agrees()
    ensures agree { SameTexture }
    ensures part { SameTextureParts }
{}

// Formats are copied into one another, and their aspects chosen, as the standard has it.
pub fn formats_agree()
    ensures compatible { CompatibleFormats }
    ensures aspects { AllAspects }
{}
