#![tactic(auto)]
// Plans from the words that callers in other languages keep.
ghost use Rattle.std.specs.Prelude.{◌≡◌};
ghost use Rattle.c_plans.specs.Laws.{EveryPlan};
ghost use Rattle.c_plans.specs.PlanWords.{low, option_from, base_from, extent_from, buffers_from, buffer_texture_from, textures_from};

use flags::FormatAspects;
use measures::{Origin3d, Texels};
use plan_buffer_texture::{BufferTextureCopy, BufferTexturePlan};
use plan_buffers::{BufferCopy, BufferPlan};
use plan_textures::{CopyParts, TexturePlan};
use rule_copy_range::CopyExtent;
use rule_selectors::TextureCopyBase;

// Any word is taken: of a number of 32 bits, the bits above are left out.
fn low_bits(word: u64) -> u32
    ensures { result ≡ low word }
{
    (word % (1 << 32)) as u32
}

#[tactic(auto, unfolding(crate::specs::PlanWords::option_from))]
fn option_from(word: u64) -> Option<u32>
    ensures { result ≡ option_from word }
{
    (word != plan_rows::ABSENT).then_some(low_bits(word))
}

#[tactic(auto, unfolding(crate::specs::PlanWords::base_from))]
fn base_from(level: u64, layer: u64, x: u64, y: u64, z: u64, aspect: u64) -> TextureCopyBase
    ensures { result ≡ base_from level layer x y z aspect }
{
    let origin = Origin3d {
        x: Texels(low_bits(x)),
        y: Texels(low_bits(y)),
        z: low_bits(z),
    };
    TextureCopyBase {
        mip_level: low_bits(level),
        array_layer: low_bits(layer),
        origin,
        aspect: FormatAspects(low_bits(aspect)),
    }
}

fn extent_from(width: u64, height: u64, depth: u64) -> CopyExtent
    ensures { result ≡ extent_from width height depth }
{
    CopyExtent {
        width: Texels(low_bits(width)),
        height: Texels(low_bits(height)),
        depth: low_bits(depth),
    }
}

#[tactic(auto, unfolding(crate::specs::PlanWords::buffers_from))]
pub fn buffers_from(w: [u64; 6]) -> BufferPlan
    ensures { result ≡ buffers_from w }
{
    BufferPlan {
        region: BufferCopy {
            src_offset: w[2],
            dst_offset: w[3],
            size: w[4],
        },
        left: low_bits(w[0]),
        dst_range: None,
        src_range: None,
        bytes_checked: w[1],
    }
}

#[tactic(auto, unfolding(crate::specs::PlanWords::buffer_texture_from))]
pub fn buffer_texture_from(w: [u64; 15]) -> BufferTexturePlan
    ensures { result ≡ buffer_texture_from w }
{
    BufferTexturePlan {
        region: BufferTextureCopy {
            offset: w[3],
            bytes_per_row: option_from(w[4]),
            rows_per_image: option_from(w[5]),
            base: base_from(w[6], w[7], w[8], w[9], w[10], w[11]),
            size: extent_from(w[12], w[13], w[14]),
        },
        stride: w[2],
        left: low_bits(w[0]),
        ranges: None,
        bytes_checked: w[1],
    }
}

#[tactic(auto, unfolding(crate::specs::PlanWords::textures_from))]
pub fn textures_from(w: [u64; 18]) -> TexturePlan
    ensures { result ≡ textures_from w }
{
    TexturePlan {
        src: base_from(w[3], w[4], w[5], w[6], w[7], w[8]),
        dst: base_from(w[9], w[10], w[11], w[12], w[13], w[14]),
        size: extent_from(w[15], w[16], w[17]),
        parts: CopyParts::from(w[1]),
        part: low_bits(w[2]),
        left: low_bits(w[0]),
        ranges: None,
    }
}

// What the words of a plan keep of it: nothing runs here.
#[tactic(auto, using(crate::proofs::Reading::every_plan))]
pub fn word_laws()
    ensures { EveryPlan }
{}
