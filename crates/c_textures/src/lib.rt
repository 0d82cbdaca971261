#![tactic(auto)]
// Copies between textures, for callers in C and Rust. A crate of its own, so that its archive holds one copy function, into
// which the compiler inlines the rules, but for the refusal of a range.
ghost use Rattle.std.specs.Prelude.{◌≡◌};
ghost use Rattle.c_words.specs.Words.{textures_number, textures_plan, textures_ranges};
ghost use Rattle.c_textures.specs.Answer.{answer};

use plan_textures::TexturePlan;
use refusals::TransferError;

fn plan_copy(
    same_texture: bool,
    src: &[u32; 8],
    src_view: &[u32; 5],
    dst: &[u32; 8],
    dst_view: &[u32; 5],
    size: &[u32; 3],
) -> Result<TexturePlan, TransferError>
    ensures { result ≡ answer same_texture src.now src_view.now dst.now dst_view.now size.now }
{
    let from = c_records::side_from(src, src_view)?;
    let to = c_records::side_from(dst, dst_view)?;
    let dst_index = c_records::dst_index(same_texture);
    let s = c_records::size_from(size);
    copy_textures::copy_texture_to_texture(0, from, dst_index, to, s)
}

// 0 for an accepted copy, else the number of its refusal; its plan and its ranges, or the refusal's details.
#[unsafe(no_mangle)]
pub extern "C" fn copy_planner_texture_to_texture(
    same_texture: bool,
    src: &[u32; 8],
    src_view: &[u32; 5],
    dst: &[u32; 8],
    dst_view: &[u32; 5],
    size: &[u32; 3],
    plan: &mut [u64; 18],
    ranges: &mut [u64; 6],
) -> u32
    ensures value { result ≡ textures_number (answer same_texture src.now src_view.now dst.now dst_view.now size.now) }
    ensures plan_after { plan.new ≡ textures_plan (answer same_texture src.now src_view.now dst.now dst_view.now size.now) }
    ensures ranges_after { ranges.new ≡ textures_ranges (answer same_texture src.now src_view.now dst.now dst_view.now size.now) }
{
    let planned = plan_copy(same_texture, src, src_view, dst, dst_view, size);
    c_words::put(planned, plan, ranges)
}
