#![tactic(auto)]
// The regions of a plan, for callers in C and Rust, who keep the plan as words. c_regions_c exports the functions.
ghost use Rattle.std.specs.Prelude.{◌≡◌, ◌+◌, ◌%◌, ◌^◌, length, drop, replicate, is_ok};
ghost use Rattle.std.specs.Result.{result_unwrap_or};
ghost use Rattle.conditions.specs.Conditions.{pick};
ghost use Rattle.flags.specs.FormatAspects.{PLANE_1};
ghost use Rattle.plan_writer.specs.Writing.{slots_of};
ghost use Rattle.c_plans.specs.PlanWords.{buffers_from, buffer_texture_from, textures_from};
ghost use Rattle.c_regions.specs.Laws.{EveryStep};
ghost use Rattle.c_regions.specs.Regions.{if_left, next_number, buffer_region, buffer_behind, buffer_texture_region, buffer_texture_behind, with_aspects, chroma_halved, depth_or_stencil, texture_region, part_follows, part_on, texture_behind, written_number, written_words};

use c_words::Words;
use flags::FormatAspects;
use plan_buffer_texture::BufferTexturePlan;
use plan_buffers::BufferPlan;
use plan_kinds::Plan;
use plan_textures::TexturePlan;
use refusals::TransferError;

// The refusal of a slice that is too short, the one that writing has.
const TOO_SHORT: u32 = 38;

const DEPTH: u64 = FormatAspects::DEPTH.0 as u64;

const STENCIL: u64 = FormatAspects::STENCIL.0 as u64;

const PLANE_0: u64 = FormatAspects::PLANE_0.0 as u64;

const PLANE_1: u64 = FormatAspects::PLANE_1.0 as u64;

fn regions_left(word: u64) -> u64
    ensures { result ≡ word % 2 ^ 32 }
{
    word % (1 << 32)
}

fn layer_on(layer: u64) -> u64
    ensures { result ≡ (layer + 1) % 2 ^ 32 }
{
    layer.wrapping_add(1) % (1 << 32)
}

// The words go over one by one: the plan's have just been stored one by one, and a load of several would wait for those stores.
fn buffer_region(plan: &[u64; 6], region: &mut [u64; 3])
    ensures { region.new ≡ buffer_region plan.now }
{
    region[0] = plan[2];
    region[1] = plan[3];
    region[2] = plan[4];
}

fn buffer_texture_region(plan: &[u64; 15], region: &mut [u64; 12])
    ensures { region.new ≡ buffer_texture_region plan.now }
{
    region[0] = plan[3];
    region[1] = plan[4];
    region[2] = plan[5];
    region[3] = plan[6];
    region[4] = plan[7];
    region[5] = plan[8];
    region[6] = plan[9];
    region[7] = plan[10];
    region[8] = plan[11];
    region[9] = plan[12];
    region[10] = plan[13];
    region[11] = plan[14];
}

// The region of a whole layer, or of a part as large as the layer.
fn full_region(plan: &[u64; 18], region: &mut [u64; 15], source: u64, destination: u64)
    ensures { region.new ≡ with_aspects source destination (drop 3 plan.now) }
{
    region[0] = plan[3];
    region[1] = plan[4];
    region[2] = plan[5];
    region[3] = plan[6];
    region[4] = plan[7];
    region[5] = source;
    region[6] = plan[9];
    region[7] = plan[10];
    region[8] = plan[11];
    region[9] = plan[12];
    region[10] = plan[13];
    region[11] = destination;
    region[12] = plan[15];
    region[13] = plan[16];
    region[14] = plan[17];
}

// The region of plane 1, whose x, y, width and height are half the layer's.
fn chroma_region(plan: &[u64; 18], region: &mut [u64; 15])
    ensures { region.new ≡ chroma_halved (with_aspects PLANE_1 PLANE_1 (drop 3 plan.now)) }
{
    region[0] = plan[3];
    region[1] = plan[4];
    region[2] = plan[5] / 2;
    region[3] = plan[6] / 2;
    region[4] = plan[7];
    region[5] = PLANE_1;
    region[6] = plan[9];
    region[7] = plan[10];
    region[8] = plan[11] / 2;
    region[9] = plan[12] / 2;
    region[10] = plan[13];
    region[11] = PLANE_1;
    region[12] = plan[15] / 2;
    region[13] = plan[16] / 2;
    region[14] = plan[17];
}

#[tactic(auto, unfolding(crate::specs::Regions::depth_or_stencil))]
fn depth_or_stencil(part: u64) -> u64
    ensures { result ≡ depth_or_stencil part }
{
    if part == 0 {
        return DEPTH;
    }
    STENCIL
}

#[tactic(auto, using(crate::proofs::Stores::own_aspects), unfolding(crate::specs::Regions::texture_region))]
fn texture_region(plan: &[u64; 18], region: &mut [u64; 15])
    ensures { region.new ≡ texture_region plan.now }
{
    match plan[1] {
        0 => full_region(plan, region, plan[8], plan[14]),
        1 => {
            let aspects = depth_or_stencil(plan[2]);
            full_region(plan, region, aspects, aspects);
        }
        _ if plan[2] == 0 => full_region(plan, region, PLANE_0, PLANE_0),
        _ => chroma_region(plan, region),
    }
}

#[tactic(auto, unfolding(crate::specs::Regions::part_follows))]
fn part_follows(parts: u64, part: u64) -> bool
    ensures { result ≡ part_follows parts part }
{
    parts != 0 && part == 0
}

// The layer's other part, or the first part one layer on.
#[tactic(auto, unfolding(crate::specs::Regions::part_on))]
fn part_on(plan: &mut [u64; 18])
    ensures { plan.new ≡ part_on plan.old }
{
    if part_follows(plan[1], plan[2]) {
        plan[2] = 1;
        return;
    }
    plan[2] = 0;
    plan[4] = layer_on(plan[4]);
    plan[10] = layer_on(plan[10]);
}

// 1, the next region's numbers, and the plan after it; or 0, zeros, and the plan as it is, where no region is left.
#[tactic(auto, unfolding(crate::specs::Regions::next_number, crate::specs::Regions::if_left, crate::specs::Regions::buffer_behind))]
pub fn copy_planner_next_buffer_copy(plan: &mut [u64; 6], region: &mut [u64; 3]) -> u32
    ensures value { result ≡ next_number plan.old }
    ensures region_after { region.new ≡ if_left plan.old (buffer_region plan.old) (replicate 3 0) }
    ensures plan_after { plan.new ≡ if_left plan.old (buffer_behind plan.old) plan.old }
{
    let left = regions_left(plan[0]);
    if left == 0 {
        *region = [0u64; 3];
        return 0;
    }
    buffer_region(plan, region);
    plan[0] = left - 1;
    1
}

#[tactic(auto, unfolding(crate::specs::Regions::next_number, crate::specs::Regions::if_left, crate::specs::Regions::buffer_texture_behind))]
pub fn copy_planner_next_buffer_texture_copy(plan: &mut [u64; 15], region: &mut [u64; 12]) -> u32
    ensures value { result ≡ next_number plan.old }
    ensures region_after { region.new ≡ if_left plan.old (buffer_texture_region plan.old) (replicate 12 0) }
    ensures plan_after { plan.new ≡ if_left plan.old (buffer_texture_behind plan.old) plan.old }
{
    let left = regions_left(plan[0]);
    if left == 0 {
        *region = [0u64; 12];
        return 0;
    }
    buffer_texture_region(plan, region);
    plan[0] = left - 1;
    plan[3] = plan[3].wrapping_add(plan[2]);
    plan[7] = layer_on(plan[7]);
    1
}

#[tactic(auto, unfolding(crate::specs::Regions::next_number, crate::specs::Regions::if_left, crate::specs::Regions::texture_behind))]
pub fn copy_planner_next_texture_copy(plan: &mut [u64; 18], region: &mut [u64; 15]) -> u32
    ensures value { result ≡ next_number plan.old }
    ensures region_after { region.new ≡ if_left plan.old (texture_region plan.old) (replicate 15 0) }
    ensures plan_after { plan.new ≡ if_left plan.old (texture_behind plan.old) plan.old }
{
    let left = regions_left(plan[0]);
    if left == 0 {
        *region = [0u64; 15];
        return 0;
    }
    texture_region(plan, region);
    plan[0] = left - 1;
    part_on(plan);
    1
}

// What a plan's words have to do with the plan: nothing runs here.
pub fn step_laws()
    ensures { EveryStep }
{}

// 0, and the words of the plan after its regions; or 38, and the words as they are, where none was written.
fn put_behind<const N: usize>(behind: Result<[u64; N], TransferError>, plan: &mut [u64; N]) -> u32
    ensures value { result ≡ pick (is_ok behind.entry) 0 38 }
    ensures plan_after { plan.new ≡ result_unwrap_or behind.entry plan.old }
{
    match behind {
        Ok(words) => {
            *plan = words;
            0
        },
        Err(_) => TOO_SHORT,
    }
}

// 0, the regions left from the slice's start, and the plan after them; or 38, and nothing changed, where the slice is shorter than they are.
#[tactic(auto, using(crate::proofs::Written::written), unfolding(crate::specs::Regions::written_number, crate::specs::Regions::written_words, crate::specs::Regions::words_of, plan_writer::specs::Writing::written_of))]
pub fn copy_planner_write_buffer_copies(plan: &mut [u64; 6], regions: &mut [u64]) -> u32
    ensures value { result ≡ written_number (Plan.Buffers (buffers_from plan.old)) (length regions.old) }
    ensures regions_after { regions.new ≡ slots_of (Plan.Buffers (buffers_from plan.old)) regions.old }
    ensures plan_after { plan.new ≡ written_words plan.old (Plan.Buffers (buffers_from plan.old)) (length regions.old) }
{
    let behind = plan_writer::write(c_plans::buffers_from(*plan), regions);
    put_behind(behind.map(BufferPlan::plan_words), plan)
}

#[tactic(auto, using(crate::proofs::Written::written), unfolding(crate::specs::Regions::written_number, crate::specs::Regions::written_words, crate::specs::Regions::words_of, plan_writer::specs::Writing::written_of))]
pub fn copy_planner_write_buffer_texture_copies(plan: &mut [u64; 15], regions: &mut [u64]) -> u32
    ensures value { result ≡ written_number (Plan.BufferTexture (buffer_texture_from plan.old)) (length regions.old) }
    ensures regions_after { regions.new ≡ slots_of (Plan.BufferTexture (buffer_texture_from plan.old)) regions.old }
    ensures plan_after { plan.new ≡ written_words plan.old (Plan.BufferTexture (buffer_texture_from plan.old)) (length regions.old) }
{
    let behind = plan_writer::write(c_plans::buffer_texture_from(*plan), regions);
    put_behind(behind.map(BufferTexturePlan::plan_words), plan)
}

#[tactic(auto, using(crate::proofs::Written::written), unfolding(crate::specs::Regions::written_number, crate::specs::Regions::written_words, crate::specs::Regions::words_of, plan_writer::specs::Writing::written_of))]
pub fn copy_planner_write_texture_copies(plan: &mut [u64; 18], regions: &mut [u64]) -> u32
    ensures value { result ≡ written_number (Plan.Textures (textures_from plan.old)) (length regions.old) }
    ensures regions_after { regions.new ≡ slots_of (Plan.Textures (textures_from plan.old)) regions.old }
    ensures plan_after { plan.new ≡ written_words plan.old (Plan.Textures (textures_from plan.old)) (length regions.old) }
{
    let behind = plan_writer::write(c_plans::textures_from(*plan), regions);
    put_behind(behind.map(TexturePlan::plan_words), plan)
}
