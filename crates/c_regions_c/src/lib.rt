#![tactic(auto)]
// The functions of c_regions for callers in C and Rust, with the same clauses. A static library is no library of other crates, and
// c_regions is one.
ghost use Rattle.std.specs.Prelude.{◌≡◌, length, replicate};
ghost use Rattle.plan_writer.specs.Writing.{slots_of};
ghost use Rattle.c_plans.specs.PlanWords.{buffers_from, buffer_texture_from, textures_from};
ghost use Rattle.c_regions.specs.Regions.{if_left, next_number, buffer_region, buffer_behind, buffer_texture_region, buffer_texture_behind, texture_region, texture_behind, written_number, written_words};

use plan_kinds::Plan;

#[unsafe(no_mangle)]
pub extern "C" fn copy_planner_next_buffer_copy(plan: &mut [u64; 6], region: &mut [u64; 3]) -> u32
    ensures value { result ≡ next_number plan.old }
    ensures region_after { region.new ≡ if_left plan.old (buffer_region plan.old) (replicate 3 0) }
    ensures plan_after { plan.new ≡ if_left plan.old (buffer_behind plan.old) plan.old }
{
    c_regions::copy_planner_next_buffer_copy(plan, region)
}

#[unsafe(no_mangle)]
pub extern "C" fn copy_planner_next_buffer_texture_copy(
    plan: &mut [u64; 15],
    region: &mut [u64; 12],
) -> u32
    ensures value { result ≡ next_number plan.old }
    ensures region_after { region.new ≡ if_left plan.old (buffer_texture_region plan.old) (replicate 12 0) }
    ensures plan_after { plan.new ≡ if_left plan.old (buffer_texture_behind plan.old) plan.old }
{
    c_regions::copy_planner_next_buffer_texture_copy(plan, region)
}

#[unsafe(no_mangle)]
pub extern "C" fn copy_planner_next_texture_copy(
    plan: &mut [u64; 18],
    region: &mut [u64; 15],
) -> u32
    ensures value { result ≡ next_number plan.old }
    ensures region_after { region.new ≡ if_left plan.old (texture_region plan.old) (replicate 15 0) }
    ensures plan_after { plan.new ≡ if_left plan.old (texture_behind plan.old) plan.old }
{
    c_regions::copy_planner_next_texture_copy(plan, region)
}

#[unsafe(no_mangle)]
pub extern "C" fn copy_planner_write_buffer_copies(plan: &mut [u64; 6], regions: &mut [u64]) -> u32
    ensures value { result ≡ written_number (Plan.Buffers (buffers_from plan.old)) (length regions.old) }
    ensures regions_after { regions.new ≡ slots_of (Plan.Buffers (buffers_from plan.old)) regions.old }
    ensures plan_after { plan.new ≡ written_words plan.old (Plan.Buffers (buffers_from plan.old)) (length regions.old) }
{
    c_regions::copy_planner_write_buffer_copies(plan, regions)
}

#[unsafe(no_mangle)]
pub extern "C" fn copy_planner_write_buffer_texture_copies(
    plan: &mut [u64; 15],
    regions: &mut [u64],
) -> u32
    ensures value { result ≡ written_number (Plan.BufferTexture (buffer_texture_from plan.old)) (length regions.old) }
    ensures regions_after { regions.new ≡ slots_of (Plan.BufferTexture (buffer_texture_from plan.old)) regions.old }
    ensures plan_after { plan.new ≡ written_words plan.old (Plan.BufferTexture (buffer_texture_from plan.old)) (length regions.old) }
{
    c_regions::copy_planner_write_buffer_texture_copies(plan, regions)
}

#[unsafe(no_mangle)]
pub extern "C" fn copy_planner_write_texture_copies(
    plan: &mut [u64; 18],
    regions: &mut [u64],
) -> u32
    ensures value { result ≡ written_number (Plan.Textures (textures_from plan.old)) (length regions.old) }
    ensures regions_after { regions.new ≡ slots_of (Plan.Textures (textures_from plan.old)) regions.old }
    ensures plan_after { plan.new ≡ written_words plan.old (Plan.Textures (textures_from plan.old)) (length regions.old) }
{
    c_regions::copy_planner_write_texture_copies(plan, regions)
}
