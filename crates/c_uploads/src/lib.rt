#![tactic(auto)]
// Copies from a buffer into a texture, for callers in C and Rust. A crate of its own, so that its archive holds one copy function, into
// which the compiler puts every rule.
ghost use Rattle.std.specs.Prelude.{◌≡◌};
ghost use Rattle.c_words.specs.Words.{copy_number, copy_plan, copy_ranges_of};
ghost use Rattle.c_uploads.specs.Answer.{answer};

use copy_buffer_texture::LinearTextureCopy;
use plan_buffer_texture::BufferTexturePlan;
use refusals::TransferError;

fn plan_copy(
    depth_texture_and_buffer_copies: bool,
    buffer_size: u64,
    buffer_usage: u32,
    offset: u64,
    has_bytes_per_row: bool,
    bytes_per_row: u32,
    has_rows_per_image: bool,
    rows_per_image: u32,
    texture: &[u32; 8],
    view: &[u32; 5],
    size: &[u32; 3],
) -> Result<BufferTexturePlan, TransferError>
    ensures { result ≡ answer depth_texture_and_buffer_copies buffer_size buffer_usage offset has_bytes_per_row bytes_per_row has_rows_per_image rows_per_image texture.now view.now size.now }
{
    let t = c_records::side_from(texture, view)?;
    let device = c_records::device_with(depth_texture_and_buffer_copies);
    let b = c_records::buffer_from(buffer_size, buffer_usage);
    let layout = c_records::layout_from(
        offset,
        has_bytes_per_row,
        bytes_per_row,
        has_rows_per_image,
        rows_per_image,
    );
    let s = c_records::size_from(size);
    let copy = LinearTextureCopy {
        device,
        layout,
        texture: t,
        size: s,
    };
    copy_buffer_texture::copy_buffer_to_texture(b, copy)
}

// 0 for an accepted copy, else the number of its refusal; its plan and its ranges, or the refusal's details.
#[unsafe(no_mangle)]
pub extern "C" fn copy_planner_buffer_to_texture(
    depth_texture_and_buffer_copies: bool,
    buffer_size: u64,
    buffer_usage: u32,
    offset: u64,
    has_bytes_per_row: bool,
    bytes_per_row: u32,
    has_rows_per_image: bool,
    rows_per_image: u32,
    texture: &[u32; 8],
    view: &[u32; 5],
    size: &[u32; 3],
    plan: &mut [u64; 15],
    ranges: &mut [u64; 12],
) -> u32
    ensures value { result ≡ copy_number (answer depth_texture_and_buffer_copies buffer_size buffer_usage offset has_bytes_per_row bytes_per_row has_rows_per_image rows_per_image texture.now view.now size.now) }
    ensures plan_after { plan.new ≡ copy_plan (answer depth_texture_and_buffer_copies buffer_size buffer_usage offset has_bytes_per_row bytes_per_row has_rows_per_image rows_per_image texture.now view.now size.now) }
    ensures ranges_after { ranges.new ≡ copy_ranges_of (answer depth_texture_and_buffer_copies buffer_size buffer_usage offset has_bytes_per_row bytes_per_row has_rows_per_image rows_per_image texture.now view.now size.now) }
{
    let planned = plan_copy(
        depth_texture_and_buffer_copies,
        buffer_size,
        buffer_usage,
        offset,
        has_bytes_per_row,
        bytes_per_row,
        has_rows_per_image,
        rows_per_image,
        texture,
        view,
        size,
    );
    c_words::put(planned, plan, ranges)
}
