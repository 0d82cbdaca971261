#![tactic(auto)]
// Copies between buffers, for callers in C and Rust. A crate of its own, so that its archive holds one copy function, into
// which the compiler puts every rule.
ghost use Rattle.std.specs.Prelude.{◌≡◌};
ghost use Rattle.c_words.specs.Words.{buffers_number, buffers_plan, buffers_ranges};
ghost use Rattle.c_buffers.specs.Answer.{answer};

use copy_buffers::BufferSide;
use plan_buffers::BufferPlan;
use records::Device;
use refusals::TransferError;

#[tactic(auto, unfolding(crate::specs::Answer::answer))]
fn plan_copy(
    unrestricted_index_buffer: bool,
    same_buffer: bool,
    src_size: u64,
    src_usage: u32,
    src_offset: u64,
    dst_size: u64,
    dst_usage: u32,
    dst_offset: u64,
    has_size: bool,
    size: u64,
) -> Result<BufferPlan, TransferError>
    ensures { result ≡ answer unrestricted_index_buffer same_buffer src_size src_usage src_offset dst_size dst_usage dst_offset has_size size }
{
    let device = Device {
        depth_texture_and_buffer_copies: false,
        unrestricted_index_buffer,
    };
    let src = c_records::buffer_from(src_size, src_usage);
    let dst = c_records::buffer_from(dst_size, dst_usage);
    let bytes = c_records::given(has_size, size);
    let dst_index = c_records::dst_index(same_buffer);
    let from = BufferSide {
        index: 0,
        buffer: src,
        offset: src_offset,
    };
    let to = BufferSide {
        index: dst_index,
        buffer: dst,
        offset: dst_offset,
    };
    copy_buffers::copy_buffer_to_buffer(device, from, to, bytes)
}

// 0 for an accepted copy, else the number of its refusal; its plan and its ranges, or the refusal's details.
#[unsafe(no_mangle)]
pub extern "C" fn copy_planner_buffer_to_buffer(
    unrestricted_index_buffer: bool,
    same_buffer: bool,
    src_size: u64,
    src_usage: u32,
    src_offset: u64,
    dst_size: u64,
    dst_usage: u32,
    dst_offset: u64,
    has_size: bool,
    size: u64,
    plan: &mut [u64; 6],
    ranges: &mut [u64; 6],
) -> u32
    ensures value { result ≡ buffers_number (answer unrestricted_index_buffer same_buffer src_size src_usage src_offset dst_size dst_usage dst_offset has_size size) }
    ensures plan_after { plan.new ≡ buffers_plan (answer unrestricted_index_buffer same_buffer src_size src_usage src_offset dst_size dst_usage dst_offset has_size size) }
    ensures ranges_after { ranges.new ≡ buffers_ranges (answer unrestricted_index_buffer same_buffer src_size src_usage src_offset dst_size dst_usage dst_offset has_size size) }
{
    let planned = plan_copy(
        unrestricted_index_buffer,
        same_buffer,
        src_size,
        src_usage,
        src_offset,
        dst_size,
        dst_usage,
        dst_offset,
        has_size,
        size,
    );
    c_words::put(planned, plan, ranges)
}
