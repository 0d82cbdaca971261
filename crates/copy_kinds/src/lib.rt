#![tactic(auto)]
// A copy of any of the five kinds, with the records that it names: its plan and ranges, or its refusal.
ghost use Rattle.std.specs.Prelude.{◌≡◌, is_some, count_by};
ghost use Rattle.copy_kinds.specs.Planned.{planned_buffers, planned_upload, planned_memory_upload, planned_download, planned_textures};
ghost use Rattle.copy_kinds.specs.Ranges.{buffer_slot, no_ranges, buffer_ranges, texture_and_buffer, copy_ranges, memory_ranges, two_textures, texture_ranges, count_of};

use copy_buffer_texture::LinearTextureCopy;
use copy_buffers::BufferSide;
use measures::Extent3d;
use plan_buffers::BufferPlan;
use plan_kinds::Plan;
use records::{Buffer, Device, TextureSide};
use refusals::TransferError;
use rule_init_ranges::{BufferInitRange, BufferInitRanges, TextureInitRange};

// A range of the texture or the buffer of an index.
#[derive(Clone, Copy)]
pub enum InitRange {
    Texture(u32, TextureInitRange),
    Buffer(u32, BufferInitRange),
}

// The ranges of a copy in their order, with slots between them that may be absent.
#[derive(Clone, Copy)]
pub struct Ranges {
    pub slots: [Option<InitRange>; 4],
}

#[tactic(auto, unfolding(crate::specs::Ranges::buffer_slot))]
fn buffer_slot(buffer: u32, range: Option<BufferInitRange>) -> Option<InitRange>
    ensures { result ≡ buffer_slot buffer range }
{
    range.map(|r| InitRange::Buffer(buffer, r))
}

#[tactic(auto, unfolding(crate::specs::Ranges::no_ranges))]
fn no_ranges() -> Ranges
    ensures { result ≡ no_ranges }
{
    Ranges { slots: [None; 4] }
}

#[tactic(auto, unfolding(crate::specs::Ranges::buffer_ranges))]
fn buffer_ranges(src: u32, dst: u32, plan: BufferPlan) -> Ranges
    ensures { result ≡ buffer_ranges src dst plan }
{
    Ranges {
        slots: [
            buffer_slot(dst, plan.dst_range),
            buffer_slot(src, plan.src_range),
            None,
            None,
        ],
    }
}

#[tactic(auto, unfolding(crate::specs::Ranges::texture_and_buffer))]
fn texture_and_buffer(texture: u32, t: TextureInitRange, buffer: u32, b: BufferInitRanges) -> Ranges
    ensures { result ≡ texture_and_buffer texture t buffer b }
{
    Ranges {
        slots: [
            Some(InitRange::Texture(texture, t)),
            buffer_slot(buffer, b.head),
            buffer_slot(buffer, b.whole),
            buffer_slot(buffer, b.tail),
        ],
    }
}

#[tactic(auto, unfolding(crate::specs::Ranges::copy_ranges))]
fn copy_ranges(
    texture: u32,
    buffer: u32,
    ranges: Option<(TextureInitRange, BufferInitRanges)>,
) -> Ranges
    ensures { result ≡ copy_ranges texture buffer ranges }
{
    ranges.map_or(
        no_ranges(),
        |(t, b)| texture_and_buffer(texture, t, buffer, b),
    )
}

#[tactic(auto, unfolding(crate::specs::Ranges::memory_ranges))]
fn memory_ranges(texture: u32, ranges: Option<(TextureInitRange, BufferInitRanges)>) -> Ranges
    ensures { result ≡ memory_ranges texture ranges }
{
    ranges.map_or(
        no_ranges(),
        |(t, _)| Ranges {
            slots: [Some(InitRange::Texture(texture, t)), None, None, None],
        },
    )
}

#[tactic(auto, unfolding(crate::specs::Ranges::two_textures))]
fn two_textures(src: u32, s: TextureInitRange, dst: u32, d: TextureInitRange) -> Ranges
    ensures { result ≡ two_textures src s dst d }
{
    Ranges {
        slots: [
            Some(InitRange::Texture(src, s)),
            Some(InitRange::Texture(dst, d)),
            None,
            None,
        ],
    }
}

#[tactic(auto, unfolding(crate::specs::Ranges::texture_ranges))]
fn texture_ranges(
    src: u32,
    dst: u32,
    ranges: Option<(TextureInitRange, TextureInitRange)>,
) -> Ranges
    ensures { result ≡ texture_ranges src dst ranges }
{
    ranges.map_or(no_ranges(), |(s, d)| two_textures(src, s, dst, d))
}

// The plan of a copy between buffers, or its refusal. Buffers, and textures, are told apart by their indices.
pub fn plan_buffers(
    device: Device,
    src: BufferSide,
    dst: BufferSide,
    size: Option<u64>,
) -> Result<(Plan, Ranges), TransferError>
    ensures { result ≡ planned_buffers device src.index src.buffer src.offset dst.index dst.buffer dst.offset size }
{
    let plan = copy_buffers::copy_buffer_to_buffer(device, src, dst, size)?;
    let ranges = buffer_ranges(src.index, dst.index, plan);
    Ok((Plan::Buffers(plan), ranges))
}

// The same of a copy from a buffer into a texture.
pub fn plan_upload(
    buffer_index: u32,
    buffer: Buffer,
    texture_index: u32,
    copy: LinearTextureCopy,
) -> Result<(Plan, Ranges), TransferError>
    ensures { result ≡ planned_upload copy.device buffer_index buffer copy.layout texture_index copy.texture.texture copy.texture.view copy.size }
{
    let plan = copy_buffer_texture::copy_buffer_to_texture(buffer, copy)?;
    let ranges = copy_ranges(texture_index, buffer_index, plan.ranges);
    Ok((Plan::BufferTexture(plan), ranges))
}

// The same of a copy from a block of memory into a texture.
pub fn plan_memory_upload(
    length: u64,
    texture_index: u32,
    copy: LinearTextureCopy,
) -> Result<(Plan, Ranges), TransferError>
    ensures { result ≡ planned_memory_upload copy.device length copy.layout texture_index copy.texture.texture copy.texture.view copy.size }
{
    let plan = copy_buffer_texture::copy_memory_to_texture(length, copy)?;
    let ranges = memory_ranges(texture_index, plan.ranges);
    Ok((Plan::BufferTexture(plan), ranges))
}

// The same of a copy from a texture into a buffer.
pub fn plan_download(
    texture_index: u32,
    copy: LinearTextureCopy,
    buffer_index: u32,
    buffer: Buffer,
) -> Result<(Plan, Ranges), TransferError>
    ensures { result ≡ planned_download copy.device texture_index copy.texture.texture copy.texture.view buffer_index buffer copy.layout copy.size }
{
    let plan = copy_buffer_texture::copy_texture_to_buffer(copy, buffer)?;
    let ranges = copy_ranges(texture_index, buffer_index, plan.ranges);
    Ok((Plan::BufferTexture(plan), ranges))
}

// The same of a copy between textures.
pub fn plan_textures(
    src_index: u32,
    src: TextureSide,
    dst_index: u32,
    dst: TextureSide,
    size: Extent3d,
) -> Result<(Plan, Ranges), TransferError>
    ensures { result ≡ planned_textures src_index src dst_index dst size }
{
    let plan = copy_textures::copy_texture_to_texture(src_index, src, dst_index, dst, size)?;
    let ranges = texture_ranges(src_index, dst_index, plan.ranges);
    Ok((Plan::Textures(plan), ranges))
}

fn given(slots: &[Option<InitRange>]) -> usize
    ensures { result ≡ count_by is_some slots.now }
{
    slots.iter().filter(|slot| slot.is_some()).count()
}

impl Ranges {
    // How many ranges there are.
    pub fn count(self) -> u32
        ensures { result ≡ count_of self }
    {
        given(&self.slots) as u32
    }
}
