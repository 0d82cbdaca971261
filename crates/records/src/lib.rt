#![tactic(auto)]
// The records of a copy, their bounds, and the extents of a texture's level.
ghost use Rattle.std.specs.Prelude.{◌≡◌, true, ◌&&◌, max};
ghost use Rattle.mip_levels.specs.Level.{texture_dimension};
ghost use Rattle.refusals.specs.Order.{decided, mapped};
ghost use Rattle.records.specs.Bounds.{within, buffer_in_bounds, size_in_bounds, mip_side, levels_in_bounds, may_be_multisampled, four_samples, samples_in_bounds, dimension_suits, sides_whole, even_sides, planes_suit, fields_in_bounds, format_suits, texture_in_bounds, buffer_checks, texture_checks, both_texture_checks};
ghost use Rattle.records.specs.Extents.{logical_extent, physical_extent};
ghost use Rattle.records.specs.Laws.{RecordLaws};

mod checked_records;

pub use checked_records::{CheckedBuffer, CheckedSide};
use flags::{BufferUsages, TextureUsages};
use formats::TextureAspect;
use measures::{BlockSide, Extent3d, Origin3d, Texels};
use mip_levels::TextureDimension;
use refusals::{CopySide, TransferError};

const MAX_BUFFER_SIZE: u64 = 268_435_456;

const MAX_BUFFER_USAGE: u32 = 1023;

const MAX_TEXTURE_USAGE: u32 = 31;

// A side in 1D and 2D.
const MAX_SIDE: u32 = 8192;

// A side in 3D.
const MAX_SIDE_3D: u32 = 2048;

// The layers of a 2D texture.
pub const MAX_LAYERS: u32 = 256;

// The most levels that a side within its limit has.
pub const MAX_LEVELS: u32 = 14;

#[derive(Clone, Copy)]
pub struct Buffer {
    pub size: u64,
    pub usage: BufferUsages,
}

// `dimension` is 1, 2 or 3 and `format` a number of the table where the record is within its bounds.
#[derive(Clone, Copy)]
pub struct Texture {
    pub format: u32,
    pub dimension: u32,
    pub size: Extent3d,
    pub mip_level_count: u32,
    pub sample_count: u32,
    pub usage: TextureUsages,
}

// One side of a copy: the part of a texture.
#[derive(Clone, Copy)]
pub struct TexelCopyTextureInfo {
    pub mip_level: u32,
    pub origin: Origin3d,
    pub aspect: TextureAspect,
}

// The other side: how rows and images lie in a buffer, or in memory.
#[derive(Clone, Copy)]
pub struct TexelCopyBufferLayout {
    pub offset: u64,
    pub bytes_per_row: Option<u32>,
    pub rows_per_image: Option<u32>,
}

// A texture and the part of it: either side of a copy between textures.
#[derive(Clone, Copy)]
pub struct TextureSide {
    pub texture: Texture,
    pub view: TexelCopyTextureInfo,
}

// What the device can do. Any two facts are within its bounds.
#[derive(Clone, Copy)]
pub struct Device {
    pub depth_texture_and_buffer_copies: bool,
    pub unrestricted_index_buffer: bool,
}

#[tactic(auto, unfolding(crate::specs::Bounds::within))]
fn is_within(least: u32, n: u32, most: u32) -> bool
    ensures { result ≡ within least n most }
{
    (least..=most).contains(&n)
}

#[tactic(auto, unfolding(crate::specs::Bounds::buffer_in_bounds))]
fn buffer_in_bounds(b: Buffer) -> bool
    ensures { result ≡ buffer_in_bounds b }
{
    (b.size <= MAX_BUFFER_SIZE) & (b.usage.0 <= MAX_BUFFER_USAGE)
}

#[tactic(auto, unfolding(crate::specs::Bounds::size_in_bounds))]
fn size_in_bounds(dimension: TextureDimension, e: Extent3d) -> bool
    ensures { result ≡ size_in_bounds dimension e }
{
    let width = e.width.0;
    let height = e.height.0;
    let depth = e.depth_or_array_layers;
    match dimension {
        TextureDimension::D1 => {
            conditions::all([is_within(1, width, MAX_SIDE), height == 1, depth == 1])
        }
        TextureDimension::D2 => conditions::all([
            is_within(1, width, MAX_SIDE),
            is_within(1, height, MAX_SIDE),
            is_within(1, depth, MAX_LAYERS),
        ]),
        TextureDimension::D3 => conditions::all([
            is_within(1, width, MAX_SIDE_3D),
            is_within(1, height, MAX_SIDE_3D),
            is_within(1, depth, MAX_SIDE_3D),
        ]),
    }
}

// The side that is halved from level to level.
#[tactic(auto, unfolding(crate::specs::Bounds::mip_side))]
fn mip_side(dimension: TextureDimension, e: Extent3d) -> u32
    ensures { result ≡ mip_side dimension e }
{
    let side = e.width.0.max(e.height.0);
    match dimension {
        TextureDimension::D1 => 1,
        TextureDimension::D2 => side,
        TextureDimension::D3 => side.max(e.depth_or_array_layers),
    }
}

#[tactic(auto, unfolding(crate::specs::Bounds::levels_in_bounds, crate::specs::Bounds::within))]
fn levels_in_bounds(dimension: TextureDimension, e: Extent3d, levels: u32) -> bool
    requires { size_in_bounds dimension e ≡ true }
    ensures { result ≡ levels_in_bounds dimension e levels }
{
    mip_levels::may_have_levels(mip_side(dimension, e), levels)
}

fn has_size_in_bounds(t: Texture) -> bool
    ensures { result ≡ size_in_bounds (texture_dimension t.dimension) t.size }
{
    let size = t.size;
    size_in_bounds(TextureDimension::from(t.dimension), size)
}

fn has_levels_in_bounds(t: Texture) -> bool
    requires { size_in_bounds (texture_dimension t.dimension) t.size ≡ true }
    ensures { result ≡ levels_in_bounds (texture_dimension t.dimension) t.size t.mip_level_count }
{
    let size = t.size;
    let dimension = TextureDimension::from(t.dimension);
    levels_in_bounds(dimension, size, t.mip_level_count)
}

// Nearly every record is within its bounds: a branch for each field (`&&`) takes less than joining the answers.
#[tactic(auto, unfolding(crate::specs::Bounds::fields_in_bounds))]
fn fields_in_bounds(t: Texture) -> bool
    ensures { result ≡ fields_in_bounds t }
{
    formats::is_format(t.format)
        && is_within(1, t.dimension, 3)
        && has_size_in_bounds(t)
        && has_levels_in_bounds(t)
        && t.usage.0 <= MAX_TEXTURE_USAGE
}

#[tactic(auto, unfolding(crate::specs::Bounds::may_be_multisampled))]
fn may_be_multisampled(format: u32) -> bool
    ensures { result ≡ may_be_multisampled format }
{
    (format <= 10) | is_within(15, format, 20)
}

fn has_four_samples(t: Texture) -> bool
    ensures { result ≡ four_samples t }
{
    let size = t.size;
    conditions::all([
        t.sample_count == 4,
        t.dimension == 2,
        size.depth_or_array_layers == 1,
        t.mip_level_count == 1,
        may_be_multisampled(t.format),
    ])
}

// Nearly every texture has one sample, hence a branch.
#[tactic(auto, unfolding(crate::specs::Bounds::samples_in_bounds))]
fn samples_in_bounds(t: Texture) -> bool
    ensures { result ≡ samples_in_bounds t }
{
    t.sample_count == 1 || has_four_samples(t)
}

#[tactic(auto, unfolding(crate::specs::Bounds::dimension_suits))]
fn dimension_suits(format: u32, dimension: u32) -> bool
    ensures { result ≡ dimension_suits format dimension }
{
    (format <= 10) | (dimension == 2)
}

#[tactic(auto, unfolding(crate::specs::Bounds::sides_whole))]
fn sides_whole(format: u32, e: Extent3d) -> bool
    ensures { result ≡ sides_whole format e }
{
    let block = formats::block_dimensions(format);
    e.width.is_multiple_of(block.width) & e.height.is_multiple_of(block.height)
}

fn has_even_sides(t: Texture) -> bool
    ensures { result ≡ even_sides t }
{
    let size = t.size;
    let two = BlockSide::new(Texels(2));
    conditions::all([
        size.width.is_multiple_of(two),
        size.height.is_multiple_of(two),
        t.mip_level_count == 1,
    ])
}

#[tactic(auto, unfolding(crate::specs::Bounds::planes_suit))]
fn planes_suit(t: Texture) -> bool
    ensures { result ≡ planes_suit t }
{
    !formats::is_multi_planar_format(t.format) || has_even_sides(t)
}

#[tactic(auto, unfolding(crate::specs::Bounds::format_suits))]
fn format_suits(t: Texture) -> bool
    ensures { result ≡ format_suits t }
{
    dimension_suits(t.format, t.dimension) && sides_whole(t.format, t.size) && planes_suit(t)
}

// What the fields ask of each other.
fn fields_agree(t: Texture) -> bool
    ensures { result ≡ (samples_in_bounds t && format_suits t) }
{
    samples_in_bounds(t) && format_suits(t)
}

#[tactic(auto, unfolding(crate::specs::Bounds::texture_in_bounds))]
pub fn texture_in_bounds(t: Texture) -> bool
    ensures { result ≡ texture_in_bounds t }
{
    fields_in_bounds(t) && fields_agree(t)
}

// A buffer whose record is within its bounds, or 3.
pub fn check_buffer(b: Buffer, side: CopySide) -> Result<CheckedBuffer, TransferError>
    ensures { mapped (λ c. c.buffer) result ≡ decided (buffer_checks b side) (Ok b) }
{
    if !buffer_in_bounds(b) {
        return Err(TransferError::InvalidBufferRecord { side });
    }
    Ok(CheckedBuffer { buffer: b })
}

// A texture whose record is within its bounds, or 2.
pub fn check_texture(t: TextureSide, side: CopySide) -> Result<CheckedSide, TransferError>
    ensures { mapped (λ c. c.side) result ≡ decided (texture_checks t.texture side) (Ok t) }
{
    if !texture_in_bounds(t.texture) {
        return Err(TransferError::InvalidTextureRecord { side });
    }
    Ok(CheckedSide { side: t })
}

// 2 where the source's record is out of its bounds, then where the destination's is. Both are written out, since the compiler inlines
// the two halves of the test where they are called twice, and would leave the whole of it a call, for which a record has to be stored.
pub fn check_textures(
    src: TextureSide,
    dst: TextureSide,
) -> Result<(CheckedSide, CheckedSide), TransferError>
    ensures { mapped {B = TextureSide × TextureSide} (λ c. (c.0.side, c.1.side)) result ≡ decided (both_texture_checks src.texture dst.texture) (Ok (src, dst)) }
{
    if !fields_in_bounds(src.texture) {
        return Err(TransferError::InvalidTextureRecord {
            side: CopySide::Source,
        });
    }
    if !fields_agree(src.texture) {
        return Err(TransferError::InvalidTextureRecord {
            side: CopySide::Source,
        });
    }
    if !fields_in_bounds(dst.texture) {
        return Err(TransferError::InvalidTextureRecord {
            side: CopySide::Destination,
        });
    }
    if !fields_agree(dst.texture) {
        return Err(TransferError::InvalidTextureRecord {
            side: CopySide::Destination,
        });
    }
    let from = CheckedSide { side: src };
    let to = CheckedSide { side: dst };
    Ok((from, to))
}

// The logical extent of a level.
#[tactic(auto, unfolding(crate::specs::Extents::logical_extent))]
pub fn logical_extent(t: TextureSide) -> Extent3d
    ensures { result ≡ logical_extent t.texture t.view.mip_level }
{
    let texture = t.texture;
    let dimension = TextureDimension::from(texture.dimension);
    mip_levels::mip_level_size(dimension, texture.size, t.view.mip_level)
}

// The physical extent of a level: its width and height rounded up to blocks.
pub fn physical_extent(t: CheckedSide) -> Extent3d
    ensures { result ≡ physical_extent t.side.texture t.side.view.mip_level }
{
    let format = t.side.texture.format;
    measures::physical_size(logical_extent(t.side), formats::block_dimensions(format))
}

// Asks the check for the laws of records; nothing runs here.
pub fn record_laws()
    ensures { RecordLaws }
{}
