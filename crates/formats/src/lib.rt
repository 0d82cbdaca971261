#![tactic(auto)]
// The texture formats by their numbers: blocks, bytes, aspects, planes and srgb pairs.
ghost use Rattle.std.specs.Prelude.{◌≡◌, true, ◌≤◌, ◌<◌};
ghost use Rattle.flags.specs.FormatAspects.{COLOR};
ghost use Rattle.measures.specs.Measure.{or_else};
ghost use Rattle.formats.specs.Table.{color as color_row, depth_stencil, planar as planar_row, format_row, is_format, block_dimensions, aspects_of, is_depth_stencil, is_combined_depth_stencil, remove_srgb, is_multi_planar};
ghost use Rattle.formats.specs.Aspects.{aspect_of, named_aspect, asked_of, chosen_aspects, bytes_of, block_copy_size, plane_format, aspect_specific_format, subsampling_factor};
ghost use Rattle.formats.specs.Laws.{EveryFormat, max_block_side};

use flags::FormatAspects;
use measures::{BlockDimensions, BlockSide, Texels};

// How many formats the table has.
const FORMAT_COUNT: u32 = 22;

// The bytes of a block where an aspect has none that can be copied, or is not there.
const NONE: u32 = 0;

const LINEAR: bool = false;

// A row that is the srgb of the row before it.
const SRGB: bool = true;

pub const DEPTH24_PLUS: u32 = 17;

pub const DEPTH24_PLUS_STENCIL8: u32 = 18;

pub const DEPTH32_FLOAT: u32 = 19;

pub const DEPTH32_FLOAT_STENCIL8: u32 = 20;

const NV12: u32 = 21;

const PLANES: FormatAspects = FormatAspects(FormatAspects::PLANE_0.0 | FormatAspects::PLANE_1.0);

// What a copy asks for of a texture.
#[derive(Clone, Copy, PartialEq, Eq)]
pub enum TextureAspect {
    All,
    StencilOnly,
    DepthOnly,
    Plane0,
    Plane1,
    Plane2,
}

// One format: its block's sides, whether it is an srgb, its aspects, and the bytes of a block of each.
#[derive(Clone, Copy)]
pub struct FormatRow {
    pub block_width: u32,
    pub block_height: u32,
    pub srgb: bool,
    pub aspects: FormatAspects,
    pub color: u32,
    pub depth: u32,
    pub stencil: u32,
    pub plane_0: u32,
    pub plane_1: u32,
}

// A row of no aspect and no bytes: each row says what it has of them.
const NO_BYTES: FormatRow = FormatRow {
    block_width: 1,
    block_height: 1,
    srgb: LINEAR,
    aspects: FormatAspects(0),
    color: NONE,
    depth: NONE,
    stencil: NONE,
    plane_0: NONE,
    plane_1: NONE,
};

fn color(block_width: u32, block_height: u32, bytes: u32, srgb: bool) -> FormatRow
    ensures { result ≡ color_row block_width block_height bytes srgb }
{
    FormatRow {
        block_width,
        block_height,
        srgb,
        aspects: FormatAspects::COLOR,
        color: bytes,
        ..NO_BYTES
    }
}

fn depth_stencil(aspects: FormatAspects, depth: u32, stencil: u32) -> FormatRow
    ensures { result ≡ depth_stencil aspects.0 depth stencil }
{
    FormatRow {
        aspects,
        depth,
        stencil,
        ..NO_BYTES
    }
}

fn planar(aspects: FormatAspects, plane_0: u32, plane_1: u32) -> FormatRow
    ensures { result ≡ planar_row aspects.0 plane_0 plane_1 }
{
    FormatRow {
        aspects,
        plane_0,
        plane_1,
        ..NO_BYTES
    }
}

// The table. A number past it names a format with no aspects.
#[tactic(auto, using(crate::proofs::Rows::arm), unfolding(crate::specs::Table::formats, crate::specs::Table::format_row))]
fn format_row(format: u32) -> FormatRow
    ensures { result ≡ format_row format }
{
    match format {
        0 => color(1, 1, 1, LINEAR),
        1 => color(1, 1, 2, LINEAR),
        2 => color(1, 1, 4, LINEAR),
        3 => color(1, 1, 4, SRGB),
        4 => color(1, 1, 4, LINEAR),
        5 => color(1, 1, 4, SRGB),
        6 => color(1, 1, 2, LINEAR),
        7 => color(1, 1, 8, LINEAR),
        8 => color(1, 1, 4, LINEAR),
        9 => color(1, 1, 8, LINEAR),
        10 => color(1, 1, 16, LINEAR),
        11 => color(4, 4, 8, LINEAR),
        12 => color(4, 4, 8, SRGB),
        13 => color(4, 4, 16, LINEAR),
        14 => color(4, 4, 16, SRGB),
        15 => depth_stencil(FormatAspects::STENCIL, NONE, 1),
        16 => depth_stencil(FormatAspects::DEPTH, 2, NONE),
        17 => depth_stencil(FormatAspects::DEPTH, NONE, NONE),
        18 => depth_stencil(FormatAspects::DEPTH_STENCIL, NONE, 1),
        19 => depth_stencil(FormatAspects::DEPTH, 4, NONE),
        20 => depth_stencil(FormatAspects::DEPTH_STENCIL, 4, 1),
        21 => planar(PLANES, 1, 2),
        _ => NO_BYTES,
    }
}

// Whether a number names a format.
#[tactic(auto, unfolding(crate::specs::Table::formats, crate::specs::Table::is_format))]
pub fn is_format(format: u32) -> bool
    ensures { result ≡ is_format format }
{
    format < FORMAT_COUNT
}

pub fn block_dimensions(format: u32) -> BlockDimensions
    ensures value { result ≡ block_dimensions format }
    ensures sides { (0 < result.width.0) × (result.width.0 ≤ max_block_side) × (0 < result.height.0) × (result.height.0 ≤ max_block_side) }
{
    let row = format_row(format);
    BlockDimensions {
        width: BlockSide::new(Texels(row.block_width)),
        height: BlockSide::new(Texels(row.block_height)),
    }
}

// The aspects that a format has.
#[tactic(auto, unfolding(crate::specs::Table::aspects_of))]
pub fn format_aspects(format: u32) -> FormatAspects
    ensures { result.0 ≡ aspects_of format }
{
    format_row(format).aspects
}

// A number that no aspect has.
#[derive(Clone, Copy)]
pub struct UnknownAspect(pub u64);

impl TryFrom<u64> for TextureAspect {
    type Error = UnknownAspect;

    ghost try_from_gives = { λ n aspect. aspect ≡ named_aspect n };

    #[tactic(auto, unfolding(crate::specs::Aspects::aspect_of, crate::specs::Aspects::named_aspect))]
    fn try_from(n: u64) -> Result<TextureAspect, UnknownAspect> {
        match n {
            0 => Ok(TextureAspect::All),
            1 => Ok(TextureAspect::StencilOnly),
            2 => Ok(TextureAspect::DepthOnly),
            3 => Ok(TextureAspect::Plane0),
            4 => Ok(TextureAspect::Plane1),
            5 => Ok(TextureAspect::Plane2),
            _ => Err(UnknownAspect(n)),
        }
    }
}

// The aspect of a number, 0 to 5; a larger one, which callers refuse, counts as 5.
#[tactic(auto, using(crate::proofs::AspectLaws::or_last))]
pub fn aspect_of(n: u64) -> TextureAspect
    ensures { result ≡ aspect_of n }
{
    TextureAspect::try_from(n).unwrap_or(TextureAspect::Plane2)
}

#[tactic(auto, unfolding(crate::specs::Aspects::asked_of))]
fn met_with_asked(aspects: FormatAspects, asked: TextureAspect) -> FormatAspects
    ensures { result.0 ≡ asked_of aspects.0 asked }
{
    match asked {
        TextureAspect::All => aspects,
        TextureAspect::StencilOnly => aspects.meet(FormatAspects::STENCIL),
        TextureAspect::DepthOnly => aspects.meet(FormatAspects::DEPTH),
        TextureAspect::Plane0 => aspects.meet(FormatAspects::PLANE_0),
        TextureAspect::Plane1 => aspects.meet(FormatAspects::PLANE_1),
        TextureAspect::Plane2 => aspects.meet(FormatAspects::PLANE_2),
    }
}

// The aspects of a format that a copy chooses.
#[tactic(auto, unfolding(crate::specs::Aspects::chosen_aspects))]
pub fn chosen_aspects(format: u32, asked: TextureAspect) -> FormatAspects
    ensures { result.0 ≡ chosen_aspects format asked }
{
    met_with_asked(format_aspects(format), asked)
}

// The bytes of a block of an aspect. One field at a time, a look at the table is one load.
#[tactic(auto, using(conditions::proofs::Rules::lines), unfolding(crate::specs::Aspects::bytes_of))]
fn bytes_of(format: u32, aspects: FormatAspects) -> u32
    ensures { result ≡ bytes_of (format_row format) aspects.0 }
{
    match aspects {
        FormatAspects::COLOR => format_row(format).color,
        FormatAspects::DEPTH => format_row(format).depth,
        FormatAspects::STENCIL => format_row(format).stencil,
        FormatAspects::PLANE_0 => format_row(format).plane_0,
        FormatAspects::PLANE_1 => format_row(format).plane_1,
        _ => NONE,
    }
}

#[tactic(auto, using(crate::proofs::Rows::asks_color))]
fn is_color(aspects: FormatAspects, asked: TextureAspect) -> bool
    ensures { result ≡ true → asked_of aspects.0 asked ≡ COLOR }
{
    asked == TextureAspect::All && aspects == FormatAspects::COLOR
}

// The bytes of a block of the one aspect that a copy chooses; `NONE` where it has none. Nearly every copy is of a colour format.
#[tactic(auto, using(crate::proofs::Rows::color_size))]
fn chosen_bytes(format: u32, asked: TextureAspect) -> u32
    ensures { result ≡ bytes_of (format_row format) (chosen_aspects format asked) }
{
    if is_color(format_aspects(format), asked) {
        return format_row(format).color;
    }
    bytes_of(format, chosen_aspects(format, asked))
}

// The same, where it has some.
#[tactic(auto, unfolding(crate::specs::Aspects::block_copy_size))]
pub fn block_copy_size(format: u32, asked: TextureAspect) -> Option<u32>
    ensures { result ≡ block_copy_size format asked }
{
    let bytes = chosen_bytes(format, asked);
    (bytes != NONE).then_some(bytes)
}

#[tactic(auto, unfolding(crate::specs::Table::is_depth_stencil))]
pub fn is_depth_stencil_format(format: u32) -> bool
    ensures { result ≡ is_depth_stencil format }
{
    (15..=20).contains(&format)
}

#[tactic(auto, unfolding(crate::specs::Table::is_combined_depth_stencil))]
pub fn is_combined_depth_stencil_format(format: u32) -> bool
    ensures { result ≡ is_combined_depth_stencil format }
{
    format_aspects(format) == FormatAspects::DEPTH_STENCIL
}

// The format of which this one is the srgb, else this one.
#[tactic(auto, using(crate::proofs::Rows::srgb_fits), unfolding(crate::specs::Table::remove_srgb))]
pub fn remove_srgb_suffix(format: u32) -> u32
    ensures { result ≡ remove_srgb format }
{
    let row = format_row(format);
    if row.srgb { format - 1 } else { format }
}

#[tactic(auto, unfolding(crate::specs::Table::is_multi_planar))]
pub fn is_multi_planar_format(format: u32) -> bool
    ensures { result ≡ is_multi_planar format }
{
    format == NV12
}

#[tactic(auto, unfolding(crate::specs::Aspects::plane_format))]
fn plane_format(asked: TextureAspect) -> Option<u32>
    ensures { result ≡ plane_format asked }
{
    match asked {
        TextureAspect::Plane0 => Some(0),
        TextureAspect::Plane1 => Some(1),
        _ => None,
    }
}

// The format that the asked plane of a planar format may be copied into.
pub fn aspect_specific_format(format: u32, asked: TextureAspect) -> Option<u32>
    ensures { result ≡ aspect_specific_format format asked }
{
    if is_multi_planar_format(format) {
        return plane_format(asked);
    }
    None
}

// How many texels of the format one texel of the asked plane stands for, on X and on Y.
#[tactic(auto, unfolding(crate::specs::Aspects::subsampling_factor))]
pub fn subsampling_factor(asked: TextureAspect) -> u32
    ensures { result ≡ subsampling_factor asked }
{
    match asked {
        TextureAspect::Plane1 => 2,
        _ => 1,
    }
}

// Asks the check for the laws of formats; nothing runs here.
pub fn format_laws()
    ensures { EveryFormat }
{}
