#![tactic(auto)]
// `validate_texture_copy_src_format`, `validate_texture_copy_dst_format` and `validate_texture_buffer_copy` of
// command/transfer.rs.
ghost use Rattle.std.specs.Prelude.{◌≡◌, ◌&&◌, ◌||◌, not, eqb, ◌<◌};
ghost use Rattle.measures.specs.Measure.{multiple, or_else};
ghost use Rattle.formats.specs.Table.{depth24plus, depth24plus_stencil8, depth32float, depth32float_stencil8};
ghost use Rattle.formats.specs.Aspects.{block_copy_size};
ghost use Rattle.refusals.specs.Order.{checked};
ghost use Rattle.rule_formats.specs.Rules.{is_depth_only, src_format_checks, dst_format_checks, offset_alignment, is_unaligned_row, layout_checks};

use flags::FormatAspects;
use formats::TextureAspect;
use records::{TexelCopyBufferLayout, Texture};
use refusals::TransferError;

// Bytes per row are a multiple of this.
const COPY_BYTES_PER_ROW_ALIGNMENT: u32 = 256;

#[tactic(auto, unfolding(crate::specs::Rules::is_depth_only))]
fn is_depth_only(aspect: TextureAspect) -> bool
    ensures { result ≡ is_depth_only aspect }
{
    aspect == TextureAspect::DepthOnly
}

fn is_src_depth(format: u32, aspect: TextureAspect) -> bool
    ensures { result ≡ (eqb format depth24plus_stencil8 && is_depth_only aspect) }
{
    (format == formats::DEPTH24_PLUS_STENCIL8) & is_depth_only(aspect)
}

#[tactic(auto, using(refusals::proofs::Order::ordered), unfolding(crate::specs::Rules::src_format_checks, refusals::specs::Order::decided))]
pub fn validate_texture_copy_src_format(
    format: u32,
    aspect: TextureAspect,
) -> Result<(), TransferError>
    ensures { result ≡ checked (src_format_checks format aspect) }
{
    if format == formats::DEPTH24_PLUS {
        return Err(TransferError::CopyFromForbiddenTextureFormat(format));
    }
    if is_src_depth(format, aspect) {
        return Err(TransferError::CopyFromForbiddenTextureFormatAspect { format, aspect });
    }
    Ok(())
}

fn is_forbidden_dst(format: u32) -> bool
    ensures { result ≡ (eqb format depth24plus || eqb format depth32float) }
{
    (format == formats::DEPTH24_PLUS) | (format == formats::DEPTH32_FLOAT)
}

fn is_dst_depth(format: u32, aspect: TextureAspect) -> bool
    ensures { result ≡ ((eqb format depth24plus_stencil8 || eqb format depth32float_stencil8) && is_depth_only aspect) }
{
    let has_depth = (format == formats::DEPTH24_PLUS_STENCIL8)
        | (format == formats::DEPTH32_FLOAT_STENCIL8);
    has_depth & is_depth_only(aspect)
}

#[tactic(auto, using(refusals::proofs::Order::ordered), unfolding(crate::specs::Rules::dst_format_checks, refusals::specs::Order::decided))]
pub fn validate_texture_copy_dst_format(
    format: u32,
    aspect: TextureAspect,
) -> Result<(), TransferError>
    ensures { result ≡ checked (dst_format_checks format aspect) }
{
    if is_forbidden_dst(format) {
        return Err(TransferError::CopyToForbiddenTextureFormat(format));
    }
    if is_dst_depth(format, aspect) {
        return Err(TransferError::CopyToForbiddenTextureFormatAspect { format, aspect });
    }
    Ok(())
}

fn offset_alignment(format: u32, aspect: TextureAspect) -> u64
    ensures value { result ≡ offset_alignment format aspect }
    ensures some { 0 < result }
{
    // asked for in any case: the rule of linear data asks again, and the compiler then makes one call of both
    let block = measures::or_else(formats::block_copy_size(format, aspect), 1);
    if formats::is_depth_stencil_format(format) {
        return 4;
    }
    block
}

#[tactic(auto, unfolding(measures::specs::Measure::multiple))]
fn is_unaligned_offset(format: u32, aspect: TextureAspect, offset: u64, aligned: bool) -> bool
    ensures { result ≡ (aligned && not (multiple offset (offset_alignment format aspect))) }
{
    let alignment = offset_alignment(format, aspect);
    aligned & (offset % alignment != 0)
}

#[tactic(auto, unfolding(crate::specs::Rules::is_unaligned_row, measures::specs::Measure::multiple))]
fn is_unaligned_row(bytes_per_row: Option<u32>, aligned: bool) -> bool
    ensures { result ≡ (aligned && is_unaligned_row bytes_per_row) }
{
    aligned & bytes_per_row.is_some_and(|n| n % COPY_BYTES_PER_ROW_ALIGNMENT != 0)
}

// `aspect` is the one asked for, `aspects` those chosen.
#[tactic(auto, using(refusals::proofs::Order::ordered), unfolding(crate::specs::Rules::layout_checks, refusals::specs::Order::decided))]
pub fn validate_texture_buffer_copy(
    aspect: TextureAspect,
    aspects: FormatAspects,
    t: Texture,
    layout: TexelCopyBufferLayout,
    aligned: bool,
) -> Result<(), TransferError>
    ensures { result ≡ checked (layout_checks aspect aspects.0 t layout aligned) }
{
    let bytes_per_row = layout.bytes_per_row;
    if t.sample_count != 1 {
        return Err(TransferError::InvalidSampleCount {
            sample_count: t.sample_count,
        });
    }
    if !aspects.is_one() {
        return Err(TransferError::CopyAspectNotOne);
    }
    if is_unaligned_offset(t.format, aspect, layout.offset, aligned) {
        return Err(TransferError::UnalignedBufferOffset(layout.offset));
    }
    if is_unaligned_row(bytes_per_row, aligned) {
        return Err(TransferError::UnalignedBytesPerRow);
    }
    Ok(())
}
