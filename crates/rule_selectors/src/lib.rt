#![tactic(auto)]
// `extract_texture_selector` and `validate_copy_within_same_texture` of command/transfer.rs.
ghost use Rattle.std.specs.Prelude.{◌≡◌, ◌+◌, nat_lt};
ghost use Rattle.refusals.specs.Order.{checked};
ghost use Rattle.rule_selectors.specs.Selector.{layer_of, z_of, layer_range, selector_of, base_of, next_layer, selector_checked, overlaps, same_texture_checks};

use flags::FormatAspects;
use measures::{Extent3d, Origin3d, Range};
use mip_levels::TextureDimension;
use records::{TexelCopyTextureInfo, TextureSide};
use refusals::TransferError;

// The levels and layers that a copy selects.
#[derive(Clone, Copy)]
pub struct TextureSelector {
    pub mips: Range,
    pub layers: Range,
}

// Where a region starts in a texture.
#[derive(Clone, Copy)]
pub struct TextureCopyBase {
    pub mip_level: u32,
    pub array_layer: u32,
    pub origin: Origin3d,
    pub aspect: FormatAspects,
}

fn layer_of(dimension: TextureDimension, z: u32) -> u32
    ensures { result ≡ layer_of dimension z }
{
    match dimension {
        TextureDimension::D2 => z,
        TextureDimension::D1 | TextureDimension::D3 => 0,
    }
}

fn z_of(dimension: TextureDimension, z: u32) -> u32
    ensures { result ≡ z_of dimension z }
{
    match dimension {
        TextureDimension::D1 | TextureDimension::D2 => 0,
        TextureDimension::D3 => z,
    }
}

fn layer_range(dimension: TextureDimension, z: u32, depth: u32) -> Range
    ensures { result ≡ layer_range dimension z depth }
{
    match dimension {
        TextureDimension::D2 => Range::counted(z, depth),
        TextureDimension::D1 | TextureDimension::D3 => Range::counted(0, 1),
    }
}

#[tactic(auto, unfolding(crate::specs::Selector::selector_of))]
fn selector_of(t: TextureSide, size: Extent3d) -> TextureSelector
    ensures { result ≡ selector_of t.view t.texture size }
{
    let dimension = TextureDimension::from(t.texture.dimension);
    TextureSelector {
        mips: Range::counted(t.view.mip_level, 1),
        layers: layer_range(dimension, t.view.origin.z, size.depth_or_array_layers),
    }
}

#[tactic(auto, unfolding(crate::specs::Selector::base_of))]
fn base_of(t: TextureSide, aspect: FormatAspects) -> TextureCopyBase
    ensures { result ≡ base_of t.view t.texture aspect.0 }
{
    let dimension = TextureDimension::from(t.texture.dimension);
    let view = t.view;
    let z = view.origin.z;
    TextureCopyBase {
        mip_level: view.mip_level,
        array_layer: layer_of(dimension, z),
        origin: Origin3d {
            z: z_of(dimension, z),
            ..view.origin
        },
        aspect,
    }
}

// The same place one layer on.
#[tactic(auto, unfolding(crate::specs::Selector::next_layer))]
pub fn next_layer(b: TextureCopyBase) -> TextureCopyBase
    ensures { result ≡ next_layer b }
{
    TextureCopyBase {
        array_layer: b.array_layer.wrapping_add(1),
        ..b
    }
}

pub fn extract_texture_selector(
    t: TextureSide,
    copy_size: Extent3d,
) -> Result<(TextureSelector, TextureCopyBase), TransferError>
    ensures { result ≡ selector_checked t.view t.texture copy_size }
{
    let format = t.texture.format;
    let aspect = t.view.aspect;
    let aspects = formats::chosen_aspects(format, aspect);
    if aspects == FormatAspects(0) {
        return Err(TransferError::InvalidTextureAspect { format, aspect });
    }
    Ok((selector_of(t, copy_size), base_of(t, aspects)))
}

// Whether a z lies below another plus a count of layers.
fn is_below_end(z: u32, other: u32, layers: u32) -> bool
    ensures { result ≡ nat_lt z (other + layers) }
{
    (z as u64) < (other as u64) + (layers as u64)
}

#[tactic(auto, unfolding(crate::specs::Selector::overlaps))]
fn is_overlap(
    src: TexelCopyTextureInfo,
    dst: TexelCopyTextureInfo,
    format: u32,
    layers: u32,
) -> bool
    ensures { result ≡ overlaps src dst format layers }
{
    let src_aspects = formats::chosen_aspects(format, src.aspect);
    let dst_aspects = formats::chosen_aspects(format, dst.aspect);
    conditions::all([
        src_aspects.meets(dst_aspects),
        is_below_end(src.origin.z, dst.origin.z, layers),
        is_below_end(dst.origin.z, src.origin.z, layers),
        src.mip_level == dst.mip_level,
    ])
}

#[tactic(auto, using(refusals::proofs::Order::ordered), unfolding(crate::specs::Selector::same_texture_checks, refusals::specs::Order::decided))]
pub fn validate_copy_within_same_texture(
    src: TexelCopyTextureInfo,
    dst: TexelCopyTextureInfo,
    format: u32,
    array_layer_count: u32,
) -> Result<(), TransferError>
    ensures { result ≡ checked (same_texture_checks src dst format array_layer_count) }
{
    if is_overlap(src, dst, format, array_layer_count) {
        return Err(TransferError::InvalidCopyWithinSameTexture {
            src_aspects: src.aspect,
            dst_aspects: dst.aspect,
            src_origin_z: src.origin.z,
            dst_origin_z: dst.origin.z,
            array_layer_count,
        });
    }
    Ok(())
}
