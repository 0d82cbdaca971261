#![tactic(auto)]
// Records and figures from numbers, as callers in other languages hand them.
ghost use Rattle.std.specs.Prelude.{◌≡◌, [], ◌∷◌, Ok};
ghost use Rattle.conditions.specs.Conditions.{pick};
ghost use Rattle.refusals.specs.Order.{decided};
ghost use Rattle.c_records.specs.CRecords.{view_from, given, buffer_from, layout_from, texture_from, side_from, size_from, device_with, aspect_check};

use flags::{BufferUsages, TextureUsages};
use formats::TextureAspect;
use measures::{Extent3d, Origin3d, Texels};
use records::{Buffer, Device, TexelCopyBufferLayout, TexelCopyTextureInfo, Texture, TextureSide};
use refusals::TransferError;

// A value, where it is given.
pub fn given<T: Copy>(is_given: bool, value: T) -> Option<T>
    ensures { result ≡ given is_given value }
{
    is_given.then_some(value)
}

pub fn buffer_from(size: u64, usage: u32) -> Buffer
    ensures { result ≡ buffer_from size usage }
{
    Buffer {
        size,
        usage: BufferUsages(usage),
    }
}

pub fn layout_from(
    offset: u64,
    has_bytes_per_row: bool,
    bytes_per_row: u32,
    has_rows_per_image: bool,
    rows_per_image: u32,
) -> TexelCopyBufferLayout
    ensures { result ≡ layout_from offset has_bytes_per_row bytes_per_row has_rows_per_image rows_per_image }
{
    TexelCopyBufferLayout {
        offset,
        bytes_per_row: given(has_bytes_per_row, bytes_per_row),
        rows_per_image: given(has_rows_per_image, rows_per_image),
    }
}

// Format, dimension, width, height, depth or layers, levels, samples, usage.
#[tactic(auto, unfolding(crate::specs::CRecords::texture_from))]
pub fn texture_from(t: &[u32; 8]) -> Texture
    ensures { result ≡ texture_from t.now }
{
    let size = Extent3d {
        width: Texels(t[2]),
        height: Texels(t[3]),
        depth_or_array_layers: t[4],
    };
    Texture {
        format: t[0],
        dimension: t[1],
        size,
        mip_level_count: t[5],
        sample_count: t[6],
        usage: TextureUsages(t[7]),
    }
}

// Level, x, y, z, aspect. A number past the aspects, which `side_from` refuses, counts as the last.
#[tactic(auto, unfolding(crate::specs::CRecords::view_from))]
pub fn view_from(v: &[u32; 5]) -> TexelCopyTextureInfo
    ensures { result ≡ view_from v.now }
{
    let origin = Origin3d {
        x: Texels(v[1]),
        y: Texels(v[2]),
        z: v[3],
    };
    TexelCopyTextureInfo {
        mip_level: v[0],
        origin,
        aspect: formats::aspect_of(u64::from(v[4])),
    }
}

// Width, height, depth or layers.
#[tactic(auto, unfolding(crate::specs::CRecords::size_from))]
pub fn size_from(s: &[u32; 3]) -> Extent3d
    ensures { result ≡ size_from s.now }
{
    Extent3d {
        width: Texels(s[0]),
        height: Texels(s[1]),
        depth_or_array_layers: s[2],
    }
}

// The destination's index: 0 is the source's, which may be the same.
pub fn dst_index(is_source: bool) -> u32
    ensures { result ≡ pick is_source 0 1 }
{
    if is_source { 0 } else { 1 }
}

// The device of a copy with a texture, by the fact that it asks for.
pub fn device_with(depth_texture_and_buffer_copies: bool) -> Device
    ensures { result ≡ device_with depth_texture_and_buffer_copies }
{
    Device {
        depth_texture_and_buffer_copies,
        unrestricted_index_buffer: false,
    }
}

// A texture and the part of it. A view's number past the aspects names none, of the texture.
#[tactic(auto, using(refusals::proofs::Order::ordered, formats::proofs::AspectLaws::past_last), unfolding(crate::specs::CRecords::side_from, refusals::specs::Order::decided))]
pub fn side_from(texture: &[u32; 8], view: &[u32; 5]) -> Result<TextureSide, TransferError>
    ensures { result ≡ decided (aspect_check texture.now view.now ∷ []) (Ok (side_from texture.now view.now)) }
{
    if TextureAspect::try_from(u64::from(view[4])).is_err() {
        return Err(TransferError::InvalidTextureAspect {
            format: texture[0],
            aspect: TextureAspect::Plane2,
        });
    }
    Ok(TextureSide {
        texture: texture_from(texture),
        view: view_from(view),
    })
}
