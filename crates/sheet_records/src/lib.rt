#![tactic(auto)]
// Records and figures from the values of a job sheet's line.
ghost use Rattle.std.specs.Prelude.{◌≡◌, ◌+◌, ◌%◌, ◌^◌};
ghost use Rattle.sheet_records.specs.Records.{value_of, word_of, word_or_absent, size_of, extent_of, device_of, texture_of, buffer_of, view_of, layout_of};

use flags::{BufferUsages, TextureUsages};
use measures::{Extent3d, Origin3d, Texels};
use records::{Buffer, Device, TexelCopyBufferLayout, TexelCopyTextureInfo, Texture};
use sheet_fields::Line;

// `-` is read as the last number of 64 bits, and what is past the last field as 0.
#[tactic(auto, unfolding(crate::specs::Records::value_of))]
pub fn value_of(l: Line, i: usize) -> u64
    ensures { result ≡ value_of l i }
{
    let value = l.values.get(i).copied().unwrap_or(Some(0));
    value.unwrap_or(u64::MAX)
}

// The low 32 bits. The fields that are read as words hold no more, so nothing is cut off.
fn low_word(value: u64) -> u32
    ensures { result ≡ value % 2 ^ 32 }
{
    (value % (1 << 32)) as u32
}

#[tactic(auto, unfolding(crate::specs::Records::word_of))]
pub fn word_of(l: Line, i: usize) -> u32
    ensures { result ≡ word_of l i }
{
    low_word(value_of(l, i))
}

// The same so many fields on; past the last field it is 0.
fn value_on(l: Line, i: usize, k: usize) -> u64
    ensures { result ≡ value_of l (i + k) }
{
    value_of(l, i.saturating_add(k))
}

#[tactic(auto, unfolding(crate::specs::Records::word_of))]
fn word_on(l: Line, i: usize, k: usize) -> u32
    ensures { result ≡ word_of l (i + k) }
{
    low_word(value_on(l, i, k))
}

#[tactic(auto, unfolding(crate::specs::Records::word_or_absent))]
fn word_or_absent(l: Line, i: usize) -> Option<u32>
    ensures { result ≡ word_or_absent l i }
{
    l.value(i).map(low_word)
}

// The size of a copy between buffers, its line's last field.
#[tactic(auto, unfolding(crate::specs::Records::size_of))]
pub fn size_of(l: Line) -> Option<u64>
    ensures { result ≡ size_of l }
{
    l.value(5)
}

#[tactic(auto, unfolding(crate::specs::Records::extent_of))]
pub fn extent_of(l: Line, i: usize) -> Extent3d
    ensures { result ≡ extent_of l i }
{
    Extent3d {
        width: Texels(word_of(l, i)),
        height: Texels(word_on(l, i, 1)),
        depth_or_array_layers: word_on(l, i, 2),
    }
}

// The device of a sheet's one device line.
#[tactic(auto, unfolding(crate::specs::Records::device_of))]
pub fn device_of(l: Line) -> Device
    ensures { result ≡ device_of l }
{
    let depth = value_of(l, 0);
    let index = value_of(l, 1);
    Device {
        depth_texture_and_buffer_copies: depth == 1,
        unrestricted_index_buffer: index == 1,
    }
}

#[tactic(auto, unfolding(crate::specs::Records::texture_of))]
pub fn texture_of(l: Line) -> Texture
    ensures { result ≡ texture_of l }
{
    let size = extent_of(l, 2);
    Texture {
        format: word_of(l, 0),
        dimension: word_of(l, 1),
        size,
        mip_level_count: word_of(l, 5),
        sample_count: word_of(l, 6),
        usage: TextureUsages(word_of(l, 7)),
    }
}

#[tactic(auto, unfolding(crate::specs::Records::buffer_of))]
pub fn buffer_of(l: Line) -> Buffer
    ensures { result ≡ buffer_of l }
{
    Buffer {
        size: value_of(l, 0),
        usage: BufferUsages(word_of(l, 1)),
    }
}

#[tactic(auto, unfolding(crate::specs::Records::view_of, crate::specs::Records::origin_of))]
pub fn view_of(l: Line, i: usize) -> TexelCopyTextureInfo
    ensures { result ≡ view_of l i }
{
    let aspect = formats::aspect_of(value_on(l, i, 4));
    TexelCopyTextureInfo {
        mip_level: word_of(l, i),
        origin: Origin3d {
            x: Texels(word_on(l, i, 1)),
            y: Texels(word_on(l, i, 2)),
            z: word_on(l, i, 3),
        },
        aspect,
    }
}

#[tactic(auto, unfolding(crate::specs::Records::layout_of))]
pub fn layout_of(l: Line) -> TexelCopyBufferLayout
    ensures { result ≡ layout_of l }
{
    let bytes_per_row = word_or_absent(l, 3);
    let rows_per_image = word_or_absent(l, 4);
    TexelCopyBufferLayout {
        offset: value_of(l, 2),
        bytes_per_row,
        rows_per_image,
    }
}
