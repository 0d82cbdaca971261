#![tactic(auto)]
// The plan of a copy between a buffer, or memory, and a texture, asked for its regions one by one.
ghost use Rattle.std.specs.Prelude.{◌≡◌, ◌-◌};
ghost use Rattle.plan_buffer_texture.specs.Plan.{first_region, plan_of};
ghost use Rattle.plan_buffer_texture.specs.Asking.{moved, advanced, next_of};

use measures::Extent3d;
use plan_asked::Asked;
use records::TexelCopyBufferLayout;
use rule_copy_range::CopyExtent;
use rule_init_ranges::{BufferInitRanges, TextureInitRange};
use rule_linear_data::LinearData;
use rule_selectors::TextureCopyBase;

// A region: what the encoder is handed.
#[derive(Clone, Copy)]
pub struct BufferTextureCopy {
    pub offset: u64,
    pub bytes_per_row: Option<u32>,
    pub rows_per_image: Option<u32>,
    pub base: TextureCopyBase,
    pub size: CopyExtent,
}

// What is copied of the texture: the size of a region, the number of layers, and where the first region starts.
#[derive(Clone, Copy)]
pub struct TexturePart {
    pub extent: CopyExtent,
    pub layers: u32,
    pub base: TextureCopyBase,
}

// The ranges (the texture's, then the buffer's, which of a copy from memory are absent), the next region, the bytes from one to the next,
// how many are left, and the bytes checked. The ranges come first: in an answer a refusal lies in the same place, and the compiler then
// takes the region apart at less cost.
#[derive(Clone, Copy)]
pub struct BufferTexturePlan {
    pub ranges: Option<(TextureInitRange, BufferInitRanges)>,
    pub region: BufferTextureCopy,
    pub stride: u64,
    pub left: u32,
    pub bytes_checked: u64,
}

#[tactic(auto, unfolding(crate::specs::Plan::first_region))]
fn first_region(
    layout: TexelCopyBufferLayout,
    base: TextureCopyBase,
    extent: CopyExtent,
) -> BufferTextureCopy
    ensures { result ≡ first_region layout base extent }
{
    BufferTextureCopy {
        offset: layout.offset,
        bytes_per_row: layout.bytes_per_row,
        rows_per_image: layout.rows_per_image,
        base,
        size: extent,
    }
}

// The plan of a copy that has passed its checks.
pub fn plan_of(
    layout: TexelCopyBufferLayout,
    size: Extent3d,
    part: TexturePart,
    info: LinearData,
    texture: TextureInitRange,
    buffer: BufferInitRanges,
) -> BufferTexturePlan
    ensures { result ≡ plan_of layout size part.extent part.layers part.base info texture buffer }
{
    let empty = measures::is_empty(size);
    let region = first_region(layout, part.base, part.extent);
    let ranges = (!empty).then_some((texture, buffer));
    let left = if empty { 0 } else { part.layers };
    BufferTexturePlan {
        region,
        stride: info.image_stride,
        left,
        ranges,
        bytes_checked: info.bytes_in_copy,
    }
}

impl BufferTextureCopy {
    #[tactic(auto, unfolding(crate::specs::Asking::moved))]
    fn moved(self, stride: u64) -> BufferTextureCopy
        ensures { result ≡ moved self stride }
    {
        BufferTextureCopy {
            offset: self.offset.wrapping_add(stride),
            base: rule_selectors::next_layer(self.base),
            ..self
        }
    }
}

impl BufferTexturePlan {
    // One region on, with so many left.
    #[tactic(auto, unfolding(crate::specs::Asking::advanced))]
    fn advance(self, left: u32) -> BufferTexturePlan
        ensures { left ≡ self.left - 1 → result ≡ advanced self }
    {
        BufferTexturePlan {
            region: self.region.moved(self.stride),
            left,
            ..self
        }
    }

    // The next region and the plan after it; past the last none, and the plan as it is.
    pub fn next(self) -> Asked<BufferTextureCopy, BufferTexturePlan>
        ensures { result ≡ next_of self }
    {
        match self.left.checked_sub(1) {
            Some(left) => Asked {
                answer: Some(self.region),
                plan: self.advance(left),
            },
            None => Asked {
                answer: None,
                plan: self,
            },
        }
    }
}
