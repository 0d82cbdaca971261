#![tactic(auto)]
// The initialisation ranges of a copy: `handle_buffer_init` and `handle_texture_init` of command/transfer.rs, and
// `has_copy_partial_init_tracker_coverage` of init_tracker/texture.rs.
ghost use Rattle.std.specs.Prelude.{◌≡◌, ◌||◌, not, ◌+◌, ◌^◌, ◌≤◌, ◌<◌};
ghost use Rattle.conditions.specs.Conditions.{pick};
ghost use Rattle.rule_init_ranges.specs.Init.{kind_number, depth_differs, size_differs, is_partial_cover, init_layers, texture_range, src_texture_range, dst_texture_range, aligned_down, aligned_up, buffer_range, unless, outward, inward, is_source, buffer_init};

mod span;

use formats::TextureAspect;
use measures::{Extent3d, Range};
use mip_levels::TextureDimension;
use records::TextureSide;
use refusals::CopySide;
pub use span::BufferSpan;

// The numbers are those that a kind is printed as.
#[derive(Clone, Copy)]
pub enum MemoryInitKind {
    ImplicitlyInitialized = 0,
    NeedsInitializedMemory = 1,
}

#[derive(Clone, Copy)]
pub struct TextureInitRange {
    pub mip_level: u32,
    pub layers: Range,
    pub kind: MemoryInitKind,
}

// Backward where end lies below start: such a range holds no byte.
#[derive(Clone, Copy)]
pub struct BufferInitRange {
    pub start: u64,
    pub end: u64,
    pub kind: MemoryInitKind,
}

// Up to three ranges, in this order.
#[derive(Clone, Copy)]
pub struct BufferInitRanges {
    pub head: Option<BufferInitRange>,
    pub whole: Option<BufferInitRange>,
    pub tail: Option<BufferInitRange>,
}

impl From<MemoryInitKind> for u32 {
    ghost from_gives = { λ kind n. n ≡ kind_number kind };

    #[tactic(auto, unfolding(crate::specs::Init::kind_number))]
    fn from(kind: MemoryInitKind) -> u32 {
        kind as u32
    }
}

fn depth_differs(dimension: TextureDimension, depth: u32, level: u32) -> bool
    ensures { result ≡ depth_differs dimension depth level }
{
    match dimension {
        TextureDimension::D1 | TextureDimension::D2 => false,
        TextureDimension::D3 => depth != level,
    }
}

#[tactic(auto, unfolding(crate::specs::Init::size_differs))]
fn size_differs(dimension: TextureDimension, size: Extent3d, level: Extent3d) -> bool
    ensures { result ≡ size_differs dimension size level }
{
    let depth = size.depth_or_array_layers;
    let deep = depth_differs(dimension, depth, level.depth_or_array_layers);
    (size.width != level.width) | (size.height != level.height) | deep
}

#[tactic(auto, unfolding(crate::specs::Init::is_partial_cover))]
fn has_copy_partial_init_tracker_coverage(copy_size: Extent3d, t: TextureSide) -> bool
    ensures { result ≡ is_partial_cover copy_size t.view t.texture }
{
    let dimension = TextureDimension::from(t.texture.dimension);
    let level = records::logical_extent(t);
    size_differs(dimension, copy_size, level) | (t.view.aspect != TextureAspect::All)
}

fn init_layers(dimension: TextureDimension, z: u32, depth: u32) -> Range
    ensures { result ≡ init_layers dimension z depth }
{
    match dimension {
        TextureDimension::D1 | TextureDimension::D2 => Range::counted(z, depth),
        TextureDimension::D3 => Range::counted(0, 1),
    }
}

#[tactic(auto, unfolding(crate::specs::Init::texture_range))]
fn texture_range(t: TextureSide, size: Extent3d, kind: MemoryInitKind) -> TextureInitRange
    ensures { result ≡ texture_range t.view t.texture size kind }
{
    let dimension = TextureDimension::from(t.texture.dimension);
    TextureInitRange {
        mip_level: t.view.mip_level,
        layers: init_layers(dimension, t.view.origin.z, size.depth_or_array_layers),
        kind,
    }
}

#[tactic(auto, unfolding(crate::specs::Init::src_texture_range))]
pub fn src_texture_range(t: TextureSide, copy_size: Extent3d) -> TextureInitRange
    ensures { result ≡ src_texture_range t.view t.texture copy_size }
{
    texture_range(t, copy_size, MemoryInitKind::NeedsInitializedMemory)
}

fn dst_kind(partial: bool) -> MemoryInitKind
    ensures { result ≡ pick partial MemoryInitKind.NeedsInitializedMemory MemoryInitKind.ImplicitlyInitialized }
{
    if partial {
        return MemoryInitKind::NeedsInitializedMemory;
    }
    MemoryInitKind::ImplicitlyInitialized
}

#[tactic(auto, unfolding(crate::specs::Init::dst_texture_range))]
pub fn dst_texture_range(t: TextureSide, copy_size: Extent3d) -> TextureInitRange
    ensures { result ≡ dst_texture_range t.view t.texture copy_size }
{
    let partial = has_copy_partial_init_tracker_coverage(copy_size, t);
    texture_range(t, copy_size, dst_kind(partial))
}

#[tactic(auto, unfolding(crate::specs::Init::aligned_down))]
fn aligned_down(n: u64) -> u64
    ensures value { result ≡ aligned_down n }
    ensures low { result ≤ n }
{
    n / 4 * 4
}

#[tactic(auto, unfolding(crate::specs::Init::aligned_up))]
fn aligned_up(n: u64) -> u64
    requires { n < 2 ^ 63 }
    ensures { result ≡ aligned_up n }
{
    n.next_multiple_of(4)
}

// A range, unless a test holds.
pub fn range_unless(
    holds: bool,
    start: u64,
    end: u64,
    kind: MemoryInitKind,
) -> Option<BufferInitRange>
    ensures { result ≡ unless holds (buffer_range start end kind) }
{
    (!holds).then_some(BufferInitRange { start, end, kind })
}

impl BufferSpan {
    fn end(self) -> u64
        ensures value { result ≡ self.offset + self.bytes }
        ensures low { result < 2 ^ 63 }
    {
        self.offset + self.bytes
    }

    #[tactic(auto, unfolding(crate::specs::Init::outward))]
    fn outward(self) -> BufferInitRanges
        ensures { result ≡ outward self.offset (self.offset + self.bytes) }
    {
        let whole = BufferInitRange {
            start: aligned_down(self.offset),
            end: aligned_up(self.end()),
            kind: MemoryInitKind::NeedsInitializedMemory,
        };
        BufferInitRanges {
            head: None,
            whole: Some(whole),
            tail: None,
        }
    }

    #[tactic(auto, unfolding(crate::specs::Init::inward))]
    fn inward(self) -> BufferInitRanges
        ensures { result ≡ inward self.offset (self.offset + self.bytes) }
    {
        let start = self.offset;
        let end = self.end();
        let low = aligned_down(start);
        let up = aligned_up(start);
        let down = aligned_down(end);
        let needs = MemoryInitKind::NeedsInitializedMemory;
        let head = range_unless(up == start, low, up, needs);
        let whole = range_unless(up == down, up, down, MemoryInitKind::ImplicitlyInitialized);
        let tail = range_unless(down == end, down, down + 4, needs);
        BufferInitRanges { head, whole, tail }
    }
}

#[tactic(auto, using(crate::proofs::Alike::same_source), unfolding(crate::specs::Init::is_source))]
fn is_outward(direction: CopySide, is_contiguous: bool) -> bool
    ensures { result ≡ (not is_contiguous || is_source direction) }
{
    !is_contiguous | (direction == CopySide::Source)
}

// The ranges of a copy of a span of a buffer, which is its source or its destination.
pub fn handle_buffer_init(
    span: BufferSpan,
    direction: CopySide,
    is_contiguous: bool,
) -> BufferInitRanges
    ensures { result ≡ buffer_init span.offset direction span.bytes is_contiguous }
{
    if is_outward(direction, is_contiguous) {
        return span.outward();
    }
    span.inward()
}
