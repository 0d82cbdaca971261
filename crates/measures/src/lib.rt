#![tactic(auto)]
// Texels and blocks, extents and origins, and the values that may be absent.
ghost use Rattle.std.specs.Prelude.{◌≡◌, ◌+◌, ◌<◌, ◌≤◌, ◌^◌};
ghost use Rattle.measures.specs.Measure.{or_else, multiple, in_blocks, lesser_of, divided_by, round_up, physical_size, counted, is_empty};
ghost use Rattle.measures.specs.Laws.{EveryBlockSize};

use std::marker::Model;

// Texels along one side.
#[derive(Clone, Copy, PartialEq, Eq)]
pub struct Texels(pub u32);

// Texel blocks along one side: rows or columns. No function takes them for texels; `Texels::in_blocks` joins the two.
#[derive(Clone, Copy)]
pub struct Blocks(pub u32);

// A side of a block: at least one texel. Contracts see its texels.
#[derive(Clone, Copy)]
pub struct BlockSide {
    size: Texels,
}

impl Model for BlockSide {
    ghost use Rattle.std.specs.Prelude.{◌<◌};
    ghost use Rattle.measures.specs.declared.Texels.{Texels};

    ghost Value = { Texels };

    ghost view = { λ s. s.size };

    ghost invariant = { λ s. 0 < s.size.0 };

    ghost inverse = { λ n. record { size = n } };
}

impl BlockSide {
    pub fn new(size: Texels) -> BlockSide
        requires { 0 < size.0 }
        ensures { result ≡ size }
    {
        BlockSide { size }
    }

    // How many texels that is.
    pub fn count(self) -> u32
        ensures value { result ≡ self.0 }
        ensures some { 0 < result }
    {
        self.size.0
    }
}

impl Texels {
    // How many blocks of a side hold these.
    #[tactic(auto, using(crate::proofs::Rounding::counted), unfolding(crate::specs::Measure::in_blocks))]
    pub fn in_blocks(self, side: BlockSide) -> Blocks
        ensures { result ≡ in_blocks self side }
    {
        let size = side.count();
        // nearly every block is one texel, and a division takes long
        if size == 1 {
            return Blocks(self.0);
        }
        Blocks(self.0.div_ceil(size))
    }

    // Whether these are whole blocks of a side.
    pub fn is_multiple_of(self, side: BlockSide) -> bool
        ensures { result ≡ multiple self.0 side.0 }
    {
        let size = side.count();
        if size == 1 {
            return true;
        }
        self.0 % size == 0
    }

    // The lesser of two.
    #[tactic(auto, unfolding(crate::specs::Measure::lesser_of))]
    pub fn min(self, other: Texels) -> Texels
        ensures { result ≡ lesser_of self other }
    {
        Texels(self.0.min(other.0))
    }

    // These divided by a factor, rounded down.
    #[tactic(auto, unfolding(crate::specs::Measure::divided_by))]
    pub fn divided_by(self, factor: u32) -> Texels
        requires { 0 < factor }
        ensures { result ≡ divided_by self factor }
    {
        Texels(self.0 / factor)
    }

    // These rounded up to whole blocks of a side.
    #[tactic(auto, using(crate::proofs::Rounding::rounded), unfolding(crate::specs::Measure::round_up))]
    fn rounded_up(self, side: BlockSide) -> Texels
        requires { self.0 + side.0 ≤ 2 ^ 32 }
        ensures { result ≡ round_up self side }
    {
        let size = side.count();
        if size == 1 {
            return self;
        }
        Texels(self.0.next_multiple_of(size))
    }
}

// Sizes: width and height in texels; the third counts depth slices in 3D and array layers in 2D, which have no blocks.
#[derive(Clone, Copy)]
pub struct Extent3d {
    pub width: Texels,
    pub height: Texels,
    pub depth_or_array_layers: u32,
}

#[derive(Clone, Copy)]
pub struct Origin3d {
    pub x: Texels,
    pub y: Texels,
    pub z: u32,
}

// The sides of a block.
#[derive(Clone, Copy)]
pub struct BlockDimensions {
    pub width: BlockSide,
    pub height: BlockSide,
}

// From start up to, not including, end. One whose end lies below its start runs backward and holds nothing.
#[derive(Clone, Copy)]
pub struct Range {
    pub start: u64,
    pub end: u64,
}

impl Range {
    // From a start on, as many as counted.
    pub fn counted(start: u32, count: u32) -> Range
        ensures { result ≡ counted start count }
    {
        let start = start as u64;
        Range {
            start,
            end: start + (count as u64),
        }
    }
}

// A value, or another where it is absent.
#[tactic(auto, unfolding(crate::specs::Measure::or_else))]
pub fn or_else(value: Option<u32>, other: u64) -> u64
    ensures { result ≡ or_else value other }
{
    value.map_or(other, u64::from)
}

// Width and height rounded up to whole blocks.
pub fn physical_size(e: Extent3d, block: BlockDimensions) -> Extent3d
    requires { (e.width.0 + block.width.0 ≤ 2 ^ 32) × (e.height.0 + block.height.0 ≤ 2 ^ 32) }
    ensures { result ≡ physical_size e block }
{
    let width = e.width.rounded_up(block.width);
    let height = e.height.rounded_up(block.height);
    Extent3d {
        width,
        height,
        depth_or_array_layers: e.depth_or_array_layers,
    }
}

// Whether nothing is copied.
#[tactic(auto, unfolding(crate::specs::Measure::is_empty))]
pub fn is_empty(size: Extent3d) -> bool
    ensures { result ≡ is_empty size }
{
    (size.width.0 == 0) | (size.height.0 == 0) | (size.depth_or_array_layers == 0)
}

// Asks the check for the laws of blocks; nothing runs here.
pub fn block_laws()
    ensures { EveryBlockSize }
{}
