#![tactic(auto)]
// The range of a copy within a texture: `validate_texture_copy_range` of command/transfer.rs.
ghost use Rattle.std.specs.Prelude.{◌≡◌, is_ok};
ghost use Rattle.formats.specs.Table.{block_dimensions};
ghost use Rattle.refusals.specs.Order.{checked};
ghost use Rattle.records.specs.Extents.{physical_extent};
ghost use Rattle.rule_copy_range.specs.Range.{end_of, is_partial, overruns, partial_transfer, texture_overrun, dimension_checks, side_checks, block_checks, requires_exact, subject_of, depth_of, layers_of, copy_extent, layer_count_of, range_checked};
ghost use Rattle.rule_copy_range.specs.Inside.{run_fits, sides_fit, blocks_fit, extent_fits, alignment_fits};
ghost use Rattle.rule_copy_range.specs.Laws.{EveryRange};

use measures::{BlockDimensions, Extent3d, Origin3d, Texels};
use mip_levels::TextureDimension;
use records::{CheckedSide, Texture, TextureSide};
use refusals::{CopySide, TextureErrorDimension, TransferError};

// What a refusal says of the texture.
#[derive(Clone, Copy)]
pub struct Subject {
    pub format: u32,
    pub sample_count: u32,
    pub side: CopySide,
}

// The size of one region.
#[derive(Clone, Copy)]
pub struct CopyExtent {
    pub width: Texels,
    pub height: Texels,
    pub depth: u32,
}

// Texels along one side: from where, how many, and the limit that they may not pass. On Z a slice or a layer counts as a texel.
#[derive(Clone, Copy)]
pub struct Run {
    pub start: Texels,
    pub size: Texels,
    pub limit: Texels,
}

impl Run {
    // Where it ends. The sum is made in 64 bits, which hold it.
    #[tactic(auto, unfolding(crate::specs::Range::end_of))]
    fn end(self) -> u64
        ensures { result ≡ end_of self.start.0 self.size.0 }
    {
        self.start.0 as u64 + self.size.0 as u64
    }

    #[tactic(auto, unfolding(crate::specs::Range::is_partial))]
    fn is_partial(self, exact: bool) -> bool
        ensures { result ≡ is_partial exact self.start.0 self.size.0 self.limit.0 }
    {
        exact & ((self.start.0 != 0) | (self.size.0 != self.limit.0))
    }

    // Whether it leaves its limit.
    fn is_overrun(self) -> bool
        ensures { result ≡ overruns self.start.0 self.size.0 self.limit.0 }
    {
        (self.limit.0 as u64) < self.end()
    }

    fn partial_transfer(self, of: Subject, dimension: TextureErrorDimension) -> TransferError
        ensures { result ≡ partial_transfer of dimension self.start.0 self.size.0 self.limit.0 }
    {
        TransferError::UnsupportedPartialTransfer {
            format: of.format,
            sample_count: of.sample_count,
            start_offset: self.start.0,
            end_offset: self.end(),
            texture_size: self.limit.0,
            dimension,
            side: of.side,
        }
    }

    // A run that leaves its texture, or its plane.
    fn texture_overrun(self, side: CopySide, dimension: TextureErrorDimension) -> TransferError
        ensures { result ≡ texture_overrun side dimension self.start.0 self.size.0 self.limit.0 }
    {
        TransferError::TextureOverrun {
            start_offset: self.start.0,
            end_offset: self.end(),
            texture_size: self.limit.0,
            dimension,
            side,
        }
    }

    #[tactic(auto, using(refusals::proofs::Order::ordered), unfolding(crate::specs::Range::dimension_checks, refusals::specs::Order::decided))]
    pub fn check_dimension(
        self,
        of: Subject,
        dimension: TextureErrorDimension,
        requires_exact_size: bool,
    ) -> Result<(), TransferError>
        ensures { result ≡ checked (dimension_checks of dimension self.start self.size self.limit requires_exact_size) }
    {
        if self.is_partial(requires_exact_size) {
            return Err(self.partial_transfer(of, dimension));
        }
        if self.is_overrun() {
            return Err(self.texture_overrun(of.side, dimension));
        }
        Ok(())
    }

    // Whether it lies inside its limit, and is all of it where it must be.
    #[tactic(auto, unfolding(crate::specs::Inside::run_fits, crate::specs::Range::end_of))]
    fn fits(self, exact: bool) -> bool
        ensures { result ≡ run_fits exact self.start self.size self.limit }
    {
        if exact {
            return (self.start.0 == 0) & (self.size.0 == self.limit.0);
        }
        self.end() <= self.limit.0 as u64
    }
}

#[tactic(auto, using(refusals::proofs::Order::ordered), unfolding(crate::specs::Range::side_checks, refusals::specs::Order::decided))]
fn check_sides(
    of: Subject,
    o: Origin3d,
    size: Extent3d,
    extent: Extent3d,
    exact: bool,
) -> Result<(), TransferError>
    ensures { result ≡ checked (side_checks of o size extent exact) }
{
    let x = Run {
        start: o.x,
        size: size.width,
        limit: extent.width,
    };
    x.check_dimension(of, TextureErrorDimension::X, exact)?;
    let y = Run {
        start: o.y,
        size: size.height,
        limit: extent.height,
    };
    y.check_dimension(of, TextureErrorDimension::Y, exact)?;
    let z = Run {
        start: Texels(o.z),
        size: Texels(size.depth_or_array_layers),
        limit: Texels(extent.depth_or_array_layers),
    };
    z.check_dimension(of, TextureErrorDimension::Z, false)?;
    Ok(())
}

#[tactic(auto, using(refusals::proofs::Order::ordered), unfolding(crate::specs::Range::block_checks, refusals::specs::Order::decided))]
fn check_blocks(o: Origin3d, size: Extent3d, block: BlockDimensions) -> Result<(), TransferError>
    ensures { result ≡ checked (block_checks o size block) }
{
    if !o.x.is_multiple_of(block.width) {
        return Err(TransferError::UnalignedCopyOriginX);
    }
    if !o.y.is_multiple_of(block.height) {
        return Err(TransferError::UnalignedCopyOriginY);
    }
    if !size.width.is_multiple_of(block.width) {
        return Err(TransferError::UnalignedCopyWidth);
    }
    if !size.height.is_multiple_of(block.height) {
        return Err(TransferError::UnalignedCopyHeight);
    }
    Ok(())
}

#[tactic(auto, unfolding(crate::specs::Range::requires_exact))]
fn requires_exact(t: Texture) -> bool
    ensures { result ≡ requires_exact t }
{
    formats::is_depth_stencil_format(t.format) | (t.sample_count > 1)
}

#[tactic(auto, unfolding(crate::specs::Range::subject_of))]
pub fn subject_of(t: Texture, side: CopySide) -> Subject
    ensures { result ≡ subject_of t side }
{
    Subject {
        format: t.format,
        sample_count: t.sample_count,
        side,
    }
}

fn depth_of(dimension: TextureDimension, depth: u32) -> u32
    ensures { result ≡ depth_of dimension depth }
{
    match dimension {
        TextureDimension::D1 | TextureDimension::D2 => 1,
        TextureDimension::D3 => depth,
    }
}

fn layers_of(dimension: TextureDimension, depth: u32) -> u32
    ensures { result ≡ layers_of dimension depth }
{
    match dimension {
        TextureDimension::D2 => depth,
        TextureDimension::D1 | TextureDimension::D3 => 1,
    }
}

#[tactic(auto, unfolding(crate::specs::Range::copy_extent))]
pub fn copy_extent(t: Texture, size: Extent3d) -> CopyExtent
    ensures { result ≡ copy_extent t size }
{
    let dimension = TextureDimension::from(t.dimension);
    let width = size.width;
    let height = size.height;
    CopyExtent {
        width,
        height,
        depth: depth_of(dimension, size.depth_or_array_layers),
    }
}

#[tactic(auto, unfolding(crate::specs::Range::layer_count_of))]
pub fn array_layer_count(t: Texture, size: Extent3d) -> u32
    ensures { result ≡ layer_count_of t size }
{
    let dimension = TextureDimension::from(t.dimension);
    layers_of(dimension, size.depth_or_array_layers)
}

fn check_extent(t: CheckedSide, side: CopySide, size: Extent3d) -> Result<(), TransferError>
    ensures { result ≡ checked (side_checks (subject_of t.side.texture side) t.side.view.origin size (physical_extent t.side.texture t.side.view.mip_level) (requires_exact t.side.texture)) }
{
    let extent = records::physical_extent(t);
    let texture = t.side.texture;
    check_sides(
        subject_of(texture, side),
        t.side.view.origin,
        size,
        extent,
        requires_exact(texture),
    )
}

fn check_alignment(t: TextureSide, size: Extent3d) -> Result<(), TransferError>
    ensures { result ≡ checked (block_checks t.view.origin size (block_dimensions t.texture.format)) }
{
    check_blocks(
        t.view.origin,
        size,
        formats::block_dimensions(t.texture.format),
    )
}

// The size of one region and the number of layers.
#[tactic(auto, using(crate::proofs::Rules::range), unfolding(crate::specs::Range::range_checks, crate::specs::Range::range_checked, refusals::specs::Order::decided))]
pub fn validate_texture_copy_range(
    t: CheckedSide,
    texture_side: CopySide,
    copy_size: Extent3d,
) -> Result<(CopyExtent, u32), TransferError>
    ensures { result ≡ range_checked t.side.view t.side.texture texture_side copy_size }
{
    let texture = t.side.texture;
    let level = t.side.view.mip_level;
    if level >= texture.mip_level_count {
        return Err(TransferError::InvalidTextureMipLevel {
            level,
            total: texture.mip_level_count,
        });
    }
    check_extent(t, texture_side, copy_size)?;
    check_alignment(t.side, copy_size)?;
    Ok((
        copy_extent(texture, copy_size),
        array_layer_count(texture, copy_size),
    ))
}

#[tactic(auto, unfolding(crate::specs::Inside::sides_fit))]
fn sides_fit(exact: bool, o: Origin3d, size: Extent3d, extent: Extent3d) -> bool
    ensures { result ≡ sides_fit exact o size extent }
{
    let x = Run {
        start: o.x,
        size: size.width,
        limit: extent.width,
    };
    let y = Run {
        start: o.y,
        size: size.height,
        limit: extent.height,
    };
    let z = Run {
        start: Texels(o.z),
        size: Texels(size.depth_or_array_layers),
        limit: Texels(extent.depth_or_array_layers),
    };
    x.fits(exact) && y.fits(exact) && z.fits(false)
}

// In one test, so that the whole is small enough for the compiler to inline on both sides of a copy.
#[tactic(auto, unfolding(crate::specs::Inside::blocks_fit))]
fn blocks_fit(o: Origin3d, size: Extent3d, block: BlockDimensions) -> bool
    ensures { result ≡ blocks_fit o size block }
{
    o.x.is_multiple_of(block.width)
        & o.y.is_multiple_of(block.height)
        & size.width.is_multiple_of(block.width)
        & size.height.is_multiple_of(block.height)
}

#[tactic(auto, unfolding(crate::specs::Inside::extent_fits))]
fn extent_fits(t: CheckedSide, size: Extent3d) -> bool
    ensures { result ≡ extent_fits t.side.view t.side.texture size }
{
    let extent = records::physical_extent(t);
    sides_fit(
        requires_exact(t.side.texture),
        t.side.view.origin,
        size,
        extent,
    )
}

#[tactic(auto, unfolding(crate::specs::Inside::alignment_fits))]
fn alignment_fits(t: TextureSide, size: Extent3d) -> bool
    ensures { result ≡ alignment_fits t.view t.texture size }
{
    blocks_fit(
        t.view.origin,
        size,
        formats::block_dimensions(t.texture.format),
    )
}

// Whether `validate_texture_copy_range` goes on, for callers that make the refusal only where it is needed. Inlined on both sides of a copy: as
// a call it would keep the records of either side in memory.
#[inline(always)]
#[tactic(auto, using(crate::proofs::Inside::as_goes_on), unfolding(crate::specs::Inside::in_range))]
pub fn is_in_range(t: CheckedSide, size: Extent3d) -> bool
    ensures { (side : CopySide) → result ≡ is_ok (range_checked t.side.view t.side.texture side size) }
{
    t.side.view.mip_level < t.side.texture.mip_level_count
        && extent_fits(t, size)
        && alignment_fits(t.side, size)
}

// Asks the check for the laws of an accepted range; nothing runs here.
pub fn range_laws()
    ensures { EveryRange }
{}
