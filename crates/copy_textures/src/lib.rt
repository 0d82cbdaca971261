#![tactic(auto)]
// `copy_texture_to_texture` of command/transfer.rs, as a plan.
ghost use Rattle.std.specs.Prelude.{◌≡◌, true, false, ◌&&◌, not, ◌<◌, ◌^◌, eqb};
ghost use Rattle.measures.specs.Measure.{divided_by};
ghost use Rattle.formats.specs.Table.{aspects_of};
ghost use Rattle.formats.specs.Aspects.{subsampling_factor};
ghost use Rattle.refusals.specs.Order.{checked};
ghost use Rattle.rule_copy_range.specs.Range.{layer_count_of, range_checks};
ghost use Rattle.rule_selectors.specs.Selector.{same_texture_checks};
ghost use Rattle.copy_textures.specs.Copy.{is_plane_split, formats_differ};
ghost use Rattle.copy_textures.specs.Plan.{plane_checks, texture_to_texture};
ghost use Rattle.copy_textures.specs.Laws.{EveryCopyLaw};
ghost use Rattle.copy_textures.specs.Stages.{planned_copy, usable, selected_copy, placed_copy};

use flags::TextureUsages;
use measures::Extent3d;
use plan_textures::TexturePlan;
use records::{CheckedSide, TextureSide};
use refusals::{CopySide, TextureErrorDimension, TransferError};
use rule_copy_range::Run;
use rule_selectors::TextureCopyBase;

#[tactic(auto, using(crate::proofs::Split::no_split), unfolding(crate::specs::Copy::is_plane_split))]
fn is_plane_split(src: TextureSide, dst: TextureSide) -> bool
    ensures { result ≡ is_plane_split src dst }
{
    let format = src.texture.format;
    // the format of a plane is not that of its texture
    if format == dst.texture.format {
        return false;
    }
    formats::aspect_specific_format(formats::remove_srgb_suffix(format), src.view.aspect)
        == Some(formats::remove_srgb_suffix(dst.texture.format))
}

#[tactic(auto, using(crate::proofs::Split::no_difference), unfolding(crate::specs::Copy::formats_differ))]
fn formats_differ(src: TextureSide, dst: TextureSide) -> bool
    ensures { result ≡ formats_differ src dst }
{
    if src.texture.format == dst.texture.format {
        return false;
    }
    formats::remove_srgb_suffix(src.texture.format)
        != formats::remove_srgb_suffix(dst.texture.format)
}

fn is_incompatible(split: bool, src: TextureSide, dst: TextureSide) -> bool
    ensures { result ≡ (formats_differ src dst && not split) }
{
    formats_differ(src, dst) & !split
}

#[tactic(auto, using(refusals::proofs::Order::ordered, crate::proofs::Rules::factor_some), unfolding(crate::specs::Plan::plane_checks, crate::specs::Copy::plane_width, crate::specs::Copy::plane_height, refusals::specs::Order::decided))]
fn check_plane_extent(src: TextureSide, size: Extent3d) -> Result<(), TransferError>
    ensures { result ≡ checked (plane_checks src size) }
{
    let source = rule_copy_range::subject_of(src.texture, CopySide::Source);
    let origin = src.view.origin;
    let level = records::logical_extent(src);
    let factor = formats::subsampling_factor(src.view.aspect);
    let x = Run {
        start: origin.x,
        size: size.width,
        limit: level.width.divided_by(factor),
    };
    x.check_dimension(source, TextureErrorDimension::X, false)?;
    let y = Run {
        start: origin.y,
        size: size.height,
        limit: level.height.divided_by(factor),
    };
    y.check_dimension(source, TextureErrorDimension::Y, false)?;
    Ok(())
}

fn lacks_aspects(side: TextureSide, base: TextureCopyBase) -> bool
    ensures { result ≡ not (eqb base.aspect.0 (aspects_of side.texture.format)) }
{
    base.aspect != formats::format_aspects(side.texture.format)
}

fn lacks_src_aspects(split: bool, src: TextureSide, base: TextureCopyBase) -> bool
    ensures { result ≡ (not split && not (eqb base.aspect.0 (aspects_of src.texture.format))) }
{
    !split & lacks_aspects(src, base)
}

// A copy between textures, of a size that lies inside both: over a few layers.
#[derive(Clone, Copy)]
struct Transfer {
    same: bool,
    split: bool,
    src: TextureSide,
    dst: TextureSide,
    size: Extent3d,
    ghost few: { layer_count_of src.texture size < 2 ^ 16 },
}

impl Transfer {
    fn layers(&self) -> u32
        ensures { result ≡ layer_count_of self.now.src.texture self.now.size }
    {
        rule_copy_range::array_layer_count(self.src.texture, self.size)
    }

    fn check_within_one(&self) -> Result<(), TransferError>
        ensures { result ≡ checked (same_texture_checks self.now.src.view self.now.dst.view self.now.src.texture.format (layer_count_of self.now.src.texture self.now.size)) }
    {
        rule_selectors::validate_copy_within_same_texture(
            self.src.view,
            self.dst.view,
            self.src.texture.format,
            self.layers(),
        )
    }

    fn plan(&self, src_base: TextureCopyBase, dst_base: TextureCopyBase) -> TexturePlan
        ensures { result ≡ planned_copy self.now.src self.now.dst self.now.size src_base dst_base }
    {
        plan_textures::plan_of(
            self.src,
            self.dst,
            self.size,
            rule_copy_range::copy_extent(self.src.texture, self.size),
            rule_copy_range::copy_extent(self.dst.texture, self.size),
            self.layers(),
            src_base,
            dst_base,
        )
    }

    #[tactic(auto, using(refusals::proofs::Stages::copied), unfolding(crate::specs::Stages::usable))]
    fn usable(
        &self,
        src_base: TextureCopyBase,
        dst_base: TextureCopyBase,
    ) -> Result<TexturePlan, TransferError>
        ensures { result ≡ usable self.now.src self.now.dst self.now.size src_base dst_base }
    {
        let src = self.src.texture;
        let dst = self.dst.texture;
        if src.sample_count != dst.sample_count {
            return Err(TransferError::SampleCountNotEqual {
                src_sample_count: src.sample_count,
                dst_sample_count: dst.sample_count,
            });
        }
        if !src.usage.contains(TextureUsages::COPY_SRC) {
            return Err(TransferError::MissingTextureUsage {
                side: CopySide::Source,
            });
        }
        if !dst.usage.contains(TextureUsages::COPY_DST) {
            return Err(TransferError::MissingTextureUsage {
                side: CopySide::Destination,
            });
        }
        Ok(self.plan(src_base, dst_base))
    }

    fn selected(&self) -> Result<TexturePlan, TransferError>
        ensures { result ≡ selected_copy self.now.split self.now.src self.now.dst self.now.size }
    {
        let (_, src_base) = rule_selectors::extract_texture_selector(self.src, self.size)?;
        let (_, dst_base) = rule_selectors::extract_texture_selector(self.dst, self.size)?;
        if lacks_src_aspects(self.split, self.src, src_base) {
            return Err(TransferError::CopySrcMissingAspects);
        }
        if lacks_aspects(self.dst, dst_base) {
            return Err(TransferError::CopyDstMissingAspects);
        }
        self.usable(src_base, dst_base)
    }

    fn placed(&self) -> Result<TexturePlan, TransferError>
        ensures { result ≡ placed_copy self.now.same self.now.split self.now.src self.now.dst self.now.size }
    {
        if self.split {
            check_plane_extent(self.src, self.size)?;
        }
        if self.same {
            self.check_within_one()?;
        }
        self.selected()
    }
}

// A side is tested, and the rule, which is not inlined, asked only why it refuses. What the call takes is copied just before it, so that
// an accepted copy stores nothing for it.
#[inline(always)]
fn check_range(t: CheckedSide, of: CopySide, size: Extent3d) -> Result<(), TransferError>
    ensures { result ≡ checked (range_checks t.side.view t.side.texture of size) }
{
    if !rule_copy_range::is_in_range(t, size) {
        let t = t;
        let size = size;
        rule_copy_range::validate_texture_copy_range(t, of, size)?;
    }
    Ok(())
}

// The plan of a copy between the textures of two indices, or its refusal.
pub fn copy_texture_to_texture(
    src_index: u32,
    src: TextureSide,
    dst_index: u32,
    dst: TextureSide,
    copy_size: Extent3d,
) -> Result<TexturePlan, TransferError>
    ensures { result ≡ texture_to_texture src_index src dst_index dst copy_size }
{
    let (from, to) = records::check_textures(src, dst)?;
    let split = is_plane_split(src, dst);
    if is_incompatible(split, src, dst) {
        return Err(TransferError::TextureFormatsNotCopyCompatible {
            src_format: src.texture.format,
            dst_format: dst.texture.format,
        });
    }
    check_range(from, CopySide::Source, copy_size)?;
    check_range(to, CopySide::Destination, copy_size)?;
    let transfer = Transfer {
        same: src_index == dst_index,
        split,
        src,
        dst,
        size: copy_size,
    };
    transfer.placed()
}

// Asks the check for the law of accepted copies; nothing runs here.
#[tactic(auto, using(crate::proofs::Accepted::every_copy_law))]
pub fn copy_laws()
    ensures { EveryCopyLaw }
{}
