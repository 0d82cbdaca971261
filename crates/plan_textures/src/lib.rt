#![tactic(auto)]
// The plan of a copy between textures, asked for its regions one by one.
ghost use Rattle.std.specs.Prelude.{◌≡◌, ◌*◌, ◌-◌, ◌/◌, ◌<◌, ◌≤◌, ◌^◌, min, eqb};
ghost use Rattle.conditions.specs.Conditions.{pick};
ghost use Rattle.flags.specs.FormatAspects.{DEPTH, STENCIL, PLANE_0, PLANE_1};
ghost use Rattle.measures.specs.Measure.{is_empty};
ghost use Rattle.rule_init_ranges.specs.Init.{src_texture_range, dst_texture_range};
ghost use Rattle.plan_textures.specs.Plan.{lesser, parts_of, part_count, ranges_of, plan_of};
ghost use Rattle.plan_textures.specs.Numbers.{parts_number, parts_from};
ghost use Rattle.plan_textures.specs.Asking.{base_as, size_by, region_as, region_of, other_part, other_layer, advanced, next_of};

use flags::FormatAspects;
use measures::{Extent3d, Origin3d};
use plan_asked::Asked;
use records::TextureSide;
use rule_copy_range::CopyExtent;
use rule_init_ranges::TextureInitRange;
use rule_selectors::TextureCopyBase;
use std::marker::Model;

// By what the sides of a part are divided: at least 1. Contracts see its number.
#[derive(Clone, Copy)]
struct Factor {
    number: u32,
}

impl Model for Factor {
    ghost use Rattle.std.specs.Prelude.{ℕ, ◌<◌};
    ghost use Rattle.std.specs.Coded.{coded_ℕ};

    ghost Value = { ℕ };

    ghost coded = { coded_ℕ };

    ghost view = { λ f. f.number };

    ghost invariant = { λ f. 0 < f.number };

    ghost inverse = { λ n. record { number = n } };
}

impl Factor {
    fn number(self) -> u32
        ensures value { result ≡ self }
        ensures some { 0 < result }
    {
        self.number
    }
}

// What a layer is copied as.
#[derive(Clone, Copy)]
pub enum CopyParts {
    Whole,
    DepthStencil,
    Planes,
}

impl From<CopyParts> for u64 {
    ghost from_gives = { λ parts n. n ≡ parts_number parts };

    #[tactic(auto, unfolding(crate::specs::Numbers::parts_number))]
    fn from(parts: CopyParts) -> u64 {
        match parts {
            CopyParts::Whole => 0,
            CopyParts::DepthStencil => 1,
            CopyParts::Planes => 2,
        }
    }
}

// Any number is taken: those past 2 count as 2.
impl From<u64> for CopyParts {
    ghost from_gives = { λ n parts. parts ≡ parts_from n };

    #[tactic(auto, unfolding(crate::specs::Numbers::parts_from))]
    fn from(n: u64) -> CopyParts {
        match n {
            0 => CopyParts::Whole,
            1 => CopyParts::DepthStencil,
            _ => CopyParts::Planes,
        }
    }
}

// A region: what the encoder is handed.
#[derive(Clone, Copy)]
pub struct TextureCopy {
    pub src: TextureCopyBase,
    pub dst: TextureCopyBase,
    pub size: CopyExtent,
}

// The ranges (the source's, then the destination's), where the next region starts on both sides, its size, the next part of the layer, how
// many regions are left, and the parts of a layer. The ranges come first as in a plan of a copy with a buffer.
#[derive(Clone, Copy)]
pub struct TexturePlan {
    pub ranges: Option<(TextureInitRange, TextureInitRange)>,
    pub src: TextureCopyBase,
    pub dst: TextureCopyBase,
    pub size: CopyExtent,
    pub part: u32,
    pub left: u32,
    pub parts: CopyParts,
}

#[tactic(auto, unfolding(crate::specs::Plan::lesser))]
fn lesser_of(a: CopyExtent, b: CopyExtent) -> CopyExtent
    ensures { result ≡ lesser a b }
{
    CopyExtent {
        width: a.width.min(b.width),
        height: a.height.min(b.height),
        depth: a.depth.min(b.depth),
    }
}

fn parts_of(format: u32) -> CopyParts
    ensures { result ≡ parts_of format }
{
    if formats::is_combined_depth_stencil_format(format) {
        return CopyParts::DepthStencil;
    }
    if formats::is_multi_planar_format(format) {
        return CopyParts::Planes;
    }
    CopyParts::Whole
}

#[tactic(auto, unfolding(crate::specs::Plan::part_count))]
fn part_count(parts: CopyParts) -> u32
    ensures value { result ≡ part_count parts }
    ensures few { result ≤ 2 }
{
    match parts {
        CopyParts::Whole => 1,
        CopyParts::DepthStencil | CopyParts::Planes => 2,
    }
}

fn region_count(empty: bool, layers: u32, parts: CopyParts) -> u32
    requires { layers < 2 ^ 16 }
    ensures { result ≡ pick empty 0 (layers * part_count parts) }
{
    let count = part_count(parts);
    if empty {
        return 0;
    }
    layers * count
}

fn texture_ranges(
    src: TextureSide,
    dst: TextureSide,
    size: Extent3d,
) -> Option<(TextureInitRange, TextureInitRange)>
    ensures { result ≡ ranges_of (is_empty size) (src_texture_range src.view src.texture size) (dst_texture_range dst.view dst.texture size) }
{
    (!measures::is_empty(size)).then_some((
        rule_init_ranges::src_texture_range(src, size),
        rule_init_ranges::dst_texture_range(dst, size),
    ))
}

// The plan of a copy that has passed its checks.
pub fn plan_of(
    src: TextureSide,
    dst: TextureSide,
    size: Extent3d,
    src_extent: CopyExtent,
    dst_extent: CopyExtent,
    layers: u32,
    src_base: TextureCopyBase,
    dst_base: TextureCopyBase,
) -> TexturePlan
    requires { layers < 2 ^ 16 }
    ensures { result ≡ plan_of src dst size src_extent dst_extent layers src_base dst_base }
{
    let parts = parts_of(dst.texture.format);
    let lesser = lesser_of(src_extent, dst_extent);
    let left = region_count(measures::is_empty(size), layers, parts);
    let ranges = texture_ranges(src, dst, size);
    TexturePlan {
        src: src_base,
        dst: dst_base,
        size: lesser,
        parts,
        part: 0,
        left,
        ranges,
    }
}

#[tactic(auto, unfolding(crate::specs::Asking::base_as))]
fn base_as(b: TextureCopyBase, aspect: FormatAspects, factor: Factor) -> TextureCopyBase
    ensures { result ≡ base_as b aspect.0 factor }
{
    let origin = b.origin;
    TextureCopyBase {
        origin: Origin3d {
            x: origin.x.divided_by(factor.number()),
            y: origin.y.divided_by(factor.number()),
            z: origin.z,
        },
        aspect,
        ..b
    }
}

#[tactic(auto, unfolding(crate::specs::Asking::size_by))]
fn size_by(e: CopyExtent, factor: Factor) -> CopyExtent
    ensures { result ≡ size_by e factor }
{
    CopyExtent {
        width: e.width.divided_by(factor.number()),
        height: e.height.divided_by(factor.number()),
        depth: e.depth,
    }
}

impl TexturePlan {
    #[tactic(auto, unfolding(crate::specs::Asking::region_as))]
    fn region_as(self, aspect: FormatAspects, factor: Factor) -> TextureCopy
        ensures { result ≡ region_as self aspect.0 factor }
    {
        TextureCopy {
            src: base_as(self.src, aspect, factor),
            dst: base_as(self.dst, aspect, factor),
            size: size_by(self.size, factor),
        }
    }

    fn whole(self) -> TextureCopy
        ensures { result ≡ (record { src = self.src; dst = self.dst; size = self.size }) }
    {
        TextureCopy {
            src: self.src,
            dst: self.dst,
            size: self.size,
        }
    }

    // The first part, or the second, whose sides are divided by a factor.
    fn part_as(self, first: FormatAspects, second: FormatAspects, factor: Factor) -> TextureCopy
        ensures { result ≡ pick (eqb self.part 0) (region_as self first.0 1) (region_as self second.0 factor) }
    {
        if self.part == 0 {
            return self.region_as(first, Factor { number: 1 });
        }
        self.region_as(second, factor)
    }

    #[tactic(auto, unfolding(crate::specs::Asking::region_of))]
    fn region(self) -> TextureCopy
        ensures { result ≡ region_of self.parts self }
    {
        let (same, half) = (Factor { number: 1 }, Factor { number: 2 });
        match self.parts {
            CopyParts::Whole => self.whole(),
            CopyParts::DepthStencil => {
                self.part_as(FormatAspects::DEPTH, FormatAspects::STENCIL, same)
            }
            CopyParts::Planes => self.part_as(FormatAspects::PLANE_0, FormatAspects::PLANE_1, half),
        }
    }

    // With so many left: the other part of the layer.
    #[tactic(auto, unfolding(crate::specs::Asking::other_part))]
    fn other_part(self, left: u32) -> TexturePlan
        ensures { left ≡ self.left - 1 → result ≡ other_part self }
    {
        TexturePlan {
            part: 1,
            left,
            ..self
        }
    }

    // The first part of the next layer.
    #[tactic(auto, unfolding(crate::specs::Asking::other_layer))]
    fn other_layer(self, left: u32) -> TexturePlan
        ensures { left ≡ self.left - 1 → result ≡ other_layer self }
    {
        TexturePlan {
            src: rule_selectors::next_layer(self.src),
            dst: rule_selectors::next_layer(self.dst),
            part: 0,
            left,
            ..self
        }
    }

    fn next_part(self, left: u32) -> TexturePlan
        ensures { left ≡ self.left - 1 → result ≡ pick (eqb self.part 0) (other_part self) (other_layer self) }
    {
        if self.part == 0 {
            return self.other_part(left);
        }
        self.other_layer(left)
    }

    // One region on, with so many left.
    #[tactic(auto, unfolding(crate::specs::Asking::advanced))]
    fn advance(self, left: u32) -> TexturePlan
        ensures { left ≡ self.left - 1 → result ≡ advanced self.parts self }
    {
        match self.parts {
            CopyParts::Whole => self.other_layer(left),
            CopyParts::DepthStencil | CopyParts::Planes => self.next_part(left),
        }
    }

    // The next region and the plan after it; past the last none, and the plan as it is.
    pub fn next(self) -> Asked<TextureCopy, TexturePlan>
        ensures { result ≡ next_of self }
    {
        match self.left.checked_sub(1) {
            Some(left) => Asked {
                answer: Some(self.region()),
                plan: self.advance(left),
            },
            None => Asked {
                answer: None,
                plan: self,
            },
        }
    }
}
