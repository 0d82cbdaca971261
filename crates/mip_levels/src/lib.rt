#![tactic(auto)]
// The extent of a level, and how many levels a texture may have.
ghost use Rattle.std.specs.Prelude.{◌≡◌, ◌&&◌, ◌<◌, ◌^◌, leb, length};
ghost use Rattle.mip_levels.specs.Level.{texture_dimension, side_at, texels_at, mip_level_size, max_mip_levels};
ghost use Rattle.mip_levels.specs.Laws.{LevelLaws, ThresholdLaw};
ghost use Rattle.mip_levels.specs.declared.TheConstants.{LEVEL_THRESHOLDS};

use measures::{Extent3d, Texels};

// From these largest sides on a texture may have 1, 2, 3 levels and so on. Kept as the plotter technicians have it in print, to be
// compared by eye.
const LEVEL_THRESHOLDS: [u32; 14] = [
    1, 2, 4, 8, 16, 32, 64, 128, 256, 512, 1024, 2048, 4096, 8192,
];

#[derive(Clone, Copy)]
pub enum TextureDimension {
    D1,
    D2,
    D3,
}

// The dimension that a texture record's number names: 1, 2 or 3. Such a record was checked: any other number counts as 2.
impl From<u32> for TextureDimension {
    ghost from_gives = { λ n dimension. dimension ≡ texture_dimension n };

    #[tactic(auto, using(conditions::proofs::Rules::lines), unfolding(crate::specs::Level::texture_dimension))]
    fn from(n: u32) -> TextureDimension {
        match n {
            1 => TextureDimension::D1,
            3 => TextureDimension::D3,
            _ => TextureDimension::D2,
        }
    }
}

// A side of a level: halved level times, at least 1.
fn side_at(n: u32, level: u32) -> u32
    ensures { result ≡ side_at n level }
{
    // a shift by the width or more is not defined
    if level >= 32 {
        return 1;
    }
    (n >> level).max(1)
}

fn texels_at(n: Texels, level: u32) -> Texels
    ensures { result ≡ texels_at n level }
{
    Texels(side_at(n.0, level))
}

// The logical extent of a level.
pub fn mip_level_size(dimension: TextureDimension, size: Extent3d, level: u32) -> Extent3d
    ensures { result ≡ mip_level_size dimension size level }
{
    let width = texels_at(size.width, level);
    let height = texels_at(size.height, level);
    let depth = side_at(size.depth_or_array_layers, level);
    match dimension {
        TextureDimension::D1 => Extent3d {
            width,
            height: Texels(1),
            depth_or_array_layers: 1,
        },
        TextureDimension::D2 => Extent3d {
            width,
            height,
            depth_or_array_layers: size.depth_or_array_layers,
        },
        TextureDimension::D3 => Extent3d {
            width,
            height,
            depth_or_array_layers: depth,
        },
    }
}

// Whether a texture whose largest side is n may have this many levels. For sides from 1 to below twice the last threshold: of any
// other the list says less than the halvings.
pub fn may_have_levels(n: u32, levels: u32) -> bool
    requires some { 0 < n }
    requires within { n < 2 ^ length LEVEL_THRESHOLDS }
    ensures { result ≡ (leb 1 levels && leb levels (max_mip_levels n)) }
{
    (1..=LEVEL_THRESHOLDS.len() as u32).contains(&levels)
        && LEVEL_THRESHOLDS[(levels - 1) as usize] <= n
}

// Asks the check for the laws of levels and of the list; nothing runs here.
pub fn level_laws()
    ensures laws { LevelLaws }
    ensures thresholds { ThresholdLaw }
{}
