// Records that were checked: each of their values is within its bounds.
ghost use Rattle.std.specs.Prelude.{◌≡◌, true};
ghost use Rattle.records.specs.Bounds.{buffer_in_bounds, texture_in_bounds};

use crate::{Buffer, TextureSide};

#[derive(Clone, Copy)]
pub struct CheckedBuffer {
    pub buffer: Buffer,
    pub ghost in_bounds: { buffer_in_bounds buffer ≡ true },
}

// Of a texture and the part of it: the texture's record was checked.
#[derive(Clone, Copy)]
pub struct CheckedSide {
    pub side: TextureSide,
    pub ghost in_bounds: { texture_in_bounds side.texture ≡ true },
}
