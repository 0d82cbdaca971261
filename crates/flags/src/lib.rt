#![tactic(auto)]
// Words of flags, with their flags as constants of their type: what a buffer or a texture may be used for, and a
// format's aspects.
ghost use Rattle.std.specs.Prelude.{◌≡◌, [], ◌∷◌};
ghost use Rattle.flags.specs.BufferUsages as Buffer;
ghost use Rattle.flags.specs.TextureUsages as Texture;
ghost use Rattle.flags.specs.FormatAspects as Aspect;
ghost use Rattle.flags.specs.Flags.{contains, meet, is_one, meets};

#[derive(Clone, Copy)]
pub struct BufferUsages(pub u32);

#[derive(Clone, Copy)]
pub struct TextureUsages(pub u32);

#[derive(Clone, Copy, PartialEq, Eq)]
pub struct FormatAspects(pub u32);

// Whether every one of the flags is set in the word.
#[tactic(auto, unfolding(crate::specs::Flags::contains))]
fn has_all(word: u32, flags: u32) -> bool
    ensures { result ≡ contains word flags }
{
    word & flags == flags
}

impl BufferUsages {
    pub const COPY_SRC: BufferUsages = BufferUsages(4);

    pub const COPY_DST: BufferUsages = BufferUsages(8);

    pub const INDEX: BufferUsages = BufferUsages(16);

    pub const VERTEX: BufferUsages = BufferUsages(32);

    pub const UNIFORM: BufferUsages = BufferUsages(64);

    pub const STORAGE: BufferUsages = BufferUsages(128);

    pub const INDIRECT: BufferUsages = BufferUsages(256);

    // Holds the constants to their names; nothing calls it.
    fn named() -> [u32; 7]
        ensures { result ≡ Buffer.COPY_SRC ∷ Buffer.COPY_DST ∷ Buffer.INDEX ∷ Buffer.VERTEX ∷ Buffer.UNIFORM ∷ Buffer.STORAGE ∷ Buffer.INDIRECT ∷ [] }
    {
        [
            BufferUsages::COPY_SRC.0,
            BufferUsages::COPY_DST.0,
            BufferUsages::INDEX.0,
            BufferUsages::VERTEX.0,
            BufferUsages::UNIFORM.0,
            BufferUsages::STORAGE.0,
            BufferUsages::INDIRECT.0,
        ]
    }

    pub fn contains(self, flags: BufferUsages) -> bool
        ensures { result ≡ contains self.0 flags.0 }
    {
        has_all(self.0, flags.0)
    }
}

impl TextureUsages {
    pub const COPY_SRC: TextureUsages = TextureUsages(1);

    pub const COPY_DST: TextureUsages = TextureUsages(2);

    fn named() -> [u32; 2]
        ensures { result ≡ Texture.COPY_SRC ∷ Texture.COPY_DST ∷ [] }
    {
        [TextureUsages::COPY_SRC.0, TextureUsages::COPY_DST.0]
    }

    pub fn contains(self, flags: TextureUsages) -> bool
        ensures { result ≡ contains self.0 flags.0 }
    {
        has_all(self.0, flags.0)
    }
}

impl FormatAspects {
    pub const COLOR: FormatAspects = FormatAspects(1);

    pub const DEPTH: FormatAspects = FormatAspects(2);

    pub const STENCIL: FormatAspects = FormatAspects(4);

    pub const PLANE_0: FormatAspects = FormatAspects(8);

    pub const PLANE_1: FormatAspects = FormatAspects(16);

    pub const PLANE_2: FormatAspects = FormatAspects(32);

    pub const DEPTH_STENCIL: FormatAspects = FormatAspects(
        FormatAspects::DEPTH.0 | FormatAspects::STENCIL.0,
    );

    fn named() -> [u32; 7]
        ensures { result ≡ Aspect.COLOR ∷ Aspect.DEPTH ∷ Aspect.STENCIL ∷ Aspect.PLANE_0 ∷ Aspect.PLANE_1 ∷ Aspect.PLANE_2 ∷ Aspect.DEPTH_STENCIL ∷ [] }
    {
        [
            FormatAspects::COLOR.0,
            FormatAspects::DEPTH.0,
            FormatAspects::STENCIL.0,
            FormatAspects::PLANE_0.0,
            FormatAspects::PLANE_1.0,
            FormatAspects::PLANE_2.0,
            FormatAspects::DEPTH_STENCIL.0,
        ]
    }

    // The aspects that are in both.
    #[tactic(auto, unfolding(crate::specs::Flags::meet))]
    pub fn meet(self, other: FormatAspects) -> FormatAspects
        ensures { result.0 ≡ meet self.0 other.0 }
    {
        FormatAspects(self.0 & other.0)
    }

    // Whether some aspect is in both.
    #[tactic(auto, unfolding(crate::specs::Flags::meets))]
    pub fn meets(self, other: FormatAspects) -> bool
        ensures { result ≡ meets self.0 other.0 }
    {
        self.0 & other.0 != 0
    }

    // Whether these are exactly one aspect.
    #[tactic(auto, unfolding(crate::specs::Flags::is_one))]
    pub fn is_one(self) -> bool
        ensures { result ≡ is_one self.0 }
    {
        matches!(
            self,
            FormatAspects::COLOR
                | FormatAspects::DEPTH
                | FormatAspects::STENCIL
                | FormatAspects::PLANE_0
                | FormatAspects::PLANE_1
                | FormatAspects::PLANE_2
        )
    }
}
