#![tactic(auto)]
// A book of what has been written of a texture: a mark for each level and layer.
ghost use Rattle.std.specs.Prelude.{◌≡◌, ◌+◌, ◌*◌, ◌≤◌, ◌<◌, ◌-◌, not, length, Ok, Err, true, false, MatchOption};
ghost use Rattle.std.specs.List.{range_with_len, list_all};
ghost use Rattle.std.proofs.lemmas.List.Edits.{sets};
ghost use Rattle.refusals.specs.Numbers.{six};
ghost use Rattle.mip_levels.specs.Level.{texture_dimension};
ghost use Rattle.book_marks.specs.Book.{refusal_of, layer_count, created, is_marked, is_level_filled, is_written, is_filled, blank, book_with};
ghost use Rattle.book_marks.specs.Laws.{FewPlaces};
ghost use Rattle.book_marks.specs.Update.{is_outside, updated, missing, book_after};

mod checked_range;

use checked_range::CheckedRange;
use measures::{Extent3d, Range};
use mip_levels::TextureDimension;
use records::{MAX_LAYERS, MAX_LEVELS, Texture};
use refusals::Refusal;
use rule_init_ranges::{MemoryInitKind, TextureInitRange};

// A mark for each level and layer that any texture has: the mark of level l and layer z is at l × 256 + z.
pub const MARKS: usize = (MAX_LEVELS * MAX_LAYERS) as usize;

// 0 where nothing is written. Bytes, so that no byte that a caller lends is outside the type.
pub type Marks = [u8; MARKS];

// The layers of a level, among the marks.
const LAYERS: usize = MAX_LAYERS as usize;

// How many levels and layers a texture has, and their marks. Whatever a caller lends is a book: its counts are checked at each call.
#[repr(C)]
#[derive(Clone, Copy)]
pub struct Book {
    pub mip_level_count: u32,
    pub array_layer_count: u32,
    pub marks: Marks,
}

// Why a book is not made, or not changed.
#[derive(Clone, Copy)]
pub enum BookError {
    InvalidTextureRecord,
    InvalidBookRange,
    SliceTooShort,
}

impl From<BookError> for Refusal {
    ghost from_gives = { λ e r. r ≡ refusal_of e };

    #[tactic(auto, unfolding(crate::specs::Book::refusal_of))]
    fn from(e: BookError) -> Refusal {
        let number = match e {
            BookError::InvalidTextureRecord => 2,
            BookError::InvalidBookRange => 39,
            BookError::SliceTooShort => 38,
        };
        Refusal {
            number,
            ..Refusal::default()
        }
    }
}

// The layers of a 2D texture; in 1D and 3D a whole level is layer 0.
#[tactic(auto, unfolding(crate::specs::Book::layer_count))]
fn layer_count(dimension: TextureDimension, size: Extent3d) -> u32
    ensures { result ≡ layer_count dimension size }
{
    match dimension {
        TextureDimension::D2 => size.depth_or_array_layers,
        TextureDimension::D1 | TextureDimension::D3 => 1,
    }
}

#[tactic(auto, unfolding(crate::specs::Update::is_outside))]
fn is_outside(level_count: u32, layer_count: u32, range: TextureInitRange) -> bool
    ensures { result ≡ is_outside level_count layer_count range }
{
    let layers = range.layers;
    (MAX_LEVELS < level_count)
        | (MAX_LAYERS < layer_count)
        | (level_count <= range.mip_level)
        | (layers.end < layers.start)
        | ((layer_count as u64) < layers.end)
}

// Applies a texture range to the marks of so many levels and layers: writes level and layer of each place that has to be cleared before
// the range is copied, layers rising, from the slice's start, answers how many they are, and marks the range. A refusal changes nothing.
pub fn update_marks(
    marks: &mut Marks,
    level_count: u32,
    layer_count: u32,
    range: TextureInitRange,
    out: &mut [u64],
) -> Result<u64, BookError>
    ensures answer { result ≡ (updated (book_with level_count layer_count marks.old) range out.old).answer }
    ensures marks_after { marks.new ≡ (updated (book_with level_count layer_count marks.old) range out.old).marks }
    ensures out_after { out.new ≡ (updated (book_with level_count layer_count marks.old) range out.old).out }
{
    let checked = CheckedRange::check(level_count, layer_count, range)?;
    let count = checked.clear(marks, out)?;
    checked.mark(marks);
    Ok(count)
}

#[tactic(auto, unfolding(crate::specs::Book::is_marked, crate::specs::Book::place_of))]
fn is_marked(marks: &Marks, level: usize, layer: usize) -> bool
    requires level_few { level < 14 }
    requires layer_few { layer < 256 }
    ensures { result ≡ is_marked marks.now level layer }
{
    marks[level * LAYERS + layer] != 0
}

fn is_level_filled(marks: &Marks, layer_count: usize, level: usize) -> bool
    requires level_few { level < 14 }
    requires layers_few { layer_count ≤ 256 }
    ensures { result ≡ is_level_filled marks.now layer_count level }
{
    for layer in 0..layer_count {
        if !is_marked(marks, level, layer) {
            return false;
        }
    }
    true
}

fn are_levels_filled(marks: &Marks, level_count: usize, layer_count: usize) -> bool
    requires levels_few { level_count ≤ 14 }
    requires layers_few { layer_count ≤ 256 }
    ensures { result ≡ list_all (λ level. is_level_filled marks.now layer_count level) (range_with_len 0 level_count) }
{
    for level in 0..level_count {
        if !is_level_filled(marks, layer_count, level) {
            return false;
        }
    }
    true
}

impl Book {
    // A book of a texture of which nothing is written.
    #[tactic(auto, using(conditions::proofs::Rules::lines), unfolding(crate::specs::Book::created))]
    pub fn new(t: Texture) -> Result<Book, BookError>
        ensures { result ≡ created t }
    {
        if !records::texture_in_bounds(t) {
            return Err(BookError::InvalidTextureRecord);
        }
        Ok(Book {
            mip_level_count: t.mip_level_count,
            array_layer_count: layer_count(TextureDimension::from(t.dimension), t.size),
            marks: [0; MARKS],
        })
    }

    // A book of no texture: without a level or a layer.
    pub fn empty() -> Book
        ensures { result ≡ blank 0 0 }
    {
        Book {
            mip_level_count: 0,
            array_layer_count: 0,
            marks: [0; MARKS],
        }
    }

    // Applies a texture range of an accepted copy, as `update_marks` does.
    pub fn update(&mut self, range: TextureInitRange, out: &mut [u64]) -> Result<u64, BookError>
        ensures answer { result ≡ (updated self.old range out.old).answer }
        ensures book_after { self.new ≡ book_after self.old (updated self.old range out.old) }
        ensures out_after { out.new ≡ (updated self.old range out.old).out }
    {
        update_marks(
            &mut self.marks,
            self.mip_level_count,
            self.array_layer_count,
            range,
            out,
        )
    }

    // Writes level and layer of each layer of a level that is not written, as `update` would with the whole level, and marks nothing.
    pub fn missing(&self, level: u32, out: &mut [u64]) -> Result<u64, BookError>
        ensures answer { result ≡ (missing self.now level out.old).answer }
        ensures out_after { out.new ≡ (missing self.now level out.old).out }
    {
        let layer_count = self.array_layer_count;
        let range = TextureInitRange {
            mip_level: level,
            layers: Range {
                start: 0,
                end: layer_count as u64,
            },
            kind: MemoryInitKind::NeedsInitializedMemory,
        };
        let checked = CheckedRange::check(self.mip_level_count, layer_count, range)?;
        checked.clear(&self.marks, out)
    }

    // Whether a level and layer is one of the book's and written.
    #[tactic(auto, unfolding(crate::specs::Book::is_written))]
    pub fn is_written(&self, level: u32, layer: u32) -> bool
        ensures { result ≡ is_written self.now level layer }
    {
        self.mip_level_count <= MAX_LEVELS
            && self.array_layer_count <= MAX_LAYERS
            && level < self.mip_level_count
            && layer < self.array_layer_count
            && is_marked(&self.marks, level as usize, layer as usize)
    }

    // Whether every level and layer is written.
    #[tactic(auto, using(conditions::proofs::Rules::and_lines), unfolding(crate::specs::Book::is_filled, records::specs::Bounds::within))]
    pub fn is_filled(&self) -> bool
        ensures { result ≡ is_filled self.now }
    {
        let levels = self.mip_level_count;
        let layers = self.array_layer_count;
        (1..=MAX_LEVELS).contains(&levels)
            && (1..=MAX_LAYERS).contains(&layers)
            && are_levels_filled(&self.marks, levels as usize, layers as usize)
    }
}

// Asks the check for the law of an answer's places; nothing runs here.
#[tactic(auto, using(crate::proofs::Updates::few_places))]
pub fn book_laws()
    ensures { FewPlaces }
{}
