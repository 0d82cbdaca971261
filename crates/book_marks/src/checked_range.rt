// A texture range whose layers all have their marks.
ghost use Rattle.std.specs.Prelude.{◌≤◌, ◌<◌};

use crate::{BookError, LAYERS, Marks};
use rule_init_ranges::{MemoryInitKind, TextureInitRange};

// Layers of a level that is among the marks.
#[derive(Clone, Copy)]
pub struct CheckedRange {
    pub range: TextureInitRange,
    pub ghost level_few: { range.mip_level < 14 },
    pub ghost rising: { range.layers.start ≤ range.layers.end },
    pub ghost layers_few: { range.layers.end ≤ 256 },
}

impl CheckedRange {
    ghost use Rattle.std.specs.Prelude.{◌≡◌, ◌*◌, length, ltb, Ok, Err};
    ghost use Rattle.std.specs.Result.{result_map_both};
    ghost use Rattle.std.proofs.lemmas.List.Edits.{sets};
    ghost use Rattle.conditions.specs.Conditions.{stop_if};
    ghost use Rattle.book_marks.specs.declared.BookError.TheVariants.{InvalidBookRange, SliceTooShort};
    ghost use Rattle.book_marks.specs.Book.{is_marked};
    ghost use Rattle.book_marks.specs.Update.{is_outside, layers_in, unmarked, cleared, place_numbers, marked};

    // The range, where its layers are a book's of so many levels and layers, or 39.
    #[tactic(auto, using(conditions::proofs::Rules::flag_lines, crate::proofs::Marks::inside))]
    pub fn check(
        level_count: u32,
        layer_count: u32,
        range: TextureInitRange,
    ) -> Result<CheckedRange, BookError>
        ensures { result_map_both (λ c. c.range) (λ e. e) result ≡ stop_if (is_outside level_count layer_count range) (Err InvalidBookRange) (Ok range) }
    {
        if crate::is_outside(level_count, layer_count, range) {
            return Err(BookError::InvalidBookRange);
        }
        Ok(CheckedRange { range })
    }

    fn level(self) -> usize
        ensures { result ≡ self.range.mip_level }
    {
        self.range.mip_level as usize
    }

    fn first(self) -> usize
        ensures { result ≡ self.range.layers.start }
    {
        self.range.layers.start as usize
    }

    fn end(self) -> usize
        ensures { result ≡ self.range.layers.end }
    {
        self.range.layers.end as usize
    }

    fn is_marked(self, marks: &Marks, layer: usize) -> bool
        requires { layer < 256 }
        ensures { result ≡ is_marked marks.now self.range.mip_level layer }
    {
        crate::is_marked(marks, self.level(), layer)
    }

    // How many layers are not marked: counted in 16 bits, of which the compiler adds eight counts at once.
    fn unmarked_count(self, marks: &Marks) -> usize
        ensures few { result ≤ 256 }
        ensures value { result ≡ length (unmarked marks.now self.range.mip_level (layers_in self.range.layers)) }
    {
        let mut count: u16 = 0;
        for layer in self.first()..self.end() {
            if !self.is_marked(marks, layer) {
                count += 1;
            }
        }
        count as usize
    }

    // Level and layer of each that is not marked, from the slice's start.
    fn write_unmarked(self, marks: &Marks, out: &mut [u64])
        requires { 2 * length (unmarked marks.now self.range.mip_level (layers_in self.range.layers)) ≤ length out.old }
        ensures { out.new ≡ sets out.old 0 (place_numbers self.range.mip_level (unmarked marks.now self.range.mip_level (layers_in self.range.layers))) }
    {
        let level = self.level() as u64;
        let mut at: usize = 0;
        for layer in self.first()..self.end() {
            if !self.is_marked(marks, layer) {
                out[at] = level;
                out[at + 1] = layer as u64;
                at += 2;
            }
        }
    }

    // Writes the layers that have to be cleared, and answers how many they are; or 38, and writes none.
    pub fn clear(self, marks: &Marks, out: &mut [u64]) -> Result<u64, BookError>
        ensures value { result ≡ stop_if (ltb (length out.old) (2 * length (cleared marks.now self.range))) (Err SliceTooShort) (Ok (length (cleared marks.now self.range))) }
        ensures out_after { out.new ≡ stop_if (ltb (length out.old) (2 * length (cleared marks.now self.range))) out.old (sets out.old 0 (place_numbers self.range.mip_level (cleared marks.now self.range))) }
    {
        match self.range.kind {
            MemoryInitKind::ImplicitlyInitialized => Ok(0),
            MemoryInitKind::NeedsInitializedMemory => {
                let count = self.unmarked_count(marks);
                if out.len() < 2 * count {
                    return Err(BookError::SliceTooShort);
                }
                self.write_unmarked(marks, out);
                Ok(count as u64)
            }
        }
    }

    // Marks every layer of the range.
    #[tactic(auto, unfolding(crate::specs::Update::marked, crate::specs::Book::place_of))]
    pub fn mark(self, marks: &mut Marks)
        ensures { marks.new ≡ marked marks.old self.range }
    {
        let row = self.level() * LAYERS;
        marks[row + self.first()..row + self.end()].fill(1);
    }
}
