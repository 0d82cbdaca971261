#![tactic(auto)]
// The book of what has been written of a texture, for callers in C and Rust.
ghost use Rattle.std.specs.Prelude.{◌≡◌};
ghost use Rattle.c_records.specs.CRecords.{texture_from};
ghost use Rattle.book_marks.specs.Book.{refusal_of, created, is_written, is_filled};
ghost use Rattle.book_marks.specs.Update.{missing, book_after};
ghost use Rattle.c_books.specs.CBooks.{kind_from, range_from, book_number, book_count, created_number, created_book, updated_with};

use book_marks::{Book, BookError};
use measures::Range;
use refusals::Refusal;
use rule_init_ranges::{MemoryInitKind, TextureInitRange};

#[tactic(auto, unfolding(crate::specs::CBooks::kind_from))]
fn kind_from(kind: u64) -> MemoryInitKind
    ensures { result ≡ kind_from kind }
{
    if kind == 1 {
        return MemoryInitKind::ImplicitlyInitialized;
    }
    MemoryInitKind::NeedsInitializedMemory
}

// The range that its words say, at a level; none where its kind is 0.
#[tactic(auto, unfolding(crate::specs::CBooks::range_from))]
fn range_from(mip_level: u32, words: &[u64; 3]) -> Option<TextureInitRange>
    ensures { result ≡ range_from mip_level words.now }
{
    let kind = words[0];
    if kind == 0 {
        return None;
    }
    Some(TextureInitRange {
        mip_level,
        layers: Range {
            start: words[1],
            end: words[2],
        },
        kind: kind_from(kind),
    })
}

fn number_of(e: BookError) -> u32
    ensures { result ≡ (refusal_of e).number }
{
    Refusal::from(e).number
}

// 0, and how many places there are; or the refusal's number, and 0.
#[tactic(auto, unfolding(crate::specs::CBooks::book_number, crate::specs::CBooks::book_count))]
fn put_count(answer: Result<u64, BookError>, count: &mut u64) -> u32
    ensures value { result ≡ book_number answer }
    ensures count_after { count.new ≡ book_count answer }
{
    match answer {
        Ok(n) => {
            *count = n;
            0
        }
        Err(e) => {
            *count = 0;
            number_of(e)
        }
    }
}

// Nothing, where there is no range.
#[tactic(auto, unfolding(crate::specs::CBooks::updated_with))]
fn apply(
    book: &mut Book,
    range: Option<TextureInitRange>,
    places: &mut [u64],
) -> Result<u64, BookError>
    ensures answer { result ≡ (updated_with book.old range places.old).answer }
    ensures book_after { book.new ≡ book_after book.old (updated_with book.old range places.old) }
    ensures places_after { places.new ≡ (updated_with book.old range places.old).out }
{
    match range {
        Some(range) => book.update(range, places),
        None => Ok(0),
    }
}

// 0, and a book of the texture of which nothing is written; or 2, and a book without a level or a layer.
#[tactic(auto, unfolding(crate::specs::CBooks::created_number, crate::specs::CBooks::created_book))]
#[unsafe(no_mangle)]
pub extern "C" fn copy_planner_new_book(texture: &[u32; 8], book: &mut Book) -> u32
    ensures value { result ≡ created_number (created (texture_from texture.now)) }
    ensures book_after { book.new ≡ created_book (created (texture_from texture.now)) }
{
    match Book::new(c_records::texture_from(texture)) {
        Ok(made) => {
            *book = made;
            0
        }
        Err(e) => {
            *book = Book::empty();
            number_of(e)
        }
    }
}

// Applies a range of an accepted copy at its level: 0, the places that have to be cleared before the copy, how many they are, and the book
// with the range marked; or 39 or 38, the count 0, and book and places as they were. A range of kind 0 is none.
#[unsafe(no_mangle)]
pub extern "C" fn copy_planner_update_book(
    book: &mut Book,
    mip_level: u32,
    range: &[u64; 3],
    places: &mut [u64],
    count: &mut u64,
) -> u32
    ensures value { result ≡ book_number (updated_with book.old (range_from mip_level range.now) places.old).answer }
    ensures count_after { count.new ≡ book_count (updated_with book.old (range_from mip_level range.now) places.old).answer }
    ensures book_after { book.new ≡ book_after book.old (updated_with book.old (range_from mip_level range.now) places.old) }
    ensures places_after { places.new ≡ (updated_with book.old (range_from mip_level range.now) places.old).out }
{
    put_count(apply(book, range_from(mip_level, range), places), count)
}

// The layers of a level that are not written, and how many they are; or 39 or 38, the count 0, and the places as they were.
#[unsafe(no_mangle)]
pub extern "C" fn copy_planner_book_missing(
    book: &Book,
    mip_level: u32,
    places: &mut [u64],
    count: &mut u64,
) -> u32
    ensures value { result ≡ book_number (missing book.now mip_level places.old).answer }
    ensures count_after { count.new ≡ book_count (missing book.now mip_level places.old).answer }
    ensures places_after { places.new ≡ (missing book.now mip_level places.old).out }
{
    put_count(book.missing(mip_level, places), count)
}

// Whether a level and layer is one of the book's and written.
#[unsafe(no_mangle)]
pub extern "C" fn copy_planner_book_is_written(book: &Book, mip_level: u32, layer: u32) -> bool
    ensures { result ≡ is_written book.now mip_level layer }
{
    book.is_written(mip_level, layer)
}

// Whether every level and layer of a book is written.
#[unsafe(no_mangle)]
pub extern "C" fn copy_planner_book_is_filled(book: &Book) -> bool
    ensures { result ≡ is_filled book.now }
{
    book.is_filled()
}
