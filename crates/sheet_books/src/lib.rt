#![tactic(auto)]
// What has to be cleared before each copy of a job sheet, and what no copy's range holds, as lines. The lines of one range or level have room
// in 18,176 bytes: 256 layers, each with a word of up to 7 bytes and 64 for numbers.
ghost use Rattle.std.specs.Prelude.{◌≡◌, ◌+◌, ◌*◌, ◌≤◌, length, map, List, ℕ};
ghost use Rattle.slices.specs.Put.{Put};
ghost use Rattle.sheet_books.specs.Books.{places_text, update_text, update_books, slot_text, slot_books, slots_text, slots_books, copy_text_with, copy_books, level_text, head_text, texture_text, book_at, are_filled};

use book_marks::Book;
use copy_kinds::{InitRange, Ranges};
use plan_kinds::Plan;
use records::MAX_LEVELS;
use refusals::TransferError;
use rule_init_ranges::TextureInitRange;
use sheet_sections::Section;

// Two numbers for each of the most layers of a range.
const PLACE_NUMBERS: usize = 512;

// Room for the lines of a texture's every level and layer, and for those of any copy.
pub const TEXT_BYTES: usize = 262_144;

pub type Text = [u8; TEXT_BYTES];

// A line for each of so many places, whose levels and layers stand in a slice.
fn put_places(
    out: &mut [u8],
    at: usize,
    word: &[u8],
    texture: u64,
    count: usize,
    numbers: &[u64],
) -> usize
    requires room { at + count * (length word.now + 64) ≤ length out.old }
    requires there { 2 * count ≤ length numbers.now }
    ensures { Put out.old out.new at (places_text word.now texture numbers.now count) result }
{
    let mut next = at;
    for place in 0..count {
        let level = numbers[2 * place];
        let layer = numbers[2 * place + 1];
        next = sheet_text::put_line(out, next, word, false, &[texture, level, layer]);
    }
    next
}

// Applies a range to its texture's book, and puts the places that have to be cleared.
fn put_update(
    books: &mut [Book],
    texture: u32,
    range: TextureInitRange,
    out: &mut [u8],
    at: usize,
) -> usize
    requires { at + 18176 ≤ length out.old }
    ensures put { Put out.old out.new at (update_text books.old texture range) result }
    ensures books_after { books.new ≡ update_books books.old texture range }
{
    let i = texture as usize;
    if i >= books.len() {
        return at;
    }
    let mut numbers = [0u64; PLACE_NUMBERS];
    match books[i].update(range, &mut numbers) {
        Ok(count) => put_places(out, at, b"clear", texture as u64, count as usize, &numbers),
        Err(_) => at,
    }
}

// A range of a buffer has no book.
#[tactic(auto, using(slices::proofs::Puts::put_none), unfolding(crate::specs::Books::slot_text, crate::specs::Books::slot_books))]
fn put_slot(books: &mut [Book], slot: Option<InitRange>, out: &mut [u8], at: usize) -> usize
    requires { at + 18176 ≤ length out.old }
    ensures put { Put out.old out.new at (slot_text books.old slot) result }
    ensures books_after { books.new ≡ slot_books books.old slot }
{
    match slot {
        Some(InitRange::Texture(texture, range)) => put_update(books, texture, range, out, at),
        Some(InitRange::Buffer(_, _)) | None => at,
    }
}

// The ranges of a copy in their order.
fn put_slots(books: &mut [Book], ranges: Ranges, out: &mut [u8], at: usize) -> usize
    requires { at + 4 * 18176 ≤ length out.old }
    ensures put { Put out.old out.new at (slots_text books.old ranges.slots) result }
    ensures within { result ≤ length out.new }
    ensures books_after { books.new ≡ slots_books books.old ranges.slots }
{
    let mut next = at;
    for slot in ranges.slots.iter() {
        next = put_slot(books, *slot, out, next);
    }
    next
}

// A copy's line, and the places that have to be cleared before it. The books are marked with its ranges.
pub fn put_copy(
    books: &mut [Book],
    k: u64,
    answer: Result<(Plan, Ranges), TransferError>,
    out: &mut Text,
) -> usize
    ensures put { Put out.old out.new 0 (copy_text_with books.old k answer) result }
    ensures within { result ≤ length out.new }
    ensures books_after { books.new ≡ copy_books books.old answer }
{
    match answer {
        Ok((_, ranges)) => {
            let a = sheet_lines::put_copy(out, k);
            let b = sheet_text::put_line(out, a, b" ok", false, &[]);
            put_slots(books, ranges, out, b)
        }
        Err(why) => sheet_lines::put_refusal(out, k, why),
    }
}

// The layers of a level that are not written.
fn put_level(out: &mut [u8], at: usize, texture: u64, book: &Book, level: u32) -> usize
    requires { at + 18176 ≤ length out.old }
    ensures { Put out.old out.new at (level_text texture book.now level) result }
{
    let mut numbers = [0u64; PLACE_NUMBERS];
    match book.missing(level, &mut numbers) {
        Ok(count) => put_places(out, at, b"missing", texture, count as usize, &numbers),
        Err(_) => at,
    }
}

// A texture's line. A book without a level is of a record out of its bounds.
fn put_head(out: &mut [u8], texture: u64, book: &Book) -> usize
    requires { 1024 ≤ length out.old }
    ensures { Put out.old out.new 0 (head_text texture book.now) result }
{
    let counts = [book.mip_level_count as u64, book.array_layer_count as u64];
    let a = sheet_text::put_bytes(out, 0, b"texture");
    let b = sheet_text::put_numbers(out, a, false, &[texture]);
    if book.mip_level_count == 0 {
        return sheet_text::put_line(out, b, b" refused", false, &[2, 0, 0, 0, 0, 0]);
    }
    if book.is_filled() {
        return sheet_text::put_line(out, b, b" filled", false, &counts);
    }
    sheet_text::put_line(out, b, b" missing", false, &counts)
}

// A texture's line, and every level and layer of it that is not written.
pub fn put_texture(out: &mut Text, texture: u64, book: &Book) -> usize
    ensures put { Put out.old out.new 0 (texture_text texture book.now) result }
    ensures within { result ≤ length out.new }
{
    let mut next = put_head(out, texture, book);
    for level in 0..book.mip_level_count.min(MAX_LEVELS) {
        next = put_level(out, next, texture, book, level);
    }
    next
}

// The book of the texture whose line begins at a place; of no texture where its record is out of its bounds.
#[tactic(auto, unfolding(crate::specs::Books::book_at))]
fn book_at(s: &[u8], place: usize) -> Book
    ensures { result ≡ book_at s.now place }
{
    let row = sheet_sections::read_row(s, Section::Textures, place);
    Book::new(sheet_records::texture_of(row)).unwrap_or(Book::empty())
}

// The books of textures whose lines begin at some places.
pub fn create(s: &[u8], places: &[usize], books: &mut [Book])
    requires { length books.old ≡ length places.now }
    ensures { books.new ≡ map (book_at s.now) places.now }
{
    for i in 0..places.len() {
        books[i] = book_at(s, places[i]);
    }
}

// Whether every level and layer of every texture is written.
#[tactic(auto, unfolding(crate::specs::Books::are_filled))]
pub fn are_filled(books: &[Book]) -> bool
    ensures { result ≡ are_filled books.now }
{
    books.iter().all(|book| book.is_filled())
}
