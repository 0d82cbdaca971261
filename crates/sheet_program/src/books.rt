// What has to be cleared before a sheet's copies, and what none of their ranges holds, written part by part.
ghost use Rattle.std.specs.Prelude.{◌≡◌, true, false, Ok, length, is_ok, IfOk, OnOk, OnErr, map};
ghost use Rattle.sheet_calls.specs.Delivery.{Delivered};
ghost use Rattle.sheet_sections.specs.Sheet.{sheet_of, line_number};
ghost use Rattle.sheet_copies.specs.Answers.{starts_of, texture_places};
ghost use Rattle.sheet_lines.specs.Lines.{sheet_text};
ghost use Rattle.sheet_program.specs.Books.{copies_books_text, books_after, textures_text, first_books, books_text_from, books_outcome_from, books_text_of, books_outcome_of};

use book_marks::Book;
use sheet_calls::Error;
use sheet_copies::{Places, Sheet};
use sheet_outcome::Outcome;
use sheet_sections::{MAX_RECORDS, Part, Parts, Section};
use std::io::Write;
use std::time::Clock;

// The copies in their order, each with what has to be cleared before it.
fn write_copies<W: Write, C: Clock>(
    output: &mut W,
    clock: &C,
    sheet: Sheet,
    copies: Part,
    books: &mut [Book],
) -> Result<(), Error>
    ensures delivered { Delivered (copies_books_text sheet.entry.text.now sheet.entry.textures.now sheet.entry.buffers.now sheet.entry.device copies.count copies.count copies.first books.old) (is_ok result) }
    ensures books_then { OnOk result (books.new ≡ books_after sheet.entry.text.now sheet.entry.textures.now sheet.entry.buffers.now sheet.entry.device copies.count copies.first books.old) }
{
    let mut text = [0u8; sheet_books::TEXT_BYTES];
    let mut at = copies.first;
    for k in 0..copies.count {
        let line = sheet_sections::read_row(sheet.text, Section::Copies, at);
        let answer = sheet.plan_line(line);
        let n = sheet_books::put_copy(books, k as u64, answer, &mut text);
        sheet_calls::send(output, clock, &text[..n])?;
        at = line.next;
    }
    Ok(())
}

// The textures, each with its levels and layers that are not written.
fn write_textures<W: Write, C: Clock>(
    output: &mut W,
    clock: &C,
    books: &[Book],
) -> Result<(), Error>
    ensures { Delivered (textures_text 0 books.now) (is_ok result) }
{
    let mut text = [0u8; sheet_books::TEXT_BYTES];
    for i in 0..books.len() {
        let n = sheet_books::put_texture(&mut text, i as u64, &books[i]);
        sheet_calls::send(output, clock, &text[..n])?;
    }
    Ok(())
}

// A good sheet, with a book lent for each of its textures.
fn write_good<W: Write, C: Clock>(
    output: &mut W,
    clock: &C,
    s: &[u8],
    p: Parts,
    textures: Places,
    books: &mut [Book],
) -> Result<Outcome, Error>
    requires good { Ok p ≡ sheet_of s.now }
    requires places { starts_of textures ≡ texture_places s.now p }
    requires room { length books.old ≡ p.textures.count }
    ensures whole { IfOk result (λ outcome. (outcome ≡ books_outcome_from s.now (Ok p)) × Delivered (books_text_from s.now (Ok p)) true) }
    ensures broken { OnErr result (Delivered (books_text_from s.now (Ok p)) false) }
{
    let places = textures.as_slice();
    let buffers = Places::find(s, Section::Buffers, p.buffers);
    let sheet = Sheet {
        text: s,
        textures: places,
        buffers: buffers.as_slice(),
        device: sheet_copies::device_at(s, p),
    };
    sheet_books::create(s, places, books);
    write_copies(output, clock, sheet, p.copies, books)?;
    write_textures(output, clock, books)?;
    if sheet_books::are_filled(books) {
        return Ok(sheet_outcome::find_outcome(s));
    }
    Ok(Outcome::Refused)
}

// The one line of an ill sheet.
fn write_ill<W: Write, C: Clock>(output: &mut W, clock: &C, line: usize) -> Result<(), Error>
    ensures { Delivered (sheet_text line) (is_ok result) }
{
    let mut piece = [0u8; sheet_lines::PIECE_BYTES];
    let n = sheet_lines::put_sheet(&mut piece, line as u64);
    sheet_calls::send(output, clock, &piece[..n])
}

// All of it, and what becomes of the sheet: accepted where every copy is, and every level and layer written.
pub fn write<W: Write, C: Clock>(output: &mut W, clock: &C, s: &[u8]) -> Result<Outcome, Error>
    ensures whole { IfOk result (λ outcome. (outcome ≡ books_outcome_of s.now) × Delivered (books_text_of s.now) true) }
    ensures broken { OnErr result (Delivered (books_text_of s.now) false) }
{
    match sheet_sections::read_sheet(s) {
        Ok(p) => {
            let textures = Places::find(s, Section::Textures, p.textures);
            let mut books = [Book::empty(); MAX_RECORDS];
            let lent = &mut books[..p.textures.count];
            write_good(output, clock, s, p, textures, lent)
        }
        Err(e) => {
            write_ill(output, clock, e.line())?;
            Ok(Outcome::Ill)
        }
    }
}
