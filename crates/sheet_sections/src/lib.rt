#![tactic(auto)]
// The job sheet: four sections of lines, each after its count. Nothing of it is copied: a record is found by the place of its
// line, and read again where it is wanted.
ghost use Rattle.std.specs.Prelude.{◌≡◌, ◌≤◌, length};
ghost use Rattle.std.specs.Result.{result_ok};
ghost use Rattle.std.proofs.lemmas.List.Edits.{sets};
ghost use Rattle.sheet_fields.specs.Line.{line_of};
ghost use Rattle.sheet_sections.specs.Kinds.{section_numbered, kind_number, kind_of};
ghost use Rattle.sheet_sections.specs.Rows.{kind_at, linear_kind, copy_kinds, row_of, section_line, places_of, rows_of};
ghost use Rattle.sheet_sections.specs.Sheet.{least_of, most_of, section_of_count, section_of, found_of, newlines, sheet_of, line_number};
ghost use Rattle.sheet_sections.specs.Laws.{SheetLaws};

use sheet_fields::{FieldKind, Line};

// The sections in their order.
#[derive(Clone, Copy, PartialEq, Eq)]
pub enum Section {
    Devices,
    Textures,
    Buffers,
    Copies,
}

// By its number, which is 0 for the first; a number past the last is that of the copies.
impl From<usize> for Section {
    ghost from_gives = { λ n section. section ≡ section_numbered n };

    #[tactic(auto, unfolding(crate::specs::Kinds::section_numbered))]
    fn from(n: usize) -> Section {
        match n {
            0 => Section::Devices,
            1 => Section::Textures,
            2 => Section::Buffers,
            _ => Section::Copies,
        }
    }
}

// The most bytes of a sheet.
const SHEET_BYTES: usize = 65536;

// The most textures, and the most buffers, of a sheet.
pub const MAX_RECORDS: usize = 64;

// The most copies of a sheet.
const MAX_COPIES: usize = 256;

// How many lines a section has, where the first begins, and the place after the last.
#[derive(Clone, Copy)]
pub struct Part {
    pub count: usize,
    pub first: usize,
    pub next: usize,
}

#[derive(Clone, Copy)]
pub struct Parts {
    pub devices: Part,
    pub textures: Part,
    pub buffers: Part,
    pub copies: Part,
}

// The place of an ill line.
#[derive(Clone, Copy)]
pub struct IllAt(pub usize);

// Why a sheet is ill: it has too many bytes, or this is the number of its first ill line.
#[derive(Clone, Copy)]
pub enum SheetError {
    TooLong,
    IllLine(usize),
}

impl SheetError {
    // The number of the ill line; 0 where the sheet is too long, whatever its lines are.
    #[tactic(auto, unfolding(crate::specs::Sheet::line_number))]
    pub fn line(self) -> usize
        ensures { result ≡ line_number self }
    {
        match self {
            SheetError::TooLong => 0,
            SheetError::IllLine(line) => line,
        }
    }
}

// What a copy is between.
#[derive(Clone, Copy)]
pub enum CopyKind {
    Buffers,
    Upload,
    Download,
    Textures,
    Memory,
}

// A number that no kind has.
#[derive(Clone, Copy)]
pub struct UnknownKind(pub u64);

// The kind by the number that a copy's line begins with.
impl TryFrom<u64> for CopyKind {
    type Error = UnknownKind;

    ghost try_from_gives = { λ n kind. kind ≡ kind_of n };

    #[tactic(auto, unfolding(crate::specs::Kinds::kind_of))]
    fn try_from(n: u64) -> Result<CopyKind, UnknownKind> {
        match n {
            1 => Ok(CopyKind::Buffers),
            2 => Ok(CopyKind::Upload),
            3 => Ok(CopyKind::Download),
            4 => Ok(CopyKind::Textures),
            5 => Ok(CopyKind::Memory),
            _ => Err(UnknownKind(n)),
        }
    }
}

// The kind that a copy's line begins with, if one stands there.
#[tactic(auto, unfolding(crate::specs::Rows::kind_at, crate::specs::Kinds::kind_of))]
fn kind_at(s: &[u8], at: usize) -> Option<CopyKind>
    ensures { result ≡ result_ok (kind_of (kind_at s.now at)) }
{
    let field = sheet_fields::read_field(s, at, FieldKind::CopyKind, b' ')?;
    CopyKind::try_from(field.value?).ok()
}

#[tactic(auto, unfolding(crate::specs::Rows::linear_kind, crate::specs::Kinds::kind_number))]
fn linear_kind(kind: CopyKind) -> FieldKind
    ensures { result ≡ linear_kind (kind_number kind) }
{
    match kind {
        CopyKind::Memory => FieldKind::Long,
        _ => FieldKind::Word,
    }
}

// A copy's line, of which the kind is read already and is read again as its first field.
#[tactic(auto, unfolding(crate::specs::Kinds::kind_number, crate::specs::Rows::copy_kinds, crate::specs::Rows::buffer_copy_kinds, crate::specs::Rows::texture_copy_kinds, crate::specs::Rows::buffer_texture_kinds))]
fn read_copy(s: &[u8], at: usize, kind: CopyKind) -> Option<Line>
    ensures { result ≡ line_of s.now (copy_kinds (kind_number kind)) at }
{
    let k = FieldKind::CopyKind;
    let w = FieldKind::Word;
    let l = FieldKind::Long;
    let d = FieldKind::WordOrDash;
    let a = FieldKind::Aspect;
    match kind {
        CopyKind::Buffers => {
            sheet_fields::read_line(s, at, &[k, w, l, w, l, FieldKind::LongOrDash])
        }
        CopyKind::Textures => {
            sheet_fields::read_line(s, at, &[k, w, w, w, w, w, a, w, w, w, w, w, a, w, w, w])
        }
        CopyKind::Upload | CopyKind::Download | CopyKind::Memory => sheet_fields::read_line(
            s,
            at,
            &[k, linear_kind(kind), l, d, d, w, w, w, w, w, a, w, w, w],
        ),
    }
}

// The line of a section at a place, if one is there.
#[tactic(auto, using(crate::proofs::KindLaws::kind_ill, crate::proofs::KindLaws::kind_well), unfolding(crate::specs::Rows::row_of, crate::specs::Rows::kinds_of, crate::specs::Rows::device_kinds, crate::specs::Rows::texture_kinds, crate::specs::Rows::buffer_kinds))]
pub fn find_row(s: &[u8], section: Section, at: usize) -> Option<Line>
    ensures { result ≡ row_of s.now section at }
{
    let w = FieldKind::Word;
    match section {
        Section::Devices => sheet_fields::read_line(s, at, &[FieldKind::Fact, FieldKind::Fact]),
        Section::Textures => sheet_fields::read_line(s, at, &[w, w, w, w, w, w, w, w]),
        Section::Buffers => sheet_fields::read_line(s, at, &[FieldKind::Long, w]),
        Section::Copies => read_copy(s, at, kind_at(s, at)?),
    }
}

// The same where a line is known to be there, as in a good sheet; else a line of zeros.
#[tactic(auto, unfolding(crate::specs::Rows::section_line))]
pub fn read_row(s: &[u8], section: Section, at: usize) -> Line
    ensures { result ≡ section_line s.now section at }
{
    find_row(s, section, at).unwrap_or(sheet_fields::no_line())
}

// Where the lines of a section begin, as many as there is room for. What the slice has after them is kept.
#[tactic(auto, using(crate::proofs::RowLaws::places_done))]
pub fn find_places(s: &[u8], section: Section, count: usize, first: usize, places: &mut [usize])
    ensures { places.new ≡ sets places.old 0 (places_of s.now section count first) }
{
    let room = count.min(places.len());
    let mut at = first;
    for place in &mut places[..room] {
        *place = at;
        at = read_row(s, section, at).next;
    }
}

// The place after so many lines.
#[tactic(auto, using(crate::proofs::RowLaws::rows_on, crate::proofs::RowLaws::rows_off, crate::proofs::RowLaws::rows_all))]
fn read_rows(s: &[u8], section: Section, count: usize, first: usize) -> Result<usize, IllAt>
    ensures { result ≡ rows_of s.now section count first }
{
    let mut at = first;
    for _ in 0..count {
        at = find_row(s, section, at).ok_or(IllAt(at))?.next;
    }
    Ok(at)
}

// How few lines a section may have, and how many.
#[tactic(auto, unfolding(crate::specs::Sheet::least_of, crate::specs::Sheet::most_of))]
fn counts_of(section: Section) -> (usize, usize)
    ensures { result ≡ (least_of section, most_of section) }
{
    match section {
        Section::Devices => (1, 1),
        Section::Textures | Section::Buffers => (0, MAX_RECORDS),
        Section::Copies => (0, MAX_COPIES),
    }
}

// A section whose count is read already, from a line at `at`.
#[tactic(auto, unfolding(crate::specs::Sheet::section_of_count, conditions::specs::Conditions::stop_if))]
fn read_counted(
    s: &[u8],
    section: Section,
    at: usize,
    count: usize,
    first: usize,
) -> Result<Part, IllAt>
    ensures { result ≡ section_of_count s.now section at count first }
{
    let (least, most) = counts_of(section);
    if count < least || count > most {
        return Err(IllAt(at));
    }
    let next = read_rows(s, section, count, first)?;
    Ok(Part { count, first, next })
}

#[tactic(auto, unfolding(crate::specs::Sheet::section_of))]
fn read_section(s: &[u8], section: Section, at: usize) -> Result<Part, IllAt>
    ensures { result ≡ section_of s.now section at }
{
    let line = sheet_fields::read_line(s, at, &[FieldKind::Count]).ok_or(IllAt(at))?;
    read_counted(
        s,
        section,
        at,
        line.values[0].unwrap_or(0) as usize,
        line.next,
    )
}

#[tactic(auto, unfolding(crate::specs::Sheet::found_of, conditions::specs::Conditions::stop_if))]
fn find_parts(s: &[u8]) -> Result<Parts, IllAt>
    ensures { result ≡ found_of s.now }
{
    let devices = read_section(s, Section::Devices, 0)?;
    let textures = read_section(s, Section::Textures, devices.next)?;
    let buffers = read_section(s, Section::Buffers, textures.next)?;
    let copies = read_section(s, Section::Copies, buffers.next)?;
    if copies.next < s.len() {
        return Err(IllAt(copies.next));
    }
    Ok(Parts {
        devices,
        textures,
        buffers,
        copies,
    })
}

#[tactic(auto, unfolding(crate::specs::Sheet::newlines))]
fn count_newlines(s: &[u8], end: usize) -> usize
    ensures value { result ≡ newlines end s.now }
    ensures upper_bound { result ≤ length s.now }
{
    s.iter().take(end).filter(|b| **b == b'\n').count()
}

// The whole sheet. Lines are counted only where one is ill, from the newlines before it.
#[tactic(auto, unfolding(crate::specs::Sheet::sheet_of, crate::specs::Sheet::sheet_from, conditions::specs::Conditions::stop_if))]
pub fn read_sheet(s: &[u8]) -> Result<Parts, SheetError>
    ensures { result ≡ sheet_of s.now }
{
    if s.len() > SHEET_BYTES {
        return Err(SheetError::TooLong);
    }
    find_parts(s).map_err(|ill| SheetError::IllLine(1 + count_newlines(s, ill.0)))
}

#[tactic(auto, using(crate::proofs::SheetProofs::sheet_laws))]
pub fn sheet_laws()
    ensures { SheetLaws }
{}
