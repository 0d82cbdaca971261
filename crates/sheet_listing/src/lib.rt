#![tactic(auto)]
// The listing of a job sheet, made piece by piece into what the caller lends.
ghost use Rattle.std.specs.Prelude.{◌≡◌, Ok, List, ℕ, ◌≤◌, length, MatchOption};
ghost use Rattle.sheet_sections.specs.Sheet.{sheet_of};
ghost use Rattle.sheet_listing.specs.Listing.{plan_answered, plan_left, Steps, Stops, text_left, rest_of, listing_of, Fills, Ends, Listed};

use copy_kinds::Ranges;
use plan_kinds::Plan;
use records::Device;
use refusals::TransferError;
use sheet_copies::{Places, Sheet};
use sheet_lines::Piece;
use sheet_sections::{Parts, Section};

// How many copies there are, how many are left and where the next one's line begins, with what is left of the last one's regions.
#[derive(Clone, Copy)]
pub struct CopiesLeft {
    pub total: usize,
    pub left: usize,
    pub at: usize,
    pub plan: Option<Plan>,
}

// How many bytes were put, and what is left of the copies after them.
#[derive(Clone, Copy)]
pub struct Stepped {
    pub count: usize,
    pub copies: CopiesLeft,
}

// What every copy of a good sheet is read with: where its texture and buffer lines begin, and its device.
#[derive(Clone, Copy)]
pub struct GoodSheet {
    pub textures: Places,
    pub buffers: Places,
    pub device: Device,
}

// Where a listing is: at the one line of an ill sheet, among the copies of a good one, or past an ill sheet's line.
#[derive(Clone, Copy)]
pub enum Listing {
    Ill(usize),
    Good(GoodSheet, CopiesLeft),
    Ended,
}

// How many bytes were put, and the state after them.
#[derive(Clone, Copy)]
pub struct Filled {
    pub count: usize,
    pub listing: Listing,
}

// A refused copy has no plan.
#[tactic(auto, unfolding(crate::specs::Listing::plan_answered))]
fn plan_of(answer: Result<(Plan, Ranges), TransferError>) -> Option<Plan>
    ensures { result ≡ plan_answered answer }
{
    answer.ok().map(|(plan, _)| plan)
}

// A good sheet, with the places of its records. Its counts are at most 64, so none is cut off.
fn start_good(s: &[u8], p: Parts) -> Listing
    requires { Ok p ≡ sheet_of s.now }
    ensures { rest_of s.now result ≡ listing_of s.now }
{
    let good = GoodSheet {
        textures: Places::find(s, Section::Textures, p.textures),
        buffers: Places::find(s, Section::Buffers, p.buffers),
        device: sheet_copies::device_at(s, p),
    };
    let copies = p.copies;
    Listing::Good(
        good,
        CopiesLeft {
            total: copies.count,
            left: copies.count,
            at: copies.first,
            plan: None,
        },
    )
}

// The state before the first piece: the sheet is read, and the whole listing is left.
pub fn start(s: &[u8]) -> Listing
    ensures { rest_of s.now result ≡ listing_of s.now }
{
    match sheet_sections::read_sheet(s) {
        Ok(p) => start_good(s, p),
        Err(e) => Listing::Ill(e.line()),
    }
}

impl CopiesLeft {
    // The last copy's plan, where regions of it are left.
    #[tactic(auto, unfolding(crate::specs::Listing::plan_left))]
    fn unlisted(self) -> Option<Plan>
        ensures { result ≡ plan_left self.plan }
    {
        self.plan.filter(|plan| plan.left() > 0)
    }

    // The next region, or else the next copy's answer.
    fn step(self, sheet: Sheet, out: &mut Piece) -> Option<Stepped>
        ensures { MatchOption result (Stops sheet.entry.text.now sheet.entry.textures.now sheet.entry.buffers.now sheet.entry.device self out.old out.new) (λ stepped. Steps sheet.entry.text.now sheet.entry.textures.now sheet.entry.buffers.now sheet.entry.device self out.old out.new stepped.count stepped.copies) }
    {
        if let Some(plan) = self.unlisted() {
            let put = sheet_lines::put_region(out, plan);
            return Some(Stepped {
                count: put.count,
                copies: CopiesLeft {
                    plan: Some(put.plan),
                    ..self
                },
            });
        }
        if self.left == 0 {
            return None;
        }
        let line = sheet_sections::read_row(sheet.text, Section::Copies, self.at);
        let answer = sheet.plan_line(line);
        let number = self.total.saturating_sub(self.left) as u64;
        Some(Stepped {
            count: sheet_lines::put_answer(out, number, answer),
            copies: CopiesLeft {
                left: self.left - 1,
                at: line.next,
                plan: plan_of(answer),
                ..self
            },
        })
    }
}

// The next piece at a slice's start; `None` where nothing is left, or the slice has no room for a piece.
fn put_piece(copies: CopiesLeft, sheet: Sheet, out: &mut [u8]) -> Option<Stepped>
    ensures { MatchOption result (Stops sheet.entry.text.now sheet.entry.textures.now sheet.entry.buffers.now sheet.entry.device copies out.old out.new) (λ stepped. Steps sheet.entry.text.now sheet.entry.textures.now sheet.entry.buffers.now sheet.entry.device copies out.old out.new stepped.count stepped.copies) }
{
    copies.step(sheet, out.first_chunk_mut()?)
}

// Pieces one after the other from the slice's start, as many as there is surely room for.
fn put_pieces(first: CopiesLeft, sheet: Sheet, out: &mut [u8]) -> Stepped
    ensures fills { Fills out.old out.new result.count (text_left sheet.entry.text.now sheet.entry.textures.now sheet.entry.buffers.now sheet.entry.device first) (text_left sheet.entry.text.now sheet.entry.textures.now sheet.entry.buffers.now sheet.entry.device result.copies) }
    ensures count_in_bounds { result.count ≤ length out.new }
    ensures ends { Ends (length out.old) result.count (text_left sheet.entry.text.now sheet.entry.textures.now sheet.entry.buffers.now sheet.entry.device first) }
{
    let mut copies = first;
    let mut at: usize = 0;
    while let Some(stepped) = put_piece(copies, sheet, &mut out[at..]) {
        at += stepped.count;
        copies = stepped.copies;
    }
    Stepped { count: at, copies }
}

// The next part of a good sheet's listing.
fn fill_good(good: GoodSheet, copies: CopiesLeft, s: &[u8], out: &mut [u8]) -> Filled
    ensures fills { Fills out.old out.new result.count (rest_of s.now (Listing.Good good copies)) (rest_of s.now result.listing) }
    ensures count_in_bounds { result.count ≤ length out.new }
    ensures ends { Ends (length out.old) result.count (rest_of s.now (Listing.Good good copies)) }
{
    let sheet = Sheet {
        text: s,
        textures: good.textures.as_slice(),
        buffers: good.buffers.as_slice(),
        device: good.device,
    };
    let put = put_pieces(copies, sheet, out);
    Filled {
        count: put.count,
        listing: Listing::Good(good, put.copies),
    }
}

// The one line of an ill sheet, where there is room for a piece.
fn fill_ill(line: usize, out: &mut [u8]) -> Filled
    ensures fills { (s : List ℕ) → Fills out.old out.new result.count (rest_of s (Listing.Ill line)) (rest_of s result.listing) }
    ensures count_in_bounds { result.count ≤ length out.new }
    ensures ends { (s : List ℕ) → Ends (length out.old) result.count (rest_of s (Listing.Ill line)) }
{
    let Some(piece) = out.first_chunk_mut() else {
        return Filled {
            count: 0,
            listing: Listing::Ill(line),
        };
    };
    Filled {
        count: sheet_lines::put_sheet(piece, line as u64),
        listing: Listing::Ended,
    }
}

// The next part of the listing from the slice's start on, as much as there is surely room for. Nothing is put only where nothing
// is left, or the slice has no room for a piece.
pub fn fill(st: Listing, s: &[u8], out: &mut [u8]) -> Filled
    ensures fills { Fills out.old out.new result.count (rest_of s.now st) (rest_of s.now result.listing) }
    ensures count_in_bounds { result.count ≤ length out.new }
    ensures ends { Ends (length out.old) result.count (rest_of s.now st) }
{
    match st {
        Listing::Ill(line) => fill_ill(line, out),
        Listing::Good(good, copies) => fill_good(good, copies, s, out),
        Listing::Ended => Filled {
            count: 0,
            listing: st,
        },
    }
}

// That what is filled is the listing: nothing runs here.
pub fn listing_laws()
    ensures { Listed }
{}
