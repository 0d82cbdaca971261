#![tactic(auto)]
// The listing of a job sheet, for callers in C and Rust.
ghost use Rattle.std.specs.Prelude.{◌≡◌, ◌+◌, length, MatchOption};
ghost use Rattle.sheet_listing.specs.Listing.{rest_of, listing_of};
ghost use Rattle.c_listing.specs.Lists.{counted, front_put, Lists, Ended};

use sheet_listing::Listing;

// Where the part after this one belongs, and the state after it.
#[derive(Clone, Copy)]
pub struct Listed {
    pub next: usize,
    pub listing: Listing,
}

// As much of a text as there is room for after a place; answers the place after the whole text.
fn put_front(out: &mut [u8], at: usize, text: &[u8]) -> usize
    ensures value { result ≡ counted (at + length text.now) }
    ensures out_after { out.new ≡ front_put out.old at text.now }
{
    let next = at.saturating_add(text.len());
    if at >= out.len() {
        return next;
    }
    let n = text.len().min(out.len() - at);
    sheet_text::put_bytes(out, at, &text[..n]);
    next
}

// The next part of what is left; `None` where nothing is.
fn list_part(st: Listing, s: &[u8], out: &mut [u8], at: usize) -> Option<Listed>
    ensures { MatchOption result (Ended out.old out.new (rest_of s.now st)) (λ listed. Lists out.old out.new at (rest_of s.now st) (rest_of s.now listed.listing) listed.next) }
{
    let mut part = [0u8; 16384];
    let filled = sheet_listing::fill(st, s, &mut part);
    let count = filled.count;
    if count == 0 {
        return None;
    }
    let next = put_front(out, at, &part[..count]);
    Some(Listed {
        next,
        listing: filled.listing,
    })
}

// As much of a sheet's listing as there is room for; answers the length of the whole listing. Nothing after it changes.
#[unsafe(no_mangle)]
pub extern "C" fn copy_planner_list(sheet: &[u8], out: &mut [u8]) -> usize
    ensures value { result ≡ counted (length (listing_of sheet.now)) }
    ensures out_after { out.new ≡ front_put out.old 0 (listing_of sheet.now) }
{
    let mut st = sheet_listing::start(sheet);
    let mut at: usize = 0;
    while let Some(listed) = list_part(st, sheet, out, at) {
        at = listed.next;
        st = listed.listing;
    }
    at
}
