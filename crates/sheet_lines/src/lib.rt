#![tactic(auto)]
// The pieces of a listing: each is put at the start of an array that has room for any, and the answer is how many bytes it has.
ghost use Rattle.std.specs.Prelude.{◌+◌, ◌*◌, ◌≤◌, length, [], true, unwrap_or, ◌≡◌};
ghost use Rattle.plan_kinds.specs.Regions.{behind_of};
ghost use Rattle.slices.specs.Put.{Put};
ghost use Rattle.sheet_text.specs.Text.{line_text};
ghost use Rattle.sheet_lines.specs.Lines.{region_word, sheet_text, range_text, ranges_text, copy_text, plan_text, refusal_text, answer_text, region_text, piece_bytes};

use copy_kinds::{InitRange, Ranges};
use plan_kinds::Plan;
use plan_rows::Row;
use refusals::TransferError;

// The lines of any answer fit, and any other line.
pub const PIECE_BYTES: usize = 1024;

pub type Piece = [u8; PIECE_BYTES];

// How many bytes a region's line has, and the plan after the region.
#[derive(Clone, Copy)]
pub struct PutRegion {
    pub count: usize,
    pub plan: Plan,
}

// A word, and a row's numbers.
fn put_row(out: &mut [u8], at: usize, word: &[u8], dash: bool, row: Row) -> usize
    requires { at + (length word.now + (21 * length row + 1)) ≤ length out.old }
    ensures { Put out.old out.new at (line_text word.now dash row) result }
{
    sheet_text::put_line(out, at, word, dash, row.as_slice())
}

// `sheet n`.
#[tactic(auto, unfolding(crate::specs::Lines::sheet_text))]
pub fn put_sheet(out: &mut Piece, n: u64) -> usize
    ensures { Put out.old out.new 0 (sheet_text n) result }
{
    sheet_text::put_line(out, 0, b"sheet", false, &[n])
}

#[tactic(auto, using(crate::proofs::LineLaws::texture_range_count, crate::proofs::LineLaws::buffer_range_count, slices::proofs::Puts::put_none), unfolding(crate::specs::Lines::range_text))]
fn put_range(out: &mut [u8], at: usize, slot: Option<InitRange>) -> usize
    requires { at + 128 ≤ length out.old }
    ensures { Put out.old out.new at (range_text slot) result }
{
    match slot {
        Some(InitRange::Texture(i, r)) => {
            put_row(out, at, b"t", false, plan_rows::texture_range_row(i, r))
        }
        Some(InitRange::Buffer(i, r)) => {
            put_row(out, at, b"b", false, plan_rows::buffer_range_row(i, r))
        }
        None => at,
    }
}

fn put_ranges(out: &mut [u8], at: usize, ranges: Ranges) -> usize
    requires { at + 512 ≤ length out.old }
    ensures { Put out.old out.new at (ranges_text ranges) result }
{
    let mut next = at;
    for slot in ranges.slots.iter() {
        next = put_range(out, next, *slot);
    }
    next
}

// `copy k`, without an end.
#[tactic(auto, using(slices::proofs::Puts::put_then), unfolding(crate::specs::Lines::copy_text))]
pub fn put_copy(out: &mut [u8], k: u64) -> usize
    requires { 25 ≤ length out.old }
    ensures { Put out.old out.new 0 (copy_text k) result }
{
    let a = sheet_text::put_bytes(out, 0, b"copy");
    sheet_text::put_numbers(out, a, false, &[k])
}

#[tactic(auto, using(crate::proofs::LineLaws::copy_few, sheet_text::proofs::Puts::line_few, slices::proofs::Puts::put_length))]
fn put_plan(out: &mut Piece, k: u64, plan: Plan, ranges: Ranges) -> usize
    ensures { Put out.old out.new 0 (plan_text k plan ranges) result }
{
    let ns = [
        plan.left() as u64,
        ranges.count() as u64,
        plan.bytes_checked(),
    ];
    let a = put_copy(out, k);
    let b = sheet_text::put_line(out, a, b" ok", false, &ns);
    put_ranges(out, b, ranges)
}

// `copy k refused` and the refusal's numbers.
pub fn put_refusal(out: &mut [u8], k: u64, why: TransferError) -> usize
    requires { piece_bytes ≤ length out.old }
    ensures { Put out.old out.new 0 (refusal_text k why) result }
{
    let a = put_copy(out, k);
    put_row(out, a, b" refused", false, Row::from(why))
}

// A copy's answer, with its ranges.
#[tactic(auto, unfolding(crate::specs::Lines::answer_text))]
pub fn put_answer(out: &mut Piece, k: u64, answer: Result<(Plan, Ranges), TransferError>) -> usize
    ensures { Put out.old out.new 0 (answer_text k answer) result }
{
    match answer {
        Ok((plan, ranges)) => put_plan(out, k, plan, ranges),
        Err(why) => put_refusal(out, k, why),
    }
}

// The line of an answer's region; where there is none, of no numbers.
fn put_asked(out: &mut Piece, answer: Option<Row>) -> usize
    requires { 1 + (21 * length (unwrap_or answer []) + 1) ≤ piece_bytes }
    ensures { Put out.old out.new 0 (line_text region_word true (unwrap_or answer [])) result }
{
    match answer {
        Some(row) => put_row(out, 0, b"r", true, row),
        None => sheet_text::put_line(out, 0, b"r", true, &[]),
    }
}

// The line of the plan's next region, and the plan after it.
pub fn put_region(out: &mut Piece, plan: Plan) -> PutRegion
    ensures put { Put out.old out.new 0 (region_text plan) result.count }
    ensures plan_value { result.plan ≡ behind_of plan }
{
    let asked = plan.next();
    PutRegion {
        count: put_asked(out, asked.answer),
        plan: asked.plan,
    }
}
