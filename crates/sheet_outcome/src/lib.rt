#![tactic(auto)]
// What becomes of a job sheet as a whole: whether every copy is accepted.
ghost use Rattle.std.specs.Prelude.{◌≡◌, Ok};
ghost use Rattle.sheet_sections.specs.Sheet.{sheet_of};
ghost use Rattle.sheet_outcome.specs.Outcome.{status_of, any_refused, outcome_from, outcome_of};

use sheet_copies::{Places, Sheet};
use sheet_sections::{Parts, Section};

// Every copy is accepted; a copy is refused; the sheet is ill.
#[derive(Clone, Copy, PartialEq, Eq)]
pub enum Outcome {
    Accepted,
    Refused,
    Ill,
}

// The number by which a program says so.
impl From<Outcome> for u8 {
    ghost from_gives = { λ outcome number. number ≡ status_of outcome };

    #[tactic(auto, unfolding(crate::specs::Outcome::status_of))]
    fn from(outcome: Outcome) -> u8 {
        match outcome {
            Outcome::Accepted => 0,
            Outcome::Refused => 1,
            Outcome::Ill => 2,
        }
    }
}

// Whether one of so many copies is refused, whose lines begin at a place.
#[tactic(auto, using(crate::proofs::RefusedLaws::refused_here, crate::proofs::RefusedLaws::refused_on, crate::proofs::RefusedLaws::refused_none))]
fn any_refused(sheet: Sheet, count: usize, first: usize) -> bool
    ensures { result ≡ any_refused sheet.entry.text.now sheet.entry.textures.now sheet.entry.buffers.now sheet.entry.device count first }
{
    let mut at = first;
    for _ in 0..count {
        let line = sheet_sections::read_row(sheet.text, Section::Copies, at);
        if sheet.plan_line(line).is_err() {
            return true;
        }
        at = line.next;
    }
    false
}

// A good sheet's counts are at most 64, so no place is cut off.
fn good_outcome(s: &[u8], p: Parts) -> Outcome
    requires { Ok p ≡ sheet_of s.now }
    ensures { result ≡ outcome_from s.now (Ok p) }
{
    let textures = Places::find(s, Section::Textures, p.textures);
    let buffers = Places::find(s, Section::Buffers, p.buffers);
    let sheet = Sheet {
        text: s,
        textures: textures.as_slice(),
        buffers: buffers.as_slice(),
        device: sheet_copies::device_at(s, p),
    };
    let copies = p.copies;
    if any_refused(sheet, copies.count, copies.first) {
        return Outcome::Refused;
    }
    Outcome::Accepted
}

#[tactic(auto, unfolding(crate::specs::Outcome::outcome_of, crate::specs::Outcome::outcome_from))]
pub fn find_outcome(s: &[u8]) -> Outcome
    ensures { result ≡ outcome_of s.now }
{
    match sheet_sections::read_sheet(s) {
        Ok(p) => good_outcome(s, p),
        Err(_) => Outcome::Ill,
    }
}
