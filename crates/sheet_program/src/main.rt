#![tactic(auto)]
// Reads a job sheet on standard input and writes its listing; says on standard error what could not be read or written whole.
//
//   sheet_program [DESCRIPTOR [LABEL [HEADING [REPORT]]]]
//
// DESCRIPTOR is a digit from 3 on: the status is written there in the end, and the program itself ends with 0. LABEL comes
// before the error of a read, HEADING before the listing. Where REPORT is `written`, the listing is of what has to be cleared before each copy
// and what no copy's range holds; by any other word, or none, it is of plans.
ghost use Rattle.std.specs.Prelude.{◌≡◌, ◌≤◌, true, false, length, is_ok, IfOk, OnErr};
ghost use Rattle.sheet_calls.specs.Calls.{Sends};
ghost use Rattle.sheet_calls.specs.Delivery.{Delivered};
ghost use Rattle.sheet_listing.specs.Listing.{listing_of};
ghost use Rattle.sheet_program.specs.Program.{written_word, report_text, report_outcome, number_of, StatusFor};

mod books;

use sheet_calls::Error;
use sheet_outcome::Outcome;
use std::env::Env;
use std::fs::OpenOptions;
use std::io::{Print, Write};
use std::rt::Files;
use std::str;
use std::time::Clock;

// Room for any path, and what stands around it.
const LABEL_BYTES: usize = 8192;

// How it went: what became of the sheet, whose listing was written whole; or the listing was not written whole; or the sheet was not read.
#[derive(Clone, Copy)]
pub enum Status {
    Listed(Outcome),
    NotWritten,
    NotRead,
}

// The number by which the program says so.
impl From<Status> for u8 {
    ghost from_gives = { λ status number. number ≡ number_of status };

    #[tactic(auto, unfolding(crate::specs::Program::number_of))]
    fn from(status: Status) -> u8 {
        match status {
            Status::Listed(outcome) => outcome.into(),
            Status::NotWritten => 3,
            Status::NotRead => 4,
        }
    }
}

// What is listed of a sheet: plans, or what has to be cleared and what is not written.
#[derive(Clone, Copy)]
pub enum Report {
    Listing,
    Books,
}

// Writes the listing of a sheet, part by part. What cannot be written ends it at once, so that what was written is the listing's beginning.
fn list<W: Write, C: Clock>(output: &mut W, clock: &C, s: &[u8]) -> Result<(), Error>
    ensures { Delivered (listing_of s.now) (is_ok result) }
{
    let mut out = [0u8; 65536];
    let mut st = sheet_listing::start(s);
    loop {
        let filled = sheet_listing::fill(st, s, &mut out);
        let n = filled.count;
        sheet_calls::send(output, clock, &out[..n])?;
        if n == 0 {
            return Ok(());
        }
        st = filled.listing;
    }
}

// Writes a report, and answers what becomes of the sheet.
fn write_report<W: Write, C: Clock>(
    output: &mut W,
    clock: &C,
    s: &[u8],
    report: Report,
) -> Result<Outcome, Error>
    ensures whole { IfOk result (λ outcome. (outcome ≡ report_outcome report s.now) × Delivered (report_text report s.now) true) }
    ensures broken { OnErr result (Delivered (report_text report s.now) false) }
{
    match report {
        Report::Listing => {
            list(output, clock, s)?;
            Ok(sheet_outcome::find_outcome(s))
        }
        Report::Books => books::write(output, clock, s),
    }
}

// Writes the heading and the report.
fn write_headed<W: Write, C: Clock>(
    output: &mut W,
    clock: &C,
    s: &[u8],
    heading: &[u8],
    report: Report,
) -> Result<Outcome, Error>
    ensures whole { IfOk result (λ outcome. StatusFor report s.now heading.now (Status.Listed outcome)) }
    ensures broken { OnErr result (StatusFor report s.now heading.now Status.NotWritten) }
{
    sheet_calls::send(output, clock, heading)?;
    write_report(output, clock, s, report)
}

// Writes the heading and the report, says what could not be written whole, and answers the status.
fn list_sheet<W: Write, P: Print, C: Clock>(
    output: &mut W,
    errors: &P,
    clock: &C,
    s: &[u8],
    heading: &[u8],
    report: Report,
) -> Status
    ensures { StatusFor report s.now heading.now result }
{
    match write_headed(output, clock, s, heading, report) {
        Ok(outcome) => Status::Listed(outcome),
        Err(error) => {
            sheet_calls::say_failure(errors, &error, b"plan: the listing is not written whole");
            Status::NotWritten
        }
    }
}

fn say_unread<P: Print>(to: &P, error: &Error, label: &[u8]) {
    let what = if label.is_empty() {
        b"plan: standard input"
    } else {
        label
    };
    sheet_calls::say_failure(to, error, what);
}

// Argument i, which is put into the room; empty for one that is not there, or longer.
fn argument<'a, E: Env>(env: &E, i: usize, room: &'a mut [u8]) -> &'a [u8]
    ensures { length result.now ≤ length room.old }
{
    let n = env.arg(i, room).unwrap_or(0);
    &room[..n]
}

// The digit of the descriptor for the status.
fn status_descriptor<E: Env>(env: &E) -> Option<u8> {
    let mut word = [0u8; 8];
    match argument(env, 1, &mut word) {
        [digit @ b'3'..=b'9'] => Some(*digit),
        _ => None,
    }
}

// The report that a word asks for.
fn report_named(word: &[u8]) -> Report
    ensures books { word.now ≡ written_word → result ≡ Report.Books }
    ensures listing { (word.now ≡ written_word → ⊥) → result ≡ Report.Listing }
{
    if word == b"written".as_slice() {
        return Report::Books;
    }
    Report::Listing
}

// Writes the status to a descriptor, which std reaches by its name alone. Opened for reading too, a pipe that nobody reads from is not waited
// for; what is in a file stays before the status.
#[tactic(auto, using(crate::proofs::Parts::number_few))]
fn write_status<F: Files>(files: &F, descriptor: Option<u8>, status: Status) {
    let Some(digit) = descriptor else {
        return;
    };
    let mut name = *b"/proc/self/fd/0";
    name[14] = digit;
    let Ok(path) = str::from_utf8(&name) else {
        return;
    };
    let opened = OpenOptions::new().read(true).append(true).open(files, path);
    let Ok(mut file) = opened else {
        return;
    };
    let number: u8 = status.into();
    let _ = file.write_all(&[b'0' + number, b'\n']);
}

fn main(rt: HostRuntime) {
    let mut label_room = [0u8; LABEL_BYTES];
    let mut heading_room = [0u8; LABEL_BYTES];
    let mut sheet = [0u8; 65537];
    let label = argument(&rt, 2, &mut label_room);
    let heading = argument(&rt, 3, &mut heading_room);
    let descriptor = status_descriptor(&rt);
    let mut report_room = [0u8; 8];
    let report = report_named(argument(&rt, 4, &mut report_room));
    let received = sheet_calls::receive(&mut rt.stdin(), &rt, &mut sheet);
    let n = received.count;
    let status = match received.outcome {
        Ok(()) => list_sheet(
            &mut rt.stdout(),
            &rt.stderr(),
            &rt,
            &sheet[..n],
            heading,
            report,
        ),
        Err(error) => {
            say_unread(&rt.stderr(), &error, label);
            Status::NotRead
        }
    };
    write_status(&rt, descriptor, status);
}
