#![tactic(auto)]
// Bytes read from an input and written to an output, by calls that `sheet_io` counts. A call that moves nothing is made again after a wait, a
// bounded number of times.
ghost use Rattle.std.specs.Prelude.{◌≡◌, length, not, drop, is_ok, Ok, IfOk, OnErr, IsErr};
ghost use Rattle.sheet_io.specs.Progress.{place_of, after_of, has_failed};
ghost use Rattle.sheet_calls.specs.Calls.{IsPrefixLen, Wrote, Got, Sends, Receives};
ghost use Rattle.sheet_calls.specs.Delivery.{EveryDelivery};

use sheet_io::{Answer, Failure, Progress};
use std::io::{Cursor, ErrorKind, Print, Read, Write};
use std::time::Clock;
use std::{io, str};

// Why not all bytes went through: the system refused a call, or no call moved any for as long as it was tried.
#[derive(Clone, Copy)]
pub enum Error {
    Refused(io::Error),
    Stalled,
}

// How many bytes were read, and how that ended: a read that fails may have read some before.
#[derive(Clone, Copy)]
pub struct Received {
    pub count: usize,
    pub outcome: Result<(), Error>,
}

// Whether an error is one that passes: the call was interrupted, or would have had to wait.
fn error_passes(error: &io::Error) -> bool {
    matches!(error.kind(), ErrorKind::Interrupted | ErrorKind::WouldBlock)
}

// What a call answered, as `sheet_io` takes note of it. An error that lasts is kept, for whoever is told of it.
fn note(refusal: &mut Option<io::Error>, answered: io::Result<usize>) -> Result<usize, Failure>
    ensures ok { IfOk answered (λ count. result ≡ Ok count) }
    ensures err { OnErr answered (IsErr result) }
{
    match answered {
        Ok(count) => Ok(count),
        Err(error) if error_passes(&error) => Err(Failure::Passes),
        Err(error) => {
            *refusal = Some(error);
            Err(Failure::Lasts)
        }
    }
}

// Takes note of a call. Where it moved nothing and there is to be another, waits a little.
fn settle<C: Clock>(clock: &C, p: Progress, answer: Answer) -> Progress
    ensures { result ≡ after_of p answer }
{
    let next = p.after(answer);
    if next.goes_on() && next.stage.tries() < sheet_io::TRIES {
        sheet_pause::pause(clock);
    }
    next
}

// One write of those of some bytes that are left.
fn write_once<W: Write, C: Clock>(
    output: &mut W,
    clock: &C,
    refusal: &mut Option<io::Error>,
    p: Progress,
    bytes: &[u8],
    rest: &[u8],
) -> Progress
    requires { rest.now ≡ drop (place_of (length bytes.now) p) bytes.now }
    ensures { Wrote p result }
{
    let outcome = note(refusal, output.write(rest));
    settle(clock, p, sheet_io::written(outcome))
}

// One read into the room that is left.
fn read_once<R: Read, C: Clock>(
    input: &mut R,
    clock: &C,
    refusal: &mut Option<io::Error>,
    p: Progress,
    room: &mut [u8],
) -> Progress
    requires { length room.old ≡ p.left }
    ensures { Got p result }
{
    let outcome = note(refusal, input.read(room));
    settle(clock, p, sheet_io::got(outcome))
}

// How calls that are not to go on ended.
fn ended(p: Progress, refusal: Option<io::Error>) -> Result<(), Error>
    ensures { is_ok result ≡ not (has_failed p.stage) }
{
    if !p.stage.has_failed() {
        return Ok(());
    }
    Err(refusal.map_or(Error::Stalled, Error::Refused))
}

// Writes some bytes, and answers whether all of them were written.
#[tactic(auto, unfolding(sheet_io::specs::Progress::place_of, sheet_io::specs::Progress::start_of))]
pub fn send<W: Write, C: Clock>(output: &mut W, clock: &C, bytes: &[u8]) -> Result<(), Error>
    ensures { Sends bytes.now (is_ok result) }
{
    let mut refusal: Option<io::Error> = None;
    let mut p = sheet_io::begin(bytes.len());
    while p.goes_on() {
        let from = p.place(bytes.len());
        p = write_once(output, clock, &mut refusal, p, bytes, &bytes[from..]);
    }
    ended(p, refusal)
}

// Reads until the room is full or the input ends.
#[tactic(auto, unfolding(sheet_io::specs::Progress::place_of, sheet_io::specs::Progress::start_of))]
pub fn receive<R: Read, C: Clock>(input: &mut R, clock: &C, room: &mut [u8]) -> Received
    ensures prefix_len { IsPrefixLen result.count room.new }
    ensures receives { Receives (length room.old) result }
{
    let mut refusal: Option<io::Error> = None;
    let mut p = sheet_io::begin(room.len());
    while p.goes_on() {
        let from = p.place(room.len());
        p = read_once(input, clock, &mut refusal, p, &mut room[from..]);
    }
    Received {
        count: p.place(room.len()),
        outcome: ended(p, refusal),
    }
}

// Room for what the system says of an error.
const TEXT_BYTES: usize = 256;

// What the system says of an error, without the number that std puts after it.
fn say_error<P: Print>(to: &P, error: &io::Error) {
    let mut text = Cursor::new([0u8; TEXT_BYTES]);
    let _ = write!(text, "{error}");
    let room = text.into_inner();
    let line = str::from_utf8(&room).unwrap_or("").trim_end_matches('\0');
    let words = line
        .rsplit_once(" (os error ")
        .map_or(line, |(words, _)| words);
    let _ = to.write_all(words.as_bytes());
}

// Says on standard error why it failed.
pub fn say_failure<P: Print>(to: &P, error: &Error, what: &[u8]) {
    let _ = to.write_all(what);
    match error {
        Error::Refused(error) => {
            let _ = to.write_all(b": ");
            say_error(to, error);
            let _ = to.write_all(b"\n");
        }
        Error::Stalled => {
            let _ = to.write_all(b": nothing went through for a minute\n");
        }
    }
}

// What is written of a text, whatever the calls answer: nothing runs here.
#[tactic(auto, using(crate::proofs::WrittenParts::every_delivery))]
pub fn deliveries()
    ensures { EveryDelivery }
{}
