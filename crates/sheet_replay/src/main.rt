#![tactic(auto)]
// Reads a list of sheets, each with its listing, on standard input, and lists each sheet again: prints the items whose listing
// differs from the one on the list, and how many there are.
ghost use Rattle.std.specs.Prelude.{◌≡◌, true, MatchOption, ◌++◌, ◌+◌, ◌≤◌, ◌<◌, length};
ghost use Rattle.slices.specs.Put.{Put};
ghost use Rattle.sheet_text.specs.Text.{decimal};
ghost use Rattle.sheet_listing.specs.Listing.{rest_of, listing_of};
ghost use Rattle.sheet_replay.specs.Replay.{starts, same, SameLaw, differs, Compares, Differs, counts_of, item_of, head_of, list_bytes, replay_word, end_line, Replays, differs_text, counts_text, ill_text, message_text};

use sheet_fields::FieldKind;
use sheet_listing::{Filled, Listing};
use std::io::{Print, Read};

// Room for the list and a byte more, which tells that there is more.
const SPACE: usize = 262144;

// Room for any line that is printed.
const TEXT_BYTES: usize = 64;

// Where an item's sheet begins, where its listing does, and the place after it, in the rest of a list that begins with the item.
#[derive(Clone, Copy)]
pub struct Item {
    pub sheet: usize,
    pub listing: usize,
    pub next: usize,
}

// How many items were read, and how many differ.
#[derive(Clone, Copy)]
pub struct Counts {
    pub items: u64,
    pub differ: u64,
}

// An ill item, with the counts of those before it.
#[derive(Clone, Copy)]
pub struct IllItem {
    pub before: Counts,
}

// That `same` is equality: nothing runs here.
#[tactic(auto, using(crate::proofs::Bytes::same_law))]
pub fn same_law()
    ensures { SameLaw }
{}

// As much of the listing as a buffer holds, beside what is left of the record: none where they differ.
fn compare_some(st: Listing, s: &[u8], recorded: &[u8]) -> Option<Filled>
    ensures { MatchOption result (Differs (rest_of s.now st) recorded.now) (λ f. Compares (rest_of s.now st) (rest_of s.now f.listing) recorded.now f.count true) }
{
    let mut out = [0u8; 65536];
    let filled = sheet_listing::fill(st, s, &mut out);
    if !recorded.starts_with(&out[..filled.count]) {
        return None;
    }
    Some(filled)
}

// Whether the sheet's listing is the recorded one, byte by byte.
#[tactic(auto, using(crate::proofs::Lists::comparing_off, crate::proofs::Lists::comparing_inside, crate::proofs::Lists::comparing_on, crate::proofs::Lists::comparing_ends, crate::proofs::Lists::comparing_less))]
fn lists_as(s: &[u8], recorded: &[u8]) -> bool
    ensures { result ≡ same (listing_of s.now) recorded.now }
{
    let mut st = sheet_listing::start(s);
    let mut at: usize = 0;
    loop {
        let Some(part) = compare_some(st, s, &recorded[at..]) else {
            return false;
        };
        if part.count == 0 {
            return at == recorded.len();
        }
        at += part.count;
        st = part.listing;
    }
}

// A number, and a word after it.
fn put_counted(out: &mut [u8], at: usize, n: u64, word: &[u8]) -> usize
    requires { at + (20 + length word.now) ≤ length out.old }
    ensures { Put out.old out.new at (decimal n ++ word.now) result }
{
    let next = sheet_text::put_decimal(out, at, n);
    sheet_text::put_bytes(out, next, word)
}

fn put_differs(out: &mut [u8; TEXT_BYTES], k: u64) -> usize
    ensures { Put out.old out.new 0 (differs_text k) result }
{
    let next = sheet_text::put_bytes(out, 0, b"item ");
    put_counted(out, next, k, b" differs\n")
}

fn put_counts(out: &mut [u8; TEXT_BYTES], counts: Counts) -> usize
    ensures { Put out.old out.new 0 (counts_text counts.items counts.differ) result }
{
    let next = put_counted(out, 0, counts.items, b" sheets, ");
    put_counted(out, next, counts.differ, b" differ\n")
}

#[tactic(auto, unfolding(crate::specs::Replay::ill_text))]
fn put_ill(out: &mut [u8; TEXT_BYTES], k: u64) -> usize
    ensures { Put out.old out.new 0 (ill_text k) result }
{
    sheet_text::put_line(out, 0, b"ill list at item", false, &[k])
}

// A line that is printed: that an item differs, how many items were read and differ, or that an item is ill.
#[derive(Clone, Copy)]
pub enum Message {
    ItemDiffers(u64),
    ItemsRead(Counts),
    ItemIll(u64),
}

impl Message {
    #[tactic(auto, unfolding(crate::specs::Replay::message_text))]
    fn put(self, out: &mut [u8; TEXT_BYTES]) -> usize
        ensures { Put out.old out.new 0 (message_text self) result }
    {
        match self {
            Message::ItemDiffers(k) => put_differs(out, k),
            Message::ItemsRead(counts) => put_counts(out, counts),
            Message::ItemIll(k) => put_ill(out, k),
        }
    }
}

fn print<P: Print>(to: &P, message: Message) {
    let mut out = [0u8; TEXT_BYTES];
    let n = message.put(&mut out);
    let _ = to.write_all(&out[..n]);
}

// Whether item k differs, and then it is printed.
#[tactic(auto, unfolding(crate::specs::Replay::differs))]
fn check_item<P: Print>(to: &P, s: &[u8], recorded: &[u8], k: u64) -> bool
    ensures { result ≡ differs s.now recorded.now }
{
    if lists_as(s, recorded) {
        return false;
    }
    print(to, Message::ItemDiffers(k));
    true
}

// An item whose head ends at `first`, of n and m bytes, where so many bytes are there.
#[tactic(auto, unfolding(crate::specs::Replay::item_of, conditions::specs::Conditions::stop_if))]
fn fit_item(length: usize, first: usize, n: usize, m: usize) -> Option<Item>
    requires { first ≤ length }
    ensures { result ≡ item_of length first n m }
{
    if n > length - first {
        return None;
    }
    let listing = first + n;
    if m > length - listing {
        return None;
    }
    Some(Item {
        sheet: first,
        listing,
        next: listing + m,
    })
}

#[tactic(auto, unfolding(crate::specs::Replay::starts, crate::specs::Replay::replay_word))]
fn is_head(rest: &[u8]) -> bool
    ensures { result ≡ starts replay_word rest.now }
{
    rest.starts_with(b"sheet ")
}

// The item that the rest of a list begins with.
#[tactic(auto, unfolding(crate::specs::Replay::head_of, conditions::specs::Conditions::stop_if))]
fn read_head(rest: &[u8]) -> Option<Item>
    ensures { result ≡ head_of rest.now }
{
    if !is_head(rest) {
        return None;
    }
    let n = sheet_fields::read_field(rest, 6, FieldKind::Word, b' ')?;
    let m = sheet_fields::read_field(rest, n.next, FieldKind::Word, b'\n')?;
    let bytes = n.value.unwrap_or(0);
    let listed = m.value.unwrap_or(0);
    fit_item(rest.len(), m.next, bytes as usize, listed as usize)
}

// The last line, after which nothing stands.
#[tactic(auto, unfolding(crate::specs::Replay::same, crate::specs::Replay::end_line))]
fn is_end(rest: &[u8]) -> bool
    ensures { result ≡ same end_line rest.now }
{
    b"end\n".as_slice() == rest
}

fn replay<P: Print>(to: &P, s: &[u8]) -> Result<Counts, IllItem>
    requires { length s.now < list_bytes }
    ensures replays { Replays s.now 0 0 result }
    ensures result_in_bounds { (counts_of result).items ≤ length s.now }
{
    let mut rest = s;
    let mut counts = Counts {
        items: 0,
        differ: 0,
    };
    while !is_end(rest) {
        let Some(item) = read_head(rest) else {
            return Err(IllItem { before: counts });
        };
        counts.items += 1;
        let sheet = &rest[item.sheet..item.listing];
        let recorded = &rest[item.listing..item.next];
        if check_item(to, sheet, recorded, counts.items) {
            counts.differ += 1;
        }
        rest = &rest[item.next..];
    }
    Ok(counts)
}

fn print_verdict<P: Print>(to: &P, verdict: Result<Counts, IllItem>)
    requires { (counts_of verdict).items < list_bytes }
{
    match verdict {
        Ok(counts) => print(to, Message::ItemsRead(counts)),
        Err(ill) => print(to, Message::ItemIll(ill.before.items + 1)),
    }
}

// A list that fills the space may go on.
fn run<P: Print>(to: &P, s: &[u8]) {
    if s.len() >= SPACE {
        return print(to, Message::ItemIll(1));
    }
    print_verdict(to, replay(to, s))
}

// Reads until the room is full, the input ends or a read fails, and answers how many bytes were read.
fn read_full<R: Read>(input: &mut R, room: &mut [u8]) -> usize
    ensures { result ≤ length room.new }
{
    let mut done: usize = 0;
    while done < room.len() {
        let Ok(n) = input.read(&mut room[done..]) else {
            break;
        };
        if n == 0 {
            break;
        }
        done += n;
    }
    done
}

fn main(rt: HostRuntime) {
    let mut space = [0u8; SPACE];
    let n = read_full(&mut rt.stdin(), &mut space);
    run(&rt.stdout(), &space[..n]);
}
