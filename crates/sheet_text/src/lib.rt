#![tactic(auto)]
// Decimal numbers, words and lines as text. Each writer puts its text at a place of a slice and answers the place after it.
ghost use Rattle.std.specs.Prelude.{◌≡◌, ◌+◌, ◌*◌, ◌≤◌, ◌<◌, length};
ghost use Rattle.slices.specs.Put.{Put};
ghost use Rattle.sheet_text.specs.Text.{decimal, number_text, spaced, line_text, is_absent};

// The digit of a number below ten.
fn figure(n: u64) -> u8
    requires { n < 10 }
    ensures { result ≡ 48 + n }
{
    b'0' + n as u8
}

// The digits of a tenth of the number come first, then the last digit.
pub fn put_decimal(out: &mut [u8], at: usize, n: u64) -> usize
    requires { at + 20 ≤ length out.old }
    ensures { Put out.old out.new at (decimal n) result }
{
    if n < 10 {
        out[at] = figure(n);
        return at + 1;
    }
    let next = put_decimal(out, at, n / 10);
    out[next] = figure(n % 10);
    next + 1
}

// `-` is printed for the largest number, and only where a number may be absent.
#[tactic(auto, unfolding(crate::specs::Text::is_absent))]
fn is_absent(dash: bool, n: u64) -> bool
    ensures { result ≡ is_absent dash n }
{
    dash && n == u64::MAX
}

fn put_number(out: &mut [u8], at: usize, dash: bool, n: u64) -> usize
    requires { at + 20 ≤ length out.old }
    ensures { Put out.old out.new at (number_text dash n) result }
{
    if is_absent(dash, n) {
        out[at] = b'-';
        return at + 1;
    }
    put_decimal(out, at, n)
}

#[tactic(auto, using(slices::proofs::Puts::put_copied))]
pub fn put_bytes(out: &mut [u8], at: usize, word: &[u8]) -> usize
    requires { at + length word.now ≤ length out.old }
    ensures { Put out.old out.new at word.now result }
{
    let next = at + word.len();
    out[at..next].copy_from_slice(word);
    next
}

// Numbers, each after a space.
pub fn put_numbers(out: &mut [u8], at: usize, dash: bool, ns: &[u64]) -> usize
    requires { at + 21 * length ns.now ≤ length out.old }
    ensures { Put out.old out.new at (spaced dash ns.now) result }
{
    let mut next = at;
    for n in ns {
        out[next] = b' ';
        next = put_number(out, next + 1, dash, *n);
    }
    next
}

// A line: a word, its numbers, a newline.
#[tactic(auto, using(crate::proofs::Puts::line_room))]
pub fn put_line(out: &mut [u8], at: usize, word: &[u8], dash: bool, ns: &[u64]) -> usize
    requires { at + (length word.now + (21 * length ns.now + 1)) ≤ length out.old }
    ensures { Put out.old out.new at (line_text word.now dash ns.now) result }
{
    let a = put_bytes(out, at, word);
    let b = put_numbers(out, a, dash, ns);
    out[b] = b'\n';
    b + 1
}
