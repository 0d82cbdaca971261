#![tactic(auto)]
// Fields of decimal text, and lines of fields. What a field may hold goes by its kind, so that one reader reads every line.
ghost use Rattle.std.specs.Prelude.{◌≡◌, ◌+◌, ◌≤◌, None, length, drop, get_or};
ghost use Rattle.sheet_fields.specs.Codes.{rule_of};
ghost use Rattle.sheet_fields.specs.Field.{is_gap, token, plain, decimal_of, push_of, is_dash, token_of, field_of};
ghost use Rattle.sheet_fields.specs.Line.{line_values, no_line, line_of, separator_of};
ghost use Rattle.sheet_fields.specs.Laws.{FieldLaws};

// What a field may hold.
#[derive(Clone, Copy)]
pub enum FieldKind {
    Word,
    Long,
    WordOrDash,
    LongOrDash,
    Aspect,
    Fact,
    CopyKind,
    Count,
}

// How many values a line has room for.
pub const LINE_VALUES: usize = 16;

// The least and the largest value of a field, and whether `-` may stand there.
#[derive(Clone, Copy)]
pub struct Rule {
    pub least: u64,
    pub most: u64,
    pub dash: bool,
}

// A value, or none for `-`; and the place after the field.
#[derive(Clone, Copy)]
pub struct Field {
    pub value: Option<u64>,
    pub next: usize,
}

// A line's values, and the place after the line. A value is none where `-` stands; after the line's last field they are 0.
#[derive(Clone, Copy)]
pub struct Line {
    pub next: usize,
    pub values: [Option<u64>; LINE_VALUES],
}

impl Line {
    // What stands in a field, none for `-`; 0 past the line's last field, and none where a line has no room for more.
    pub fn value(self, i: usize) -> Option<u64>
        ensures { result ≡ get_or self.values i None }
    {
        *self.values.get(i)?
    }
}

// What is read where no line is.
#[tactic(auto, unfolding(crate::specs::Line::no_line))]
pub fn no_line() -> Line
    ensures { result ≡ no_line }
{
    Line {
        next: 0,
        values: [Some(0); LINE_VALUES],
    }
}

#[tactic(auto, unfolding(crate::specs::Codes::rule_of))]
fn rule_of(kind: FieldKind) -> Rule
    ensures { result ≡ rule_of kind }
{
    let (least, most) = match kind {
        FieldKind::Word | FieldKind::WordOrDash => (0, u64::from(u32::MAX)),
        FieldKind::Long | FieldKind::LongOrDash => (0, u64::MAX),
        FieldKind::Aspect => (0, 5),
        FieldKind::Fact => (0, 1),
        FieldKind::CopyKind => (1, 5),
        FieldKind::Count => (0, 256),
    };
    let dash = matches!(kind, FieldKind::WordOrDash | FieldKind::LongOrDash);
    Rule { least, most, dash }
}

#[tactic(auto, unfolding(crate::specs::Field::is_gap))]
fn is_gap(b: u8) -> bool
    ensures { result ≡ is_gap b }
{
    b == b' ' || b == b'\n'
}

// The place of the first gap from `at` on, or the end.
#[tactic(auto, using(crate::proofs::Scans::token_end, crate::proofs::Scans::token_gap, crate::proofs::Scans::token_on))]
fn gap_after(s: &[u8], at: usize) -> usize
    ensures { result ≡ at + length (token (drop at s.now)) }
{
    for i in at..s.len() {
        if is_gap(s[i]) {
            return i;
        }
    }
    at.max(s.len())
}

// The value with one digit more, if it is not above `high`.
#[tactic(auto, using(crate::proofs::Scans::push_letter, crate::proofs::Scans::push_over, crate::proofs::Scans::push_is), unfolding(crate::specs::Field::is_digit))]
fn push(v: u64, b: u8, high: u64) -> Option<u64>
    ensures { result ≡ push_of v b high }
{
    if !b.is_ascii_digit() {
        return None;
    }
    let w = v.checked_mul(10)?.checked_add(u64::from(b - b'0'))?;
    if w > high {
        return None;
    }
    Some(w)
}

// Not empty, and no zero leads other digits.
#[tactic(auto, using(crate::proofs::Scans::plain_none, crate::proofs::Scans::plain_one, crate::proofs::Scans::plain_many))]
fn is_plain(t: &[u8]) -> bool
    ensures { result ≡ plain t.now }
{
    match t {
        [] => false,
        [_] => true,
        [first, ..] => *first != b'0',
    }
}

#[tactic(auto, using(crate::proofs::Scans::scanned_all, crate::proofs::Scans::scanned_off, crate::proofs::Scans::decimal_ill, crate::proofs::Scans::decimal_is))]
fn read_decimal(t: &[u8], high: u64) -> Option<u64>
    ensures { result ≡ decimal_of high t.now }
{
    if !is_plain(t) {
        return None;
    }
    let mut v = 0;
    for b in t {
        v = push(v, *b, high)?;
    }
    Some(v)
}

#[tactic(auto, unfolding(crate::specs::Field::is_dash))]
fn is_dash(t: &[u8]) -> bool
    ensures { result ≡ is_dash t.now }
{
    t == b"-".as_slice()
}

#[tactic(auto, unfolding(crate::specs::Field::token_of, crate::specs::Field::not_below, conditions::specs::Conditions::stop_if))]
fn read_token(t: &[u8], rule: Rule, next: usize) -> Option<Field>
    ensures { result ≡ token_of t.now rule next }
{
    if rule.dash && is_dash(t) {
        return Some(Field { value: None, next });
    }
    let v = read_decimal(t, rule.most)?;
    if v < rule.least {
        return None;
    }
    Some(Field {
        value: Some(v),
        next,
    })
}

// The field at a place, which the byte `sep` has to follow.
#[tactic(auto, using(crate::proofs::Scans::field_past, crate::proofs::Scans::field_other, crate::proofs::Scans::field_token))]
pub fn read_field(s: &[u8], at: usize, kind: FieldKind, sep: u8) -> Option<Field>
    ensures { result ≡ field_of s.now at kind sep }
{
    let end = gap_after(s, at);
    if *s.get(end)? != sep {
        return None;
    }
    read_token(&s[at..end], rule_of(kind), end + 1)
}

#[tactic(auto, unfolding(crate::specs::Line::separator_of))]
fn separator(left: usize) -> u8
    ensures { result ≡ separator_of left }
{
    if left == 1 { b'\n' } else { b' ' }
}

// The line at a place, its fields by their kinds. Inlined: a call would copy the line, which is long.
#[inline(always)]
#[tactic(auto, using(crate::proofs::LineLaws::line_off, crate::proofs::LineLaws::line_all), unfolding(crate::specs::Line::line_of))]
pub fn read_line(s: &[u8], at: usize, kinds: &[FieldKind]) -> Option<Line>
    requires { length kinds.now ≤ line_values }
    ensures { result ≡ line_of s.now kinds.now at }
{
    let mut values = [Some(0); LINE_VALUES];
    let mut next = at;
    for (i, kind) in kinds.iter().enumerate() {
        let f = read_field(s, next, *kind, separator(kinds.len() - i))?;
        values[i] = f.value;
        next = f.next;
    }
    Some(Line { next, values })
}

#[tactic(auto, using(crate::proofs::Fits::field_laws))]
pub fn field_laws()
    ensures { FieldLaws }
{}
