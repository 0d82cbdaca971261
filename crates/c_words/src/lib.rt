#![tactic(auto)]
// Plans, ranges and refusals as words of 64 bits, which callers in other languages keep.
ghost use Rattle.std.proofs.Common.{rules};
ghost use Rattle.std.specs.Prelude.{◌≡◌, [], ◌∷◌, ◌++◌, replicate, length, ◌≤◌, ◌+◌, ◌-◌, ℕ, List, Some};
ghost use Rattle.c_words.specs.Words.{buffer_words, buffer_texture_words, texture_words, kind_word, buffer_range_words, range_words, layers_words, buffers_range_words, copy_range_words, texture_range_words, refused_words, details_words, answer_number, answer_plan, answer_ranges};

use plan_buffer_texture::BufferTexturePlan;
use plan_buffers::BufferPlan;
use plan_rows::Row;
use plan_textures::{TextureCopy, TexturePlan};
use refusals::{Refusal, TransferError};
use rule_init_ranges::{BufferInitRange, BufferInitRanges, MemoryInitKind, TextureInitRange};
use std::marker::Model;

// A range's kind, or 0 for none, its start and its end.
#[derive(Clone, Copy)]
struct RangeWords {
    kind: u64,
    start: u64,
    end: u64,
}

impl Model for RangeWords {
    ghost use Rattle.std.specs.Prelude.{[], ◌∷◌, ℕ, List, slice_index};

    ghost Value = { List ℕ };

    ghost view = { λ r. r.kind ∷ r.start ∷ r.end ∷ [] };

    ghost inverse = { λ l. record { kind = slice_index l 0; start = slice_index l 1; end = slice_index l 2 } };
}

const NO_RANGE: RangeWords = RangeWords {
    kind: 0,
    start: 0,
    end: 0,
};

fn kind_word(kind: MemoryInitKind) -> u64
    ensures { result ≡ kind_word kind }
{
    u32::from(kind) as u64 + 1
}

impl From<BufferInitRange> for RangeWords {
    ghost from_gives = { λ r words. words ≡ buffer_range_words r };

    fn from(r: BufferInitRange) -> RangeWords {
        RangeWords {
            kind: kind_word(r.kind),
            start: r.start,
            end: r.end,
        }
    }
}

impl From<TextureInitRange> for RangeWords {
    ghost from_gives = { λ r words. words ≡ layers_words r };

    fn from(r: TextureInitRange) -> RangeWords {
        RangeWords {
            kind: kind_word(r.kind),
            start: r.layers.start,
            end: r.layers.end,
        }
    }
}

#[tactic(auto, unfolding(crate::specs::Words::range_words))]
fn range_words(range: Option<BufferInitRange>) -> RangeWords
    ensures { result ≡ range_words range }
{
    range.map_or(NO_RANGE, RangeWords::from)
}

fn two_ranges(a: RangeWords, b: RangeWords) -> [u64; 6]
    ensures { result ≡ a ++ b }
{
    [a.kind, a.start, a.end, b.kind, b.start, b.end]
}

fn four_ranges(a: RangeWords, b: RangeWords, c: RangeWords, d: RangeWords) -> [u64; 12]
    ensures { result ≡ a ++ (b ++ (c ++ d)) }
{
    [
        a.kind, a.start, a.end, b.kind, b.start, b.end, c.kind, c.start, c.end, d.kind, d.start,
        d.end,
    ]
}

#[tactic(auto, unfolding(crate::specs::Words::copy_range_words))]
fn copy_ranges(ranges: (TextureInitRange, BufferInitRanges)) -> [u64; 12]
    ensures { result ≡ copy_range_words (Some ranges) }
{
    let (t, b) = ranges;
    four_ranges(
        RangeWords::from(t),
        range_words(b.head),
        range_words(b.whole),
        range_words(b.tail),
    )
}

#[tactic(auto, unfolding(crate::specs::Words::texture_range_words))]
fn texture_ranges(ranges: (TextureInitRange, TextureInitRange)) -> [u64; 6]
    ensures { result ≡ texture_range_words (Some ranges) }
{
    let (s, d) = ranges;
    two_ranges(RangeWords::from(s), RangeWords::from(d))
}

// A refusal's details after a 0, for no region left, and zeros after them.
fn refusal_words<const N: usize>(n: Refusal) -> [u64; N]
    requires { 6 ≤ N }
    ensures { result ≡ details_words n (replicate (N - 6) 0) }
{
    let mut words = [0; N];
    words[1] = n.side as u64;
    words[2] = n.dimension as u64;
    words[3] = n.start;
    words[4] = n.end;
    words[5] = n.limit;
    words
}

// Three words of a plan, and a region's numbers after them.
fn words_of<const N: usize>(head: [u64; 3], region: Row) -> [u64; N]
    requires { N ≡ 3 + length region }
    ensures { result ≡ head ++ region }
{
    let mut words = [0; N];
    let (first, rest) = words[..].split_at_mut(3);
    first.copy_from_slice(&head);
    rest.copy_from_slice(region.as_slice());
    words
}

// A plan of N words, whose ranges are M words.
pub trait Words<const N: usize, const M: usize> {
    ghost plan: { Self → List ℕ };

    ghost ranges: { Self → List ℕ };

    fn plan_words(self) -> [u64; N]
        ensures { result ≡ plan self };

    fn ranges_words(self) -> [u64; M]
        ensures { result ≡ ranges self };

    // A refusal's details and the 0 before them are six words.
    ghost room: { 6 ≤ N };
}

impl Words<6, 6> for BufferPlan {
    ghost plan = { buffer_words };

    ghost ranges = { buffers_range_words };

    #[tactic(auto, unfolding(crate::specs::Words::buffer_words))]
    fn plan_words(self) -> [u64; 6] {
        let region = self.region;
        [
            self.left as u64,
            self.bytes_checked,
            region.src_offset,
            region.dst_offset,
            region.size,
            0,
        ]
    }

    #[tactic(auto, unfolding(crate::specs::Words::buffers_range_words))]
    fn ranges_words(self) -> [u64; 6] {
        two_ranges(range_words(self.dst_range), range_words(self.src_range))
    }

    ghost room = { Prim.search rules };
}

impl Words<15, 12> for BufferTexturePlan {
    ghost plan = { buffer_texture_words };

    ghost ranges = { λ p. copy_range_words p.ranges };

    #[tactic(auto, unfolding(crate::specs::Words::buffer_texture_words, plan_rows::specs::Rows::buffer_texture_copy_numbers))]
    fn plan_words(self) -> [u64; 15] {
        let head = [self.left as u64, self.bytes_checked, self.stride];
        words_of(head, Row::from(self.region))
    }

    #[tactic(auto, unfolding(crate::specs::Words::copy_range_words))]
    fn ranges_words(self) -> [u64; 12] {
        self.ranges.map_or([0; 12], copy_ranges)
    }

    ghost room = { Prim.search rules };
}

impl Words<18, 6> for TexturePlan {
    ghost plan = { texture_words };

    ghost ranges = { λ p. texture_range_words p.ranges };

    #[tactic(auto, unfolding(crate::specs::Words::texture_words, plan_rows::specs::Rows::texture_copy_numbers))]
    fn plan_words(self) -> [u64; 18] {
        let head = [self.left as u64, u64::from(self.parts), self.part as u64];
        let layer = TextureCopy {
            src: self.src,
            dst: self.dst,
            size: self.size,
        };
        words_of(head, Row::from(layer))
    }

    #[tactic(auto, unfolding(crate::specs::Words::texture_range_words))]
    fn ranges_words(self) -> [u64; 6] {
        self.ranges.map_or([0; 6], texture_ranges)
    }

    ghost room = { Prim.search rules };
}

// 0 for an accepted copy, else the refusal's number; the plan and the ranges, or the refusal's details and zeros.
#[tactic(auto, unfolding(crate::specs::Words::answer_number, crate::specs::Words::answer_plan, crate::specs::Words::answer_ranges))]
pub fn put<P: Words<N, M> + Copy, const N: usize, const M: usize>(
    answer: Result<P, TransferError>,
    plan: &mut [u64; N],
    ranges: &mut [u64; M],
) -> u32
    ensures value { result ≡ answer_number answer }
    ensures plan_after { plan.new ≡ answer_plan P.plan N answer }
    ensures ranges_after { ranges.new ≡ answer_ranges P.ranges M answer }
{
    match answer {
        Ok(p) => {
            *plan = p.plan_words();
            *ranges = p.ranges_words();
            0
        },
        Err(why) => {
            let n = Refusal::from(why);
            *plan = refusal_words(n);
            ranges.fill(0);
            n.number
        },
    }
}
