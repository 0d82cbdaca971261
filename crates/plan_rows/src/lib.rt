#![tactic(auto)]
// Regions, ranges and refusals as rows of numbers, as the listing and the lent slice have them.
ghost use Rattle.std.specs.Prelude.{◌≡◌, ◌≤◌, ◌+◌, ◌++◌, length};
ghost use Rattle.plan_rows.specs.Rows.{or_absent, base_numbers, size_numbers, buffer_copy_numbers, buffer_texture_copy_numbers, texture_copy_numbers, texture_range_numbers, buffer_range_numbers, refusal_numbers};

use plan_buffer_texture::BufferTextureCopy;
use plan_buffers::BufferCopy;
use plan_textures::TextureCopy;
use refusals::{Refusal, TransferError};
use rule_copy_range::CopyExtent;
use rule_init_ranges::{BufferInitRange, TextureInitRange};
use rule_selectors::TextureCopyBase;
use std::marker::Model;

// What stands for an absent value.
pub const ABSENT: u64 = u64::MAX;

// At most fifteen numbers, and zeros behind them. Contracts see their list.
#[derive(Clone, Copy)]
pub struct Row {
    count: usize,
    values: [u64; 15],
}

impl Model for Row {
    ghost use Rattle.std.specs.Prelude.{ℕ, ◌≡◌, ◌≤◌, ◌-◌, ◌++◌, List, take, drop, length, replicate};
    ghost use Rattle.std.proofs.Common.{arith, ap, sym, ◌∙◌, length-take-le, take-append-drop};

    ghost Value = { List ℕ };

    ghost view = { λ r. take r.count r.values };

    ghost invariant = { λ r. (r.count ≤ 15) × (length r.values ≡ 15) × (drop r.count r.values ≡ replicate (15 - r.count) 0) };

    ghost inverse = { λ ns. record { count = length ns; values = ns ++ replicate (15 - length ns) 0 } };

    ghost inverse_ok = { λ r h i. record {
      count = length-take-le r.count r.values (omega (arith, h.0, h.1)) i;
      values = (ap (λ n. take r.count r.values ++ replicate (15 - n) 0) (length-take-le r.count r.values (omega (arith, h.0, h.1))) ∙ (ap (λ l. take r.count r.values ++ l) (sym h.2) ∙ take-append-drop r.count r.values)) i;
    } };
}

impl Row {
    pub fn of<const N: usize>(numbers: [u64; N]) -> Row
        requires { N ≤ 15 }
        ensures { result ≡ numbers.entry }
    {
        let mut values = [0; 15];
        values[..N].copy_from_slice(&numbers);
        Row { count: N, values }
    }

    // Its numbers, and more after them.
    fn followed_by<const N: usize>(self, more: [u64; N]) -> Row
        requires { length self + N ≤ 15 }
        ensures { result ≡ self ++ more.entry }
    {
        let end = self.count + N;
        let mut values = self.values;
        values[self.count..end].copy_from_slice(&more);
        Row { count: end, values }
    }

    pub fn as_slice(&self) -> &[u64]
        ensures { result.now ≡ self.now }
    {
        &self.values[..self.count]
    }
}

// A value, or what stands for an absent one.
#[tactic(auto, using(crate::proofs::Absent::or_last))]
pub fn or_absent(value: Option<u32>) -> u64
    ensures { result ≡ or_absent value }
{
    measures::or_else(value, ABSENT)
}

fn base_numbers(b: TextureCopyBase) -> [u64; 6]
    ensures { result ≡ base_numbers b }
{
    [
        b.mip_level as u64,
        b.array_layer as u64,
        b.origin.x.0 as u64,
        b.origin.y.0 as u64,
        b.origin.z as u64,
        b.aspect.0 as u64,
    ]
}

fn size_numbers(e: CopyExtent) -> [u64; 3]
    ensures { result ≡ size_numbers e }
{
    [e.width.0 as u64, e.height.0 as u64, e.depth as u64]
}

impl From<BufferCopy> for Row {
    ghost from_gives = { λ r row. row ≡ buffer_copy_numbers r };

    #[tactic(auto, unfolding(crate::specs::Rows::buffer_copy_numbers))]
    fn from(r: BufferCopy) -> Row {
        Row::of([r.src_offset, r.dst_offset, r.size])
    }
}

impl From<BufferTextureCopy> for Row {
    ghost from_gives = { λ r row. row ≡ buffer_texture_copy_numbers r };

    #[tactic(auto, unfolding(crate::specs::Rows::buffer_texture_copy_numbers))]
    fn from(r: BufferTextureCopy) -> Row {
        let bytes = or_absent(r.bytes_per_row);
        let rows = or_absent(r.rows_per_image);
        Row::of([r.offset, bytes, rows])
            .followed_by(base_numbers(r.base))
            .followed_by(size_numbers(r.size))
    }
}

impl From<TextureCopy> for Row {
    ghost from_gives = { λ r row. row ≡ texture_copy_numbers r };

    #[tactic(auto, unfolding(crate::specs::Rows::texture_copy_numbers))]
    fn from(r: TextureCopy) -> Row {
        Row::of(base_numbers(r.src))
            .followed_by(base_numbers(r.dst))
            .followed_by(size_numbers(r.size))
    }
}

#[tactic(auto, unfolding(crate::specs::Rows::texture_range_numbers))]
pub fn texture_range_row(texture: u32, r: TextureInitRange) -> Row
    ensures { result ≡ texture_range_numbers texture r }
{
    Row::of([
        texture as u64,
        r.mip_level as u64,
        r.layers.start,
        r.layers.end,
        u32::from(r.kind) as u64,
    ])
}

#[tactic(auto, unfolding(crate::specs::Rows::buffer_range_numbers))]
pub fn buffer_range_row(buffer: u32, r: BufferInitRange) -> Row
    ensures { result ≡ buffer_range_numbers buffer r }
{
    Row::of([buffer as u64, r.start, r.end, u32::from(r.kind) as u64])
}

impl From<TransferError> for Row {
    ghost from_gives = { λ why row. row ≡ refusal_numbers why };

    #[tactic(auto, unfolding(crate::specs::Rows::refusal_numbers))]
    fn from(why: TransferError) -> Row {
        let n = Refusal::from(why);
        Row::of([
            n.number as u64,
            n.side as u64,
            n.dimension as u64,
            n.start,
            n.end,
            n.limit,
        ])
    }
}
