#![tactic(auto)]
// The bytes that a copy takes in a buffer, or in memory: `validate_linear_texture_data` of command/transfer.rs.
ghost use Rattle.std.specs.Prelude.{◌≡◌, ◌+◌, ◌*◌, ◌≤◌};
ghost use Rattle.rule_linear_data.specs.Linear.{is_below, lacks, stacked as stacked_of, several_rows, several_images, is_contiguous_copy, data_of, row_stride_of, image_rows_of, block_bytes, dense_of, linear_checked};
ghost use Rattle.rule_linear_data.specs.Stages.{fitting, placed, measured, linear_staged};
ghost use Rattle.formats.specs.Laws.{max_block_bytes};
ghost use Rattle.rule_linear_data.specs.Laws.{EveryLinear};

use formats::TextureAspect;
use measures::{Blocks, Extent3d};
use records::TexelCopyBufferLayout;
use refusals::{CopySide, TransferError};

// What is copied, with nothing between rows: the bytes of a row, the rows of blocks, the images.
#[derive(Clone, Copy)]
pub struct Dense {
    pub row_bytes: u64,
    pub rows: Blocks,
    pub images: u64,
}

// How it lies in the buffer, or in memory.
#[derive(Clone, Copy)]
pub struct Span {
    pub row_stride: u64,
    pub image_stride: u64,
    pub image_bytes: u64,
    pub total: u64,
}

#[derive(Clone, Copy)]
pub struct LinearData {
    pub bytes_in_copy: u64,
    pub image_stride: u64,
    pub is_contiguous: bool,
}

// A stride for each item but the last, and the last, where 64 bits hold it.
fn stacked(items: u64, stride: u64, last: u64) -> Option<u64>
    ensures { result ≡ fitting (stacked_of items stride last) }
{
    if items == 0 {
        return Some(0);
    }
    let strides = (items - 1).checked_mul(stride)?;
    strides.checked_add(last)
}

#[tactic(auto, unfolding(crate::specs::Linear::is_below))]
fn is_below(value: Option<u32>, least: u64) -> bool
    ensures { result ≡ is_below value least }
{
    value.is_some_and(|n| (n as u64) < least)
}

#[tactic(auto, unfolding(crate::specs::Linear::lacks))]
fn is_lacking(value: Option<u32>, needed: bool) -> bool
    ensures { result ≡ lacks value needed }
{
    value.is_none() && needed
}

#[tactic(auto, unfolding(crate::specs::Linear::several_rows))]
fn several_rows(d: Dense) -> bool
    ensures { result ≡ several_rows d }
{
    (d.images > 1) | (d.rows.0 > 1)
}

#[tactic(auto, unfolding(crate::specs::Linear::several_images))]
fn several_images(d: Dense) -> bool
    ensures { result ≡ several_images d }
{
    d.images > 1
}

#[tactic(auto, unfolding(crate::specs::Linear::is_contiguous_copy))]
fn contiguous(d: Dense, s: Span) -> bool
    ensures { result ≡ is_contiguous_copy d s }
{
    let rows = (s.row_stride == d.row_bytes) | !several_rows(d);
    let images = (s.image_stride == s.image_bytes) | !several_images(d);
    rows & images
}

#[tactic(auto, unfolding(crate::specs::Linear::data_of))]
fn linear_data(d: Dense, s: Span) -> LinearData
    ensures { result ≡ data_of d s }
{
    LinearData {
        bytes_in_copy: s.total,
        image_stride: s.image_stride,
        is_contiguous: contiguous(d, s),
    }
}

// A copy's bytes and where they are to lie: how rows and images follow each other, and the size of the buffer, or the memory, on which side.
#[derive(Clone, Copy)]
struct LinearCopy {
    layout: TexelCopyBufferLayout,
    buffer_size: u64,
    side: CopySide,
    dense: Dense,
}

impl LinearCopy {
    #[tactic(auto, using(crate::proofs::Rules::sizes), unfolding(crate::specs::Stages::placed))]
    fn check_span(self, s: Span) -> Result<LinearData, TransferError>
        ensures { result ≡ placed self.layout self.buffer_size self.side self.dense s }
    {
        if is_lacking(self.layout.bytes_per_row, several_rows(self.dense)) {
            return Err(TransferError::UnspecifiedBytesPerRow);
        }
        if is_lacking(self.layout.rows_per_image, several_images(self.dense)) {
            return Err(TransferError::UnspecifiedRowsPerImage);
        }
        let offset = self.layout.offset;
        if offset > self.buffer_size {
            return Err(TransferError::BufferStartOffsetOverrun {
                start_offset: offset,
                buffer_size: self.buffer_size,
                side: self.side,
            });
        }
        if s.total > self.buffer_size - offset {
            return Err(TransferError::BufferEndOffsetOverrun {
                start_offset: offset,
                size: s.total,
                buffer_size: self.buffer_size,
                side: self.side,
            });
        }
        Ok(linear_data(self.dense, s))
    }

    fn measure(self, row_stride: u64, image_rows: u64) -> Result<LinearData, TransferError>
        ensures { result ≡ measured self.layout self.buffer_size self.side self.dense row_stride image_rows }
    {
        let d = self.dense;
        let image_stride = image_rows
            .checked_mul(row_stride)
            .ok_or(TransferError::SizeOverflow)?;
        let image_bytes = stacked(d.rows.0 as u64, row_stride, d.row_bytes).ok_or(
            TransferError::SizeOverflow,
        )?;
        let total = stacked(d.images, image_stride, image_bytes).ok_or(
            TransferError::SizeOverflow,
        )?;
        let span = Span {
            row_stride,
            image_stride,
            image_bytes,
            total,
        };
        self.check_span(span)
    }

    // The dense values stand for those that are absent.
    fn measure_given(self) -> Result<LinearData, TransferError>
        ensures { result ≡ measured self.layout self.buffer_size self.side self.dense (row_stride_of self.layout self.dense) (image_rows_of self.layout self.dense) }
    {
        let d = self.dense;
        let row_stride = measures::or_else(self.layout.bytes_per_row, d.row_bytes);
        let image_rows = measures::or_else(self.layout.rows_per_image, d.rows.0 as u64);
        self.measure(row_stride, image_rows)
    }

    #[tactic(auto, using(crate::proofs::Rules::sizes), unfolding(crate::specs::Stages::linear_staged))]
    fn check(self) -> Result<LinearData, TransferError>
        ensures { result ≡ linear_staged self.layout self.buffer_size self.side self.dense }
    {
        if is_below(self.layout.bytes_per_row, self.dense.row_bytes) {
            return Err(TransferError::InvalidBytesPerRow);
        }
        if is_below(self.layout.rows_per_image, self.dense.rows.0 as u64) {
            return Err(TransferError::InvalidRowsPerImage);
        }
        self.measure_given()
    }
}

fn block_bytes(format: u32, aspect: TextureAspect) -> u64
    ensures value { result ≡ block_bytes format aspect }
    ensures few { result ≤ max_block_bytes }
{
    measures::or_else(formats::block_copy_size(format, aspect), 0)
}

fn dense_of(format: u32, aspect: TextureAspect, size: Extent3d) -> Dense
    ensures { result ≡ dense_of format aspect size }
{
    let block = formats::block_dimensions(format);
    let width_blocks = size.width.in_blocks(block.width);
    Dense {
        row_bytes: (width_blocks.0 as u64) * block_bytes(format, aspect),
        rows: size.height.in_blocks(block.height),
        images: size.depth_or_array_layers as u64,
    }
}

pub fn validate_linear_texture_data(
    layout: TexelCopyBufferLayout,
    format: u32,
    aspect: TextureAspect,
    buffer_size: u64,
    buffer_side: CopySide,
    copy_size: Extent3d,
) -> Result<LinearData, TransferError>
    ensures { result ≡ linear_checked layout format aspect buffer_size buffer_side copy_size }
{
    let copy = LinearCopy {
        layout,
        buffer_size,
        side: buffer_side,
        dense: dense_of(format, aspect, copy_size),
    };
    copy.check()
}

// Asks the check for the laws of linear data; nothing runs here.
pub fn linear_laws()
    ensures { EveryLinear }
{}
