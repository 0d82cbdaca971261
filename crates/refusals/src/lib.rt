#![tactic(auto)]
// Why a copy is refused, and the six numbers that say so.
ghost use Rattle.std.specs.Prelude.{◌≡◌};
ghost use Rattle.refusals.specs.Numbers.{numbers_of, side_of, dimension_number, six};

use formats::TextureAspect;

// The numbers are those that a refusal is reported with.
#[derive(Clone, Copy, PartialEq, Eq)]
pub enum CopySide {
    Source = 1,
    Destination = 2,
}

#[derive(Clone, Copy)]
pub enum TextureErrorDimension {
    X = 1,
    Y = 2,
    Z = 3,
}

// What a device may lack.
#[derive(Clone, Copy)]
pub enum DownlevelFlags {
    DepthTextureAndBufferCopies,
    UnrestrictedIndexBuffer,
}

// wgpu-core's variants and details, but for what belongs to clears, external images and mapped buffers and for InvalidMipLevel, which is
// never met; with the planner's own: InvalidSheetIndex, InvalidTextureRecord, InvalidBufferRecord, RegionSliceTooShort.
// A missing usage has its side where the Rust names the resource. `end_offset` is start plus size, which the Rust wraps to 32 bits.
#[derive(Clone, Copy)]
pub enum TransferError {
    InvalidSheetIndex,
    InvalidTextureRecord {
        side: CopySide,
    },
    InvalidBufferRecord {
        side: CopySide,
    },
    SameSourceDestinationBuffer,
    MissingBufferUsage {
        side: CopySide,
    },
    MissingTextureUsage {
        side: CopySide,
    },
    BufferStartOffsetOverrun {
        start_offset: u64,
        buffer_size: u64,
        side: CopySide,
    },
    BufferEndOffsetOverrun {
        start_offset: u64,
        size: u64,
        buffer_size: u64,
        side: CopySide,
    },
    TextureOverrun {
        start_offset: u32,
        end_offset: u64,
        texture_size: u32,
        dimension: TextureErrorDimension,
        side: CopySide,
    },
    UnsupportedPartialTransfer {
        format: u32,
        sample_count: u32,
        start_offset: u32,
        end_offset: u64,
        texture_size: u32,
        dimension: TextureErrorDimension,
        side: CopySide,
    },
    InvalidCopyWithinSameTexture {
        src_aspects: TextureAspect,
        dst_aspects: TextureAspect,
        src_origin_z: u32,
        dst_origin_z: u32,
        array_layer_count: u32,
    },
    InvalidTextureAspect {
        format: u32,
        aspect: TextureAspect,
    },
    InvalidTextureMipLevel {
        level: u32,
        total: u32,
    },
    UnalignedBufferOffset(u64),
    UnalignedCopySize(u64),
    UnalignedCopyWidth,
    UnalignedCopyHeight,
    UnalignedCopyOriginX,
    UnalignedCopyOriginY,
    UnalignedBytesPerRow,
    UnspecifiedBytesPerRow,
    UnspecifiedRowsPerImage,
    InvalidBytesPerRow,
    InvalidRowsPerImage,
    SizeOverflow,
    CopySrcMissingAspects,
    CopyDstMissingAspects,
    CopyAspectNotOne,
    CopyFromForbiddenTextureFormat(u32),
    CopyFromForbiddenTextureFormatAspect {
        format: u32,
        aspect: TextureAspect,
    },
    CopyToForbiddenTextureFormat(u32),
    CopyToForbiddenTextureFormatAspect {
        format: u32,
        aspect: TextureAspect,
    },
    TextureFormatsNotCopyCompatible {
        src_format: u32,
        dst_format: u32,
    },
    MissingDownlevelFlags(DownlevelFlags),
    InvalidSampleCount {
        sample_count: u32,
    },
    SampleCountNotEqual {
        src_sample_count: u32,
        dst_sample_count: u32,
    },
    RegionSliceTooShort,
}

// A refusal as it is printed. By default it has no number and no detail.
#[derive(Clone, Copy, Default)]
pub struct Refusal {
    pub number: u32,
    pub side: u32,
    pub dimension: u32,
    pub start: u64,
    pub end: u64,
    pub limit: u64,
}

impl From<CopySide> for u32 {
    ghost from_gives = { λ side n. n ≡ side_of side };

    #[tactic(auto, unfolding(crate::specs::Numbers::side_of))]
    fn from(side: CopySide) -> u32 {
        side as u32
    }
}

impl From<TextureErrorDimension> for u32 {
    ghost from_gives = { λ dimension n. n ≡ dimension_number dimension };

    #[tactic(auto, unfolding(crate::specs::Numbers::dimension_number))]
    fn from(dimension: TextureErrorDimension) -> u32 {
        dimension as u32
    }
}

fn bare(number: u32) -> Refusal
    ensures { result ≡ six number 0 0 0 0 0 }
{
    numbered(number, 0)
}

fn numbered(number: u32, start: u64) -> Refusal
    ensures { result ≡ six number 0 0 start 0 0 }
{
    Refusal {
        number,
        start,
        ..Refusal::default()
    }
}

fn counted(number: u32, start: u32, end: u32, limit: u32) -> Refusal
    ensures { result ≡ six number 0 0 start end limit }
{
    Refusal {
        number,
        start: start as u64,
        end: end as u64,
        limit: limit as u64,
        ..Refusal::default()
    }
}

fn sided(number: u32, side: CopySide, start: u64, end: u64, limit: u64) -> Refusal
    ensures { result ≡ six number (side_of side) 0 start end limit }
{
    Refusal {
        number,
        side: u32::from(side),
        start,
        end,
        limit,
        ..Refusal::default()
    }
}

fn ranged(
    number: u32,
    side: CopySide,
    dimension: TextureErrorDimension,
    start: u32,
    end: u64,
    limit: u32,
) -> Refusal
    ensures { result ≡ six number (side_of side) (dimension_number dimension) start end limit }
{
    Refusal {
        number,
        side: u32::from(side),
        dimension: u32::from(dimension),
        start: start as u64,
        end,
        limit: limit as u64,
    }
}

// The number and the details of a refusal.
impl From<TransferError> for Refusal {
    ghost from_gives = { λ e r. r ≡ numbers_of e };

    #[tactic(auto, unfolding(crate::specs::Numbers::numbers_of))]
    fn from(e: TransferError) -> Refusal {
        match e {
            TransferError::InvalidSheetIndex => bare(1),
            TransferError::InvalidTextureRecord { side } => sided(2, side, 0, 0, 0),
            TransferError::InvalidBufferRecord { side } => sided(3, side, 0, 0, 0),
            TransferError::SameSourceDestinationBuffer => bare(4),
            TransferError::MissingBufferUsage { side } => sided(5, side, 0, 0, 0),
            TransferError::MissingTextureUsage { side } => sided(6, side, 0, 0, 0),
            TransferError::BufferStartOffsetOverrun {
                start_offset,
                buffer_size,
                side,
            } => sided(7, side, start_offset, 0, buffer_size),
            TransferError::BufferEndOffsetOverrun {
                start_offset,
                size,
                buffer_size,
                side,
            } => sided(8, side, start_offset, size, buffer_size),
            TransferError::TextureOverrun {
                start_offset,
                end_offset,
                texture_size,
                dimension,
                side,
            } => ranged(9, side, dimension, start_offset, end_offset, texture_size),
            TransferError::UnsupportedPartialTransfer {
                start_offset,
                end_offset,
                texture_size,
                dimension,
                side,
                ..
            } => ranged(10, side, dimension, start_offset, end_offset, texture_size),
            TransferError::InvalidCopyWithinSameTexture {
                src_origin_z,
                dst_origin_z,
                array_layer_count,
                ..
            } => counted(11, src_origin_z, dst_origin_z, array_layer_count),
            TransferError::InvalidTextureAspect { .. } => bare(12),
            TransferError::InvalidTextureMipLevel { level, total } => counted(13, level, 0, total),
            TransferError::UnalignedBufferOffset(offset) => numbered(14, offset),
            TransferError::UnalignedCopySize(size) => numbered(15, size),
            TransferError::UnalignedCopyWidth => bare(16),
            TransferError::UnalignedCopyHeight => bare(17),
            TransferError::UnalignedCopyOriginX => bare(18),
            TransferError::UnalignedCopyOriginY => bare(19),
            TransferError::UnalignedBytesPerRow => bare(20),
            TransferError::UnspecifiedBytesPerRow => bare(21),
            TransferError::UnspecifiedRowsPerImage => bare(22),
            TransferError::InvalidBytesPerRow => bare(23),
            TransferError::InvalidRowsPerImage => bare(24),
            TransferError::SizeOverflow => bare(25),
            TransferError::CopySrcMissingAspects => bare(26),
            TransferError::CopyDstMissingAspects => bare(27),
            TransferError::CopyAspectNotOne => bare(28),
            TransferError::CopyFromForbiddenTextureFormat(_) => bare(29),
            TransferError::CopyFromForbiddenTextureFormatAspect { .. } => bare(30),
            TransferError::CopyToForbiddenTextureFormat(_) => bare(31),
            TransferError::CopyToForbiddenTextureFormatAspect { .. } => bare(32),
            TransferError::TextureFormatsNotCopyCompatible { .. } => bare(33),
            TransferError::MissingDownlevelFlags(_) => bare(34),
            TransferError::InvalidSampleCount { sample_count } => counted(35, sample_count, 0, 0),
            TransferError::SampleCountNotEqual {
                src_sample_count,
                dst_sample_count,
            } => counted(36, src_sample_count, dst_sample_count, 0),
            TransferError::RegionSliceTooShort => bare(38),
        }
    }
}
