#![tactic(auto)]
// `copy_buffer_to_texture` and `copy_texture_to_buffer` of command/transfer.rs, and the validation of `Queue::write_texture` of
// device/queue.rs in the order of the first, as plans.
ghost use Rattle.std.specs.Prelude.{◌≡◌, true, ◌+◌};
ghost use Rattle.rule_init_ranges.specs.Init.{src_texture_range, dst_texture_range};
ghost use Rattle.records.specs.Bounds.{buffer_in_bounds, texture_in_bounds};
ghost use Rattle.refusals.specs.Order.{checked};
ghost use Rattle.rule_linear_data.specs.Linear.{linear_checked};
ghost use Rattle.rule_formats.specs.Rules.{layout_checks};
ghost use Rattle.plan_buffer_texture.specs.Plan.{plan_of};
ghost use Rattle.copy_buffer_texture.specs.Plan.{lacks_depth_fact, lacks_copy_src, is_aligned, source_size, source_ranges, buffer_to_texture, memory_to_texture, texture_to_buffer};
ghost use Rattle.copy_buffer_texture.specs.Stages.{EndFits, part_checked, texture_range, upload_placed, upload_allowed, upload_ranged, upload_recorded, download_placed, download_allowed, download_ranged};
ghost use Rattle.copy_buffer_texture.specs.Laws.{source_in_bounds, EveryCopyLaw, EveryMemoryRefusal};

use flags::{BufferUsages, FormatAspects, TextureUsages};
use measures::Extent3d;
use plan_buffer_texture::{BufferTexturePlan, TexturePart};
use records::{Buffer, CheckedBuffer, CheckedSide, Device, TexelCopyBufferLayout, TextureSide};
use refusals::{CopySide, DownlevelFlags, TransferError};
use rule_init_ranges::{BufferInitRanges, BufferSpan, TextureInitRange};
use rule_linear_data::LinearData;

#[tactic(auto, unfolding(crate::specs::Plan::lacks_depth_fact))]
fn lacks_depth_fact(device: Device, format: u32) -> bool
    ensures { result ≡ lacks_depth_fact device format }
{
    formats::is_depth_stencil_format(format) & !device.depth_texture_and_buffer_copies
}

// What an upload reads: a buffer, or a block of memory of a length.
#[derive(Clone, Copy)]
pub enum UploadSource {
    Buffer(Buffer),
    Memory(u64),
}

fn lacks_copy_src(source: UploadSource) -> bool
    ensures { result ≡ lacks_copy_src source }
{
    match source {
        UploadSource::Buffer(b) => !b.usage.contains(BufferUsages::COPY_SRC),
        UploadSource::Memory(_) => false,
    }
}

fn is_aligned(source: UploadSource) -> bool
    ensures { result ≡ is_aligned source }
{
    matches!(source, UploadSource::Buffer(_))
}

fn source_size(source: UploadSource) -> u64
    ensures { result ≡ source_size source }
{
    match source {
        UploadSource::Buffer(b) => b.size,
        UploadSource::Memory(length) => length,
    }
}

fn source_ranges(source: UploadSource, offset: u64, info: LinearData) -> BufferInitRanges
    requires { EndFits source (offset + info.bytes_in_copy) }
    ensures { result ≡ source_ranges source offset info }
{
    match source {
        UploadSource::Buffer(_) => {
            let span = BufferSpan {
                offset,
                bytes: info.bytes_in_copy,
            };
            rule_init_ranges::handle_buffer_init(span, CopySide::Source, info.is_contiguous)
        }
        UploadSource::Memory(_) => BufferInitRanges {
            head: None,
            whole: None,
            tail: None,
        },
    }
}

// The part of the texture that is copied, where its range and its aspect are as they have to be.
fn texture_part(
    t: CheckedSide,
    side: CopySide,
    size: Extent3d,
) -> Result<TexturePart, TransferError>
    ensures { result ≡ part_checked t.side.view t.side.texture side size }
{
    let (extent, layers) = rule_copy_range::validate_texture_copy_range(t, side, size)?;
    let (_, base) = rule_selectors::extract_texture_selector(t.side, size)?;
    Ok(TexturePart {
        extent,
        layers,
        base,
    })
}

// A copy between linear bytes and a texture, either way: all but what holds the bytes.
#[derive(Clone, Copy)]
pub struct LinearTextureCopy {
    pub device: Device,
    pub layout: TexelCopyBufferLayout,
    pub texture: TextureSide,
    pub size: Extent3d,
}

impl LinearTextureCopy {
    fn check_layout(&self, aspects: FormatAspects, is_aligned: bool) -> Result<(), TransferError>
        ensures { result ≡ checked (layout_checks self.now.texture.view.aspect aspects.0 self.now.texture.texture self.now.layout is_aligned) }
    {
        rule_formats::validate_texture_buffer_copy(
            self.texture.view.aspect,
            aspects,
            self.texture.texture,
            self.layout,
            is_aligned,
        )
    }

    fn check_data(&self, bytes_side: CopySide, bytes: u64) -> Result<LinearData, TransferError>
        ensures { result ≡ linear_checked self.now.layout self.now.texture.texture.format self.now.texture.view.aspect bytes bytes_side self.now.size }
    {
        rule_linear_data::validate_linear_texture_data(
            self.layout,
            self.texture.texture.format,
            self.texture.view.aspect,
            bytes,
            bytes_side,
            self.size,
        )
    }

    // The texture's range, as it is read or written.
    #[tactic(auto, unfolding(crate::specs::Stages::texture_range))]
    fn texture_range(&self, texture_side: CopySide) -> TextureInitRange
        ensures { result ≡ texture_range texture_side self.now.texture.view self.now.texture.texture self.now.size }
    {
        match texture_side {
            CopySide::Source => rule_init_ranges::src_texture_range(self.texture, self.size),
            CopySide::Destination => rule_init_ranges::dst_texture_range(self.texture, self.size),
        }
    }

    fn plan(
        &self,
        texture_side: CopySide,
        part: TexturePart,
        info: LinearData,
        buffer: BufferInitRanges,
    ) -> BufferTexturePlan
        ensures { result ≡ plan_of self.now.layout self.now.size part.extent part.layers part.base info (texture_range texture_side self.now.texture.view self.now.texture.texture self.now.size) buffer }
    {
        let texture = self.texture_range(texture_side);
        plan_buffer_texture::plan_of(self.layout, self.size, part, info, texture, buffer)
    }
}

// A copy into a texture, whose records were checked.
#[derive(Clone, Copy)]
struct Upload {
    source: UploadSource,
    copy: LinearTextureCopy,
    ghost source_checked: { source_in_bounds source ≡ true },
}

impl Upload {
    #[tactic(auto, using(refusals::proofs::Stages::copied), unfolding(crate::specs::Stages::upload_placed))]
    fn placed(&self, part: TexturePart) -> Result<BufferTexturePlan, TransferError>
        ensures { result ≡ upload_placed self.now.source self.now.copy part }
    {
        let copy = self.copy;
        let info = copy.check_data(CopySide::Source, source_size(self.source))?;
        if lacks_depth_fact(copy.device, copy.texture.texture.format) {
            return Err(TransferError::MissingDownlevelFlags(
                DownlevelFlags::DepthTextureAndBufferCopies,
            ));
        }
        let buffer = source_ranges(self.source, copy.layout.offset, info);
        Ok(copy.plan(CopySide::Destination, part, info, buffer))
    }

    #[tactic(auto, using(refusals::proofs::Stages::copied), unfolding(crate::specs::Stages::upload_allowed))]
    fn allowed(&self, part: TexturePart) -> Result<BufferTexturePlan, TransferError>
        ensures { result ≡ upload_allowed self.now.source self.now.copy part }
    {
        let t = self.copy.texture;
        if lacks_copy_src(self.source) {
            return Err(TransferError::MissingBufferUsage {
                side: CopySide::Source,
            });
        }
        if !t.texture.usage.contains(TextureUsages::COPY_DST) {
            return Err(TransferError::MissingTextureUsage {
                side: CopySide::Destination,
            });
        }
        rule_formats::validate_texture_copy_dst_format(t.texture.format, t.view.aspect)?;
        let is_aligned = is_aligned(self.source);
        self.copy.check_layout(part.base.aspect, is_aligned)?;
        self.placed(part)
    }

    fn ranged(&self, t: CheckedSide) -> Result<BufferTexturePlan, TransferError>
        ensures { result ≡ upload_ranged self.now.source self.now.copy t.side }
    {
        let part = texture_part(t, CopySide::Destination, self.copy.size)?;
        self.allowed(part)
    }
}

fn copy_source_to_texture(
    source: UploadSource,
    copy: LinearTextureCopy,
) -> Result<BufferTexturePlan, TransferError>
    requires { source_in_bounds source ≡ true }
    ensures { result ≡ upload_recorded source copy }
{
    let t = records::check_texture(copy.texture, CopySide::Destination)?;
    let upload = Upload { source, copy };
    upload.ranged(t)
}

// The plan of a copy from a buffer into a texture, or its refusal.
pub fn copy_buffer_to_texture(
    b: Buffer,
    copy: LinearTextureCopy,
) -> Result<BufferTexturePlan, TransferError>
    ensures { result ≡ buffer_to_texture copy.device b copy.layout copy.texture.texture copy.texture.view copy.size }
{
    let b = records::check_buffer(b, CopySide::Source)?;
    copy_source_to_texture(UploadSource::Buffer(b.buffer), copy)
}

// The plan of a copy from a block of memory of a length into a texture, or its refusal.
pub fn copy_memory_to_texture(
    length: u64,
    copy: LinearTextureCopy,
) -> Result<BufferTexturePlan, TransferError>
    ensures { result ≡ memory_to_texture copy.device length copy.layout copy.texture.texture copy.texture.view copy.size }
{
    copy_source_to_texture(UploadSource::Memory(length), copy)
}

// A copy from a texture into a buffer, whose records were checked.
#[derive(Clone, Copy)]
struct Download {
    copy: LinearTextureCopy,
    b: CheckedBuffer,
}

impl Download {
    #[tactic(auto, using(refusals::proofs::Stages::copied), unfolding(crate::specs::Stages::download_placed))]
    fn placed(&self, part: TexturePart) -> Result<BufferTexturePlan, TransferError>
        ensures { result ≡ download_placed self.now.copy self.now.b.buffer part }
    {
        let copy = self.copy;
        let b = self.b.buffer;
        let info = copy.check_data(CopySide::Destination, b.size)?;
        if lacks_depth_fact(copy.device, copy.texture.texture.format) {
            return Err(TransferError::MissingDownlevelFlags(
                DownlevelFlags::DepthTextureAndBufferCopies,
            ));
        }
        if !b.usage.contains(BufferUsages::COPY_DST) {
            return Err(TransferError::MissingBufferUsage {
                side: CopySide::Destination,
            });
        }
        let span = BufferSpan {
            offset: copy.layout.offset,
            bytes: info.bytes_in_copy,
        };
        let direction = CopySide::Destination;
        let buffer = rule_init_ranges::handle_buffer_init(span, direction, info.is_contiguous);
        Ok(copy.plan(CopySide::Source, part, info, buffer))
    }

    #[tactic(auto, using(refusals::proofs::Stages::copied), unfolding(crate::specs::Stages::download_allowed))]
    fn allowed(&self, part: TexturePart) -> Result<BufferTexturePlan, TransferError>
        ensures { result ≡ download_allowed self.now.copy self.now.b.buffer part }
    {
        let TextureSide { texture: t, view } = self.copy.texture;
        if !t.usage.contains(TextureUsages::COPY_SRC) {
            return Err(TransferError::MissingTextureUsage {
                side: CopySide::Source,
            });
        }
        rule_formats::validate_texture_copy_src_format(t.format, view.aspect)?;
        self.copy.check_layout(part.base.aspect, true)?;
        self.placed(part)
    }

    fn ranged(&self, t: CheckedSide) -> Result<BufferTexturePlan, TransferError>
        ensures { result ≡ download_ranged self.now.copy self.now.b.buffer t.side }
    {
        let part = texture_part(t, CopySide::Source, self.copy.size)?;
        self.allowed(part)
    }
}

// The plan of a copy from a texture into a buffer, or its refusal.
pub fn copy_texture_to_buffer(
    copy: LinearTextureCopy,
    b: Buffer,
) -> Result<BufferTexturePlan, TransferError>
    ensures { result ≡ texture_to_buffer copy.device copy.texture.texture copy.texture.view b copy.layout copy.size }
{
    let t = records::check_texture(copy.texture, CopySide::Source)?;
    let b = records::check_buffer(b, CopySide::Destination)?;
    let download = Download { copy, b };
    download.ranged(t)
}

// Asks the check for the law of an accepted copy; nothing runs here.
pub fn copy_laws()
    ensures { EveryCopyLaw }
{}

// The same for the law of what a copy from memory is never refused for.
pub fn memory_laws()
    ensures { EveryMemoryRefusal }
{}
