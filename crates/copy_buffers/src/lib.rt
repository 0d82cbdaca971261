#![tactic(auto)]
// `copy_buffer_to_buffer` of command/transfer.rs, as a plan.
ghost use Rattle.std.specs.Prelude.{◌≡◌, ◌-◌, ◌≤◌};
ghost use Rattle.measures.specs.Measure.{multiple};
ghost use Rattle.copy_buffers.specs.Plan.{size_or, is_shared, lacks_index_fact, buffer_to_buffer};
ghost use Rattle.copy_buffers.specs.Stages.{fitting_copy, sized_copy, usable_copy};
ghost use Rattle.copy_buffers.specs.Laws.{EveryCopyLaw};

use flags::BufferUsages;
use plan_buffers::BufferPlan;
use records::{Buffer, Device};
use refusals::{CopySide, DownlevelFlags, TransferError};

// Offsets and size are multiples of this.
const COPY_BUFFER_ALIGNMENT: u64 = 4;

#[tactic(auto, unfolding(crate::specs::Plan::size_or))]
fn size_or(size: Option<u64>, left: u64) -> u64
    ensures { result ≡ size_or size left }
{
    size.unwrap_or(left)
}

#[tactic(auto, unfolding(crate::specs::Plan::is_shared))]
fn is_shared(usage: BufferUsages) -> bool
    ensures { result ≡ is_shared usage.0 }
{
    usage.contains(BufferUsages::VERTEX)
        | usage.contains(BufferUsages::UNIFORM)
        | usage.contains(BufferUsages::INDIRECT)
        | usage.contains(BufferUsages::STORAGE)
}

#[tactic(auto, unfolding(crate::specs::Plan::lacks_index_fact))]
fn lacks_index_fact(device: Device, src: BufferUsages, dst: BufferUsages) -> bool
    ensures { result ≡ lacks_index_fact device src.0 dst.0 }
{
    let index = src.contains(BufferUsages::INDEX) | dst.contains(BufferUsages::INDEX);
    let shared = is_shared(src) | is_shared(dst);
    !device.unrestricted_index_buffer & index & shared
}

#[tactic(auto, unfolding(measures::specs::Measure::multiple))]
fn is_aligned(n: u64) -> bool
    ensures { result ≡ multiple n 4 }
{
    n % COPY_BUFFER_ALIGNMENT == 0
}

// Either side of a copy: a buffer, the index by which it is told from the other, and where in it the copy begins.
#[derive(Clone, Copy)]
pub struct BufferSide {
    pub index: u32,
    pub buffer: Buffer,
    pub offset: u64,
}

// A copy between buffers whose records were checked.
#[derive(Clone, Copy)]
struct Transfer {
    device: Device,
    src: BufferSide,
    dst: BufferSide,
    size: Option<u64>,
}

impl Transfer {
    #[tactic(auto, using(refusals::proofs::Stages::copied), unfolding(crate::specs::Stages::fitting_copy))]
    fn fitting(&self, bytes: u64) -> Result<BufferPlan, TransferError>
        requires { self.now.src.offset ≤ self.now.src.buffer.size }
        ensures { result ≡ fitting_copy self.now.src self.now.dst bytes }
    {
        if bytes > self.src.buffer.size - self.src.offset {
            return Err(TransferError::BufferEndOffsetOverrun {
                start_offset: self.src.offset,
                size: bytes,
                buffer_size: self.src.buffer.size,
                side: CopySide::Source,
            });
        }
        if self.dst.offset > self.dst.buffer.size {
            return Err(TransferError::BufferStartOffsetOverrun {
                start_offset: self.dst.offset,
                buffer_size: self.dst.buffer.size,
                side: CopySide::Destination,
            });
        }
        if bytes > self.dst.buffer.size - self.dst.offset {
            return Err(TransferError::BufferEndOffsetOverrun {
                start_offset: self.dst.offset,
                size: bytes,
                buffer_size: self.dst.buffer.size,
                side: CopySide::Destination,
            });
        }
        Ok(plan_buffers::plan_of(self.src.offset, self.dst.offset, bytes))
    }

    #[tactic(auto, using(refusals::proofs::Stages::copied), unfolding(crate::specs::Stages::sized_copy))]
    fn sized(&self, bytes: u64) -> Result<BufferPlan, TransferError>
        requires { self.now.src.offset ≤ self.now.src.buffer.size }
        ensures { result ≡ sized_copy self.now.device self.now.src self.now.dst bytes }
    {
        if !is_aligned(bytes) {
            return Err(TransferError::UnalignedCopySize(bytes));
        }
        if !is_aligned(self.src.offset) {
            return Err(TransferError::UnalignedBufferOffset(self.src.offset));
        }
        if !is_aligned(self.dst.offset) {
            return Err(TransferError::UnalignedBufferOffset(self.dst.offset));
        }
        if lacks_index_fact(self.device, self.src.buffer.usage, self.dst.buffer.usage) {
            return Err(TransferError::MissingDownlevelFlags(
                DownlevelFlags::UnrestrictedIndexBuffer,
            ));
        }
        self.fitting(bytes)
    }

    // An absent size is what is left of the source.
    #[tactic(auto, using(refusals::proofs::Stages::copied))]
    fn usable(&self) -> Result<BufferPlan, TransferError>
        ensures { result ≡ usable_copy self.now.device self.now.src self.now.dst self.now.size }
    {
        if self.src.index == self.dst.index {
            return Err(TransferError::SameSourceDestinationBuffer);
        }
        if !self.src.buffer.usage.contains(BufferUsages::COPY_SRC) {
            return Err(TransferError::MissingBufferUsage {
                side: CopySide::Source,
            });
        }
        if !self.dst.buffer.usage.contains(BufferUsages::COPY_DST) {
            return Err(TransferError::MissingBufferUsage {
                side: CopySide::Destination,
            });
        }
        if self.src.offset > self.src.buffer.size {
            return Err(TransferError::BufferStartOffsetOverrun {
                start_offset: self.src.offset,
                buffer_size: self.src.buffer.size,
                side: CopySide::Source,
            });
        }
        self.sized(size_or(self.size, self.src.buffer.size - self.src.offset))
    }
}

// The plan of a copy between two buffers, or its refusal.
pub fn copy_buffer_to_buffer(
    device: Device,
    src: BufferSide,
    dst: BufferSide,
    size: Option<u64>,
) -> Result<BufferPlan, TransferError>
    ensures { result ≡ buffer_to_buffer device src.index src.buffer src.offset dst.index dst.buffer dst.offset size }
{
    records::check_buffer(src.buffer, CopySide::Source)?;
    records::check_buffer(dst.buffer, CopySide::Destination)?;
    let transfer = Transfer {
        device,
        src,
        dst,
        size,
    };
    transfer.usable()
}

// Asks the check for the law of an accepted copy; nothing runs here.
pub fn copy_laws()
    ensures { EveryCopyLaw }
{}
