#![tactic(auto)]
// The plan of a copy between buffers, asked for its region.
ghost use Rattle.std.specs.Prelude.{◌≡◌, ◌+◌, ◌^◌, ◌<◌};
ghost use Rattle.plan_buffers.specs.Plan.{plan_of};
ghost use Rattle.plan_buffers.specs.Asking.{next_of};

use plan_asked::Asked;
use rule_init_ranges::{BufferInitRange, MemoryInitKind};

// A region: what the encoder is handed.
#[derive(Clone, Copy)]
pub struct BufferCopy {
    pub src_offset: u64,
    pub dst_offset: u64,
    pub size: u64,
}

// The ranges in their order, the region, how many are left, and the bytes checked. The ranges come first: in an answer a refusal lies in
// the same place, and the compiler then takes the region apart at less cost.
#[derive(Clone, Copy)]
pub struct BufferPlan {
    pub dst_range: Option<BufferInitRange>,
    pub src_range: Option<BufferInitRange>,
    pub region: BufferCopy,
    pub left: u32,
    pub bytes_checked: u64,
}

// The plan of a copy that has passed its checks.
#[tactic(auto, unfolding(crate::specs::Plan::plan_of))]
pub fn plan_of(src_offset: u64, dst_offset: u64, size: u64) -> BufferPlan
    requires { (src_offset + size < 2 ^ 64) × (dst_offset + size < 2 ^ 64) }
    ensures { result ≡ plan_of src_offset dst_offset size }
{
    let empty = size == 0;
    let region = BufferCopy {
        src_offset,
        dst_offset,
        size,
    };
    let left = if empty { 0 } else { 1 };
    let dst_range = rule_init_ranges::range_unless(
        empty,
        dst_offset,
        dst_offset + size,
        MemoryInitKind::ImplicitlyInitialized,
    );
    let src_range = rule_init_ranges::range_unless(
        empty,
        src_offset,
        src_offset + size,
        MemoryInitKind::NeedsInitializedMemory,
    );
    BufferPlan {
        region,
        left,
        dst_range,
        src_range,
        bytes_checked: size,
    }
}

impl BufferPlan {
    // The next region and the plan after it; past the last none, and the plan as it is.
    #[tactic(auto, unfolding(crate::specs::Asking::advanced))]
    pub fn next(self) -> Asked<BufferCopy, BufferPlan>
        ensures { result ≡ next_of self }
    {
        match self.left.checked_sub(1) {
            Some(left) => Asked {
                answer: Some(self.region),
                plan: BufferPlan { left, ..self },
            },
            None => Asked {
                answer: None,
                plan: self,
            },
        }
    }
}
