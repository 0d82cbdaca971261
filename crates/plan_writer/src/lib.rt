#![tactic(auto)]
// Writes the regions left of a plan into a lent slice.
ghost use Rattle.std.specs.Prelude.{◌≡◌, ◌+◌, ◌*◌, ◌≤◌, length, [], None, unwrap_or};
ghost use Rattle.std.specs.Result.{result_map_both};
ghost use Rattle.std.proofs.lemmas.List.Edits.{sets};
ghost use Rattle.slices.specs.Put.{Put};
ghost use Rattle.plan_kinds.specs.declared.Plan.{Plan};
ghost use Rattle.plan_kinds.specs.Regions.{left_of, fields_of, region_numbers, behind_of, textures_with};
ghost use Rattle.plan_writer.specs.Writing.{numbers_left, behind_all, fits, slots_of, written_of, EveryEntry};

use plan_asked::Asked;
use plan_buffer_texture::BufferTexturePlan;
use plan_buffers::BufferPlan;
use plan_kinds::{Plan, Regions};
use plan_rows::Row;
use plan_textures::TexturePlan;
use refusals::TransferError;

#[tactic(auto, using(slices::proofs::Puts::put_copied))]
fn store_row(out: &mut [u64], at: usize, row: &Row) -> usize
    requires { at + length row.now ≤ length out.old }
    ensures { Put out.old out.new at row.now result }
{
    let numbers = row.as_slice();
    let next = at + numbers.len();
    out[at..next].copy_from_slice(numbers);
    next
}

// Nothing, where there is none.
#[tactic(auto, using(slices::proofs::Puts::put_none))]
fn store_answer(out: &mut [u64], at: usize, answer: Option<Row>) -> usize
    requires { at + length (unwrap_or answer []) ≤ length out.old }
    ensures { Put out.old out.new at (unwrap_or answer []) result }
{
    match answer {
        Some(row) => store_row(out, at, &row),
        None => at,
    }
}

// A plan between textures without its ranges: copied from plan to plan they would take most of the time.
#[derive(Clone, Copy)]
struct BarePlan(TexturePlan);

impl Regions for BarePlan {
    ghost held = { λ p. Plan.Textures (textures_with None p.0) };

    fn as_plan(self) -> Plan {
        Plan::Textures(TexturePlan {
            ranges: None,
            ..self.0
        })
    }

    #[tactic(auto, unfolding(plan_kinds::specs::Regions::left_of))]
    fn regions_left(self) -> u32 {
        self.0.left
    }

    fn next_row(self) -> Asked<Row, BarePlan> {
        let asked = self.0.next_row();
        let plan = BarePlan(TexturePlan {
            ranges: None,
            ..asked.plan
        });
        Asked {
            answer: asked.answer,
            plan,
        }
    }
}

// The regions left of a plan, and the plan after them. The loop tests how many are left itself: the compiler then knows that there is a next
// region, and its numbers stay in registers.
fn write_each<P: Regions>(plan: P, out: &mut [u64]) -> P
    requires { left_of (P.held plan) * fields_of (P.held plan) ≤ length out.old }
    ensures value { P.held result ≡ behind_all (left_of (P.held plan)) (P.held plan) }
    ensures out_after { out.new ≡ sets out.old 0 (numbers_left (P.held plan)) }
{
    let mut p = plan;
    let mut at: usize = 0;
    while p.regions_left() > 0 {
        let asked = p.next_row();
        at = store_answer(out, at, asked.answer);
        p = asked.plan;
    }
    p
}

// A plan of one kind, as it is written.
pub trait WriteRegions: Regions {
    // The numbers of each region.
    fn fields(self) -> u64
        ensures { result ≡ fields_of (Self.held self) };

    // The regions left, for which there is room, and the plan after them.
    fn write_left(self, out: &mut [u64]) -> Self
        requires { left_of (Self.held self) * fields_of (Self.held self) ≤ length out.old }
        ensures value { Self.held result ≡ behind_all (left_of (Self.held self)) (Self.held self) }
        ensures out_after { out.new ≡ sets out.old 0 (numbers_left (Self.held self)) }
    {
        write_each(self, out)
    }
}

impl WriteRegions for BufferPlan {
    #[tactic(auto, unfolding(plan_kinds::specs::Regions::fields_of))]
    fn fields(self) -> u64 {
        3
    }
}

impl WriteRegions for BufferTexturePlan {
    #[tactic(auto, unfolding(plan_kinds::specs::Regions::fields_of))]
    fn fields(self) -> u64 {
        12
    }
}

impl WriteRegions for TexturePlan {
    #[tactic(auto, unfolding(plan_kinds::specs::Regions::fields_of))]
    fn fields(self) -> u64 {
        15
    }

    fn write_left(self, out: &mut [u64]) -> TexturePlan {
        let behind = write_each(BarePlan(self), out);
        TexturePlan {
            ranges: self.ranges,
            ..behind.0
        }
    }
}

// The regions left, in sequence from the slice's start, and the plan after them; no number past them changes. Where the slice is too short, 38,
// and none at all.
#[tactic(auto, using(crate::proofs::Writes::product_fits), unfolding(crate::specs::Writing::fits, crate::specs::Writing::written_of, crate::specs::Writing::slots_of))]
pub fn write<P: WriteRegions>(plan: P, out: &mut [u64]) -> Result<P, TransferError>
    ensures value { result_map_both P.held (λ e. e) result ≡ written_of (P.held plan) (length out.old) }
    ensures out_after { out.new ≡ slots_of (P.held plan) out.old }
{
    if plan.regions_left() as u64 * plan.fields() > out.len() as u64 {
        return Err(TransferError::RegionSliceTooShort);
    }
    Ok(plan.write_left(out))
}

fn write_as_plan<P: WriteRegions>(plan: P, out: &mut [u64]) -> Result<Plan, TransferError>
    ensures value { result ≡ written_of (P.held plan) (length out.old) }
    ensures out_after { out.new ≡ slots_of (P.held plan) out.old }
{
    let behind = write(plan, out)?;
    Ok(behind.as_plan())
}

// The same for a plan of any kind.
pub fn write_regions(plan: Plan, out: &mut [u64]) -> Result<Plan, TransferError>
    ensures value { result ≡ written_of plan (length out.old) }
    ensures out_after { out.new ≡ slots_of plan out.old }
{
    match plan {
        Plan::Buffers(p) => write_as_plan(p, out),
        Plan::BufferTexture(p) => write_as_plan(p, out),
        Plan::Textures(p) => write_as_plan(p, out),
    }
}

// Where each number of each region stands: nothing runs here.
pub fn writer_laws()
    ensures { EveryEntry }
{}
