#![tactic(auto)]
// A plan of any kind: its next region as a row of numbers.
ghost use Rattle.std.specs.Prelude.{◌≡◌};
ghost use Rattle.plan_kinds.specs.declared.Plan.{Plan};
ghost use Rattle.plan_kinds.specs.Regions.{left_of, checked_bytes_of, next_numbers, behind_of, next_of};

use plan_asked::Asked;
use plan_buffer_texture::BufferTexturePlan;
use plan_buffers::BufferPlan;
use plan_rows::Row;
use plan_textures::TexturePlan;

#[derive(Clone, Copy)]
pub enum Plan {
    Buffers(BufferPlan),
    BufferTexture(BufferTexturePlan),
    Textures(TexturePlan),
}

// A plan of one kind.
pub trait Regions: Copy {
    // The same as a plan of any kind.
    ghost held: { Self → Plan };

    fn as_plan(self) -> Plan
        ensures { result ≡ held self };

    fn regions_left(self) -> u32
        ensures { result ≡ left_of (held self) };

    // The next region as a row, none past the last, and the plan after it.
    fn next_row(self) -> Asked<Row, Self>
        ensures answer { result.answer ≡ next_numbers (held self) }
        ensures behind { held result.plan ≡ behind_of (held self) };
}

impl Regions for BufferPlan {
    ghost held = { λ p. Plan.Buffers p };

    fn as_plan(self) -> Plan {
        Plan::Buffers(self)
    }

    #[tactic(auto, unfolding(crate::specs::Regions::left_of))]
    fn regions_left(self) -> u32 {
        self.left
    }

    #[tactic(auto, using(crate::proofs::Numbers::mapped), unfolding(crate::specs::Regions::next_numbers, crate::specs::Regions::behind_of))]
    fn next_row(self) -> Asked<Row, BufferPlan> {
        let asked = self.next();
        Asked {
            answer: asked.answer.map(Row::from),
            plan: asked.plan,
        }
    }
}

impl Regions for BufferTexturePlan {
    ghost held = { λ p. Plan.BufferTexture p };

    fn as_plan(self) -> Plan {
        Plan::BufferTexture(self)
    }

    #[tactic(auto, unfolding(crate::specs::Regions::left_of))]
    fn regions_left(self) -> u32 {
        self.left
    }

    #[tactic(auto, using(crate::proofs::Numbers::mapped), unfolding(crate::specs::Regions::next_numbers, crate::specs::Regions::behind_of))]
    fn next_row(self) -> Asked<Row, BufferTexturePlan> {
        let asked = self.next();
        Asked {
            answer: asked.answer.map(Row::from),
            plan: asked.plan,
        }
    }
}

impl Regions for TexturePlan {
    ghost held = { λ p. Plan.Textures p };

    fn as_plan(self) -> Plan {
        Plan::Textures(self)
    }

    #[tactic(auto, unfolding(crate::specs::Regions::left_of))]
    fn regions_left(self) -> u32 {
        self.left
    }

    #[tactic(auto, using(crate::proofs::Numbers::mapped), unfolding(crate::specs::Regions::next_numbers, crate::specs::Regions::behind_of))]
    fn next_row(self) -> Asked<Row, TexturePlan> {
        let asked = self.next();
        Asked {
            answer: asked.answer.map(Row::from),
            plan: asked.plan,
        }
    }
}

#[tactic(auto, unfolding(crate::specs::Regions::next_of))]
fn next_as_plan<P: Regions>(plan: P) -> Asked<Row, Plan>
    ensures { result ≡ next_of (P.held plan) }
{
    let asked = plan.next_row();
    Asked {
        answer: asked.answer,
        plan: asked.plan.as_plan(),
    }
}

impl Plan {
    // How many regions are left.
    #[tactic(auto, unfolding(crate::specs::Regions::left_of))]
    pub fn left(self) -> u32
        ensures { result ≡ left_of self }
    {
        match self {
            Plan::Buffers(p) => p.left,
            Plan::BufferTexture(p) => p.left,
            Plan::Textures(p) => p.left,
        }
    }

    // The bytes that the copy was held to.
    #[tactic(auto, unfolding(crate::specs::Regions::checked_bytes_of))]
    pub fn bytes_checked(self) -> u64
        ensures { result ≡ checked_bytes_of self }
    {
        match self {
            Plan::Buffers(p) => p.bytes_checked,
            Plan::BufferTexture(p) => p.bytes_checked,
            Plan::Textures(_) => 0,
        }
    }

    // The next region as a row, and the plan after it; past the last none, and the plan as it is.
    pub fn next(self) -> Asked<Row, Plan>
        ensures { result ≡ next_of self }
    {
        match self {
            Plan::Buffers(p) => next_as_plan(p),
            Plan::BufferTexture(p) => next_as_plan(p),
            Plan::Textures(p) => next_as_plan(p),
        }
    }
}
