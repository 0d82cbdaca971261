// Where the texture lines or the buffer lines of a sheet begin: as many as a sheet has room for.
ghost use Rattle.std.specs.Prelude.{◌≤◌};

use sheet_sections::{MAX_RECORDS, Part, Section};

#[derive(Clone, Copy)]
pub struct Places {
    pub starts: [usize; MAX_RECORDS],
    pub count: usize,
    pub ghost few: { count ≤ 64 },
}

impl Places {
    ghost use Rattle.std.specs.Prelude.{◌≡◌, min};
    ghost use Rattle.sheet_sections.specs.Rows.{places_of};
    ghost use Rattle.sheet_copies.specs.Answers.{starts_of};

    // The places of a section's lines. A good sheet has no more than there is room for.
    pub fn find(s: &[u8], section: Section, part: Part) -> Places
        ensures { starts_of result ≡ places_of s.now section (min part.count 64) part.first }
    {
        let count = part.count.min(MAX_RECORDS);
        let mut starts = [0; MAX_RECORDS];
        sheet_sections::find_places(s, section, count, part.first, &mut starts);
        Places { starts, count }
    }

    #[tactic(auto, unfolding(crate::specs::Answers::starts_of))]
    pub fn as_slice(&self) -> &[usize]
        ensures { result.now ≡ starts_of self.now }
    {
        &self.starts[..self.count]
    }
}
