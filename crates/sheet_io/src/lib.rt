#![tactic(auto)]
// How bytes go through a descriptor, in numbers: how many are left after each call of `read` or `write`, and whether to call again. The
// calls themselves are made by `sheet_calls`.
ghost use Rattle.std.specs.Prelude.{◌≡◌};
ghost use Rattle.sheet_io.specs.Progress.{start_of, answer_of, written_of, got_of, tries_of, has_failed, after_none, after_of, goes_on, place_of};
ghost use Rattle.sheet_io.specs.Output.{OutputLaws};

// How many calls in a row may move nothing.
pub const TRIES: u32 = 60000;

// The error of a call: it passes, as where the call was interrupted or would have had to wait, or it lasts.
#[derive(Clone, Copy)]
pub enum Failure {
    Passes,
    Lasts,
}

// What a call did: it moved some bytes, found that the input ends, moved none and may do better later, or failed.
#[derive(Clone, Copy)]
pub enum Answer {
    Moved(usize),
    End,
    Again,
    Failed,
}

// Whether to go on: how many calls in a row may still move nothing; or that the input has ended, or that it has failed.
#[derive(Clone, Copy)]
pub enum Stage {
    Trying(u32),
    Ended,
    Failed,
}

// How many bytes are left to be moved, and whether to go on.
#[derive(Clone, Copy)]
pub struct Progress {
    pub left: usize,
    pub stage: Stage,
}

// What a call with this outcome did, where `none` is what it means that it moved no bytes.
#[tactic(auto, unfolding(crate::specs::Progress::answer_of))]
fn decide(none: Answer, outcome: Result<usize, Failure>) -> Answer
    ensures { result ≡ answer_of none outcome }
{
    match outcome {
        Ok(0) => none,
        Ok(count) => Answer::Moved(count),
        Err(Failure::Passes) => Answer::Again,
        Err(Failure::Lasts) => Answer::Failed,
    }
}

// What a write did.
pub fn written(outcome: Result<usize, Failure>) -> Answer
    ensures { result ≡ written_of outcome }
{
    decide(Answer::Again, outcome)
}

// What a read did: it moves nothing where the input ends.
pub fn got(outcome: Result<usize, Failure>) -> Answer
    ensures { result ≡ got_of outcome }
{
    decide(Answer::End, outcome)
}

// Before the first call, with so many bytes to be moved.
#[tactic(auto, unfolding(crate::specs::Progress::start_of))]
pub fn begin(left: usize) -> Progress
    ensures { result ≡ start_of left }
{
    Progress {
        left,
        stage: Stage::Trying(TRIES),
    }
}

impl Stage {
    // How many calls in a row may still move nothing.
    pub fn tries(self) -> u32
        ensures { result ≡ tries_of self }
    {
        match self {
            Stage::Trying(tries) => tries,
            _ => 0,
        }
    }

    pub fn has_failed(self) -> bool
        ensures { result ≡ has_failed self }
    {
        matches!(self, Stage::Failed)
    }
}

impl Progress {
    #[tactic(auto, unfolding(crate::specs::Progress::after_none))]
    fn after_none(self) -> Progress
        ensures { result ≡ after_none self }
    {
        let tries = self.stage.tries();
        let stage = if tries > 1 {
            Stage::Trying(tries - 1)
        } else {
            Stage::Failed
        };
        Progress { stage, ..self }
    }

    // After a call.
    #[tactic(auto, unfolding(crate::specs::Progress::after_of))]
    pub fn after(self, answer: Answer) -> Progress
        ensures { result ≡ after_of self answer }
    {
        match answer {
            Answer::Moved(n) => begin(self.left.saturating_sub(n)),
            Answer::Again => self.after_none(),
            Answer::End => Progress {
                stage: Stage::Ended,
                ..self
            },
            Answer::Failed => Progress {
                stage: Stage::Failed,
                ..self
            },
        }
    }

    // Whether there is a reason to call again.
    #[tactic(auto, unfolding(crate::specs::Progress::goes_on))]
    pub fn goes_on(self) -> bool
        ensures { result ≡ goes_on self }
    {
        self.left != 0 && self.stage.tries() > 0
    }

    // Where the bytes that are left begin, of so many.
    #[tactic(auto, unfolding(crate::specs::Progress::place_of))]
    pub fn place(self, count: usize) -> usize
        ensures { result ≡ place_of count self }
    {
        count.saturating_sub(self.left)
    }
}

// What calls do together, whatever each of them returns: nothing runs here.
#[tactic(auto, using(crate::proofs::OutputProofs::output_laws))]
pub fn output_laws()
    ensures { OutputLaws }
{}
