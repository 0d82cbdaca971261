#![tactic(auto)]
// What a plan gives that is asked for its next region.

// The next region, or none past the last, and the plan after it.
#[derive(Clone, Copy)]
pub struct Asked<A, P> {
    pub answer: Option<A>,
    pub plan: P,
}
