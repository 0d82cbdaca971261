#![tactic(auto)]
// What a book of what has been written says, over any sequence of updates. No code runs here: each function's contract is a claim, and the
// check asks for its proof.
ghost use Rattle.claim_book.specs.History.{EveryMark};
ghost use Rattle.claim_book.specs.Clearing.{EveryClearing};
ghost use Rattle.claim_book.specs.Answers.{EveryAnswer};
ghost use Rattle.claim_book.specs.Created.{EveryCreation};
ghost use Rattle.claim_book.specs.Filled.{EveryFilled};
ghost use Rattle.claim_book.specs.Numbers.{EveryNumber};
ghost use Rattle.claim_book.specs.LayerFour.{LayerFour};
ghost use Rattle.claim_book.specs.Fitting.{EveryFittingRange};

// A level and layer is marked exactly when some earlier applied range held it.
#[tactic(auto, using(crate::proofs::History::every_mark))]
pub fn marks()
    ensures { EveryMark }
{}

// An update writes the layers that have to be cleared.
#[tactic(auto, using(crate::proofs::Clearing::every_clearing))]
pub fn clearings()
    ensures { EveryClearing }
{}

// What an update of any book answers, and that a refusal changes nothing.
#[tactic(auto, using(crate::proofs::Answers::every_answer))]
pub fn update_answers()
    ensures { EveryAnswer }
{}

// A new book is of its texture, and nothing is marked.
#[tactic(auto, using(crate::proofs::Created::every_creation))]
pub fn creations()
    ensures { EveryCreation }
{}

// What a book says is written was written, and it is filled when all is.
#[tactic(auto, using(crate::proofs::Filled::every_filled))]
pub fn questions()
    ensures { EveryFilled }
{}

// A book's refusals are 2, 39 and 38.
#[tactic(auto, using(crate::proofs::Numbers::every_number))]
pub fn refusal_numbers()
    ensures { EveryNumber }
{}

// After a range that ends at layer 4 layer 4 is left, whether the next one begins at it or after it.
#[tactic(auto, using(crate::proofs::LayerFour::layer_four))]
pub fn layer_four()
    ensures { LayerFour }
{}

// The texture ranges of an accepted copy lie inside the book of their texture.
#[tactic(auto, using(crate::proofs::Fitting::every_fitting_range))]
pub fn copies_fit()
    ensures { EveryFittingRange }
{}
