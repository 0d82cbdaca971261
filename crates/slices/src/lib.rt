#![tactic(auto)]
// What it means that numbers were put into a lent slice.
ghost use Rattle.slices.specs.Laws.{PutLaws};

// Asks the check for the laws of numbers put into a slice; nothing runs here.
pub fn put_laws()
    ensures { PutLaws }
{}
