#![tactic(auto)]
// What is written, printed and handed to other languages of a plan is the regions that asking it gives. No code runs here: each
// function's contract is a claim, and the check asks for its proof.
ghost use Rattle.claim_region_output.specs.Asking.{EveryPlanEnds};
ghost use Rattle.claim_region_output.specs.Copies.{BufferCopies, BufferTextureCopies, EmptyCopies, TextureCopies};
ghost use Rattle.claim_region_output.specs.Written.{EveryPlanWrites};
ghost use Rattle.claim_region_output.specs.Printed.{EveryPlanPrints, EverySheetLists};
ghost use Rattle.claim_region_output.specs.Words.{EveryPlanSteps, EveryPlanWritesByWords};

pub fn asking_ends()
    ensures { EveryPlanEnds }
{}

pub fn regions_written()
    ensures { EveryPlanWrites }
{}

pub fn regions_printed()
    ensures { EveryPlanPrints }
{}

pub fn regions_listed()
    ensures { EverySheetLists }
{}

pub fn regions_asked_by_words()
    ensures { EveryPlanSteps }
{}

pub fn regions_written_by_words()
    ensures { EveryPlanWritesByWords }
{}

pub fn copies_reach_output()
    ensures buffers { BufferCopies }
    ensures buffer_texture { BufferTextureCopies }
    ensures empty { EmptyCopies }
    ensures textures { TextureCopies }
{}
