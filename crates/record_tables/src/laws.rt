// What is told of the next record's patches. Functions without code promise, as their contracts, laws of these definitions.
ghost use Rattle.record_tables.specs.Laws.{AddedAreNamed, AddedTakeTheUnits, HasFacts, HaveFacts, NextPatchesAreLawful, NextPatchesAreNamed, NextSegmentsAreSound};
ghost use Rattle.record_tables.specs.Units.{NoneIsTaken};

use array_memory::Plan;
use pur_base::Fact;
use pyramid::Patch;

/// The map of a record and its tables is one of which no units were taken yet.
pub fn none_is_taken()
    ensures { NoneIsTaken }
{}

/// The next record may say what it says of its patches.
pub fn next_patches_are_lawful()
    ensures { NextPatchesAreLawful }
{}

/// The new patches are named, and take their units in order.
pub fn added_are_named()
    ensures named { AddedAreNamed }
    ensures units { AddedTakeTheUnits }
{}

/// The next record names the patches of memory after the plan.
pub fn next_patches_are_named()
    ensures { NextPatchesAreNamed }
{}

/// The segments of the next record and of memory after the plan are sound.
pub fn next_segments_are_sound()
    ensures { NextSegmentsAreSound }
{}

/// A patch, if there is one, has facts.
fn has_facts<F: Fact + Drop>(patch: &Option<Patch<F>>)
    ensures { HasFacts patch.now }
{
    if let Some(patch) = patch {
        patch.facts();
    }
}

/// Each new patch of a plan has facts.
pub fn patches_have_facts(plan: &Plan)
    ensures { HaveFacts plan.now }
{
    has_facts(&plan.objects);
    has_facts(&plan.mediums);
    has_facts(&plan.addresses);
    has_facts(&plan.segment_facts);
    has_facts(&plan.elisions);
}
