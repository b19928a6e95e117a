ghost use Rattle.std.specs.Prelude.{◌≡◌, ◌<◌, length, IfSome};
ghost use Rattle.pyramid.specs.Layers.{patch_facts};
ghost use Rattle.table_plan.specs.Merging.{merged_facts, HasMergedFacts};

use pur_base::{AddressFact, ElisionFact, Fact, MediumFact, ObjectFact, SegmentFact};
use pyramid::Patch;

/// The patch that is to stand in the place of two neighbours of its table, or none where no fact is left.
#[derive(Drop)]
pub enum Merged {
    Object(Option<Patch<ObjectFact>>),
    Medium(Option<Patch<MediumFact>>),
    Address(Option<Patch<AddressFact>>),
    Segment(Option<Patch<SegmentFact>>),
    Elision(Option<Patch<ElisionFact>>),
}

/// The facts of a patch, or none where there is no patch.
pub fn facts_of<F: Fact + Drop>(patch: &Option<Patch<F>>) -> &[F]
    ensures facts { result.now ≡ patch_facts patch.now }
    ensures some { IfSome patch.now (λ facts. 0 < length facts) }
{
    match patch {
        Some(patch) => patch.facts(),
        None => &[],
    }
}

impl Merged {
    /// How many facts it has: so many are written, and where there is a patch it has some.
    pub fn len(&self) -> usize
        ensures facts { result ≡ length (merged_facts self.now) }
        ensures some { HasMergedFacts self.now }
    {
        match self {
            Merged::Object(patch) => facts_of(patch).len(),
            Merged::Medium(patch) => facts_of(patch).len(),
            Merged::Address(patch) => facts_of(patch).len(),
            Merged::Segment(patch) => facts_of(patch).len(),
            Merged::Elision(patch) => facts_of(patch).len(),
        }
    }
}
