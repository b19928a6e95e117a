ghost use Rattle.std.specs.Prelude.{◌≡◌, None, Some, IfNone, IfSome};
ghost use Rattle.pur_base.specs.Visible.{segment, segments as visible_segments};
ghost use Rattle.pur_base.specs.declared.facts.SegmentFact.{SegmentFact};
ghost use Rattle.memory_spec.specs.Tables.{facts};

use crate::memory::Memory;
use pur_base::{Places, SegmentFact, SegmentId};

impl Memory {
    /// The visible data segments, by ascending id.
    pub fn segments(&self) -> &[SegmentFact]
        ensures segments { result.now ≡ self.now.segments }
        ensures said { visible_segments (facts self.now.memory.tables) self.now.memory.next.segment ≡ result.now }
    {
        self.segments.all()
    }

    /// The units of the visible data segment of an id, or `None` where there is none.
    pub fn places(&self, id: SegmentId) -> Option<Places>
        ensures some { IfSome result (λ places. (d : SegmentFact) × (segment (facts self.now.memory.tables) id.0 ≡ Some d) × (d.places ≡ places)) }
        ensures none { IfNone result (segment (facts self.now.memory.tables) id.0 ≡ None) }
    {
        self.segments.places(id)
    }
}
