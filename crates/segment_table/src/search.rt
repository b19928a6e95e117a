ghost use Rattle.std.specs.Prelude.{◌≡◌, ◌≢◌, IfSome, IfNone, All, Contains};
ghost use Rattle.pur_base.specs.Says.{Ascends};
ghost use Rattle.pur_base.specs.Facts.{segment_key};

use pur_base::{SegmentFact, SegmentId};

/// The segment of an id, or `None` where none has it.
pub fn find(segments: &[SegmentFact], id: SegmentId) -> Option<SegmentFact>
    requires { Ascends segment_key segments.now }
    ensures some { IfSome result (λ d. Contains segments.now d × (d.segment.0 ≡ id.0)) }
    ensures none { IfNone result (All (λ d. d.segment.0 ≢ id.0) segments.now) }
{
    let at = segments.partition_point(|segment| segment.segment.0 < id.0);
    match segments.get(at) {
        Some(segment) => if segment.segment == id {
            Some(*segment)
        } else {
            None
        },
        None => None,
    }
}
