ghost use Rattle.std.specs.Prelude.{◌≡◌, ◌+◌, ◌*◌, ◌<◌, ◌^◌, length, IfOk};
ghost use Rattle.std.specs.Int.{div_ceil};
ghost use Rattle.table_plan.specs.Segments.{segments_from};

use pur_base::{NoMemory, Places, SEGMENT_SECTORS, SegmentFact, SegmentId, Seq};
use std::alloc::Global;

/// How many segments so many sectors take.
pub fn segments_for(sectors: usize) -> usize
    ensures { result ≡ div_ceil sectors SEGMENT_SECTORS }
{
    sectors.div_ceil(usize::from(SEGMENT_SECTORS))
}

/// The facts of new segments on these places, of which all but the last are full, from an id and a number on.
pub fn new_segments(
    alloc: Global,
    first: u64,
    number: u64,
    sectors: usize,
    places: &[Places],
) -> Result<Vec<SegmentFact>, NoMemory>
    requires ids { first + length places.now < 2 ^ 64 }
    requires numbers { number + length places.now < 2 ^ 64 }
    requires sectors { div_ceil sectors SEGMENT_SECTORS ≡ length places.now }
    ensures { IfOk result (λ v. v.items ≡ segments_from first number sectors places.now) }
{
    let mut out = Vec::with_capacity(alloc, places.len())?;
    let mut left = sectors;
    for (i, units) in places.iter().enumerate() {
        let placed = left.min(usize::from(SEGMENT_SECTORS));
        out.push(SegmentFact {
            segment: SegmentId(first + i as u64),
            places: *units,
            placed: placed as u16,
            seq: Seq(number + i as u64),
        })?;
        left -= placed;
    }
    Ok(out)
}
