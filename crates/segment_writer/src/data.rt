// Data segments: the staged sectors that a checkpoint places are written to new segments.
ghost use Rattle.std.specs.Prelude.{◌≡◌, ◌+◌, ◌*◌, ◌≤◌, length, OnOk, OnErr};
ghost use Rattle.pur_base.specs.Devices.{View};
ghost use Rattle.segment_codec.specs.declared.position.TheConstants.{STRIPES};
ghost use Rattle.world.specs.Ran.{Ran};
ghost use Rattle.world.specs.Shelf.{Stop, MayStop, LeavesOnly};
ghost use Rattle.segment_io.specs.declared.open.TheConstants.{RUN_ROOM};
ghost use Rattle.segment_io.specs.Lost.{LosesOnly};
ghost use Rattle.segment_writer.specs.Layout.{StaysClean};
ghost use Rattle.segment_writer.specs.DataPlacing.{MayBePlaced};
ghost use Rattle.segment_writer.specs.DataStoring.{IsOnData, OnData, ShowsMostOf, HasWrittenData, DataComesInTurn};
ghost use Rattle.segment_writer.specs.DataStanding.{DataStands};

use crate::content::{Filled, Headed};
use crate::sectors::fill_stripes;
use crate::whole::write_all;
use parity72::SHARD_BYTES;
use pur_base::{Lost, NoMemory, SEGMENT_SECTORS, Sector, SegmentFact};
use segment_codec::{Header, STRIPE_SECTORS, SegmentKind};
use segment_io::StripeData;
use std::alloc::Global;
use world::Shelf;

/// Data segments, and the staged sectors of these indices, 840 for each of them but the last.
#[derive(Drop)]
pub(crate) struct DataSegments<'a> {
    segments: &'a [SegmentFact],
    staged: &'a [Sector],
    order: &'a [u16],
    generation: u64,
}

impl<'a> Headed for DataSegments<'a> {
    ghost use Rattle.segment_writer.specs.DataStoring.{layout_of_data};

    ghost layout = { λ d. layout_of_data d.segments.now d.generation };

    ghost may_head = { λ d. Unit {0} };

    fn count(&self) -> usize {
        self.segments.len()
    }

    fn header(&self, number: usize) -> Header {
        let segment = &self.segments[number];
        Header {
            segment: segment.segment,
            generation: self.generation,
            kind: SegmentKind::Data,
            shard: 0,
            placed: segment.placed,
            tag: 0,
            part: 0,
            parts: 0,
            facts: 0,
            places: segment.places,
        }
    }
}

impl<'a> Filled for DataSegments<'a> {
    ghost use Rattle.segment_writer.specs.DataPlacing.{AreFilled, AreIndicesOf};
    ghost use Rattle.segment_writer.specs.DataStoring.{stripes_of_order, SectorsOf};

    ghost stripe_count = { λ d. stripes_of_order d.order.now };

    ghost holds = { λ d. SectorsOf d.staged.now d.order.now };

    ghost may_fill = { λ d. AreFilled d.segments.now (length d.order.now) × AreIndicesOf d.staged.now d.order.now };

    fn fill(&self, number: usize, stripes: &mut [StripeData]) -> usize {
        let start = SEGMENT_SECTORS as usize * number;
        let end = (start + SEGMENT_SECTORS as usize).min(self.order.len());
        let part = &self.order[start..end];
        let count = part.len().div_ceil(STRIPE_SECTORS as usize);
        fill_stripes(self.staged, part, &mut stripes[..count]);
        count
    }
}

/// Writes the staged sectors of these indices to new segments: the stripes, which are synced, and then the headers, which are synced.
/// All memory is taken before the first write. The buffers are lent and may be used again: 15 stripes, and 45 write units. A drive on which a call fails is lost.
pub fn write_data<S: Shelf>(
    alloc: Global,
    shelf: &mut S,
    segments: &[SegmentFact],
    staged: &[Sector],
    order: &[u16],
    generation: u64,
    stripes: &mut [StripeData],
    room: &mut [[u8; SHARD_BYTES]],
    lost: &mut Lost,
) -> Result<(), NoMemory>
    requires placed { MayBePlaced (S.shelf shelf.old) segments.now staged.now order.now }
    requires stripes { STRIPES ≤ length stripes.old }
    requires room { RUN_ROOM * STRIPES ≤ length room.old }
    ensures ran { Ran S.shelf S.shelf_rest (IsOnData segments.now) (OnData segments.now 0 (STRIPES + 1)) shelf.old shelf.new }
    ensures lost { LosesOnly (S.shelf shelf.old) (S.shelf shelf.new) lost.old.drives lost.new.drives }
    ensures written { (S.shelf shelf.old).honest → OnOk result (HasWrittenData (S.shelf shelf.new) segments.now generation lost.new.drives staged.now order.now) }
    // After it, whatever stop comes and whichever drives are missing, up to two of the nine of each segment, the sectors stand.
    ensures stand { (S.shelf shelf.old).honest → OnOk result ((stop : Stop) (view : View) → MayStop (S.shelf shelf.new) stop → ShowsMostOf stop.image segments.now lost.new.drives view → DataStands view segments.now staged.now order.now) }
    ensures clean { (S.shelf shelf.old).honest → OnOk result (StaysClean lost.new.drives (S.shelf shelf.old) (S.shelf shelf.new)) }
    // At every moment no header is there yet, or the sectors stand.
    ensures in_turn { (S.shelf shelf.old).honest → LeavesOnly (S.shelf shelf.old) (S.shelf shelf.new) (DataComesInTurn (S.shelf shelf.old) segments.now lost.new.drives staged.now order.now) }
    ensures err { OnErr result ((shelf.new ≡ shelf.old) × (lost.new ≡ lost.old)) }
{
    let new = DataSegments {
        segments,
        staged,
        order,
        generation,
    };
    write_all(alloc, shelf, &new, stripes, room, lost)
}
