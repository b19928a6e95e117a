// Patches: the facts of one table, sorted, are written to new segments.
ghost use Rattle.std.specs.Prelude.{◌≡◌, ◌+◌, ◌*◌, ◌≤◌, [], length, map, OnOk, OnErr};
ghost use Rattle.std.specs.Vec.{vec_capacity};
ghost use Rattle.pur_base.specs.Devices.{View};
ghost use Rattle.segment_codec.specs.declared.position.TheConstants.{STRIPES};
ghost use Rattle.array_spec.specs.Stored.{PatchStands};
ghost use Rattle.world.specs.Ran.{Ran};
ghost use Rattle.world.specs.Shelf.{Stop, MayStop, LeavesOnly};
ghost use Rattle.segment_io.specs.declared.open.TheConstants.{RUN_ROOM};
ghost use Rattle.segment_io.specs.Lost.{LosesOnly};
ghost use Rattle.segment_io.specs.Stripes.{bytes_of};
ghost use Rattle.segment_writer.specs.Layout.{StaysClean, AreAllOpen};
ghost use Rattle.segment_writer.specs.PatchStoring.{layout_of_patch, MayBeStored, MayBeHeaded, HoldsPatch, IsOnPatch, OnPatch, ShowsMostOf, HasWrittenPatch, PatchComesInTurn};

use crate::appending::append_all;
use crate::content::{Filled, Headed};
use crate::facts::fill_stripes;
use crate::limits::STRIPE_FACTS;
use crate::whole::write_all;
use boot_codec::{FACTS_PER_SEGMENT, Patch};
use fact_codec::PAGE_FACTS;
use parity72::SHARD_BYTES;
use patch_io::TableFact;
use pur_base::{Lost, NoMemory, SEGMENT_SECTORS, SegmentId};
use segment_codec::{Header, SegmentKind};
use segment_io::{Open, StripeData};
use std::alloc::Global;
use world::Shelf;

/// The segments of a patch, under headers of that generation.
#[derive(Drop)]
pub(crate) struct PatchHeads<'a, 'b> {
    pub(crate) patch: &'a Patch<'b>,
    pub(crate) generation: u64,
}

impl<'a, 'b> Headed for PatchHeads<'a, 'b> {
    ghost use Rattle.segment_writer.specs.PatchStoring.{layout_of_patch, HasItsSegments};

    ghost layout = { λ h. layout_of_patch h.patch.now h.generation };

    ghost may_head = { λ h. HasItsSegments h.patch.now };

    fn count(&self) -> usize {
        self.patch.segments.as_slice().len()
    }

    fn header(&self, number: usize) -> Header {
        let segments = self.patch.segments.as_slice();
        let segment = &segments[number];
        let pages = (self.patch.facts as usize).div_ceil(PAGE_FACTS);
        let placed = (pages - SEGMENT_SECTORS as usize * number).min(SEGMENT_SECTORS as usize);
        Header {
            segment: SegmentId(segment.id),
            generation: self.generation,
            kind: SegmentKind::Patch,
            shard: 0,
            placed: placed as u16,
            tag: self.patch.tag,
            part: number as u16,
            parts: segments.len() as u16,
            facts: self.patch.facts,
            places: segment.places,
        }
    }
}

/// The segments of a patch, and its facts.
#[derive(Drop)]
pub(crate) struct PatchSegments<'a, 'b, F> {
    pub(crate) heads: PatchHeads<'a, 'b>,
    pub(crate) facts: &'a [F],
}

impl<'a, 'b, F: TableFact> Headed for PatchSegments<'a, 'b, F> {
    ghost use Rattle.segment_writer.specs.PatchStoring.{layout_of_patch, HasItsSegments};

    ghost layout = { λ s. layout_of_patch s.heads.patch.now s.heads.generation };

    ghost may_head = { λ s. HasItsSegments s.heads.patch.now };

    fn count(&self) -> usize {
        self.heads.count()
    }

    fn header(&self, number: usize) -> Header {
        self.heads.header(number)
    }
}

impl<'a, 'b, F: TableFact> Filled for PatchSegments<'a, 'b, F> {
    ghost use Rattle.segment_writer.specs.PatchStoring.{stripes_of_facts, FactsOf, MayBeSpelled};

    ghost stripe_count = { λ s. stripes_of_facts (map F.any s.facts.now) };

    ghost holds = { λ s. FactsOf (map F.any s.facts.now) };

    ghost may_fill = { λ s. MayBeSpelled s.heads.patch.now (map F.any s.facts.now) };

    fn fill(&self, number: usize, stripes: &mut [StripeData]) -> usize {
        let start = FACTS_PER_SEGMENT as usize * number;
        let end = (start + FACTS_PER_SEGMENT as usize).min(self.facts.len());
        let part = &self.facts[start..end];
        let count = part.len().div_ceil(STRIPE_FACTS);
        fill_stripes(part, &mut stripes[..count]);
        count
    }
}

/// Appends the facts of a patch to its segments. They aren't synced, and have no headers yet. The open segments are put into the list, which has the room for them.
/// No header is written, so that no generation is asked for.
pub(crate) fn append_patch<F: TableFact, S: Shelf>(
    shelf: &mut S,
    patch: &Patch<'_>,
    facts: &[F],
    stripes: &mut [StripeData],
    room: &mut [[u8; SHARD_BYTES]],
    opened: &mut Vec<Open>,
    lost: &mut Lost,
)
    requires stored { MayBeStored (S.shelf shelf.old) patch.now (map F.any facts.now) }
    requires headed { MayBeHeaded (S.shelf shelf.old) patch.now }
    requires none { opened.old.items ≡ [] }
    requires capacity { length patch.now.segments ≤ vec_capacity opened.old }
    requires stripes { STRIPES ≤ length stripes.old }
    requires room { RUN_ROOM * STRIPES ≤ length room.old }
    ensures ran { Ran S.shelf S.shelf_rest (IsOnPatch patch.now) (OnPatch patch.now 1 STRIPES) shelf.old shelf.new }
    ensures lost { LosesOnly (S.shelf shelf.old) (S.shelf shelf.new) lost.old.drives lost.new.drives }
    ensures opened { AreAllOpen (layout_of_patch patch.now 0) lost.new.drives opened.new.items }
    ensures stand { (S.shelf shelf.old).honest → HoldsPatch (bytes_of (S.shelf shelf.new)) patch.now lost.new.drives (map F.any facts.now) }
{
    let new = PatchSegments {
        heads: PatchHeads {
            patch,
            generation: 0,
        },
        facts,
    };
    append_all(shelf, &new, stripes, room, opened, lost);
}

/// Writes a patch to its segments: the stripes, which are synced, and then the headers, which are synced. All memory is taken before the first write.
/// The buffers are lent and may be used again: 15 stripes, and 45 write units. A drive on which a call fails is lost.
pub fn write_patch<F: TableFact, S: Shelf>(
    alloc: Global,
    shelf: &mut S,
    patch: &Patch<'_>,
    facts: &[F],
    generation: u64,
    stripes: &mut [StripeData],
    room: &mut [[u8; SHARD_BYTES]],
    lost: &mut Lost,
) -> Result<(), NoMemory>
    requires stored { MayBeStored (S.shelf shelf.old) patch.now (map F.any facts.now) }
    requires headed { MayBeHeaded (S.shelf shelf.old) patch.now }
    requires stripes { STRIPES ≤ length stripes.old }
    requires room { RUN_ROOM * STRIPES ≤ length room.old }
    ensures ran { Ran S.shelf S.shelf_rest (IsOnPatch patch.now) (OnPatch patch.now 0 (STRIPES + 1)) shelf.old shelf.new }
    ensures lost { LosesOnly (S.shelf shelf.old) (S.shelf shelf.new) lost.old.drives lost.new.drives }
    ensures written { (S.shelf shelf.old).honest → OnOk result (HasWrittenPatch (S.shelf shelf.new) patch.now generation lost.new.drives (map F.any facts.now)) }
    // After it, whatever stop comes and whichever drives are missing, up to two of the nine of each segment, the facts stand.
    ensures stand { (S.shelf shelf.old).honest → OnOk result ((stop : Stop) (view : View) → MayStop (S.shelf shelf.new) stop → ShowsMostOf stop.image patch.now lost.new.drives view → PatchStands view patch.now (map F.any facts.now)) }
    ensures clean { (S.shelf shelf.old).honest → OnOk result (StaysClean lost.new.drives (S.shelf shelf.old) (S.shelf shelf.new)) }
    // At every moment no header is there yet, or the facts stand.
    ensures in_turn { (S.shelf shelf.old).honest → LeavesOnly (S.shelf shelf.old) (S.shelf shelf.new) (PatchComesInTurn (S.shelf shelf.old) patch.now lost.new.drives (map F.any facts.now)) }
    ensures err { OnErr result ((shelf.new ≡ shelf.old) × (lost.new ≡ lost.old)) }
{
    let new = PatchSegments {
        heads: PatchHeads { patch, generation },
        facts,
    };
    write_all(alloc, shelf, &new, stripes, room, lost)
}
