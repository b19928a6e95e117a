// Patches are read.
ghost use Rattle.std.specs.Prelude.{◌≡◌, [], ℕ, ◌*◌, ◌≤◌, length, map, IfOk, IfErr, OnOk};
ghost use Rattle.pur_base.specs.Devices.{View};
ghost use Rattle.pur_base.specs.declared.limits.TheConstants.{SECTOR_BYTES, SEGMENT_SECTORS};
ghost use Rattle.boot_codec.specs.declared.limits.TheConstants.{FACTS_PER_SEGMENT};
ghost use Rattle.boot_codec.specs.Record.{IsPatch};
ghost use Rattle.array_spec.specs.Stored.{PatchIsShown, PatchStands};
ghost use Rattle.world.specs.Shelf.{Continues};
ghost use Rattle.world.specs.Writes.{WritesOnly};
ghost use Rattle.segment_io.specs.Places.{ArePlaces, OthersStayOf};
ghost use Rattle.segment_io.specs.Lost.{NoByte};
ghost use Rattle.segment_io.specs.Reads.{OnlyLooks};
ghost use Rattle.patch_io.specs.Tables.{AreInOrder};
ghost use Rattle.patch_io.specs.Standing.{AreFactsOf, ReadsPart, ShowsNoOtherOfPatch, ShowsPatch, StripesStandOf};
ghost use Rattle.patch_io.specs.Faults.{IsPartFault, IsFaultOf, OthersStayOfPatch};

use crate::decoding::read_facts;
use crate::fault::PatchFault;
use crate::table::TableFact;
use boot_codec::{FACTS_PER_SEGMENT, Patch};
use fact_codec::PAGE_FACTS;
use pur_base::{NoMemory, Places, SECTOR_BYTES};
use segment_io::{StripeBuffer, read_sectors};
use std::alloc::Global;
use world::Shelf;

// Reads the facts of a segment of a patch, and puts them behind those that are there.
fn read_part<F: TableFact, S: Shelf>(
    shelf: &mut S,
    places: &Places,
    count: usize,
    missing: &[bool],
    shards: &mut StripeBuffer,
    sectors: &mut [u8],
    facts: &mut Vec<F>,
) -> Result<(), PatchFault>
    requires places { ArePlaces (S.shelf shelf.old) places.now }
    requires count { count ≤ FACTS_PER_SEGMENT }
    requires room { SECTOR_BYTES * SEGMENT_SECTORS ≤ length sectors.old }
    requires in_order { AreInOrder F.tag (map F.any facts.old.items) }
    ensures continues { Continues (S.shelf shelf.old) (S.shelf shelf.new) }
    ensures facts { OnOk result (ReadsPart (S.shelf shelf.old) (S.shelf shelf.new) places.now missing.now F.tag count (map F.any facts.old.items) (map F.any facts.new.items)) }
    ensures fault { IfErr result (λ fault. IsPartFault (S.shelf shelf.old) (S.shelf shelf.new) places.now missing.now F.tag count (map F.any facts.old.items) fault) }
    ensures looks { OnlyLooks (S.shelf shelf.old) (S.shelf shelf.new) }
    ensures writes { (S.shelf shelf.old).honest → WritesOnly NoByte (S.shelf shelf.old) (S.shelf shelf.new) }
    ensures others { OthersStayOf places.now (S.shelf shelf.old) (S.shelf shelf.new) }
    ensures rest { S.shelf_rest shelf.old shelf.new }
{
    let size = SECTOR_BYTES * count.div_ceil(PAGE_FACTS);
    let run = &mut sectors[..size];
    if let Err(lost) = read_sectors(shelf, places, 0, missing, shards, run) {
        return Err(PatchFault::Lost(lost));
    }
    read_facts(run, count, facts)
}

// Reads the facts of each segment of a patch.
fn read_parts<F: TableFact, S: Shelf>(
    shelf: &mut S,
    patch: &Patch<'_>,
    missing: &[bool],
    shards: &mut StripeBuffer,
    sectors: &mut [u8],
    facts: &mut Vec<F>,
) -> Result<(), PatchFault>
    requires patch { IsPatch (S.shelf shelf.old).drives (S.shelf shelf.old).units patch.now }
    requires tag { patch.now.tag ≡ F.tag }
    requires room { SECTOR_BYTES * SEGMENT_SECTORS ≤ length sectors.old }
    requires none { facts.old.items ≡ [] }
    ensures continues { Continues (S.shelf shelf.old) (S.shelf shelf.new) }
    ensures decoded { OnOk result (AreFactsOf patch.now (map F.any facts.new.items)) }
    ensures facts { (S.shelf shelf.old).honest → OnOk result ((view : View) → ShowsPatch (S.shelf shelf.old) patch.now missing.now view → StripesStandOf view patch.now → PatchStands view patch.now (map F.any facts.new.items)) }
    ensures shown { (S.shelf shelf.old).honest → OnOk result ((view : View) → ShowsNoOtherOfPatch (S.shelf shelf.old) (S.shelf shelf.new) patch.now missing.now view → PatchIsShown view patch.now (map F.any facts.new.items)) }
    ensures fault { IfErr result (λ fault. IsFaultOf (S.shelf shelf.old) (S.shelf shelf.new) patch.now missing.now fault) }
    ensures looks { OnlyLooks (S.shelf shelf.old) (S.shelf shelf.new) }
    ensures writes { (S.shelf shelf.old).honest → WritesOnly NoByte (S.shelf shelf.old) (S.shelf shelf.new) }
    ensures others { OthersStayOfPatch patch.now (S.shelf shelf.old) (S.shelf shelf.new) }
    ensures rest { S.shelf_rest shelf.old shelf.new }
{
    let all = patch.facts as usize;
    for segment in patch.segments.as_slice() {
        let count = (all - facts.len()).min(FACTS_PER_SEGMENT as usize);
        read_part(
            shelf,
            &segment.places,
            count,
            missing,
            shards,
            sectors,
            facts,
        )?;
    }
    Ok(())
}

/// Reads the facts of a patch of that table. The set of the missing drives is given by slot.
/// The buffers are lent and may be used again: a stripe, and the 430,080 bytes of a segment's sectors.
/// Each segment is read in one run of sectors, and its facts are decoded where they stand. All memory is taken before the first read.
/// `Bad` comes only where a fact doesn't decode, is of another table, or stands out of order; `Lost` only where three of the nine drives of a segment are each missing or failed in this call.
pub fn load_patch<F: TableFact, S: Shelf>(
    alloc: Global,
    shelf: &mut S,
    patch: &Patch<'_>,
    missing: &[bool],
    shards: &mut StripeBuffer,
    sectors: &mut [u8],
) -> Result<Vec<F>, PatchFault>
    requires patch { IsPatch (S.shelf shelf.old).drives (S.shelf shelf.old).units patch.now }
    requires tag { patch.now.tag ≡ F.tag }
    requires room { SECTOR_BYTES * SEGMENT_SECTORS ≤ length sectors.old }
    ensures continues { Continues (S.shelf shelf.old) (S.shelf shelf.new) }
    // What was decoded, whatever stands there.
    ensures decoded { IfOk result (λ facts. AreFactsOf patch.now (map F.any facts.items)) }
    // What stands as the patch in each view that shows the drives that aren't missing.
    ensures ok { (S.shelf shelf.old).honest → IfOk result (λ facts. (view : View) → ShowsPatch (S.shelf shelf.old) patch.now missing.now view → StripesStandOf view patch.now → PatchStands view patch.now (map F.any facts.items)) }
    // What each view shows of the drives that aren't missing and of which no call failed, whether the stripes stand or not.
    ensures shown { (S.shelf shelf.old).honest → IfOk result (λ facts. (view : View) → ShowsNoOtherOfPatch (S.shelf shelf.old) (S.shelf shelf.new) patch.now missing.now view → PatchIsShown view patch.now (map F.any facts.items)) }
    ensures fault { IfErr result (λ fault. IsFaultOf (S.shelf shelf.old) (S.shelf shelf.new) patch.now missing.now fault) }
    ensures looks { OnlyLooks (S.shelf shelf.old) (S.shelf shelf.new) }
    ensures writes { (S.shelf shelf.old).honest → WritesOnly NoByte (S.shelf shelf.old) (S.shelf shelf.new) }
    ensures others { OthersStayOfPatch patch.now (S.shelf shelf.old) (S.shelf shelf.new) }
    ensures rest { S.shelf_rest shelf.old shelf.new }
{
    let Ok(mut facts) = Vec::with_capacity(alloc, patch.facts as usize) else {
        return Err(PatchFault::Memory(NoMemory));
    };
    read_parts(shelf, patch, missing, shards, sectors, &mut facts)?;
    Ok(facts)
}
