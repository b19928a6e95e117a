ghost use Rattle.std.specs.Prelude.{◌≡◌, IfSome};
ghost use Rattle.boot_codec.specs.Record.{IsPatch, IsSegment};

use crate::stage::{
    MORE_PLACES, PLACES, append, are_lost, blank_stripe, fail_next, pull, pull_two, sector_at,
    set_of, small_world,
};
use boot_codec::{Patch, PatchSegment, Segments};
use fact_codec::{FACT_BYTES, write_fact};
use parity72::{SHARD_BYTES, SHARDS};
use patch_io::{PatchFault, load_patch};
use pur_base::{
    AddressFact, AnyFact, Device, DriveId, Lost, MediumId, Place, Places, SECTOR_BYTES, SegmentId,
    Seq, Target,
};
use segment_codec::SegmentKind;
use segment_io::{Open, StripeData, are_places};
use segment_writer::write_patch;
use std::alloc::Global;
use world::Shelf;
use world_mem::MemWorld;

/// The facts of a shard in a stripe.
const SHARD_FACTS: u32 = 64;

/// The facts of a stripe.
const STRIPE_FACTS: u32 = 448;

/// The facts of a segment.
const SEGMENT_FACTS: u32 = 6720;

/// The bytes of the fact of a sector.
fn text_of(sector: u32) -> [u8; FACT_BYTES] {
    write_fact(&AnyFact::Address(AddressFact {
        medium: MediumId(7),
        sector: sector % 1_048_576,
        target: Target::Zero,
        seq: Seq(3),
    }))
}

/// Fills a shard with the facts from that sector on, up to so many. Two neighbours may be turned round.
fn fill_shard(shard: &mut [u8; SHARD_BYTES], first: u32, count: u32, turned: bool) {
    for number in 0..64usize {
        let sector = first.wrapping_add(number as u32);
        if sector < count {
            let text = text_of(if turned { sector ^ 1 } else { sector });
            shard[FACT_BYTES * number..FACT_BYTES * number + FACT_BYTES].copy_from_slice(&text);
        }
    }
}

/// A stripe of the facts from that sector on, up to so many.
fn stripe_of(first: u32, count: u32, turned: bool) -> StripeData {
    let mut stripe = blank_stripe();
    for shard in 0..7usize {
        let from = first.wrapping_add(SHARD_FACTS * shard as u32);
        fill_shard(&mut stripe[shard], from, count, turned);
    }
    stripe
}

/// Writes the facts from that sector on, up to so many, to a segment.
fn write_segment(
    world: &mut MemWorld,
    places: Places,
    first: u32,
    count: u32,
    turned: bool,
) -> bool {
    let mut open = Open::new(SegmentId(1), SegmentKind::Patch, places);
    for stripe in 0..15u32 {
        let from = first.wrapping_add(STRIPE_FACTS * stripe);
        if count > from && !append(&mut open, &stripe_of(from, count, turned), world) {
            return false;
        }
    }
    true
}

/// Whether these are the facts of the sectors from 0 on.
fn are_in_order(facts: &[AddressFact]) -> bool {
    for (sector, fact) in facts.iter().enumerate() {
        if fact.sector as usize != sector || fact.target != Target::Zero {
            return false;
        }
    }
    true
}

/// How many facts were read, or why they weren't.
fn told(answer: Result<Vec<AddressFact>, PatchFault>) -> Result<usize, PatchFault> {
    match answer {
        Ok(facts) => {
            if are_in_order(&facts) {
                Ok(facts.len())
            } else {
                Ok(0)
            }
        }
        Err(fault) => Err(fault),
    }
}

/// A segment on those units, if they are units of the shelf.
fn segment_on<S: Shelf>(shelf: &S, id: u64, places: Places) -> Option<PatchSegment>
    ensures { IfSome result (λ segment. IsSegment (S.shelf shelf.now).drives (S.shelf shelf.now).units segment) }
{
    if !are_places(shelf, &places) {
        return None;
    }
    Some(PatchSegment { id, places })
}

/// Reads a patch of address facts, where these drives are missing.
fn load<S: Shelf>(
    alloc: Global,
    shelf: &mut S,
    patch: &Patch<'_>,
    missing: &[u8],
) -> Option<Result<usize, PatchFault>>
    requires patch { IsPatch (S.shelf shelf.old).drives (S.shelf shelf.old).units patch.now }
    requires tag { patch.now.tag ≡ 3 }
{
    let mut shards = [[0; SHARD_BYTES]; SHARDS];
    let Ok(mut sectors) = Vec::from_elem(alloc, 0u8, 430_080) else {
        return None;
    };
    let missing = set_of(missing);
    Some(told(load_patch(alloc, shelf, patch, &missing, &mut shards, &mut sectors)))
}

/// Reads the patch of one segment.
fn load_one(
    alloc: Global,
    world: &mut MemWorld,
    facts: u32,
    missing: &[u8],
) -> Option<Result<usize, PatchFault>> {
    if facts == 0 || facts > SEGMENT_FACTS {
        return None;
    }
    let Some(segment) = segment_on(world, 1, PLACES) else {
        return None;
    };
    let segments = [segment];
    let patch = Patch {
        tag: 3,
        facts,
        segments: Segments::new(&segments),
    };
    load(alloc, world, &patch, missing)
}

/// Reads the patch of two segments.
fn load_two(
    alloc: Global,
    world: &mut MemWorld,
    facts: u32,
    missing: &[u8],
) -> Option<Result<usize, PatchFault>> {
    if facts <= SEGMENT_FACTS || facts > 2 * SEGMENT_FACTS {
        return None;
    }
    let Some(first) = segment_on(world, 1, PLACES) else {
        return None;
    };
    let Some(second) = segment_on(world, 2, MORE_PLACES) else {
        return None;
    };
    let segments = [first, second];
    let patch = Patch {
        tag: 3,
        facts,
        segments: Segments::new(&segments),
    };
    load(alloc, world, &patch, missing)
}

/// Changes a byte of the first sector of the first stripe.
fn flip(world: &mut MemWorld, at: usize) -> bool {
    let place = PLACES[0];
    let Some(sector) = sector_at(world, place, 8) else {
        return false;
    };
    if at >= SECTOR_BYTES || place.slot >= world.drives() || place.unit >= world.units() {
        return false;
    }
    let mut bytes = [0; SECTOR_BYTES];
    bytes.copy_from_slice(sector.as_bytes());
    bytes[at] ^= 1;
    let start = u64::from(place.unit) * 65_536 + 4096;
    world
        .write(Device::Drive(DriveId(place.slot)), start, &bytes)
        .is_ok()
}

/// Writes the patch of one fact, and tells which drives were lost.
fn write_one<S: Shelf>(
    alloc: Global,
    shelf: &mut S,
    stripes: &mut [StripeData],
    room: &mut [[u8; SHARD_BYTES]],
) -> Option<Lost> {
    let mut lost = Lost {
        drives: [false; 24],
    };
    let Some(segment) = segment_on(shelf, 1, PLACES) else {
        return None;
    };
    let segments = [segment];
    let patch = Patch {
        tag: 3,
        facts: 1,
        segments: Segments::new(&segments),
    };
    if stripes.len() != 15 || room.len() != 45 {
        return None;
    }
    let facts = [AddressFact {
        medium: MediumId(7),
        sector: 0,
        target: Target::Zero,
        seq: Seq(3),
    }];
    match write_patch(alloc, shelf, &patch, &facts, 2, stripes, room, &mut lost) {
        Ok(()) => Some(lost),
        Err(_) => None,
    }
}

/// The same with room of its own.
fn write_alone(alloc: Global, world: &mut MemWorld) -> Option<Lost> {
    let Ok(mut stripes) = Vec::from_elem(alloc, blank_stripe(), 15) else {
        return None;
    };
    let Ok(mut room) = Vec::from_elem(alloc, [0; SHARD_BYTES], 45) else {
        return None;
    };
    write_one(alloc, world, &mut stripes, &mut room)
}

/// Whether it is written, where drive 4 is lost.
fn writes_alone(alloc: Global, world: &mut MemWorld) -> bool {
    match write_alone(alloc, world) {
        Some(lost) => are_lost(&lost, &[4]),
        None => false,
    }
}

/// Whether so many facts are read of a patch of one segment, if those drives are missing.
fn loads(alloc: Global, world: &mut MemWorld, facts: u32, missing: &[u8]) -> bool {
    load_one(alloc, world, facts, missing) == Some(Ok(facts as usize))
}

/// Whether bytes of a patch of one segment that should hold so many facts spell none.
fn is_bad(alloc: Global, world: &mut MemWorld, facts: u32) -> bool {
    load_one(alloc, world, facts, &[]) == Some(Err(PatchFault::Bad))
}

/// Whether a patch of two segments is read, if those drives are missing.
fn loads_two(alloc: Global, world: &mut MemWorld, missing: &[u8]) -> bool {
    load_two(alloc, world, 6721, missing) == Some(Ok(6721))
}

/// Whether a patch was not read for want of these drives.
fn is_lost(answer: Option<Result<usize, PatchFault>>, drives: &[u8]) -> bool {
    match answer {
        Some(Err(PatchFault::Lost(lost))) => are_lost(&lost, drives),
        _ => false,
    }
}

fn written_is_read(alloc: Global) -> bool {
    let Some(mut world) = small_world(alloc) else {
        return false;
    };
    // The write of the stripe fails on it.
    fail_next(&mut world, 4)
        && writes_alone(alloc, &mut world)
        && loads(alloc, &mut world, 1, &[4])
        && pull(&mut world, 0)
        && loads(alloc, &mut world, 1, &[4])
}

fn one_is_read(alloc: Global) -> bool {
    let Some(mut world) = small_world(alloc) else {
        return false;
    };
    write_segment(&mut world, PLACES, 0, 1, false)
        && loads(alloc, &mut world, 1, &[])
        && pull_two(&mut world, 0, 7)
        && loads(alloc, &mut world, 1, &[0, 7])
        // Behind it stand zeros, which spell no fact.
        && is_bad(alloc, &mut world, 2)
}

fn whole_is_read(alloc: Global) -> bool {
    let Some(mut world) = small_world(alloc) else {
        return false;
    };
    write_segment(&mut world, PLACES, 0, 6720, false)
        && pull_two(&mut world, 2, 5)
        && loads(alloc, &mut world, 6720, &[])
        && loads(alloc, &mut world, 6713, &[2, 5])
}

fn two_are_read(alloc: Global) -> bool {
    let Some(mut world) = small_world(alloc) else {
        return false;
    };
    write_segment(&mut world, PLACES, 0, 6720, false)
        && write_segment(&mut world, MORE_PLACES, 6720, 6721, false)
        && loads_two(alloc, &mut world, &[])
        // Two drives are pulled of each segment: drive 2 has no unit of the second one, and drive 10 none of the first.
        && pull_two(&mut world, 0, 10)
        && loads_two(alloc, &mut world, &[0, 10])
        && pull(&mut world, 2)
        && loads_two(alloc, &mut world, &[0, 2, 10])
        // With a third drive of the second segment the patch is lost.
        && pull(&mut world, 9)
        && is_lost(load_two(alloc, &mut world, 6721, &[0, 2, 10]), &[0, 9, 10])
}

/// Whether facts are read only in their order.
fn order_matters(alloc: Global, world: &mut MemWorld) -> bool {
    // Two neighbours stand the other way round.
    write_segment(world, PLACES, 0, 8, true)
        && is_bad(alloc, world, 8)
        && write_segment(world, PLACES, 0, 8, false)
        && loads(alloc, world, 8, &[])
}

/// Whether a changed byte of the last of eight facts is seen. It is changed back.
fn change_is_seen(alloc: Global, world: &mut MemWorld) -> bool {
    // The byte behind the tag of the last fact.
    flip(world, 449)
        && is_bad(alloc, world, 8)
        && loads(alloc, world, 7, &[])
        // Without that drive the fact stands as it was written.
        && loads(alloc, world, 8, &[0])
        && flip(world, 449)
}

/// Whether eight facts are lost while a third drive fails.
fn third_is_lost(alloc: Global, world: &mut MemWorld) -> bool {
    pull_two(world, 0, 1)
        && fail_next(world, 4)
        && is_lost(load_one(alloc, world, 8, &[0, 1]), &[0, 1, 4])
        && loads(alloc, world, 8, &[0, 1])
}

fn faults_differ(alloc: Global) -> bool {
    let Some(mut world) = small_world(alloc) else {
        return false;
    };
    order_matters(alloc, &mut world)
        && change_is_seen(alloc, &mut world)
        && third_is_lost(alloc, &mut world)
}

/// The first of these that doesn't hold, or nothing.
fn broken(alloc: Global) -> &'static str {
    if !written_is_read(alloc) {
        return "what was written is read back";
    }
    if !one_is_read(alloc) {
        return "one fact is read back";
    }
    if !whole_is_read(alloc) {
        return "a whole segment is read back";
    }
    if !two_are_read(alloc) {
        return "one fact more takes another segment";
    }
    if !faults_differ(alloc) {
        return "faults are told apart";
    }
    ""
}

#[test]
fn each_holds(rt: HostRuntime) {
    let broken = broken(rt.alloc());
    assert!(rt; broken.is_empty(), "{broken}");
}
