ghost use Rattle.std.specs.Prelude.{◌≡◌, ◌≢◌, ◌↔◌, IsTrue, All};
ghost use Rattle.segment_writer.specs.DataPlacing.{AreIndicesOf, MayBePlaced};

use crate::stage::{
    MORE_PLACES, PLACES, are_lost, fail_next, forget, have_ends, pull, pull_two, read_run,
    sector_at, small_world,
};
use parity72::SHARD_BYTES;
use pur_base::{Lost, Place, Places, SECTOR_BYTES, Sector, SegmentFact, SegmentId, Seq};
use segment_codec::{Header, SegmentKind, read_header};
use segment_io::are_places;
use segment_writer::write_data;
use std::alloc::Global;
use world::Shelf;
use world_mem::{Call, MemWorld, What};

/// The bytes that staged sectors are full of come again after so many of them.
const ROUND: usize = 251;

/// Fills each sector with its byte.
fn stage(sectors: &mut [Sector]) {
    for (index, sector) in sectors.iter_mut().enumerate() {
        *sector = Sector::filled((index % ROUND) as u8);
    }
}

/// So many staged sectors, each full of one byte.
fn staged_sectors(alloc: Global, count: usize) -> Option<Vec<Sector>> {
    let Ok(mut sectors) = Vec::from_elem(alloc, Sector::filled(0), count) else {
        return None;
    };
    stage(&mut sectors);
    Some(sectors)
}

/// The indices from 30 on.
fn order_from_30() -> [u16; 841] {
    let mut order = [0; 841];
    for number in 0..841u16 {
        order[number as usize] = 30 + number;
    }
    order
}

/// Whether each index is that of a staged sector.
fn are_indices(staged: &[Sector], order: &[u16]) -> bool
    ensures { IsTrue result ↔ AreIndicesOf staged.now order.now }
{
    order.iter().all(|index| (*index as usize) < staged.len())
}

/// Whether each of the units has that number on its drive.
fn have_unit(places: &Places, unit: u16) -> bool
    ensures { IsTrue result ↔ All (λ place. place.unit ≡ unit) places.now }
{
    places.iter().all(|place| place.unit == unit)
}

/// Whether none of the units has that number on its drive.
fn lack_unit(places: &Places, unit: u16) -> bool
    ensures { IsTrue result ↔ All (λ place. place.unit ≢ unit) places.now }
{
    places.iter().all(|place| place.unit != unit)
}

/// Writes the sectors to the segments, and tells which drives were lost.
fn write_segments<S: Shelf>(
    alloc: Global,
    shelf: &mut S,
    segments: &[SegmentFact],
    staged: &[Sector],
    order: &[u16],
) -> Option<Lost>
    requires { MayBePlaced (S.shelf shelf.old) segments.now staged.now order.now }
{
    let mut lost = Lost {
        drives: [false; 24],
    };
    let Ok(mut stripes) = Vec::from_elem(alloc, [[7; SHARD_BYTES]; 7], 15) else {
        return None;
    };
    let Ok(mut room) = Vec::from_elem(alloc, [0; SHARD_BYTES], 45) else {
        return None;
    };
    match write_data(
        alloc,
        shelf,
        segments,
        staged,
        order,
        2,
        &mut stripes,
        &mut room,
        &mut lost,
    ) {
        Ok(()) => Some(lost),
        Err(_) => None,
    }
}

/// Writes the sectors to one segment, and tells which drives were lost.
fn write_one<S: Shelf>(
    alloc: Global,
    shelf: &mut S,
    staged: &[Sector],
    order: &[u16],
) -> Option<Lost> {
    if order.is_empty() || order.len() > 840 || !are_indices(staged, order) {
        return None;
    }
    let places = PLACES;
    if !are_places(shelf, &places) {
        return None;
    }
    let segments = [SegmentFact {
        segment: SegmentId(5),
        places,
        placed: order.len() as u16,
        seq: Seq(9),
    }];
    write_segments(alloc, shelf, &segments, staged, order)
}

/// Writes the sectors to two segments, and tells which drives were lost.
fn write_two<S: Shelf>(
    alloc: Global,
    shelf: &mut S,
    staged: &[Sector],
    order: &[u16],
) -> Option<Lost> {
    if order.len() <= 840 || order.len() > 1680 || !are_indices(staged, order) {
        return None;
    }
    let places = PLACES;
    let more = MORE_PLACES;
    if !lack_unit(&places, 7) || !have_unit(&more, 7) {
        return None;
    }
    if !are_places(shelf, &places) || !are_places(shelf, &more) {
        return None;
    }
    let segments = [
        SegmentFact {
            segment: SegmentId(5),
            places,
            placed: 840,
            seq: Seq(9),
        },
        SegmentFact {
            segment: SegmentId(6),
            places: more,
            placed: (order.len() - 840) as u16,
            seq: Seq(10),
        },
    ];
    write_segments(alloc, shelf, &segments, staged, order)
}

/// Whether so many staged sectors are written in this order to one segment, or to two of them where one is too small, and these drives are lost.
fn writes(
    alloc: Global,
    world: &mut MemWorld,
    staged: usize,
    order: &[u16],
    drives: &[u8],
) -> bool {
    let Some(staged) = staged_sectors(alloc, staged) else {
        return false;
    };
    let lost = if order.len() > 840 {
        write_two(alloc, world, &staged, order)
    } else {
        write_one(alloc, world, &staged, order)
    };
    match lost {
        Some(lost) => are_lost(&lost, drives),
        None => false,
    }
}

/// Whether the bytes are those of sectors that were staged from that index on.
fn are_staged(bytes: &[u8], first: usize) -> bool {
    let mut right = true;
    for (at, byte) in bytes.iter().enumerate() {
        let index = first.wrapping_add(at / SECTOR_BYTES);
        right = right && *byte as usize == index % ROUND;
    }
    right
}

/// Whether so many sectors stand in a segment, one behind another, that were staged from that index on, where these drives are missing, or `None` where they
/// can't be asked for.
fn stand_from(
    alloc: Global,
    world: &mut MemWorld,
    places: &Places,
    (first, count): (usize, usize),
    missing: &[u8],
) -> Option<bool> {
    let Ok(mut bytes) = Vec::from_elem(alloc, 0u8, 430_080) else {
        return None;
    };
    if count > 840 {
        return None;
    }
    let run = &mut bytes[..SECTOR_BYTES * count];
    match read_run(world, places, 0, missing, run) {
        Some(is_read) => Some(is_read && are_staged(run, first)),
        None => None,
    }
}

/// Whether 57 sectors stand in the first segment.
fn few_stand(alloc: Global, world: &mut MemWorld) -> bool {
    stand_from(alloc, world, &PLACES, (30, 57), &[4]) == Some(true)
}

/// Whether the first segment is full.
fn first_stands(alloc: Global, world: &mut MemWorld, missing: &[u8]) -> Option<bool> {
    stand_from(alloc, world, &PLACES, (30, 840), missing)
}

/// Whether one sector more stands in the second one.
fn second_stands(alloc: Global, world: &mut MemWorld, missing: &[u8]) -> Option<bool> {
    stand_from(alloc, world, &MORE_PLACES, (870, 1), missing)
}

/// Whether 841 sectors stand in two segments, with zeros behind the last one.
fn two_stand(alloc: Global, world: &mut MemWorld, missing: &[u8]) -> bool {
    first_stands(alloc, world, missing) == Some(true)
        && second_stands(alloc, world, missing) == Some(true)
        && have_ends(world, &MORE_PLACES, &[(1, 0)], missing)
}

/// The header at the head of a unit.
fn header_at(world: &mut MemWorld, place: Place) -> Option<Header> {
    match sector_at(world, place, 0) {
        Some(sector) => read_header(&sector).ok(),
        None => None,
    }
}

/// How many writes and how many syncs there were.
fn calls_of(world: &MemWorld) -> (usize, usize) {
    let mut writes: usize = 0;
    let mut syncs: usize = 0;
    for call in world.calls() {
        match call {
            Call::On(_, What::Write(..)) => writes = writes.wrapping_add(1),
            Call::On(_, What::Sync(..)) => syncs = syncs.wrapping_add(1),
            _ => {}
        }
    }
    (writes, syncs)
}

/// Whether 57 of 100 sectors are written to one segment, and the fifth drive is lost.
fn writes_few(alloc: Global, world: &mut MemWorld, order: &[u16]) -> bool {
    if order.len() < 57 {
        return false;
    }
    writes(alloc, world, 100, &order[..57], &[4])
}

fn written_is_read(alloc: Global) -> bool {
    let Some(mut world) = small_world(alloc) else {
        return false;
    };
    // The write of the stripes fails on it.
    fail_next(&mut world, 4)
        && writes_few(alloc, &mut world, &order_from_30())
        && few_stand(alloc, &mut world)
        && pull(&mut world, 0)
        && few_stand(alloc, &mut world)
        // Zeros stand behind the last one.
        && have_ends(&mut world, &PLACES, &[(56, 86), (57, 0), (111, 0)], &[4])
}

/// Whether three of 20 sectors stand in one segment, in an order of their own.
fn order_is_kept(alloc: Global) -> bool {
    let Some(mut world) = small_world(alloc) else {
        return false;
    };
    writes(alloc, &mut world, 20, &[9, 2, 19], &[])
        && have_ends(&mut world, &PLACES, &[(0, 9), (1, 2), (2, 19), (3, 0)], &[])
}

/// Whether 841 sectors are written to two segments. Of each there are nine writes for its stripes and nine for its headers, and two syncs of each drive.
fn writes_many(alloc: Global, world: &mut MemWorld) -> bool {
    forget(world);
    writes(alloc, world, 900, &order_from_30(), &[]) && calls_of(world) == (36, 22)
}

/// The header of the first segment, on its fifth drive.
const FIRST_HEADER: Header = Header {
    segment: SegmentId(5),
    generation: 2,
    kind: SegmentKind::Data,
    shard: 4,
    placed: 840,
    tag: 0,
    part: 0,
    parts: 0,
    facts: 0,
    places: PLACES,
};

/// Whether the headers of the two segments say what they hold.
fn have_headers(world: &mut MemWorld) -> bool {
    match header_at(world, MORE_PLACES[8]) {
        Some(second) => {
            second.placed == 1
                && second.places == MORE_PLACES
                && header_at(world, PLACES[4]) == Some(FIRST_HEADER)
        }
        None => false,
    }
}

fn two_are_written(alloc: Global) -> bool {
    let Some(mut world) = small_world(alloc) else {
        return false;
    };
    writes_many(alloc, &mut world)
        && have_headers(&mut world)
        // Both segments are read with two drives pulled.
        && pull_two(&mut world, 3, 8)
        && two_stand(alloc, &mut world, &[])
        && two_stand(alloc, &mut world, &[3, 8])
        // A third one is missing for the first segment alone: the sector of the second stands on a drive that is there.
        && pull(&mut world, 5)
        && first_stands(alloc, &mut world, &[]) == Some(false)
        && second_stands(alloc, &mut world, &[]) == Some(true)
        && pull(&mut world, 0)
        && second_stands(alloc, &mut world, &[]) == Some(false)
}

#[test]
fn each_holds(rt: HostRuntime) {
    assert!(rt;
        written_is_read(rt.alloc()) && order_is_kept(rt.alloc()) && two_are_written(rt.alloc())
    );
}
