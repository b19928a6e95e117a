ghost use Rattle.std.specs.Prelude.{◌≡◌, ◌<◌, IfSome};

use crate::stage::{
    PLACES, are_lost, calls_of, ends_of, fail_next, forget, have_ends, pull, pull_two, read_run,
    sector_at, set_of, small_world,
};
use parity72::{DATA_SHARDS, SHARD_BYTES, SHARDS};
use pur_base::{Device, DriveId, Lost, Place, SECTOR_BYTES, SegmentId};
use segment_codec::{Header, SegmentKind, read_header};
use segment_io::{Open, RUN_ROOM, RebuildFault, StripeData, are_places, rebuild_shard};
use std::alloc::Global;
use world::Shelf;
use world_mem::MemWorld;

const HEADER: Header = Header {
    segment: SegmentId(5),
    generation: 2,
    kind: SegmentKind::Data,
    shard: 0,
    placed: 112,
    tag: 0,
    part: 0,
    parts: 0,
    facts: 0,
    places: PLACES,
};

/// Shard i is full of the byte i + 1.
const FIRST: StripeData = [
    [1; SHARD_BYTES],
    [2; SHARD_BYTES],
    [3; SHARD_BYTES],
    [4; SHARD_BYTES],
    [5; SHARD_BYTES],
    [6; SHARD_BYTES],
    [7; SHARD_BYTES],
];

const SECOND: StripeData = [[9; SHARD_BYTES]; DATA_SHARDS];

/// Shard i is full of the byte i + 10.
const THIRD: StripeData = [
    [10; SHARD_BYTES],
    [11; SHARD_BYTES],
    [12; SHARD_BYTES],
    [13; SHARD_BYTES],
    [14; SHARD_BYTES],
    [15; SHARD_BYTES],
    [16; SHARD_BYTES],
];

/// Writes a segment of two stripes and closes it.
fn write_segment<S: Shelf>(shelf: &mut S) -> Option<Lost> {
    let mut open = Open::new(SegmentId(5), SegmentKind::Data, PLACES);
    if !are_places(shelf, &PLACES) {
        return None;
    }
    open.append_stripe(&FIRST, shelf);
    if !are_places(shelf, &PLACES) {
        return None;
    }
    open.append_stripe(&SECOND, shelf);
    if !are_places(shelf, &PLACES) {
        return None;
    }
    let (_closed, lost) = open.close(&HEADER, shelf);
    Some(lost)
}

/// Whether such a segment is written, where these drives are lost.
fn writes(world: &mut MemWorld, drives: &[u8]) -> bool {
    match write_segment(world) {
        Some(lost) => are_lost(&lost, drives),
        None => false,
    }
}

/// Whether the sectors of these indices begin and end with these bytes.
fn stand(world: &mut MemWorld, rows: &[(u16, u8)], missing: &[u8]) -> bool {
    have_ends(world, &PLACES, rows, missing)
}

/// Whether the sector at a place of a unit is full of one byte.
fn is_full(world: &mut MemWorld, place: Place, sector: u8, byte: u8) -> bool {
    match sector_at(world, place, sector) {
        Some(found) => found.as_bytes() == [byte; SECTOR_BYTES].as_slice(),
        None => false,
    }
}

/// Whether the first sector is lost for want of drives 0, 3 and 6, where 0 and 6 are missing.
fn first_is_lost(world: &mut MemWorld) -> bool {
    match ends_of(world, &PLACES, 0, &[0, 6]) {
        Some(Err(lost)) => are_lost(&lost, &[0, 3, 6]),
        _ => false,
    }
}

fn two_may_be_missing(alloc: Global) -> bool {
    let Some(mut world) = small_world(alloc) else {
        return false;
    };
    writes(&mut world, &[])
        // P and Q of the first stripe.
        && is_full(&mut world, PLACES[7], 8, 0)
        && is_full(&mut world, PLACES[8], 15, 100)
        && pull_two(&mut world, 0, 6)
        && stand(&mut world, &[(0, 1), (48, 7), (111, 9)], &[0, 6])
        // Drives that fail are recovered from too, though they aren't known to be missing.
        && stand(&mut world, &[(0, 1)], &[])
        && fail_next(&mut world, 3)
        && first_is_lost(&mut world)
        && stand(&mut world, &[(0, 1)], &[0, 6])
}

/// Whether the header of a shard says what was written, or, on drive 2, nothing.
fn has_header(world: &mut MemWorld, shard: u8, place: Place) -> bool {
    let Some(sector) = sector_at(world, place, 0) else {
        return false;
    };
    match read_header(&sector) {
        Ok(header) => shard != 2 && header == Header { shard, ..HEADER },
        Err(_) => shard == 2,
    }
}

/// Whether each shard's does.
fn have_headers(world: &mut MemWorld) -> bool {
    for (shard, place) in PLACES.iter().enumerate() {
        if !has_header(world, shard as u8, *place) {
            return false;
        }
    }
    true
}

/// Rebuilds the shard on drive 2.
fn rebuild(world: &mut MemWorld) -> Option<Result<(), RebuildFault>> {
    let mut shards = [[0; SHARD_BYTES]; SHARDS];
    if !are_places(world, &PLACES) {
        return None;
    }
    Some(rebuild_shard(world, &PLACES, 2, 2, &set_of(&[2]), &mut shards))
}

/// Whether that shard is rebuilt on a blank drive.
fn is_rebuilt(world: &mut MemWorld) -> bool {
    world.put_blank(Device::Drive(DriveId(2)));
    rebuild(world) == Some(Ok(()))
}

fn lost_is_rebuilt(alloc: Global) -> bool {
    let Some(mut world) = small_world(alloc) else {
        return false;
    };
    // The write of the first stripe fails on it.
    fail_next(&mut world, 2)
        && writes(&mut world, &[2])
        && have_headers(&mut world)
        && is_rebuilt(&mut world)
        // It is what was written: of two stripes, and zeros behind them.
        && is_full(&mut world, PLACES[2], 8, 3)
        && is_full(&mut world, PLACES[2], 23, 9)
        && is_full(&mut world, PLACES[2], 24, 0)
        // The drive fails again in its write.
        && fail_next(&mut world, 2)
        && rebuild(&mut world) == Some(Err(RebuildFault::Target))
}

/// Whether the bytes are those of sectors 4 to 59.
fn are_of_run(bytes: &[u8]) -> bool {
    let mut right = true;
    for (at, byte) in bytes.iter().enumerate() {
        let sector = (at / SECTOR_BYTES).wrapping_add(4);
        let expected = if sector < 56 { sector / 8 + 1 } else { 9 };
        right = right && *byte as usize == expected;
    }
    right
}

/// Whether sectors 4 to 59 are read, in so many calls.
fn reads_run(world: &mut MemWorld, missing: &[u8], calls: usize) -> bool {
    let mut run = [0; 28_672];
    forget(world);
    read_run(world, &PLACES, 4, missing, &mut run) == Some(true)
        && are_of_run(&run)
        && calls_of(world) == calls
}

fn run_is_read(alloc: Global) -> bool {
    let Some(mut world) = small_world(alloc) else {
        return false;
    };
    writes(&mut world, &[])
        && reads_run(&mut world, &[], 8)
        && pull_two(&mut world, 1, 5)
        // Seven for the first stripe, after one that was in vain, and one for the second.
        && reads_run(&mut world, &[1, 5], 9)
}

/// Appends a stripe, and tells how many calls it took.
fn append_one(open: &mut Open, world: &mut MemWorld) -> Option<usize>
    ensures same { (open.new.id ≡ open.old.id) × (open.new.kind ≡ open.old.kind) × (open.new.places ≡ open.old.places) }
    ensures some { IfSome result (λ _. 0 < open.new.stripes) }
{
    forget(world);
    if open.stripes() >= 15 || !are_places(world, open.places()) {
        return None;
    }
    open.append_stripe(&SECOND, world);
    Some(calls_of(world))
}

/// Appends a run of three stripes, and tells how many calls it took.
fn append_run(open: &mut Open, world: &mut MemWorld) -> Option<usize>
    ensures same { (open.new.id ≡ open.old.id) × (open.new.kind ≡ open.old.kind) × (open.new.places ≡ open.old.places) }
    ensures some { IfSome result (λ _. 0 < open.new.stripes) }
{
    let mut room = [[0; SHARD_BYTES]; 3 * RUN_ROOM];
    forget(world);
    if open.stripes() > 12 || !are_places(world, open.places()) {
        return None;
    }
    open.append_stripes(&[FIRST, SECOND, THIRD], &mut room, world);
    Some(calls_of(world))
}

/// Writes a segment of one stripe and a run of three behind it, and tells how many calls the stripe and the run took, and how many stripes there are.
fn write_run(world: &mut MemWorld) -> Option<(usize, usize, u8)> {
    let mut open = Open::new(SegmentId(5), SegmentKind::Data, PLACES);
    let Some(one) = append_one(&mut open, world) else {
        return None;
    };
    let Some(three) = append_run(&mut open, world) else {
        return None;
    };
    if !are_places(world, &PLACES) {
        return None;
    }
    let (closed, _lost) = open.close(&HEADER, world);
    Some((one, three, closed.stripes()))
}

/// The first byte of sectors at the ends of shards, as the stripe and the run left them.
const RUN_ROWS: [(u16, u8); 11] = [
    (0, 9),
    (55, 9),
    (56, 1),
    (103, 6),
    (104, 7),
    (111, 7),
    (112, 9),
    (167, 9),
    (168, 10),
    (176, 11),
    (223, 16),
];

fn run_is_written(alloc: Global) -> bool {
    let Some(mut world) = small_world(alloc) else {
        return false;
    };
    write_run(&mut world) == Some((9, 9, 4))
        // Q of the second stripe.
        && is_full(&mut world, PLACES[8], 16, 100)
        && pull_two(&mut world, 0, 6)
        && stand(&mut world, &RUN_ROWS, &[0, 6])
}

/// Writes a whole segment at once, from a list of stripes, and tells which drives were lost.
fn write_at_once<S: Shelf>(
    shelf: &mut S,
    stripes: &[StripeData],
    room: &mut [[u8; SHARD_BYTES]],
) -> Option<Lost> {
    let mut open = Open::new(SegmentId(5), SegmentKind::Data, PLACES);
    if stripes.len() != 15 || room.len() != 45 || !are_places(shelf, &PLACES) {
        return None;
    }
    open.append_stripes(stripes, room, shelf);
    if !are_places(shelf, &PLACES) {
        return None;
    }
    let (_closed, lost) = open.close(&HEADER, shelf);
    Some(lost)
}

/// Writes fourteen equal stripes and another one.
fn write_whole(alloc: Global, world: &mut MemWorld) -> Option<Lost> {
    let Ok(mut stripes) = Vec::from_elem(alloc, FIRST, 15) else {
        return None;
    };
    let Ok(mut room) = Vec::from_elem(alloc, [0; SHARD_BYTES], 45) else {
        return None;
    };
    stripes[14] = THIRD;
    write_at_once(world, &stripes, &mut room)
}

/// Whether they are written, where drive 2 is lost.
fn writes_whole(alloc: Global, world: &mut MemWorld) -> bool {
    match write_whole(alloc, world) {
        Some(lost) => are_lost(&lost, &[2]),
        None => false,
    }
}

const WHOLE_ROWS: [(u16, u8); 6] = [(0, 1), (16, 3), (783, 7), (784, 10), (800, 12), (839, 16)];

fn whole_is_written(alloc: Global) -> bool {
    let Some(mut world) = small_world(alloc) else {
        return false;
    };
    // The write of the run fails on it.
    fail_next(&mut world, 2)
        && writes_whole(alloc, &mut world)
        && pull(&mut world, 8)
        && stand(&mut world, &WHOLE_ROWS, &[2, 8])
}

/// The first of these that doesn't hold, or nothing.
fn broken(alloc: Global) -> &'static str {
    if !two_may_be_missing(alloc) {
        return "two drives may be missing";
    }
    if !lost_is_rebuilt(alloc) {
        return "a lost drive is rebuilt";
    }
    if !run_is_read(alloc) {
        return "a run takes one call a shard";
    }
    if !run_is_written(alloc) {
        return "a run of stripes takes nine writes";
    }
    if !whole_is_written(alloc) {
        return "a segment is one run";
    }
    ""
}

#[test]
fn each_holds(rt: HostRuntime) {
    let broken = broken(rt.alloc());
    assert!(rt; broken.is_empty(), "{broken}");
}
