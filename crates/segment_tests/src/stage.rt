// A shelf of eleven drives in memory, segments on it, what goes wrong there, and what is read then.
// No function here has a clause, and each answers at once, with a bool or an `Option`: what calls one learns nothing of it and has no early end, so that it
// has nothing to carry through its proof.

use parity72::{DATA_SHARDS, SHARD_BYTES, SHARDS};
use pur_base::{Device, DriveId, Lost, Place, Places, SECTOR_BYTES, Sector};
use segment_io::{Open, StripeData, are_places, read_sector, read_sectors};
use std::alloc::Global;
use world::Shelf;
use world_mem::MemWorld;

/// The first segment stands on slots 0 to 8.
pub(crate) const PLACES: Places = [
    Place { slot: 0, unit: 3 },
    Place { slot: 1, unit: 4 },
    Place { slot: 2, unit: 5 },
    Place { slot: 3, unit: 3 },
    Place { slot: 4, unit: 63 },
    Place { slot: 5, unit: 3 },
    Place { slot: 6, unit: 9 },
    Place { slot: 7, unit: 3 },
    Place { slot: 8, unit: 3 },
];

/// The second one stands on slots 0 and 3 to 10.
pub(crate) const MORE_PLACES: Places = [
    Place { slot: 0, unit: 7 },
    Place { slot: 3, unit: 7 },
    Place { slot: 4, unit: 7 },
    Place { slot: 5, unit: 7 },
    Place { slot: 6, unit: 7 },
    Place { slot: 7, unit: 7 },
    Place { slot: 8, unit: 7 },
    Place { slot: 9, unit: 7 },
    Place { slot: 10, unit: 7 },
];

/// A stripe of zeros.
pub(crate) fn blank_stripe() -> StripeData {
    [[0; SHARD_BYTES]; DATA_SHARDS]
}

pub(crate) fn small_world(alloc: Global) -> Option<MemWorld> {
    MemWorld::new(alloc, 11, 64, Vec::new(alloc)).ok()
}

/// Pulls a drive, and tells whether the shelf has it.
pub(crate) fn pull(world: &mut MemWorld, drive: u8) -> bool {
    if drive >= world.drives() {
        return false;
    }
    world.pull(Device::Drive(DriveId(drive)));
    true
}

pub(crate) fn pull_two(world: &mut MemWorld, first: u8, second: u8) -> bool {
    pull(world, first) && pull(world, second)
}

/// Lets the next call on a drive fail.
pub(crate) fn fail_next(world: &mut MemWorld, drive: u8) -> bool {
    drive < world.drives() && world.fail(Device::Drive(DriveId(drive)), 1).is_ok()
}

/// Forgets the calls so far.
pub(crate) fn forget(world: &mut MemWorld) {
    world.forget();
}

/// How many calls there were.
pub(crate) fn calls_of(world: &MemWorld) -> usize {
    world.calls().len()
}

pub(crate) fn set_of(drives: &[u8]) -> [bool; 24] {
    let mut set = [false; 24];
    for drive in drives {
        if (*drive as usize) < set.len() {
            set[*drive as usize] = true;
        }
    }
    set
}

/// Whether these drives are lost, and no other.
pub(crate) fn are_lost(lost: &Lost, drives: &[u8]) -> bool {
    lost.drives == set_of(drives)
}

/// The sector at a place of a unit.
pub(crate) fn sector_at(world: &mut MemWorld, place: Place, sector: u8) -> Option<Sector> {
    let mut bytes = [0; SECTOR_BYTES];
    if place.slot >= world.drives() || place.unit >= world.units() || sector >= 128 {
        return None;
    }
    let at = u64::from(place.unit) * 65_536 + u64::from(sector) * SECTOR_BYTES as u64;
    match world.read(Device::Drive(DriveId(place.slot)), at, &mut bytes) {
        Ok(()) => Some(Sector::new(bytes)),
        Err(_) => None,
    }
}

/// Appends a stripe where there is room for it.
pub(crate) fn append(open: &mut Open, stripe: &StripeData, world: &mut MemWorld) -> bool {
    if open.stripes() >= 15 || !are_places(world, open.places()) {
        return false;
    }
    open.append_stripe(stripe, world);
    true
}

/// Reads sectors from that index on, where these drives are missing, and tells whether they were read, or `None` where the shelf has no such sectors.
pub(crate) fn read_run(
    world: &mut MemWorld,
    places: &Places,
    index: u16,
    missing: &[u8],
    into: &mut [u8],
) -> Option<bool> {
    let mut shards = [[0; SHARD_BYTES]; SHARDS];
    if index > 4 || into.len() > 430_080 - SECTOR_BYTES * index as usize {
        return None;
    }
    if into.len() % SECTOR_BYTES != 0 || !are_places(world, places) {
        return None;
    }
    Some(read_sectors(world, places, index, &set_of(missing), &mut shards, into).is_ok())
}

/// The first byte and the last of the sector of that index where these drives are missing, or the drives that are lost then.
pub(crate) fn ends_of(
    world: &mut MemWorld,
    places: &Places,
    index: u16,
    missing: &[u8],
) -> Option<Result<(u8, u8), Lost>> {
    let mut shards = [[0; SHARD_BYTES]; SHARDS];
    if index >= 840 || !are_places(world, places) {
        return None;
    }
    match read_sector(world, places, index, &set_of(missing), &mut shards) {
        Ok(sector) => {
            let bytes = sector.as_bytes();
            Some(Ok((bytes[0], bytes[SECTOR_BYTES - 1])))
        }
        Err(lost) => Some(Err(lost)),
    }
}

/// Whether the sectors of these indices begin and end with these bytes.
pub(crate) fn have_ends(
    world: &mut MemWorld,
    places: &Places,
    rows: &[(u16, u8)],
    missing: &[u8],
) -> bool {
    for (index, byte) in rows {
        if ends_of(world, places, *index, missing) != Some(Ok((*byte, *byte))) {
            return false;
        }
    }
    true
}
