// A shelf of eleven drives in memory: what goes wrong on it, and what it shows.
// No function here has a clause, and each answers at once, with a bool or an `Option`: what calls one learns nothing of it and has no early end, so that it
// has nothing to carry through its proof.

use boot_codec::{DRIVE_FLAGS, RECORD_BYTES, is_open_gate};
use pur_base::{Device, DriveId, SECTOR_BYTES};
use std::alloc::Global;
use world::{Shelf, write_synced};
use world_mem::{Call, Choice, MemWorld, What};

pub(crate) const DRIVES: u8 = 11;

/// Each dirty byte is this one.
#[derive(Drop)]
struct Torn(u8);

impl Choice for Torn {
    fn byte(&mut self) -> u8 {
        self.0
    }
}

/// The header of the record of a new shelf of 11 drives of 64 units. Made by hand from docs/FORMAT.md.
pub(crate) const HEADER: [u8; 88] = [
    b'P', b'U', b'R', b'A', b'R', b'R', b'A', b'Y', 0, 0, 0, 1, 0, 11, 0, 64, // 11 slots, 64 units
    0, 0, 0, 0, 0, 0, 0, 1, 0, 0, 7, 255, 3, 0, 0, 0, // generation 1, all members
    0, 0, 0, 0, 0, 0, 0, 1, 0, 0, 0, 0, 0, 0, 0, 1, 0, 0, 0, 0, 0, 0, 0, 1, // the next numbers
    0, 0, 0, 0, 0, 0, 0, 1, 0, 0, 0, 0, 0, 0, 0, 1, //
    0, 0, 0, 0, 0, 0, 0, 0, 0, 0, 0, 0, 0, 0, 0, 88, // no patches
];

/// The body of such a record at this generation.
pub(crate) fn body_at(generation: &[u8; 8]) -> [u8; RECORD_BYTES] {
    let mut body = [0; RECORD_BYTES];
    body[..88].copy_from_slice(&HEADER);
    body[16..24].copy_from_slice(generation);
    body
}

/// The body of such a record, of this generation, by which so many commands are flushed.
pub(crate) fn body_of(generation: u8, flushed: u8) -> [u8; RECORD_BYTES] {
    let mut body = body_at(&[0, 0, 0, 0, 0, 0, 0, generation]);
    body[79] = flushed;
    body
}

pub(crate) fn small_world(alloc: Global) -> Option<MemWorld> {
    MemWorld::new(alloc, DRIVES, 64, Vec::new(alloc)).ok()
}

/// Pulls a drive, and tells whether the shelf has it.
pub(crate) fn pull(world: &mut MemWorld, drive: u8) -> bool {
    if drive >= world.drives() {
        return false;
    }
    world.pull(Device::Drive(DriveId(drive)));
    true
}

/// Writes these bytes to a drive at that place and syncs it, and tells whether both were done.
pub(crate) fn write_drive(world: &mut MemWorld, drive: u8, at: u64, bytes: &[u8]) -> bool {
    if drive >= world.drives() || world.units() < 64 {
        return false;
    }
    if at > 1_000_000 || bytes.len() > RECORD_BYTES {
        return false;
    }
    if at % SECTOR_BYTES as u64 != 0 || bytes.len() % SECTOR_BYTES != 0 {
        return false;
    }
    write_synced(world, Device::Drive(DriveId(drive)), at, bytes).is_ok()
}

/// Lets the nth next call on a drive fail, counted from 1.
pub(crate) fn fail(world: &mut MemWorld, drive: u8, nth: u64) -> bool {
    if drive >= world.drives() || nth == 0 {
        return false;
    }
    world.fail(Device::Drive(DriveId(drive)), nth).is_ok()
}

/// Forgets the calls so far.
pub(crate) fn forget(world: &mut MemWorld) {
    world.forget();
}

/// How many calls there were.
pub(crate) fn calls_of(world: &MemWorld) -> usize {
    world.calls().len()
}

/// How many of them were writes.
pub(crate) fn writes_of(world: &MemWorld) -> usize {
    let mut count = 0usize;
    for call in world.calls() {
        if let Call::On(_, What::Write(_, _)) = call {
            count = count.wrapping_add(1);
        }
    }
    count
}

/// What a stop leaves, if each dirty byte is this one. If it is a one, a torn gate is open.
pub(crate) fn stopped(alloc: Global, world: &MemWorld, byte: u8) -> Option<MemWorld> {
    world.stopped(alloc, &mut Torn(byte)).ok()
}

pub(crate) fn read_sector(
    world: &mut MemWorld,
    drive: u8,
    sector: u16,
) -> Option<[u8; SECTOR_BYTES]> {
    let mut bytes = [0; SECTOR_BYTES];
    if drive >= world.drives() || world.units() < 64 || sector >= 384 {
        return None;
    }
    let at = u64::from(sector) * SECTOR_BYTES as u64;
    match world.read(Device::Drive(DriveId(drive)), at, &mut bytes) {
        Ok(()) => Some(bytes),
        Err(_) => None,
    }
}

/// Whether the gate in this sector of a drive is open, or else shut.
pub(crate) fn gate_is(world: &mut MemWorld, drive: u8, gate: u16, open: bool) -> bool {
    match read_sector(world, drive, gate) {
        Some(sector) => is_open_gate(&sector) == open,
        None => false,
    }
}

/// All drives of the shelf but these.
pub(crate) fn all_but(missing: &[usize]) -> [bool; DRIVE_FLAGS] {
    let mut left = [false; DRIVE_FLAGS];
    left[..11].fill(true);
    for drive in missing {
        if *drive < DRIVE_FLAGS {
            left[*drive] = false;
        }
    }
    left
}

/// Whether the flags are those of all drives of the shelf but these.
pub(crate) fn are_all_but(flags: &[bool; 11], missing: &[usize]) -> bool {
    flags[..] == all_but(missing)[..11]
}
