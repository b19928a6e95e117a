// The records in the boot region: stored, shown, settled, in force and loaded.

use crate::stage::{
    DRIVES, all_but, are_all_but, body_at, body_of, fail, forget, gate_is, pull, read_sector,
    small_world, stopped, write_drive, writes_of,
};
use boot_codec::{BadRecord, DRIVE_FLAGS, RECORD_BYTES};
use boot_region::{
    LoadFault, Regions, Slot, close_gates, load, open_gates, read_regions, settle, store,
    write_bodies,
};
use pur_base::{Device, DriveId, SECTOR_BYTES};
use std::alloc::Global;
use world::Shelf;
use world_mem::{Fused, MemWorld};

/// The bytes of slot A's records, and of slot B's.
const OLD: u8 = 7;

const NEW: u8 = 9;

/// Whether a store says that enough drives hold the record.
fn is_stored<S: Shelf>(
    shelf: &mut S,
    members: &mut [bool],
    slot: Slot,
    body: &[u8; RECORD_BYTES],
) -> Option<bool> {
    if members.len() > usize::from(shelf.drives()) {
        return None;
    }
    Some(store(shelf, members, slot, body).is_ok())
}

/// Whether a record is stored on all drives.
fn store_body(world: &mut MemWorld, slot: Slot, body: &[u8; RECORD_BYTES]) -> bool {
    let mut members = [true; 11];
    is_stored(world, &mut members, slot, body) == Some(true) && members == [true; 11]
}

fn store_in(world: &mut MemWorld, slot: Slot, byte: u8) -> bool {
    store_body(world, slot, &[byte; RECORD_BYTES])
}

/// Whether the gate of a slot is open, or else shut.
fn slot_is(world: &mut MemWorld, drive: u8, slot: Slot, open: bool) -> bool {
    let sector = match slot {
        Slot::A => 0,
        Slot::B => 1,
    };
    gate_is(world, drive, sector, open)
}

/// Whether this is the first byte of a slot's body, and the last.
fn ends_are(world: &mut MemWorld, drive: u8, slot: Slot, byte: u8) -> bool {
    let (first, last) = match slot {
        Slot::A => (128, 255),
        Slot::B => (256, 383),
    };
    match (
        read_sector(world, drive, first),
        read_sector(world, drive, last),
    ) {
        (Some(begins), Some(ends)) => begins[0] == byte && ends[SECTOR_BYTES - 1] == byte,
        _ => false,
    }
}

/// Whether a drive shows that record in a slot.
fn shows(world: &mut MemWorld, drive: u8, slot: Slot, byte: u8) -> bool {
    slot_is(world, drive, slot, true) && ends_are(world, drive, slot, byte)
}

/// Whether a drive shows the record in slot A, and none in slot B.
fn shows_old(world: &mut MemWorld, drive: u8) -> bool {
    shows(world, drive, Slot::A, OLD)
        && slot_is(world, drive, Slot::B, false)
        && ends_are(world, drive, Slot::B, 0)
}

/// Whether each drive does once all is stopped.
fn all_show_old(alloc: Global, world: &MemWorld) -> bool {
    let Some(mut world) = stopped(alloc, world, 1) else {
        return false;
    };
    for drive in 0..DRIVES {
        if !shows_old(&mut world, drive) {
            return false;
        }
    }
    true
}

fn stored_is_shown(alloc: Global) -> bool {
    let Some(mut world) = small_world(alloc) else {
        return false;
    };
    store_in(&mut world, Slot::A, OLD) && all_show_old(alloc, &world)
}

/// Whether a record is stored in slot B with so many writes.
fn stores_by(world: &mut MemWorld, byte: u8, writes: usize) -> bool {
    forget(world);
    store_in(world, Slot::B, byte) && writes_of(world) == writes
}

fn closed_is_not_written(alloc: Global) -> bool {
    let Some(mut world) = small_world(alloc) else {
        return false;
    };
    stores_by(&mut world, NEW, 22)
        && stores_by(&mut world, OLD, 33)
        && ends_are(&mut world, 10, Slot::B, OLD)
}

/// Whether a store leaves all members but these, which are one too few.
fn stores_too_few(world: &mut MemWorld, dropped: &[usize]) -> bool {
    let mut members = [true; 11];
    is_stored(world, &mut members, Slot::A, &[NEW; RECORD_BYTES]) == Some(false)
        && are_all_but(&members, dropped)
}

fn failing_are_dropped(alloc: Global) -> bool {
    let Some(mut world) = small_world(alloc) else {
        return false;
    };
    // The read of a gate fails, and it is written then.
    fail(&mut world, 2, 1)
        // The write of a body fails, behind the read of the gate.
        && fail(&mut world, 3, 2)
        // The sync of a gate that is opened fails.
        && fail(&mut world, 4, 5)
        && pull(&mut world, 5)
        && stores_too_few(&mut world, &[3, 4, 5])
        && shows(&mut world, 2, Slot::A, NEW)
        && slot_is(&mut world, 3, Slot::A, false)
}

/// Closes the gate of a slot on these drives.
fn close(world: &mut MemWorld, members: &mut [bool; 11], slot: Slot) -> bool {
    if world.drives() != DRIVES || world.units() < 64 {
        return false;
    }
    close_gates(world, members, slot);
    true
}

/// Closes the gate of slot A on drive 6.
fn close_one(world: &mut MemWorld) -> bool {
    let mut shut = [false; 11];
    shut[6] = true;
    close(world, &mut shut, Slot::A)
}

/// Settles slot A on all drives, and tells which are left.
fn settled(world: &mut MemWorld) -> Option<[bool; 11]> {
    let mut members = [true; 11];
    if world.drives() != DRIVES {
        return None;
    }
    settle(world, &mut members, Slot::A);
    Some(members)
}

/// Whether settling leaves all drives but one that is pulled, with one write.
fn settles(world: &mut MemWorld) -> bool {
    forget(world);
    match settled(world) {
        Some(left) => are_all_but(&left, &[8]) && writes_of(world) == 1,
        None => false,
    }
}

fn settling_opens(alloc: Global) -> bool {
    let Some(mut world) = small_world(alloc) else {
        return false;
    };
    store_in(&mut world, Slot::A, NEW)
        && close_one(&mut world)
        && slot_is(&mut world, 6, Slot::A, false)
        && pull(&mut world, 8)
        && settles(&mut world)
        && slot_is(&mut world, 6, Slot::A, true)
}

/// Whether a drive shows the record in slot A still, and in slot B the new one or none.
fn shows_old_or_new(world: &mut MemWorld, drive: u8) -> bool {
    shows(world, drive, Slot::A, OLD)
        && (slot_is(world, drive, Slot::B, false) || shows(world, drive, Slot::B, NEW))
}

/// Whether each drive does.
fn all_show_old_or_new(world: &mut MemWorld) -> bool {
    for drive in 0..DRIVES {
        if !shows_old_or_new(world, drive) {
            return false;
        }
    }
    true
}

/// What a stop leaves of a world that is cut off after so many calls of a store in slot B.
fn cut_off(alloc: Global, world: MemWorld, calls: u64) -> Option<MemWorld> {
    let mut fused = Fused::new(world, calls);
    let answer = is_stored(&mut fused, &mut [true; 11], Slot::B, &[NEW; RECORD_BYTES]);
    let world = fused.into_inner();
    match answer {
        Some(false) => stopped(alloc, &world, 1),
        _ => None,
    }
}

/// A world whose slot A holds a record.
fn world_of_old(alloc: Global) -> Option<MemWorld> {
    let Some(mut world) = small_world(alloc) else {
        return None;
    };
    if store_in(&mut world, Slot::A, OLD) {
        Some(world)
    } else {
        None
    }
}

/// Whether, cut off after so many calls of a store in slot B, each drive shows the record in slot A still, and in slot B the new one or none.
fn keeps_old(alloc: Global, calls: u64) -> bool {
    let Some(world) = world_of_old(alloc) else {
        return false;
    };
    let Some(mut stopped) = cut_off(alloc, world, calls) else {
        return false;
    };
    all_show_old_or_new(&mut stopped)
}

fn stop_shows_old_or_new(alloc: Global) -> bool {
    // After so many calls the store is in the bodies, before the gates, and in them.
    keeps_old(alloc, 20) && keeps_old(alloc, 33) && keeps_old(alloc, 40)
}

/// The slot in force and the first byte of its body, by the drives that answer.
fn in_force(alloc: Global, world: &mut MemWorld) -> Option<Option<(Slot, u8)>> {
    let Ok(mut regions) = Regions::new(alloc, DRIVES) else {
        return None;
    };
    if world.drives() != DRIVES {
        return None;
    }
    read_regions(world, &mut regions);
    match regions.effective() {
        Some((slot, body)) => Some(Some((slot, body[0]))),
        None => Some(None),
    }
}

/// Whether a record is in force in this slot, with that first byte.
fn is_in_force(alloc: Global, world: &mut MemWorld, slot: Slot, byte: u8) -> bool {
    in_force(alloc, world) == Some(Some((slot, byte)))
}

/// Writes the new record to slot B of these drives.
fn write_new(world: &mut MemWorld, members: &mut [bool; 11]) -> bool {
    if world.drives() != DRIVES || world.units() < 64 {
        return false;
    }
    write_bodies(world, members, Slot::B, &[NEW; RECORD_BYTES]);
    true
}

/// Opens the gate of slot B on these drives.
fn open(world: &mut MemWorld, members: &mut [bool; 11]) -> bool {
    if world.drives() != DRIVES || world.units() < 64 {
        return false;
    }
    open_gates(world, members, Slot::B);
    true
}

/// Shows the new record in slot B of these drives alone, however few they are.
fn show_new(world: &mut MemWorld, members: [bool; 11]) -> bool {
    let mut members = members;
    close(world, &mut members, Slot::B)
        && write_new(world, &mut members)
        && open(world, &mut members)
}

/// The first five drives.
const FIVE: [bool; 11] = [
    true, true, true, true, true, false, false, false, false, false, false,
];

/// The sixth.
const SIXTH: [bool; 11] = [
    false, false, false, false, false, true, false, false, false, false, false,
];

/// Whether five drives are too few for a store of the new record, which shows it on none of them.
fn five_are_too_few(world: &mut MemWorld) -> bool {
    let mut five = FIVE;
    is_stored(world, &mut five, Slot::B, &[NEW; RECORD_BYTES]) == Some(false)
        && slot_is(world, 0, Slot::B, false)
}

fn more_than_half_decide(alloc: Global) -> bool {
    let Some(mut world) = small_world(alloc) else {
        return false;
    };
    in_force(alloc, &mut world) == Some(None)
        && store_in(&mut world, Slot::A, OLD)
        && is_in_force(alloc, &mut world, Slot::A, OLD)
        && five_are_too_few(&mut world)
        // Five drives which show the higher generation don't decide, and six do.
        && show_new(&mut world, FIVE)
        && is_in_force(alloc, &mut world, Slot::A, OLD)
        && show_new(&mut world, SIXTH)
        && is_in_force(alloc, &mut world, Slot::B, NEW)
        // A drive that shows it is pulled.
        && pull(&mut world, 3)
        && is_in_force(alloc, &mut world, Slot::A, OLD)
}

fn tie_goes_to_a(alloc: Global) -> bool {
    let Some(mut world) = small_world(alloc) else {
        return false;
    };
    store_in(&mut world, Slot::B, OLD)
        && is_in_force(alloc, &mut world, Slot::B, OLD)
        && store_in(&mut world, Slot::A, OLD)
        && is_in_force(alloc, &mut world, Slot::A, OLD)
}

/// What is loaded: its slot, its generation, how many commands are flushed by it, and the drives that hold it.
#[derive(Clone, Copy)]
struct Found {
    slot: Slot,
    generation: u64,
    flushed: u64,
    drives: [bool; DRIVE_FLAGS],
}

fn find(alloc: Global, world: &mut MemWorld) -> Result<Found, LoadFault> {
    match load(alloc, world) {
        Ok(loaded) => {
            let drives = loaded.drives;
            Ok(Found {
                slot: loaded.slot,
                generation: loaded.record.generation,
                flushed: loaded.record.flushed,
                drives,
            })
        }
        Err(fault) => Err(fault),
    }
}

/// Why nothing is loaded, or `None` where a record is.
fn load_fault(alloc: Global, world: &mut MemWorld) -> Option<LoadFault> {
    find(alloc, world).err()
}

/// The first byte of a garbled record.
const BAD: BadRecord = BadRecord {
    place: 0,
    byte: OLD,
};

fn none_is_found(alloc: Global) -> bool {
    let Some(mut world) = small_world(alloc) else {
        return false;
    };
    load_fault(alloc, &mut world) == Some(LoadFault::NoArray)
        && store_in(&mut world, Slot::A, OLD)
        && load_fault(alloc, &mut world) == Some(LoadFault::BadRecord(BAD))
}

/// Whether the first record is loaded, from slot B of all drives but these.
fn loads_first(alloc: Global, world: &mut MemWorld, missing: &[usize]) -> bool {
    match find(alloc, world) {
        Ok(found) => {
            found.slot == Slot::B && found.generation == 1 && found.drives == all_but(missing)
        }
        Err(_) => false,
    }
}

/// Whether nothing is loaded for want of drives, where all but these hold the record.
fn loads_too_few(alloc: Global, world: &mut MemWorld, missing: &[usize]) -> bool {
    load_fault(alloc, world) == Some(LoadFault::TooFew(all_but(missing)))
}

fn stored_is_loaded(alloc: Global) -> bool {
    let Some(mut world) = small_world(alloc) else {
        return false;
    };
    store_body(&mut world, Slot::B, &body_of(1, 0))
        && pull(&mut world, 4)
        && pull(&mut world, 9)
        && loads_first(alloc, &mut world, &[4, 9])
        && pull(&mut world, 0)
        && loads_too_few(alloc, &mut world, &[0, 4, 9])
}

/// The highest generation that leaves room is 2^48 - 9.
const LAST: [u8; 8] = [0, 0, 255, 255, 255, 255, 255, 247];

const SPENT: [u8; 8] = [0, 0, 255, 255, 255, 255, 255, 248];

fn spent_is_not_loaded(alloc: Global) -> bool {
    let Some(mut world) = small_world(alloc) else {
        return false;
    };
    store_body(&mut world, Slot::B, &body_at(&LAST))
        && load_fault(alloc, &mut world).is_none()
        && store_body(&mut world, Slot::A, &body_at(&SPENT))
        && load_fault(alloc, &mut world) == Some(LoadFault::Spent)
}

/// The calls of a store on a drive whose gate is open: its reading, a write and a sync that close it, those of the body, and those that open it.
const STORE_CALLS: u64 = 7;

/// Which calls of a store fail on some of the drives, and what stands there then.
#[derive(Drop)]
struct Failing {
    /// On so many.
    drives: u8,
    first: u64,
    last: u64,
    /// What each byte is of a write that failed, or that was not synced. Else the bytes are those from before it.
    torn: Option<u8>,
}

/// Lets these calls fail on a drive.
fn fail_on(world: &mut MemWorld, drive: u8, failing: &Failing) -> bool {
    for call in failing.first..failing.last.saturating_add(1) {
        if !fail(world, drive, call) {
            return false;
        }
    }
    true
}

/// Lets these calls fail.
fn fail_calls(world: &mut MemWorld, failing: &Failing) -> bool {
    for drive in 0..failing.drives {
        if !fail_on(world, drive, failing) {
            return false;
        }
    }
    true
}

/// Makes calls on the drives until none is to fail.
fn bring_back(world: &mut MemWorld) {
    for drive in 0..world.drives() {
        for _ in 0..STORE_CALLS {
            if drive < world.drives() {
                let _ = world.sync(Device::Drive(DriveId(drive)));
            }
        }
    }
}

/// Puts this byte all over what a store in slot B left unsynced on a drive.
fn tear_drive(world: &mut MemWorld, drive: u8, failing: &Failing, byte: u8) -> bool {
    match failing.first {
        4 | 5 => write_drive(world, drive, Slot::B.body(), &[byte; RECORD_BYTES]),
        _ => write_drive(world, drive, Slot::B.gate(), &[byte; SECTOR_BYTES]),
    }
}

/// What the drives hold that failed.
fn tear(world: &mut MemWorld, failing: &Failing) -> bool {
    let Some(byte) = failing.torn else {
        return true;
    };
    for drive in 0..failing.drives {
        if !tear_drive(world, drive, failing, byte) {
            return false;
        }
    }
    true
}

/// Stores records 1 and 2 in slots B and A.
fn store_two(world: &mut MemWorld) -> bool {
    store_body(world, Slot::B, &body_of(1, 0)) && store_body(world, Slot::A, &body_of(2, 0))
}

/// Whether a record of one flushed command is loaded from this slot.
fn loads_next(alloc: Global, world: &mut MemWorld, slot: Slot) -> bool {
    match find(alloc, world) {
        Ok(next) => next.slot == slot && next.flushed == 1,
        Err(_) => false,
    }
}

/// Whether another record is stored behind the one that was found, on the drives that hold that, and is loaded then.
fn stores_next(alloc: Global, world: &mut MemWorld, was: Found) -> bool {
    let mut members = [false; 11];
    members.copy_from_slice(&was.drives[..11]);
    let (slot, generation) = match was.slot {
        Slot::A => (Slot::B, 3),
        Slot::B => (Slot::A, 4),
    };
    is_stored(world, &mut members, slot, &body_of(generation, 1)) == Some(true)
        && loads_next(alloc, world, slot)
}

/// Whether the second record or the third is found, the latter where it was said to be stored, and a next one is stored then.
fn goes_on(alloc: Global, world: &mut MemWorld, is_third: bool) -> bool {
    match find(alloc, world) {
        Ok(found) => {
            let is_right = match found.slot {
                Slot::A => found.generation == 2 && !is_third,
                Slot::B => found.generation == 3,
            };
            is_right && stores_next(alloc, world, found)
        }
        Err(_) => false,
    }
}

/// Whether the drives that failed in a store come back, torn.
fn comes_back(world: &mut MemWorld, failing: &Failing) -> bool {
    bring_back(world);
    let is_torn = tear(world, failing);
    forget(world);
    is_torn
}

/// Whether, of records 1 and 2 in slots B and A, the second one or a third in place of the first is loaded where drives fail in the store of that and come
/// back, and a next one is stored then.
fn outlives(alloc: Global, world: &mut MemWorld, failing: &Failing) -> bool {
    // A gate whose reading alone fails is closed.
    let is_third = failing.last == 1;
    store_two(world)
        && fail_calls(world, failing)
        && is_stored(world, &mut [true; 11], Slot::B, &body_of(3, 0)) == Some(is_third)
        && comes_back(world, failing)
        && goes_on(alloc, world, is_third)
}

/// Whether it is so where so many drives fail at each call of a store, there alone or from there on.
fn outlives_each(
    alloc: Global,
    world: &mut MemWorld,
    drives: u8,
    fails_on: bool,
    torn: Option<u8>,
) -> bool {
    for first in 1..STORE_CALLS + 1 {
        let failing = Failing {
            drives,
            first,
            last: if fails_on { STORE_CALLS } else { first },
            torn,
        };
        if !outlives(alloc, world, &failing) {
            return false;
        }
    }
    true
}

/// Whether it is so where three drives or more fail.
fn all_outlive(alloc: Global, fails_on: bool, torn: Option<u8>) -> bool {
    let Some(mut world) = small_world(alloc) else {
        return false;
    };
    for drives in 3..DRIVES + 1 {
        if !outlives_each(alloc, &mut world, drives, fails_on, torn) {
            return false;
        }
    }
    true
}

/// What fails and what is left, whether the calls fail from one on, and what each byte is then of a write that failed.
const FAILURES: [(&str, bool, Option<u8>); 4] = [
    ("a call", false, None),
    ("all from a call on", true, None),
    ("all, which leave ones", true, Some(1)),
    ("all, which leave zeros", true, Some(0)),
];

#[test]
fn three_drives_and_more_fail_in_a_store(rt: HostRuntime) {
    for (what, fails_on, torn) in &FAILURES {
        assert!(rt; all_outlive(rt.alloc(), *fails_on, *torn), "{what}");
    }
}

/// The first of these that doesn't hold, or nothing.
fn broken(alloc: Global) -> &'static str {
    if !stored_is_shown(alloc) {
        return "a stored record is shown after a stop";
    }
    if !closed_is_not_written(alloc) {
        return "a gate that reads as closed is not written";
    }
    if !failing_are_dropped(alloc) {
        return "members that fail are dropped";
    }
    if !settling_opens(alloc) {
        return "settling opens what is closed";
    }
    if !stop_shows_old_or_new(alloc) {
        return "a stop in a store shows the old record or the new";
    }
    if !more_than_half_decide(alloc) {
        return "more than half of all drives decide";
    }
    if !tie_goes_to_a(alloc) {
        return "a tie goes to slot a";
    }
    if !none_is_found(alloc) {
        return "blank or garbled drives give no record";
    }
    if !stored_is_loaded(alloc) {
        return "a stored record is loaded without two drives";
    }
    if !spent_is_not_loaded(alloc) {
        return "a record that leaves no room is not loaded";
    }
    ""
}

#[test]
fn each_holds(rt: HostRuntime) {
    let broken = broken(rt.alloc());
    assert!(rt; broken.is_empty(), "{broken}");
}
