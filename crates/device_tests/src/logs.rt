// The log on the NVRAM devices.

use crate::stage::{calls_of, forget, small_world, stopped};
use log_codec::{Head, SLOT_BYTES, SLOTS_START, is_command, write_head};
use nvram_log::{NvLog, Record, sync_members};
use pur_base::{Device, NVRAM_BYTES, Name, NvId, Request, SECTOR_BYTES, Sector};
use std::alloc::Global;
use world::Shelf;
use world_mem::MemWorld;

fn fill(byte: u8) -> Option<Request> {
    match Name::read(b"a") {
        Ok(name) => Some(Request::Fill {
            name,
            lba: 0,
            count: 1,
            byte,
        }),
        Err(_) => None,
    }
}

fn head_of(number: u64, byte: u8) -> Option<Sector> {
    match fill(byte) {
        Some(command) if is_command(&command) => Some(write_head(&Head { number, command })),
        _ => None,
    }
}

/// The place of the last sector of a device.
const LAST_SECTOR: u64 = NVRAM_BYTES as u64 - SECTOR_BYTES as u64;

fn write_on(world: &mut MemWorld, device: u8, at: u64, bytes: &[u8]) -> bool {
    if device >= 2 || at > LAST_SECTOR || bytes.len() > SECTOR_BYTES {
        return false;
    }
    world.write(Device::Nv(NvId(device)), at, bytes).is_ok()
}

/// Whether this byte is read at that place of a device.
fn has_byte(world: &mut MemWorld, device: u8, at: u64, byte: u8) -> bool {
    let mut bytes = [0];
    if device >= 2 || at > 1_000_000 {
        return false;
    }
    world.read(Device::Nv(NvId(device)), at, &mut bytes).is_ok() && bytes[0] == byte
}

/// Whether these are the bytes at that place of the two devices.
fn have_bytes(world: &mut MemWorld, at: u64, first: u8, second: u8) -> bool {
    has_byte(world, 0, at, first) && has_byte(world, 1, at, second)
}

/// Puts a fill under that number into a slot, under an open gate.
fn put(world: &mut MemWorld, device: u8, slot: u8, number: u8) -> bool {
    let Some(head) = head_of(u64::from(number), number) else {
        return false;
    };
    let at = SLOTS_START + SLOT_BYTES * u64::from(slot);
    write_on(world, device, at, head.as_bytes()) && write_on(world, device, u64::from(slot), &[1])
}

fn log_on(alloc: Global, world: &mut MemWorld, flushed: u64) -> Option<NvLog> {
    NvLog::read(alloc, world, [true, true], flushed).ok()
}

fn settle(log: &mut NvLog, count: usize, world: &mut MemWorld) -> bool {
    count <= log.count() && log.settle(count, world).is_ok()
}

/// The byte of a fill that was read, or `None` where none was in this slot.
fn byte_of(log: &NvLog, slot: usize) -> Option<u8> {
    match log.record_at(slot)?.head.command {
        Request::Fill { byte, .. } => Some(byte),
        _ => None,
    }
}

/// Whether the log that is read holds so many commands, and is read by so many calls.
fn reads_by(alloc: Global, world: &mut MemWorld, count: usize, calls: usize) -> bool {
    forget(world);
    match log_on(alloc, world, 0) {
        Some(log) => log.count() == count && calls_of(world) == calls,
        None => false,
    }
}

/// Of each device the gates are read, and by a call more the head of each slot whose gate is open.
fn open_slots_are_read(alloc: Global) -> bool {
    let Some(mut world) = small_world(alloc) else {
        return false;
    };
    reads_by(alloc, &mut world, 0, 2)
        && put(&mut world, 1, 0, 1)
        && reads_by(alloc, &mut world, 1, 3)
        // The last gate, over a slot that shows nothing.
        && write_on(&mut world, 0, 63, &[1])
        && reads_by(alloc, &mut world, 1, 4)
}

/// Whether the log that is read holds the fill with number 1 alone, and 63 slots are free once that is settled.
fn holds_one(alloc: Global, world: &mut MemWorld) -> bool {
    let Some(mut log) = log_on(alloc, world, 0) else {
        return false;
    };
    log.count() == 1
        && byte_of(&log, 0) == Some(1)
        && settle(&mut log, 1, world)
        && log.free_slots() == 63
}

fn gap_ends(alloc: Global) -> bool {
    let Some(mut world) = small_world(alloc) else {
        return false;
    };
    put(&mut world, 0, 0, 1)
        && put(&mut world, 0, 5, 6)
        && put(&mut world, 1, 0, 1)
        && put(&mut world, 1, 5, 6)
        && holds_one(alloc, &mut world)
        && have_bytes(&mut world, 0, 1, 1)
        && have_bytes(&mut world, 5, 0, 0)
}

/// Whether the log that is read holds two commands, which are settled then.
fn settles_two(alloc: Global, world: &mut MemWorld) -> bool {
    let Some(mut log) = log_on(alloc, world, 0) else {
        return false;
    };
    log.count() == 2 && settle(&mut log, 2, world)
}

/// Whether the log that is read of the first device alone holds two commands, of which the second one is the fill with number 2.
fn first_holds_two(alloc: Global, world: &mut MemWorld) -> bool {
    world.pull(Device::Nv(NvId(1)));
    let Some(log) = log_on(alloc, world, 0) else {
        return false;
    };
    log.members() == [true, false] && log.count() == 2 && byte_of(&log, 1) == Some(2)
}

fn lacking_is_copied(alloc: Global) -> bool {
    let Some(mut world) = small_world(alloc) else {
        return false;
    };
    put(&mut world, 0, 0, 1)
        && put(&mut world, 1, 0, 1)
        && put(&mut world, 1, 1, 2)
        // Over a number that doesn't belong there, and one in the last slot, which does.
        && put(&mut world, 0, 1, 9)
        && put(&mut world, 0, 63, 64)
        && settles_two(alloc, &mut world)
        && have_bytes(&mut world, 63, 0, 0)
        && first_holds_two(alloc, &mut world)
}

fn append(log: &mut NvLog, byte: u8, world: &mut MemWorld) -> bool {
    let Some(request) = fill(byte) else {
        return false;
    };
    if log.free_slots() == 0 || log.flushed() > 1_000_000 {
        return false;
    }
    if !is_command(&request) || request.data_sectors() != 0 {
        return false;
    }
    let record = Record {
        request: &request,
        sectors: &[],
    };
    log.append(&record, world).is_ok()
}

/// Whether two fills are appended to the log that is read, which holds one command.
fn appends_two(alloc: Global, world: &mut MemWorld) -> bool {
    let Some(mut log) = log_on(alloc, world, 0) else {
        return false;
    };
    settle(&mut log, 1, world) && append(&mut log, 7, world) && append(&mut log, 8, world)
}

/// Whether the log that is read holds three fills, with these bytes.
fn holds_three(alloc: Global, world: &mut MemWorld, bytes: [u8; 3]) -> bool {
    match log_on(alloc, world, 0) {
        Some(log) => {
            byte_of(&log, 0) == Some(bytes[0])
                && byte_of(&log, 1) == Some(bytes[1])
                && byte_of(&log, 2) == Some(bytes[2])
        }
        None => false,
    }
}

fn more_is_appended(alloc: Global) -> bool {
    let Some(mut world) = small_world(alloc) else {
        return false;
    };
    put(&mut world, 0, 0, 1)
        && appends_two(alloc, &mut world)
        // The gates of both devices, and three heads of each.
        && reads_by(alloc, &mut world, 3, 8)
        && holds_three(alloc, &mut world, [1, 7, 8])
}

/// Whether a fill with this byte is appended to a log that is empty, with two writes and two syncs on each device.
fn appends_first(log: &mut NvLog, byte: u8, world: &mut MemWorld) -> bool {
    if log.count() != 0 || !settle(log, 0, world) {
        return false;
    }
    forget(world);
    append(log, byte, world) && calls_of(world) == 8
}

/// Whether the log that is read holds one fill, of this byte.
fn holds_only(alloc: Global, world: &mut MemWorld, byte: u8) -> bool {
    match log_on(alloc, world, 0) {
        Some(log) => log.count() == 1 && byte_of(&log, 0) == Some(byte),
        None => false,
    }
}

/// Whether the log is cleared, by which one command is flushed.
fn clears(log: &mut NvLog, world: &mut MemWorld) -> bool {
    log.clear(world).is_ok() && log.flushed() == 1
}

/// Whether the log that is read behind one flushed command holds none.
fn holds_none(alloc: Global, world: &mut MemWorld) -> bool {
    match log_on(alloc, world, 1) {
        Some(log) => log.count() == 0,
        None => false,
    }
}

fn appended_is_read(alloc: Global) -> bool {
    let Some(mut world) = small_world(alloc) else {
        return false;
    };
    let Some(mut log) = log_on(alloc, &mut world, 0) else {
        return false;
    };
    appends_first(&mut log, 7, &mut world)
        && holds_only(alloc, &mut world, 7)
        && clears(&mut log, &mut world)
        && holds_none(alloc, &mut world)
}

/// What a stop leaves of each dirty byte.
const TORN: u8 = 0xEE;

/// Syncs the members, and tells which are left.
fn synced(world: &mut MemWorld, members: [bool; 2]) -> [bool; 2] {
    let mut members = members;
    sync_members(world, &mut members);
    members
}

/// Whether these members are left once all are synced, behind a write of one byte to each device.
fn leaves_behind_writes(world: &mut MemWorld, members: [bool; 2]) -> bool {
    if !write_on(world, 0, 9, &[5]) || !write_on(world, 1, 9, &[5]) {
        return false;
    }
    forget(world);
    synced(world, [true; 2]) == members
}

/// Whether a stop leaves these of that byte on the two devices.
fn stop_leaves(alloc: Global, world: &MemWorld, first: u8, second: u8) -> bool {
    match stopped(alloc, world, TORN) {
        Some(mut stopped) => have_bytes(&mut stopped, 9, first, second),
        None => false,
    }
}

fn synced_stands(alloc: Global) -> bool {
    let Some(mut world) = small_world(alloc) else {
        return false;
    };
    leaves_behind_writes(&mut world, [true, true])
        && stop_leaves(alloc, &world, 5, 5)
        && calls_of(&world) == 2
}

/// Lets the second call from now on fail on the first device.
fn fail_second(world: &mut MemWorld) -> bool {
    world.fail(Device::Nv(NvId(0)), 2).is_ok()
}

/// Whether a device that is no member is left alone.
fn leaves_alone(world: &mut MemWorld) -> bool {
    forget(world);
    synced(world, [false, true]) == [false, true] && calls_of(world) == 1
}

fn failing_is_dropped(alloc: Global) -> bool {
    let Some(mut world) = small_world(alloc) else {
        return false;
    };
    // Behind the write, the sync.
    fail_second(&mut world)
        && leaves_behind_writes(&mut world, [false, true])
        && stop_leaves(alloc, &world, TORN, 5)
        && leaves_alone(&mut world)
}

/// Whether the log that is read of the second device alone holds the fill with number 1.
fn second_holds_one(alloc: Global, world: &mut MemWorld) -> bool {
    match log_on(alloc, world, 0) {
        Some(log) => log.members() == [false, true] && byte_of(&log, 0) == Some(1),
        None => false,
    }
}

fn failing_to_read_is_dropped(alloc: Global) -> bool {
    let Some(mut world) = small_world(alloc) else {
        return false;
    };
    put(&mut world, 0, 0, 1)
        && put(&mut world, 1, 0, 1)
        // Behind the gates, the slots.
        && fail_second(&mut world)
        && second_holds_one(alloc, &mut world)
}

/// The first of these that doesn't hold, or nothing.
fn broken(alloc: Global) -> &'static str {
    if !open_slots_are_read(alloc) {
        return "slots are read where a gate is open";
    }
    if !gap_ends(alloc) {
        return "a gap ends the log and is settled";
    }
    if !lacking_is_copied(alloc) {
        return "what a device lacks is copied";
    }
    if !appended_is_read(alloc) {
        return "what was appended is read until it is cleared";
    }
    if !more_is_appended(alloc) {
        return "more is appended than was read";
    }
    if !failing_to_read_is_dropped(alloc) {
        return "a device that fails at its slots is dropped";
    }
    if !synced_stands(alloc) {
        return "what is synced stands after a stop";
    }
    if !failing_is_dropped(alloc) {
        return "a device that fails to sync is dropped";
    }
    ""
}

#[test]
fn each_holds(rt: HostRuntime) {
    let broken = broken(rt.alloc());
    assert!(rt; broken.is_empty(), "{broken}");
}
