// The making of an array.

use crate::stage::{
    DRIVES, HEADER, fail, forget, gate_is, read_sector, small_world, stopped, write_drive,
    writes_of,
};
use pur_base::{Device, NvId, SECTOR_BYTES};
use shelf_init::{InitFault, init};
use std::alloc::Global;
use world::{Shelf, write_synced};
use world_mem::MemWorld;

/// Where the sectors of the gates stand, and the first sector of slot B's body.
const GATE_A: u16 = 0;

const GATE_B: u16 = 1;

const BODY_B: u16 = 256;

/// The header, and zeros behind it.
fn first_sector() -> [u8; SECTOR_BYTES] {
    let mut sector = [0; SECTOR_BYTES];
    sector[..88].copy_from_slice(&HEADER);
    sector
}

/// Why no array is made, or `None` where one is.
fn making_fault(alloc: Global, world: &mut MemWorld) -> Option<InitFault> {
    init(alloc, world).err()
}

/// Whether a drive shows the first record in slot B, and none in slot A.
fn shows_first(world: &mut MemWorld, drive: u8) -> bool {
    gate_is(world, drive, GATE_A, false)
        && gate_is(world, drive, GATE_B, true)
        && read_sector(world, drive, BODY_B) == Some(first_sector())
}

/// Whether each drive does once all is stopped.
fn all_show_first(alloc: Global, world: &MemWorld) -> bool {
    let Some(mut world) = stopped(alloc, world, 1) else {
        return false;
    };
    for drive in 0..DRIVES {
        if !shows_first(&mut world, drive) {
            return false;
        }
    }
    true
}

fn blank_are_made(alloc: Global) -> bool {
    let Some(mut world) = small_world(alloc) else {
        return false;
    };
    making_fault(alloc, &mut world).is_none()
        // No gate was open: the two NVRAM devices, and a body and a gate on each drive.
        && writes_of(&world) == 24
        && all_show_first(alloc, &world)
}

/// Whether nothing is written to devices that are not blank.
fn is_refused(alloc: Global, world: &mut MemWorld) -> bool {
    forget(world);
    making_fault(alloc, world) == Some(InitFault::NotBlank) && writes_of(world) == 0
}

fn is_made_once(alloc: Global) -> bool {
    let Some(mut world) = small_world(alloc) else {
        return false;
    };
    making_fault(alloc, &mut world).is_none() && is_refused(alloc, &mut world)
}

fn failed_call_ends(alloc: Global) -> bool {
    let Some(mut world) = small_world(alloc) else {
        return false;
    };
    fail(&mut world, 3, 1)
        && making_fault(alloc, &mut world) == Some(InitFault::Device)
        && writes_of(&world) == 0
        // Behind the read: the write of the body.
        && fail(&mut world, 4, 2)
        && making_fault(alloc, &mut world) == Some(InitFault::Device)
        && gate_is(&mut world, 0, GATE_B, false)
}

/// Opens the gate of slot A on drive 2, and one of the log.
fn open_two(world: &mut MemWorld) -> bool {
    write_drive(world, 2, 0, &[1; SECTOR_BYTES])
        && write_synced(world, Device::Nv(NvId(1)), 5, &[1]).is_ok()
}

/// Whether the gate of the log is shut.
fn gate_of_log_is_shut(world: &mut MemWorld) -> bool {
    let mut gate = [1];
    world.read(Device::Nv(NvId(1)), 5, &mut gate).is_ok() && gate[0] == 0
}

fn open_are_closed(alloc: Global) -> bool {
    let Some(mut world) = small_world(alloc) else {
        return false;
    };
    open_two(&mut world)
        && gate_is(&mut world, 2, GATE_A, true)
        && making_fault(alloc, &mut world).is_none()
        && gate_is(&mut world, 2, GATE_A, false)
        && gate_of_log_is_shut(&mut world)
}

/// The first of these that doesn't hold, or nothing.
fn broken(alloc: Global) -> &'static str {
    if !blank_are_made(alloc) {
        return "blank devices hold the first record then";
    }
    if !is_made_once(alloc) {
        return "an array is made once";
    }
    if !failed_call_ends(alloc) {
        return "a call that fails ends it";
    }
    if !open_are_closed(alloc) {
        return "gates that were open are closed";
    }
    ""
}

#[test]
fn each_holds(rt: HostRuntime) {
    let broken = broken(rt.alloc());
    assert!(rt; broken.is_empty(), "{broken}");
}
