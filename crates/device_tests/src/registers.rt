// The register, over the boot region and the log.
ghost use Rattle.std.specs.Prelude.{IfSome};
ghost use Rattle.world.specs.Losing.{geometry_of};
ghost use Rattle.boot_codec.specs.Record.{IsBootRecord};
ghost use Rattle.register.specs.Registers.{IsRegisterOf};
ghost use Rattle.register.specs.Tables.{with_tables};

use crate::stage::{all_but, body_at, fail, gate_is, pull, read_sector, small_world};
use boot_codec::{DRIVE_FLAGS, Members, NextNumbers, Patches, read_record};
use register::{Register, StoreFault, Tables};
use std::alloc::Global;
use world::Shelf;
use world_mem::MemWorld;

/// The first sectors of the bodies of slots A and B.
const BODY_A: u16 = 128;

const BODY_B: u16 = 256;

const FIRST: [u8; 8] = [0, 0, 0, 0, 0, 0, 0, 1];

/// A register that holds the record of a new shelf at this generation, on all drives.
fn register_at<S: Shelf>(alloc: Global, shelf: &S, generation: &[u8; 8]) -> Option<Register>
    ensures { IfSome result (λ r. IsRegisterOf (geometry_of (S.shelf shelf.now)) r) }
{
    match read_record(alloc, &body_at(generation), shelf.drives(), shelf.units()) {
        Ok(record) => {
            let drives = record.members.drives;
            match Register::new(alloc, record, drives) {
                Ok(register) => Some(register),
                Err(_) => None,
            }
        }
        Err(_) => None,
    }
}

/// Tables without a patch, for which seven logged commands count as flushed.
fn seven_flushed<S: Shelf>(alloc: Global, _shelf: &S, register: &Register) -> Tables
    requires { IsRegisterOf (geometry_of (S.shelf _shelf.now)) register.now }
    ensures { IsBootRecord (with_tables register.now.record result) }
{
    Tables {
        patches: Patches::new(alloc),
        next: NextNumbers {
            object: 1,
            medium: 1,
            segment: 1,
            patch_segment: 1,
            sequence: 1,
        },
        flushed: 7,
    }
}

/// What a store answered, and what the register holds behind it.
#[derive(Clone, Copy)]
struct Stored {
    fault: Option<StoreFault>,
    generation: u64,
    flushed: u64,
    members: Members,
    drives: [bool; DRIVE_FLAGS],
}

fn behind(register: &Register, answer: Result<(), StoreFault>) -> Stored {
    let record = register.record();
    Stored {
        fault: answer.err(),
        generation: record.generation,
        flushed: record.flushed,
        members: record.members,
        drives: *register.drives(),
    }
}

/// Stores the record behind that of a new shelf, which names the first NVRAM device, and maybe the second one.
fn store_next(alloc: Global, world: &mut MemWorld, second: bool) -> Option<Stored> {
    let Some(mut register) = register_at(alloc, world, &FIRST) else {
        return None;
    };
    let answer = register.store([true, second], world);
    Some(behind(&register, answer))
}

/// Whether a body says this of the generation and the members.
fn says(world: &mut MemWorld, drive: u8, sector: u16, expected: &[u8; 16]) -> bool {
    match read_sector(world, drive, sector) {
        Some(body) => body[16..32] == expected[..],
        None => false,
    }
}

/// Whether the second record is stored, of all drives and the first NVRAM device.
fn stores_second(alloc: Global, world: &mut MemWorld) -> bool {
    match store_next(alloc, world, false) {
        Some(stored) => {
            stored.fault.is_none()
                && stored.generation == 2
                && stored.members.nvrams == [true, false]
                && stored.drives == all_but(&[])
        }
        None => false,
    }
}

/// What the second record says of the generation and the members.
const SECOND_SAYS: [u8; 16] = [0, 0, 0, 0, 0, 0, 0, 2, 0, 0, 7, 255, 1, 0, 0, 0];

fn next_is_stored(alloc: Global) -> bool {
    let Some(mut world) = small_world(alloc) else {
        return false;
    };
    stores_second(alloc, &mut world)
        && gate_is(&mut world, 10, 0, true)
        && gate_is(&mut world, 10, 1, false)
        && says(&mut world, 10, BODY_A, &SECOND_SAYS)
}

/// Whether a third record is stored behind a second one, of all drives but two.
fn stores_third(alloc: Global, world: &mut MemWorld) -> bool {
    match store_next(alloc, world, true) {
        Some(stored) => {
            stored.fault.is_none()
                && stored.generation == 3
                && stored.members.drives == all_but(&[3, 8])
                && stored.drives == all_but(&[3, 8])
        }
        None => false,
    }
}

/// What the third record says.
const THIRD_SAYS: [u8; 16] = [0, 0, 0, 0, 0, 0, 0, 3, 0, 0, 6, 247, 3, 0, 0, 0];

fn failing_is_dropped(alloc: Global) -> bool {
    let Some(mut world) = small_world(alloc) else {
        return false;
    };
    // The write of a body fails, behind the read of the gate.
    fail(&mut world, 3, 2)
        && pull(&mut world, 8)
        && stores_third(alloc, &mut world)
        // The record before stands in the other slot still.
        && gate_is(&mut world, 0, 0, true)
        && gate_is(&mut world, 0, 1, true)
        && says(&mut world, 0, BODY_B, &THIRD_SAYS)
}

/// Whether none is stored for want of three drives, though its generation is spent.
fn stores_none(alloc: Global, world: &mut MemWorld) -> bool {
    match store_next(alloc, world, true) {
        Some(stored) => {
            stored.fault == Some(StoreFault::TooFew(all_but(&[1, 5, 9])))
                && stored.generation == 2
                && stored.members.drives == all_but(&[])
        }
        None => false,
    }
}

fn eight_are_too_few(alloc: Global) -> bool {
    let Some(mut world) = small_world(alloc) else {
        return false;
    };
    pull(&mut world, 1)
        && pull(&mut world, 5)
        && pull(&mut world, 9)
        && stores_none(alloc, &mut world)
}

/// The last generation but one.
const LAST_BUT_ONE: [u8; 8] = [0, 0, 255, 255, 255, 255, 255, 254];

/// Stores the record of the last generation, and then asks for one more.
fn store_last_two(alloc: Global, world: &mut MemWorld) -> Option<(Stored, Stored)> {
    let Some(mut register) = register_at(alloc, world, &LAST_BUT_ONE) else {
        return None;
    };
    let answer = register.store([true, true], world);
    let last = behind(&register, answer);
    let answer = register.store([true, true], world);
    Some((last, behind(&register, answer)))
}

fn last_is_stored(alloc: Global) -> bool {
    let Some(mut world) = small_world(alloc) else {
        return false;
    };
    match store_last_two(alloc, &mut world) {
        Some((last, more)) => {
            last.fault.is_none()
                && more.fault == Some(StoreFault::Spent)
                && more.generation == 281474976710655
        }
        None => false,
    }
}

/// Stores the record of a new shelf with other tables.
fn store_tables(alloc: Global, world: &mut MemWorld) -> Option<Stored> {
    let Some(mut register) = register_at(alloc, world, &FIRST) else {
        return None;
    };
    let tables = seven_flushed(alloc, world, &register);
    let answer = register.store_tables(tables, world);
    Some(behind(&register, answer))
}

/// Whether it is stored, of all drives but one.
fn stores_seven(alloc: Global, world: &mut MemWorld) -> bool {
    match store_tables(alloc, world) {
        Some(stored) => {
            stored.fault.is_none()
                && stored.flushed == 7
                && stored.generation == 3
                && stored.drives == all_but(&[3])
        }
        None => false,
    }
}

/// Whether the body in slot B of the first drive says that seven commands are flushed.
fn says_seven(world: &mut MemWorld) -> bool {
    match read_sector(world, 0, BODY_B) {
        Some(body) => body[79] == 7,
        None => false,
    }
}

fn tables_are_stored(alloc: Global) -> bool {
    let Some(mut world) = small_world(alloc) else {
        return false;
    };
    // The write of a body fails, behind the read of the gate.
    fail(&mut world, 3, 2) && stores_seven(alloc, &mut world) && says_seven(&mut world)
}

/// The first of these that doesn't hold, or nothing.
fn broken(alloc: Global) -> &'static str {
    if !next_is_stored(alloc) {
        return "the next record is stored";
    }
    if !failing_is_dropped(alloc) {
        return "a drive that fails is named no longer";
    }
    if !eight_are_too_few(alloc) {
        return "eight of eleven are too few";
    }
    if !last_is_stored(alloc) {
        return "the last generation is stored";
    }
    if !tables_are_stored(alloc) {
        return "a record with other tables is stored";
    }
    ""
}

#[test]
fn each_holds(rt: HostRuntime) {
    let broken = broken(rt.alloc());
    assert!(rt; broken.is_empty(), "{broken}");
}
