ghost use Rattle.std.specs.Prelude.{◌≡◌, IfSome};
ghost use Rattle.boot_codec.specs.Record.{IsBootRecord};

use crate::stage::{MORE_PLACES, PLACES, append, pull, pull_two, set_of, small_world};
use boot_codec::{BootRecord, RECORD_BYTES, read_record};
use fact_codec::{FACT_BYTES, NUMBER_LIMIT, write_fact};
use parity72::SHARD_BYTES;
use pur_base::{
    AddressFact, AnyFact, ElisionFact, Lost, MediumId, Places, SegmentId, Seq, Table, Target,
};
use segment_codec::SegmentKind;
use segment_io::Open;
use std::alloc::Global;
use table_loading::{TablesFault, load_tables};
use world::Shelf;
use world_mem::MemWorld;

/// The front of a record of two patches. Made by hand from docs/FORMAT.md.
const RECORD: [u8; 172] = [
    // PURARRAY, the format, 11 drives of 64 units
    80, 85, 82, 65, 82, 82, 65, 89, 0, 0, 0, 1, 0, 11, 0, 64,
    // the generation and the members
    0, 0, 0, 0, 0, 0, 0, 1, 0, 0, 7, 255, 3, 0, 0, 0,
    // the next object, medium, data segment, patch segment and sequence number
    0, 0, 0, 0, 0, 0, 0, 2, 0, 0, 0, 0, 0, 0, 0, 8, 0, 0, 0, 0, 0, 0, 0, 1, 0, 0, 0, 0, 0, 0, 0, 3,
    0, 0, 0, 0, 0, 0, 0, 3,
    // nothing is flushed, two patches, the length
    0, 0, 0, 0, 0, 0, 0, 0, 0, 2, 0, 0, 0, 0, 0, 172,
    // a patch of one address on the first nine slots
    3, 0, 0, 0, 1, 0, 1, 0, 0, 0, 0, 0, 0, 0, 1, 0, 0, 3, 1, 0, 4, 2, 0, 5, 3, 0, 3, 4, 0, 63, 5,
    0, 3, 6, 0, 9, 7, 0, 3, 8, 0, 3,
    // a patch of one elision on the slots 0 and 3 to 10
    5, 0, 0, 0, 1, 0, 1, 0, 0, 0, 0, 0, 0, 0, 2, 0, 0, 7, 3, 0, 7, 4, 0, 7, 5, 0, 7, 6, 0, 7, 7, 0,
    7, 8, 0, 7, 9, 0, 7, 10, 0, 7,
];

/// Where the last byte of the next sequence number stands.
const SEQUENCE_AT: usize = 71;

/// Where the tag of the first patch stands.
const TAG_AT: usize = 88;

/// The record with that tag at its first patch, and that next sequence number.
fn record(alloc: Global, tag: u8, sequence: u8) -> Option<BootRecord>
    ensures { IfSome result (λ boot. IsBootRecord boot) }
{
    let mut bytes = [0; RECORD_BYTES];
    bytes[..RECORD.len()].copy_from_slice(&RECORD);
    bytes[SEQUENCE_AT] = sequence;
    bytes[TAG_AT] = tag;
    match read_record(alloc, &bytes, 11, 64) {
        Ok(boot) => Some(boot),
        Err(_) => None,
    }
}

/// Writes a fact as the first one of a segment.
fn write_first(world: &mut MemWorld, places: Places, text: &[u8; FACT_BYTES]) -> bool {
    let mut stripe = [[0; SHARD_BYTES]; 7];
    stripe[0][..FACT_BYTES].copy_from_slice(text);
    let mut open = Open::new(SegmentId(1), SegmentKind::Patch, places);
    append(&mut open, &stripe, world)
}

/// Writes an address of medium 7 that reads as zeros, by a fact of this number.
fn write_address(world: &mut MemWorld, seq: u64) -> bool {
    if seq == 0 || seq >= NUMBER_LIMIT {
        return false;
    }
    let fact = AnyFact::Address(AddressFact {
        medium: MediumId(7),
        sector: 0,
        target: Target::Zero,
        seq: Seq(seq),
    });
    write_first(world, PLACES, &write_fact(&fact))
}

/// Writes that an object is elided, by a fact of this number.
fn write_elision(world: &mut MemWorld, seq: u64) -> bool {
    if seq == 0 || seq >= NUMBER_LIMIT {
        return false;
    }
    let fact = AnyFact::Elision(ElisionFact {
        first: 1,
        table: Table::Object,
        last: 1,
        seq: Seq(seq),
    });
    write_first(world, MORE_PLACES, &write_fact(&fact))
}

/// How many patches each table has.
type Counts = [usize; 5];

/// One patch of addresses, and one of elisions.
const BOTH: Counts = [0, 0, 1, 0, 1];

/// How many patches each table has, or why they weren't loaded.
fn load(
    alloc: Global,
    world: &mut MemWorld,
    boot: &BootRecord,
    missing: &[bool],
) -> Option<Result<Counts, TablesFault>>
    requires { IsBootRecord boot.now }
{
    if boot.slots != world.drives() || boot.units != world.units() {
        return None;
    }
    match load_tables(alloc, world, boot, missing) {
        Ok(loaded) => Some(Ok([
            loaded.tables.objects.len(),
            loaded.tables.mediums.len(),
            loaded.tables.addresses.len(),
            loaded.tables.segments.len(),
            loaded.tables.elisions.len(),
        ])),
        Err(fault) => Some(Err(fault)),
    }
}

/// Whether by the record with that tag at its first patch and that next sequence number, where these drives are missing, a patch of addresses and one
/// of elisions are loaded, or this fault is told.
fn loads(
    alloc: Global,
    world: &mut MemWorld,
    (tag, sequence): (u8, u8),
    missing: &[u8],
    fault: Option<TablesFault>,
) -> bool {
    let Some(boot) = record(alloc, tag, sequence) else {
        return false;
    };
    match load(alloc, world, &boot, &set_of(missing)) {
        Some(Ok(counts)) => fault.is_none() && counts == BOTH,
        Some(Err(told)) => fault == Some(told),
        None => false,
    }
}

/// The tables are lost for want of drives 0, 7 and 10.
fn three_lost() -> Option<TablesFault> {
    let drives = set_of(&[0, 7, 10]);
    Some(TablesFault::Lost(Lost { drives }))
}

fn two_are_read(alloc: Global) -> bool {
    let Some(mut world) = small_world(alloc) else {
        return false;
    };
    write_address(&mut world, 1)
        && write_elision(&mut world, 2)
        && loads(alloc, &mut world, (3, 3), &[], None)
        && pull_two(&mut world, 0, 7)
        && loads(alloc, &mut world, (3, 3), &[0, 7], None)
        // Of the first patch two drives are left out, of the second three.
        && pull(&mut world, 10)
        && loads(alloc, &mut world, (3, 3), &[0, 7], three_lost())
}

/// Whether, of an address and an elision by facts of these numbers, this is told by the record with that tag and that next sequence number.
fn is_told(
    alloc: Global,
    address: u64,
    elision: u64,
    record: (u8, u8),
    fault: Option<TablesFault>,
) -> bool {
    let Some(mut world) = small_world(alloc) else {
        return false;
    };
    write_address(&mut world, address)
        && write_elision(&mut world, elision)
        && loads(alloc, &mut world, record, &[], fault)
}

/// The first table that fails.
fn unsound(table: Table) -> Option<TablesFault> {
    Some(TablesFault::Unsound(table))
}

fn faults_are_of_tables(alloc: Global) -> bool {
    // An address stands where the record names an object.
    let bad = Some(TablesFault::BadPatch(Table::Object));
    is_told(alloc, 1, 2, (1, 3), bad)
        // The number of the elision is the next one.
        && is_told(alloc, 1, 2, (3, 2), unsound(Table::Elision))
}

/// Whether the first table with a number that fails is named, where the next number is 10.
fn first_is_named(alloc: Global) -> bool {
    is_told(alloc, 8, 9, (3, 10), None)
        && is_told(alloc, 9, 9, (3, 10), unsound(Table::Elision))
        && is_told(alloc, 10, 9, (3, 10), unsound(Table::Address))
        && is_told(alloc, 9, 10, (3, 10), unsound(Table::Elision))
}

#[test]
fn each_holds(rt: HostRuntime) {
    assert!(rt;
        two_are_read(rt.alloc()) && faults_are_of_tables(rt.alloc()) && first_is_named(rt.alloc())
    );
}
