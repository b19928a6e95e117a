ghost use Rattle.std.specs.Prelude.{◌≡◌, ◌<◌, length, IfSome};
ghost use Rattle.boot_codec.specs.Record.{IsBootRecord};

use boot_codec::{
    BootRecord, DRIVE_FLAGS, HEADER_BYTES, Members, NVRAM_FLAGS, NextNumbers, Patch, PatchSegment,
    Patches, RECORD_BYTES, ReadError, read_record, write_record,
};
use pur_base::Place;
use std::alloc::Global;

/// The record of a new shelf of 11 drives of 64 units.
fn new_record(alloc: Global) -> BootRecord
    ensures { IsBootRecord result }
{
    let mut drives = [false; DRIVE_FLAGS];
    drives[..11].fill(true);
    BootRecord {
        slots: 11,
        units: 64,
        generation: 1,
        members: Members {
            drives,
            nvrams: [true; NVRAM_FLAGS],
        },
        next: NextNumbers {
            object: 1,
            medium: 1,
            segment: 1,
            patch_segment: 1,
            sequence: 1,
        },
        flushed: 0,
        patches: Patches::new(alloc),
    }
}

/// The bytes of a record, written over this one.
fn bytes_of(boot: &BootRecord, byte: u8) -> [u8; RECORD_BYTES]
    requires { IsBootRecord boot.now }
{
    let mut bytes = [byte; RECORD_BYTES];
    write_record(boot, &mut bytes);
    bytes
}

fn bytes_of_new(alloc: Global) -> [u8; RECORD_BYTES] {
    bytes_of(&new_record(alloc), 7)
}

/// The record of such a shelf that the bytes spell.
fn read(alloc: Global, bytes: &[u8; RECORD_BYTES]) -> Option<BootRecord>
    ensures { IfSome result (λ r. IsBootRecord r) }
{
    match read_record(alloc, bytes, 11, 64) {
        Ok(record) => Some(record),
        Err(_) => None,
    }
}

/// Whether the record is spelled by these bytes, all of them written.
fn is_spelled(boot: &BootRecord, bytes: &[u8; RECORD_BYTES]) -> bool
    requires { IsBootRecord boot.now }
{
    bytes[..] == bytes_of(boot, 9)[..]
}

/// What becomes of that record when a byte is raised by one, 255 to 0: the place and the byte of its fault, or `None` where it is another lawful record.
/// A row serves its byte and those after it up to the next row. Made by hand from docs/FORMAT.md.
const RAISED: [(usize, Option<(usize, u8)>); 46] = [
    // PURARRAY
    (0, Some((0, b'Q'))),
    (1, Some((1, b'V'))),
    (2, Some((2, b'S'))),
    (3, Some((3, b'B'))),
    (4, Some((4, b'S'))),
    (5, Some((5, b'S'))),
    (6, Some((6, b'B'))),
    (7, Some((7, b'Z'))),
    // the format
    (8, Some((8, 1))),
    (9, Some((8, 0))),
    // the slots
    (12, Some((12, 1))),
    (13, Some((12, 0))),
    // the units of a drive
    (14, Some((14, 1))),
    (15, Some((14, 0))),
    // the generation: too great by its first two bytes
    (16, Some((16, 1))),
    (17, Some((16, 0))),
    (18, None),
    // the member drives: three bits past the slots, and then too few
    (24, Some((24, 1))),
    (25, Some((24, 0))),
    // the member NVRAM devices: a third one
    (28, Some((28, 4))),
    // three zeros
    (29, Some((29, 1))),
    (30, Some((30, 1))),
    (31, Some((31, 1))),
    // the next object id
    (32, Some((32, 1))),
    (33, Some((32, 0))),
    (34, None),
    // the next medium id
    (40, Some((40, 1))),
    (41, Some((40, 0))),
    (42, None),
    // the next data segment id
    (48, Some((48, 1))),
    (49, Some((48, 0))),
    (50, None),
    // the next patch segment id
    (56, Some((56, 1))),
    (57, Some((56, 0))),
    (58, None),
    // the next sequence number
    (64, Some((64, 1))),
    (65, Some((64, 0))),
    (66, None),
    // the last logged command
    (72, Some((72, 1))),
    (73, Some((72, 0))),
    (74, None),
    // the number of patches: 256 or 1, where the first has no tag
    (80, Some((88, 0))),
    // the number of frontier units
    (82, Some((82, 1))),
    (83, Some((82, 0))),
    // the length
    (84, Some((84, 1))),
    (85, Some((84, 0))),
];

/// The row that serves a byte.
fn raised(index: usize) -> Option<(usize, u8)> {
    let mut expected = None;
    for (first, fault) in &RAISED {
        if *first <= index {
            expected = *fault;
        }
    }
    expected
}

/// What stands from the number of patches on, in a record with two of them that ends at 207.
const PATCHES_BY_HAND: [u8; 127] = [
    0, 2, 0, 0, 0, 0, 0, 207, // two patches, no frontier units, the length
    1, 0, 0, 26, 64, 0, 1, // 6,720 object facts in one segment
    0, 0, 0, 0, 0, 0, 1, 2, // segment 258
    0, 0, 3, 1, 0, 63, 2, 0, 5, 3, 0, 6, 4, 0, 7, 5, 0, 8, 6, 0, 9, 8, 0, 10, 10, 0, 11, 5, 0, 0,
    26, 65, 0, 2, // 6,721 elision facts in two segments
    0, 0, 0, 0, 0, 0, 1, 2, // segment 258
    0, 0, 3, 1, 0, 63, 2, 0, 5, 3, 0, 6, 4, 0, 7, 5, 0, 8, 6, 0, 9, 8, 0, 10, 10, 0, 11, 0, 0, 0,
    0, 0, 0, 1, 2, // segment 258
    0, 0, 3, 1, 0, 63, 2, 0, 5, 3, 0, 6, 4, 0, 7, 5, 0, 8, 6, 0, 9, 8, 0, 10, 10, 0, 11,
];

/// The segment that it has three times.
const SEGMENT_BY_HAND: PatchSegment = PatchSegment {
    id: 258,
    places: [
        Place { slot: 0, unit: 3 },
        Place { slot: 1, unit: 63 },
        Place { slot: 2, unit: 5 },
        Place { slot: 3, unit: 6 },
        Place { slot: 4, unit: 7 },
        Place { slot: 5, unit: 8 },
        Place { slot: 6, unit: 9 },
        Place { slot: 8, unit: 10 },
        Place { slot: 10, unit: 11 },
    ],
};

/// The bytes of that record.
fn bytes_of_patches(alloc: Global) -> [u8; RECORD_BYTES] {
    let mut bytes = bytes_of_new(alloc);
    bytes[80..207].copy_from_slice(&PATCHES_BY_HAND);
    bytes
}

/// A byte of that record and what is put there, and the place and the byte of the fault that docs/FORMAT.md gives then.
const FAULTS: [((usize, u8), (usize, u8)); 12] = [
    // a third patch that has no tag
    ((81, 3), (207, 0)),
    // a length one too great
    ((87, 208), (84, 0)),
    // a patch of no table, and of a sixth
    ((88, 0), (88, 0)),
    ((88, 6), (88, 6)),
    // a fact more than one segment holds
    ((92, 65), (93, 0)),
    // the slot of the second place on the first one's slot
    ((103, 1), (106, 1)),
    // the second unit past the last, and the last in the boot region
    ((108, 64), (107, 0)),
    ((129, 2), (128, 0)),
    // the slot of the last place past the slots
    ((127, 11), (127, 11)),
    // a tag below the one before it
    ((130, 0), (130, 0)),
    // a segment too few
    ((136, 1), (135, 0)),
    // the first byte of the padding
    ((207, 1), (207, 1)),
];

/// The first bytes of a new record.
const OPENING: [u8; 29] = [
    80, 85, 82, 65, 82, 82, 65, 89, 0, 0, 0, 1, 0, 11, 0, 64, 0, 0, 0, 0, 0, 0, 0, 1, 0, 0, 7, 255,
    3,
];

/// Whether the record that the bytes spell is spelled so again.
fn is_read(alloc: Global, bytes: &[u8; RECORD_BYTES]) -> bool {
    match read(alloc, bytes) {
        Some(record) => is_spelled(&record, bytes),
        None => false,
    }
}

fn new_is_written(alloc: Global) -> bool {
    let bytes = bytes_of_new(alloc);
    bytes.starts_with(&OPENING) && bytes[84..88] == [0, 0, 0, 88][..] && is_read(alloc, &bytes)
}

/// Whether the bytes with one raised have this fault, or spell another record.
fn has_fault(alloc: Global, bytes: &[u8; RECORD_BYTES], expected: Option<(usize, u8)>) -> bool {
    match read_record(alloc, bytes, 11, 64) {
        Ok(other) => expected.is_none() && is_spelled(&other, bytes),
        Err(ReadError::Bad(bad)) => expected == Some((bad.place, bad.byte)),
        Err(ReadError::Memory(_)) => false,
    }
}

fn put(bytes: &mut [u8; RECORD_BYTES], index: usize, byte: u8)
    requires { index < RECORD_BYTES }
{
    bytes[index] = byte;
}

/// Whether the bytes have this fault once one of them is another.
fn has_fault_with(
    alloc: Global,
    bytes: &mut [u8; RECORD_BYTES],
    (index, byte): (usize, u8),
    expected: Option<(usize, u8)>,
) -> bool {
    if index >= RECORD_BYTES {
        return false;
    }
    let was = bytes[index];
    put(bytes, index, byte);
    let has_fault = has_fault(alloc, bytes, expected);
    put(bytes, index, was);
    has_fault
}

/// Whether they have the fault of its row where this byte is raised by one.
fn is_raised(alloc: Global, bytes: &mut [u8; RECORD_BYTES], index: usize) -> bool {
    if index >= HEADER_BYTES {
        return false;
    }
    let byte = bytes[index].wrapping_add(1);
    has_fault_with(alloc, bytes, (index, byte), raised(index))
}

fn all_are_raised(alloc: Global) -> bool {
    let mut bytes = bytes_of_new(alloc);
    for index in 0..HEADER_BYTES {
        if !is_raised(alloc, &mut bytes, index) {
            return false;
        }
    }
    true
}

/// Whether a patch has this tag and so many facts, in so many segments, each of which is the one by hand.
fn is_by_hand(patch: &Patch<'_>, tag: u8, facts: u32, segments: usize) -> bool {
    let found = patch.segments.as_slice();
    if found.len() != segments {
        return false;
    }
    patch.tag == tag && patch.facts == facts && are_segments_by_hand(found)
}

/// Whether each segment is the one that stands in the record by hand three times.
fn are_segments_by_hand(segments: &[PatchSegment]) -> bool {
    for segment in segments {
        if *segment != SEGMENT_BY_HAND {
            return false;
        }
    }
    true
}

/// The patches of the record by hand: one of objects in one segment, and one of elisions in two.
fn is_first(patch: &Patch<'_>) -> bool {
    is_by_hand(patch, 1, 6720, 1)
}

fn is_second(patch: &Patch<'_>) -> bool {
    is_by_hand(patch, 5, 6721, 2)
}

/// Whether the patches are those by hand, in their order or turned round.
fn are_by_hand(patches: &Patches, turned: bool) -> bool {
    if patches.len() != 2 {
        return false;
    }
    let first = patches.at(0);
    let second = patches.at(1);
    if turned {
        is_second(&first) && is_first(&second)
    } else {
        is_first(&first) && is_second(&second)
    }
}

/// Whether the bytes by hand are read, as the patches by hand.
fn patches_are_read(alloc: Global) -> bool {
    let bytes = bytes_of_patches(alloc);
    match read(alloc, &bytes) {
        Some(record) => is_spelled(&record, &bytes) && are_by_hand(&record.patches, false),
        None => false,
    }
}

/// Whether two patches stand turned round where the second one is pushed first.
fn are_turned(alloc: Global, patches: &Patches) -> bool {
    let mut turned = Patches::new(alloc);
    patches.len() == 2
        && turned.push(&patches.at(1)).is_ok()
        && turned.push(&patches.at(0)).is_ok()
        && are_by_hand(&turned, true)
}

fn patches_are_turned(alloc: Global) -> bool {
    match read(alloc, &bytes_of_patches(alloc)) {
        Some(record) => are_turned(alloc, &record.patches),
        None => false,
    }
}

fn all_have_faults(alloc: Global) -> bool {
    let mut bytes = bytes_of_patches(alloc);
    for (change, fault) in &FAULTS {
        if !has_fault_with(alloc, &mut bytes, *change, Some(*fault)) {
            return false;
        }
    }
    true
}

/// Whether a byte of the padding is the fault that is told.
fn is_padding(alloc: Global, bytes: &mut [u8; RECORD_BYTES], place: usize) -> bool {
    has_fault_with(alloc, bytes, (place, 5), Some((place, 5)))
}

fn padding_is_refused(alloc: Global) -> bool {
    let mut bytes = bytes_of_new(alloc);
    // Of two faults the first one is told.
    put(&mut bytes, RECORD_BYTES - 1, 9);
    is_padding(alloc, &mut bytes, HEADER_BYTES)
        && is_padding(alloc, &mut bytes, 4096)
        && is_padding(alloc, &mut bytes, RECORD_BYTES - 1)
}

/// The first of these that doesn't hold, or nothing.
fn broken(alloc: Global) -> &'static str {
    if !new_is_written(alloc) {
        return "a new record";
    }
    if !all_are_raised(alloc) {
        return "one byte raised";
    }
    if !patches_are_read(alloc) {
        return "two patches";
    }
    if !patches_are_turned(alloc) {
        return "patches in turn";
    }
    if !all_have_faults(alloc) {
        return "one byte of patches changed";
    }
    if !padding_is_refused(alloc) {
        return "padding that is not zero";
    }
    ""
}

#[test]
fn each_holds(rt: HostRuntime) {
    let broken = broken(rt.alloc());
    assert!(rt; broken.is_empty(), "{broken}");
}
