ghost use Rattle.std.specs.Prelude.{◌≡◌, []};
ghost use Rattle.boot_codec.specs.Record.{IsBootRecord};

use boot_codec::{BootRecord, DRIVE_FLAGS, Members, NVRAM_FLAGS, NextNumbers, Patches};
use free_space::groups_left;
use pur_base::{Place, SegmentFact, SegmentId, Seq};
use std::alloc::Global;
use std::test::*;

/// The record of a shelf of 12 drives of 64 units, of which 11 are members, before anything is written to it.
fn new_record(alloc: Global) -> BootRecord
    ensures lawful { IsBootRecord result }
    ensures patches { result.patches ≡ [] }
    ensures segments { result.next.segment ≡ 1 }
    ensures slots { result.slots ≡ 12 }
    ensures units { result.units ≡ 64 }
{
    let mut drives = [false; DRIVE_FLAGS];
    drives[..11].fill(true);
    BootRecord {
        slots: 12,
        units: 64,
        generation: 1,
        members: Members {
            drives,
            nvrams: [true; NVRAM_FLAGS],
        },
        next: NextNumbers {
            object: 1,
            medium: 1,
            segment: 1,
            patch_segment: 1,
            sequence: 1,
        },
        flushed: 0,
        patches: Patches::new(alloc),
    }
}

/// A data segment on the first nine drives.
const SEGMENT: SegmentFact = SegmentFact {
    segment: SegmentId(0),
    places: [
        Place { slot: 0, unit: 3 },
        Place { slot: 1, unit: 3 },
        Place { slot: 2, unit: 3 },
        Place { slot: 3, unit: 3 },
        Place { slot: 4, unit: 3 },
        Place { slot: 5, unit: 3 },
        Place { slot: 6, unit: 3 },
        Place { slot: 7, unit: 3 },
        Place { slot: 8, unit: 3 },
    ],
    placed: 840,
    seq: Seq(0),
};

#[test]
fn the_free_units_of_the_members_are_counted(rt: HostRuntime) {
    let record = new_record(rt.alloc());
    let none = groups_left(&record, &[]);
    let one = groups_left(&record, &[SEGMENT]);
    assert!(rt; (none, one) == (74, 73));
}
