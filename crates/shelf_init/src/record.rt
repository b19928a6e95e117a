// The record of a new array.
ghost use Rattle.std.specs.Prelude.{◌≡◌, ◌≤◌, IfOk, length};
ghost use Rattle.boot_codec.specs.declared.limits.TheConstants.{RECORD_BYTES};
ghost use Rattle.pur_base.specs.declared.limits.TheConstants.{SLOTS_MIN, SLOTS_MAX, UNITS_MIN, UNITS_MAX};
ghost use Rattle.boot_codec.specs.Spelling.{spelling};
ghost use Rattle.session_spec.specs.First.{all_drives, first_record};

use boot_codec::{
    BootRecord, DRIVE_FLAGS, Members, NVRAM_FLAGS, NextNumbers, Patches, RECORD_BYTES, write_record,
};
use pur_base::NoMemory;
use std::alloc::Global;

/// A flag for each slot of the shelf.
pub fn all_drives(slots: u8) -> [bool; DRIVE_FLAGS]
    requires { slots ≤ SLOTS_MAX }
    ensures { result ≡ all_drives slots }
{
    let mut drives = [false; DRIVE_FLAGS];
    for slot in 0..slots as usize {
        drives[slot] = true;
    }
    drives
}

/// The first record of a shelf: all devices are members, ids and sequence numbers are given from 1 on, and there is no patch.
fn first_record(alloc: Global, slots: u8, units: u16) -> BootRecord
    requires { slots ≤ SLOTS_MAX }
    ensures { result ≡ first_record (record { slots = slots; units = units }) }
{
    BootRecord {
        slots,
        units,
        generation: 1,
        members: Members {
            drives: all_drives(slots),
            nvrams: [true; NVRAM_FLAGS],
        },
        next: NextNumbers {
            object: 1,
            medium: 1,
            segment: 1,
            patch_segment: 1,
            sequence: 1,
        },
        flushed: 0,
        patches: Patches::new(alloc),
    }
}

/// The bytes of the first record.
pub fn first_body(alloc: Global, slots: u8, units: u16) -> Result<Vec<u8>, NoMemory>
    requires slots { (SLOTS_MIN ≤ slots) × (slots ≤ SLOTS_MAX) }
    requires units { (UNITS_MIN ≤ units) × (units ≤ UNITS_MAX) }
    ensures size { IfOk result (λ body. length body.items ≡ RECORD_BYTES) }
    ensures spelled { IfOk result (λ body. body.items ≡ spelling (first_record (record { slots = slots; units = units }))) }
{
    let mut body = vec![in alloc; 0; RECORD_BYTES]?;
    let record = first_record(alloc, slots, units);
    write_record(&record, &mut body);
    Ok(body)
}
