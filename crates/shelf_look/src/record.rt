// The record in force, as the drives show it.
ghost use Rattle.std.specs.Prelude.{◌≡◌, ◌≤◌, length, IfOk};
ghost use Rattle.pur_base.specs.Devices.{Geometry};
ghost use Rattle.boot_region.specs.Loading.{IsAnswerOf, IsFaultOf};
ghost use Rattle.shelf_look.specs.Looking.{IsRecordSeen};

use boot_codec::{DRIVE_FLAGS, Members, ReadError, read_record};
use boot_region::{LoadFault, Loaded, Regions, Slot};
use pur_base::NoMemory;
use std::alloc::Global;

/// The record that more than half of all drives show: whether or not the array can be opened.
#[derive(Clone, Copy)]
pub struct RecordSeen {
    pub generation: u64,
    pub slot: Slot,
    /// The number of the last command that its tables hold.
    pub flushed: u64,
    /// The devices that it names.
    pub members: Members,
    /// The drives that it names and on which it stands.
    pub holding: [bool; DRIVE_FLAGS],
}

/// The record that the regions give, if it is a lawful one of a shelf with so many units a drive.
fn record_in(alloc: Global, regions: &Regions, units: u16) -> Result<Option<RecordSeen>, NoMemory>
    ensures { IfOk result (λ r. (shelf : Geometry) → shelf.slots ≡ length regions.now.answered.items → shelf.units ≡ units
        → IsRecordSeen shelf regions.now.bytes.items regions.now.answered.items r) }
{
    let Some((slot, body)) = regions.effective() else {
        return Ok(None);
    };
    let slots = regions.answered.len() as u8;
    match read_record(alloc, body, slots, units) {
        Ok(record) => Ok(Some(RecordSeen {
            generation: record.generation,
            slot,
            flushed: record.flushed,
            members: record.members,
            holding: regions.holding(&record.members.drives, slot, body),
        })),
        Err(ReadError::Bad(_)) => Ok(None),
        Err(ReadError::Memory(none)) => Err(none),
    }
}

/// The same, where none was loaded for this fault.
fn record_beside(
    alloc: Global,
    regions: &Regions,
    units: u16,
    fault: LoadFault,
) -> Result<Option<RecordSeen>, NoMemory>
    requires { (shelf : Geometry) → shelf.slots ≡ length regions.now.answered.items → shelf.units ≡ units
        → IsFaultOf shelf regions.now.bytes.items regions.now.answered.items fault }
    ensures { IfOk result (λ r. (shelf : Geometry) → shelf.slots ≡ length regions.now.answered.items → shelf.units ≡ units
        → IsRecordSeen shelf regions.now.bytes.items regions.now.answered.items r) }
{
    match fault {
        LoadFault::Memory(none) => Err(none),
        LoadFault::NoArray => Ok(None),
        LoadFault::BadRecord(_) => Ok(None),
        // It is lawful, and can't be used.
        _ => record_in(alloc, regions, units),
    }
}

/// The same, where this was loaded of the regions.
pub fn record_seen(
    alloc: Global,
    regions: &Regions,
    units: u16,
    loaded: &Result<Loaded, LoadFault>,
) -> Result<Option<RecordSeen>, NoMemory>
    requires { (shelf : Geometry) → shelf.slots ≡ length regions.now.answered.items → shelf.units ≡ units
        → IsAnswerOf shelf regions.now.bytes.items regions.now.answered.items loaded.now }
    ensures { IfOk result (λ r. (shelf : Geometry) → shelf.slots ≡ length regions.now.answered.items → shelf.units ≡ units
        → IsRecordSeen shelf regions.now.bytes.items regions.now.answered.items r) }
{
    match loaded {
        Ok(loaded) => Ok(Some(RecordSeen {
            generation: loaded.record.generation,
            slot: loaded.slot,
            flushed: loaded.record.flushed,
            members: loaded.record.members,
            holding: loaded.drives,
        })),
        Err(fault) => record_beside(alloc, regions, units, *fault),
    }
}
