// The record in force is loaded.
ghost use Rattle.std.specs.Prelude.{◌≡◌, ◌<◌, ◌≤◌, ℕ, IfOk, IfErr, length};
ghost use Rattle.pur_base.specs.Devices.{Geometry};
ghost use Rattle.pur_base.specs.declared.device.Device.{Device};
ghost use Rattle.world.specs.Losing.{geometry_of};
ghost use Rattle.world.specs.Shelf.{IsSame};
ghost use Rattle.world.specs.Ran.{Ran};
ghost use Rattle.boot_region.specs.Members.{IsDrive};
ghost use Rattle.boot_codec.specs.Record.{set_count};
ghost use Rattle.boot_region.specs.declared.loading.LoadFault.TheVariants as faults;
ghost use Rattle.boot_region.specs.Loading.{IsLoadOf, IsGiven, IsFaultOf, IsLawfulLoad, MayBeSettled, fault_of};

use crate::members::{MISSING_MAX, count_set};
use crate::{Regions, Slot, read_regions};
use boot_codec::{BadRecord, BootRecord, DRIVE_FLAGS, NUMBER_LIMIT, ReadError, read_record};
use pur_base::NoMemory;
use std::alloc::Global;
use world::Shelf;

/// A record of this generation or a higher one leaves no room for later ones.
const GENERATION_LIMIT: u64 = NUMBER_LIMIT - 8;

/// The record in force, the slot in which it stands, and the drives that it names and on which it stands.
#[derive(Drop)]
pub struct Loaded {
    pub record: BootRecord,
    pub slot: Slot,
    pub drives: [bool; DRIVE_FLAGS],
}

/// Why no record was loaded.
#[derive(Clone, Copy, PartialEq, Eq, Drop)]
pub enum LoadFault {
    Memory(NoMemory),
    /// No body is shown by more than half of all drives.
    NoArray,
    BadRecord(BadRecord),
    /// The generation of the record is 2^48 - 8 or higher: no room is left for later ones.
    Spent,
    /// More than two drives of the shelf are missing from these.
    TooFew([bool; DRIVE_FLAGS]),
}

impl From<NoMemory> for LoadFault {
    ghost from_gives = { λ e r. r ≡ faults.Memory e };

    fn from(error: NoMemory) -> LoadFault {
        LoadFault::Memory(error)
    }
}

impl From<ReadError> for LoadFault {
    ghost from_gives = { λ e r. r ≡ fault_of e };

    fn from(error: ReadError) -> LoadFault {
        match error {
            ReadError::Bad(bad) => LoadFault::BadRecord(bad),
            ReadError::Memory(none) => LoadFault::Memory(none),
        }
    }
}

impl Regions {
    /// The record that the regions give, and the drives that hold it. A shelf has as many units a drive.
    pub fn load(&self, alloc: Global, units: u16) -> Result<Loaded, LoadFault>
        ensures ok { IfOk result (λ x. (shelf : Geometry) → shelf.slots ≡ length self.now.answered.items → shelf.units ≡ units
            → IsGiven shelf self.now.bytes.items self.now.answered.items x) }
        ensures err { IfErr result (λ e. (shelf : Geometry) → shelf.slots ≡ length self.now.answered.items → shelf.units ≡ units
            → IsFaultOf shelf self.now.bytes.items self.now.answered.items e) }
    {
        let (slot, body) = match self.effective() {
            Some(found) => found,
            None => return Err(LoadFault::NoArray),
        };
        let slots = self.answered.len();
        let record = read_record(alloc, body, slots as u8, units)?;
        if record.generation >= GENERATION_LIMIT {
            return Err(LoadFault::Spent);
        }
        let drives = self.holding(&record.members.drives, slot, body);
        if count_set(&drives) + MISSING_MAX < slots {
            return Err(LoadFault::TooFew(drives));
        }
        Ok(Loaded {
            record,
            slot,
            drives,
        })
    }
}

/// Loads the record in force: it reads the boot units of each drive, and writes nothing.
pub fn load<S: Shelf>(alloc: Global, shelf: &mut S) -> Result<Loaded, LoadFault>
    ensures ran { Ran S.shelf S.shelf_rest IsDrive (λ d i. ⊥) shelf.old shelf.new }
    ensures same { (S.shelf shelf.old).honest → (device : Device) → IsSame ((S.shelf shelf.old).disk device) ((S.shelf shelf.new).disk device) }
    // No write or sync failed.
    ensures looks { (device : Device) → ((S.shelf shelf.new).disk device).write_faults ≡ ((S.shelf shelf.old).disk device).write_faults }
    ensures loads { (S.shelf shelf.old).honest → IsLoadOf (S.shelf shelf.old) (S.shelf shelf.new) result }
    // A record that was loaded is one of the shelf's, and names the drives that hold it.
    ensures lawful { IfOk result (IsLawfulLoad (geometry_of (S.shelf shelf.new))) }
    // What was loaded may be settled.
    ensures found { (S.shelf shelf.old).honest → IfOk result (λ x. MayBeSettled (S.shelf shelf.new) x) }
{
    let mut regions = Regions::new(alloc, shelf.drives())?;
    read_regions(shelf, &mut regions);
    regions.load(alloc, shelf.units())
}
