// A look at a shelf.
ghost use Rattle.std.specs.Prelude.{◌≡◌, IfOk};
ghost use Rattle.pur_base.specs.declared.device.Device.{Device};
ghost use Rattle.world.specs.Ran.{Ran};
ghost use Rattle.world.specs.Shelf.{IsSame};
ghost use Rattle.nvram_log.specs.Read.{OnNothing};
ghost use Rattle.shelf_look.specs.Opening.{IsAny, IsOpeningIn};
ghost use Rattle.shelf_look.specs.Looking.{IsLook, IsTold, end_of};
ghost use Rattle.pur_base.specs.Devices.{Geometry};

use crate::drives::{DriveState, states_of};
use crate::finding::find;
use crate::found::{Found, found_of};
use crate::record::{RecordSeen, record_seen};
use crate::sides::read_sides;
use crate::slots::SlotsSeen;
use crate::{Cause, Opening};
use boot_codec::{DRIVE_FLAGS, NVRAM_FLAGS};
use boot_region::{Regions, read_regions};
use pur_base::{NoMemory, Status};
use std::alloc::Global;
use world::Shelf;

/// What a shelf shows to one that only looks.
#[derive(Drop)]
pub struct Looked {
    /// The drives of the shelf, and the units of each.
    pub slots: u8,
    pub units: u16,
    /// The record in force, if there is a lawful one.
    pub record: Option<RecordSeen>,
    /// What each drive shows of it.
    pub drives: [DriveState; DRIVE_FLAGS],
    /// In which slots of the log each NVRAM device shows commands, if the record names it and no read of these slots failed.
    pub logs: [Option<SlotsSeen>; NVRAM_FLAGS],
    /// What an opening would find, or why it would find no array.
    pub found: Result<Found, Cause>,
}

impl Looked {
    /// The status with which an opening would end, or `Done` where the array can be opened.
    pub fn status(&self) -> Status
        ensures { result ≡ end_of self.now }
    {
        match &self.found {
            Ok(_) => Status::Done,
            Err(cause) => cause.status(),
        }
    }
}

/// What is told of an opening, or the cause; `Memory` alone is no answer.
fn told(alloc: Global, opening: Result<Opening, Cause>) -> Result<Result<Found, Cause>, NoMemory>
    requires { IfOk opening (λ o. (shelf : Geometry) × IsOpeningIn shelf o) }
    ensures { IfOk result (IsTold opening) }
{
    match opening {
        Ok(opening) => Ok(Ok(found_of(alloc, &opening)?)),
        Err(Cause::Memory(none)) => Err(none),
        Err(cause) => Ok(Err(cause)),
    }
}

/// Looks at a shelf, as an opening reads it: the boot region of each drive, the tables of the record in force, and the log.
/// It makes no write and no sync, whatever fails, and fails itself for want of memory alone.
pub fn look<S: Shelf>(alloc: Global, shelf: &mut S) -> Result<Looked, NoMemory>
    // No byte changes or gets dirty on any device, and a stop at any moment leaves each as it was.
    ensures same { (S.shelf shelf.old).honest → (d : Device) → IsSame ((S.shelf shelf.old).disk d) ((S.shelf shelf.new).disk d) }
    ensures ran { Ran S.shelf S.shelf_rest IsAny OnNothing shelf.old shelf.new }
    // What is told is what the devices showed, and an array that can't be opened can't for the cause that is told.
    ensures look { (S.shelf shelf.old).honest → IfOk result (IsLook (S.shelf shelf.old) (S.shelf shelf.new)) }
{
    let slots = shelf.drives();
    let units = shelf.units();
    let mut regions = Regions::new(alloc, slots)?;
    read_regions(shelf, &mut regions);
    let loaded = regions.load(alloc, units);
    let record = record_seen(alloc, &regions, units, &loaded)?;
    let logs = read_sides(shelf, &record);
    let drives = states_of(&record, &regions.answered);
    // An opening has given their room back too when it reads the tables.
    drop(regions);
    let opening = find(alloc, shelf, loaded);
    let found = told(alloc, opening)?;
    Ok(Looked {
        slots,
        units,
        record,
        drives,
        logs,
        found,
    })
}
