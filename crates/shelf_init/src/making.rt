// A new array is made.
ghost use Rattle.std.specs.Prelude.{◌≡◌, ℕ, ◌<◌, length, slice_index_or, true, false, OnOk};
ghost use Rattle.boot_codec.specs.declared.limits.TheConstants.{RECORD_BYTES};
ghost use Rattle.boot_codec.specs.Spelling.{spelling};
ghost use Rattle.boot_region.specs.Members.{IsDrive};
ghost use Rattle.boot_region.specs.Regions.{seen, GivesNone};
ghost use Rattle.pur_base.specs.Devices.{Geometry};
ghost use Rattle.world.specs.Losing.{geometry_of};
ghost use Rattle.world.specs.Shelf.{LeavesOnly};
ghost use Rattle.world.specs.Writes.{WritesOnly};
ghost use Rattle.world.specs.Ran.{Ran};
ghost use Rattle.shelf_init.specs.declared.making.InitFault.TheVariants as faults;
ghost use Rattle.shelf_init.specs.Answers.{IsCounted, IsJudged, IsUntouched};
ghost use Rattle.session_spec.specs.Making.{AreSame, ShowsBody, GivesBody, IsBlank, AreClean, IsNoneOrEmpty};
ghost use Rattle.shelf_init.specs.Blank.{GatesAreRead, HasSilent, OnBootOrLog};
ghost use Rattle.shelf_init.specs.Counted.{TellsFailed};
ghost use Rattle.session_spec.specs.First.{first_record};
ghost use Rattle.shelf_init.specs.Made.{HasFirst};

use crate::clearing::clear_nvram;
use crate::closing::close_all_gates;
use crate::record::first_body;
use crate::storing::store_first;
use boot_region::{Regions, read_regions};
use pur_base::NoMemory;
use std::alloc::Global;
use world::{Failed, Shelf};

/// Why no array was made.
#[derive(Clone, Copy, PartialEq, Eq, Drop)]
pub enum InitFault {
    /// There was no memory. No call was made.
    Memory(NoMemory),
    /// A call on a device failed.
    Device,
    /// A body is in force, that of a lawful record or not. Nothing was written.
    NotBlank,
}

impl From<NoMemory> for InitFault {
    ghost from_gives = { λ e r. r ≡ faults.Memory e };

    fn from(error: NoMemory) -> InitFault {
        InitFault::Memory(error)
    }
}

impl From<Failed> for InitFault {
    ghost from_gives = { λ e r. r ≡ faults.Device };

    fn from(_failed: Failed) -> InitFault {
        InitFault::Device
    }
}

/// Whether each drive has answered.
fn has_answers(answered: &[bool]) -> bool
    ensures all { result ≡ true → (i : ℕ) → i < length answered.now → slice_index_or answered.now i false ≡ true }
    ensures silent { result ≡ false → HasSilent answered.now }
{
    for drive in 0..answered.len() {
        if !answered[drive] {
            return false;
        }
    }
    true
}

/// Whether the boot units that were read give a body.
fn gives_body(regions: &Regions) -> bool
    ensures some { result ≡ true → (shelf : Geometry) → shelf.slots ≡ length regions.now.answered.items → ShowsBody shelf (seen regions.now.bytes.items regions.now.answered.items) }
    ensures none { result ≡ false → (shelf : Geometry) → shelf.slots ≡ length regions.now.answered.items → GivesNone shelf (seen regions.now.bytes.items regions.now.answered.items) }
{
    match regions.effective() {
        Some(_) => true,
        None => false,
    }
}

/// Makes the array on devices that give no body.
fn make<S: Shelf>(shelf: &mut S, regions: &Regions, body: &[u8]) -> Result<(), Failed>
    requires drives { length regions.now.answered.items ≡ (S.shelf shelf.old).drives }
    requires size { length body.now ≡ RECORD_BYTES }
    ensures ran { Ran S.shelf S.shelf_rest (λ d. Unit {0}) OnBootOrLog shelf.old shelf.new }
    ensures any_moment { (S.shelf shelf.old).honest → AreClean (S.shelf shelf.old) → IsBlank (S.shelf shelf.old) → GatesAreRead (S.shelf shelf.old) regions.now.bytes.items
        → body.now ≡ spelling (first_record (geometry_of (S.shelf shelf.old)))
        → LeavesOnly (S.shelf shelf.old) (S.shelf shelf.new) (λ stop. IsNoneOrEmpty (geometry_of (S.shelf shelf.old)) stop.image) }
    ensures made { (S.shelf shelf.old).honest → AreClean (S.shelf shelf.old) → GatesAreRead (S.shelf shelf.old) regions.now.bytes.items
        → body.now ≡ spelling (first_record (geometry_of (S.shelf shelf.old)))
        → OnOk result (HasFirst (S.shelf shelf.new)) }
    ensures counts { TellsFailed result (S.shelf shelf.old) (S.shelf shelf.new) }
{
    close_all_gates(shelf, regions)?;
    clear_nvram(shelf)?;
    store_first(shelf, body)
}

/// Reads the boot units of each drive, and tells whether they give no body.
fn look<S: Shelf>(shelf: &mut S, regions: &mut Regions) -> Result<(), InitFault>
    requires { length regions.old.answered.items ≡ (S.shelf shelf.old).drives }
    ensures ran { Ran S.shelf S.shelf_rest IsDrive (λ d i. ⊥) shelf.old shelf.new }
    ensures drives { length regions.new.answered.items ≡ (S.shelf shelf.new).drives }
    ensures device { IsCounted result (S.shelf shelf.old) (S.shelf shelf.new) }
    ensures memory { IsUntouched result (S.shelf shelf.old) (S.shelf shelf.new) }
    ensures not_blank { (S.shelf shelf.old).honest → IsJudged result (S.shelf shelf.old) (S.shelf shelf.new) }
    ensures same { (S.shelf shelf.old).honest → AreSame (S.shelf shelf.old) (S.shelf shelf.new) }
    ensures gates { (S.shelf shelf.old).honest → OnOk result (GatesAreRead (S.shelf shelf.new) regions.new.bytes.items) }
{
    read_regions(shelf, regions);
    if !has_answers(&regions.answered) {
        return Err(InitFault::Device);
    }
    if gives_body(regions) {
        return Err(InitFault::NotBlank);
    }
    Ok(())
}

/// Makes the array, once there is memory for the boot units and the record.
fn make_on<S: Shelf>(shelf: &mut S, regions: &mut Regions, body: &[u8]) -> Result<(), InitFault>
    requires drives { length regions.old.answered.items ≡ (S.shelf shelf.old).drives }
    requires size { length body.now ≡ RECORD_BYTES }
    ensures ran { Ran S.shelf S.shelf_rest (λ d. Unit {0}) OnBootOrLog shelf.old shelf.new }
    ensures device { IsCounted result (S.shelf shelf.old) (S.shelf shelf.new) }
    ensures memory { IsUntouched result (S.shelf shelf.old) (S.shelf shelf.new) }
    ensures not_blank { (S.shelf shelf.old).honest → IsJudged result (S.shelf shelf.old) (S.shelf shelf.new) }
    ensures kept { (S.shelf shelf.old).honest → GivesBody (S.shelf shelf.old) → WritesOnly (λ d i. ⊥) (S.shelf shelf.old) (S.shelf shelf.new) }
    ensures made { (S.shelf shelf.old).honest → AreClean (S.shelf shelf.old) → body.now ≡ spelling (first_record (geometry_of (S.shelf shelf.old))) → OnOk result (HasFirst (S.shelf shelf.new)) }
    ensures any_moment { (S.shelf shelf.old).honest → AreClean (S.shelf shelf.old) → IsBlank (S.shelf shelf.old) → body.now ≡ spelling (first_record (geometry_of (S.shelf shelf.old)))
        → LeavesOnly (S.shelf shelf.old) (S.shelf shelf.new) (λ stop. IsNoneOrEmpty (geometry_of (S.shelf shelf.old)) stop.image) }
{
    look(shelf, regions)?;
    make(shelf, regions, body)?;
    Ok(())
}

/// Makes a new, empty array on the devices of a shelf: the gates that are open are closed, the logs are emptied, and the first record is stored on all drives.
/// Where a body is in force, nothing is written. Any call that fails ends it.
pub fn init<S: Shelf>(alloc: Global, shelf: &mut S) -> Result<(), InitFault>
    ensures ran { Ran S.shelf S.shelf_rest (λ d. Unit {0}) OnBootOrLog shelf.old shelf.new }
    ensures device { IsCounted result (S.shelf shelf.old) (S.shelf shelf.new) }
    ensures memory { IsUntouched result (S.shelf shelf.old) (S.shelf shelf.new) }
    ensures not_blank { (S.shelf shelf.old).honest → IsJudged result (S.shelf shelf.old) (S.shelf shelf.new) }
    // Nothing is written where a body is in force.
    ensures kept { (S.shelf shelf.old).honest → GivesBody (S.shelf shelf.old) → WritesOnly (λ d i. ⊥) (S.shelf shelf.old) (S.shelf shelf.new) }
    ensures made { (S.shelf shelf.old).honest → AreClean (S.shelf shelf.old) → OnOk result (HasFirst (S.shelf shelf.new)) }
    // At every moment the devices give no record, or the first one.
    ensures any_moment { (S.shelf shelf.old).honest → AreClean (S.shelf shelf.old) → IsBlank (S.shelf shelf.old)
        → LeavesOnly (S.shelf shelf.old) (S.shelf shelf.new) (λ stop. IsNoneOrEmpty (geometry_of (S.shelf shelf.old)) stop.image) }
{
    let mut regions = Regions::new(alloc, shelf.drives())?;
    let body = first_body(alloc, shelf.drives(), shelf.units())?;
    make_on(shelf, &mut regions, &body)
}
