// Calls on the drive of one unit.
ghost use Rattle.std.specs.Prelude.{IsTrue, ◌↔◌, ◌≡◌, ℕ, ◌+◌, ◌*◌, ◌%◌, ◌<◌, ◌≤◌, [], false, length};
ghost use Rattle.pur_base.specs.Bytes.{bytes_at};
ghost use Rattle.pur_base.specs.declared.device.Device.{Device};
ghost use Rattle.pur_base.specs.declared.limits.TheConstants.{SECTOR_BYTES, UNIT_BYTES};
ghost use Rattle.pur_base.specs.Devices.{drive};
ghost use Rattle.segment_codec.specs.declared.position.TheConstants.{WRITE_UNIT_BYTES};
ghost use Rattle.world.specs.Ran.{Only, Ran};
ghost use Rattle.world.specs.Writes.{OneRange};
ghost use Rattle.segment_io.specs.Places.{IsPlace, ArePlaces, write_unit_at};
ghost use Rattle.segment_io.specs.Lost.{is_in, LosesOnly, NoByte};

use parity72::SHARDS;
use pur_base::{BOOT_UNITS, Device, DriveId, Lost, Place, Places, UNIT_BYTES};
use segment_codec::WRITE_UNIT_BYTES;
use world::Shelf;

/// Whether the place is a unit of the shelf behind the boot region.
fn is_place<S: Shelf>(shelf: &S, place: Place) -> bool
    ensures { IsTrue result ↔ IsPlace (S.shelf shelf.now) place }
{
    place.slot < shelf.drives() && BOOT_UNITS <= place.unit && place.unit < shelf.units()
}

/// Whether these are units of the shelf behind the boot region, by ascending slot.
pub fn are_places<S: Shelf>(shelf: &S, places: &Places) -> bool
    ensures { IsTrue result ↔ ArePlaces (S.shelf shelf.now) places.now }
{
    let mut least = 0;
    for shard in 0..SHARDS {
        let place = places[shard];
        if !is_place(shelf, place) {
            return false;
        }
        let slot = place.slot as u16;
        if slot < least {
            return false;
        }
        least = slot + 1;
    }
    true
}

/// Writes the write units of a unit from the n-th on with one call, unless its drive is lost. Where the write fails, the drive is lost.
/// Where there is nothing to write, there is no call.
pub fn write_units<S: Shelf>(shelf: &mut S, place: Place, n: u8, from: &[u8], lost: &mut Lost)
    requires place { IsPlace (S.shelf shelf.old) place }
    requires fits { WRITE_UNIT_BYTES * n + length from.now ≤ UNIT_BYTES }
    requires aligned { length from.now % SECTOR_BYTES ≡ 0 }
    ensures lost { LosesOnly (S.shelf shelf.old) (S.shelf shelf.new) lost.old.drives lost.new.drives }
    ensures written { (S.shelf shelf.old).honest → is_in lost.new.drives place.slot ≡ false → bytes_at (write_unit_at place n) (length from.now) ((S.shelf shelf.new).disk (drive place.slot)).bytes ≡ from.now }
    ensures ran { Ran S.shelf S.shelf_rest (Only (drive place.slot)) (OneRange (drive place.slot) (write_unit_at place n) (length from.now)) shelf.old shelf.new }
{
    let slot = place.slot as usize;
    if lost.drives[slot] {
        return;
    }
    if from.is_empty() {
        return;
    }
    let at = UNIT_BYTES as u64 * place.unit as u64 + WRITE_UNIT_BYTES as u64 * n as u64;
    let answer = shelf.write(Device::Drive(DriveId(place.slot)), at, from);
    lost.drives[slot] = answer.is_err();
}

/// Syncs a drive, unless it is lost. Where that fails, it is lost.
pub fn sync_drive<S: Shelf>(shelf: &mut S, slot: u8, lost: &mut Lost)
    requires { slot < (S.shelf shelf.old).drives }
    ensures lost { LosesOnly (S.shelf shelf.old) (S.shelf shelf.new) lost.old.drives lost.new.drives }
    ensures clean { (S.shelf shelf.old).honest → is_in lost.new.drives slot ≡ false → ((S.shelf shelf.new).disk (drive slot)).dirty ≡ [] }
    ensures bytes { (S.shelf shelf.old).honest → (device : Device) → ((S.shelf shelf.new).disk device).bytes ≡ ((S.shelf shelf.old).disk device).bytes }
    ensures ran { Ran S.shelf S.shelf_rest (Only (drive slot)) NoByte shelf.old shelf.new }
{
    let at = slot as usize;
    if lost.drives[at] {
        return;
    }
    let answer = shelf.sync(Device::Drive(DriveId(slot)));
    lost.drives[at] = answer.is_err();
}
