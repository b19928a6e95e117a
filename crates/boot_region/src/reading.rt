// The boot units are read.
ghost use Rattle.std.specs.Prelude.{◌≡◌, ◌≢◌, ◌<◌, ◌≤◌, ℕ, length, slice_index_or, false};
ghost use Rattle.pur_base.specs.declared.device.Device.{Device};
ghost use Rattle.pur_base.specs.Devices.{drive};
ghost use Rattle.world.specs.Shelf.{IsSame};
ghost use Rattle.world.specs.Ran.{Only, Ran};
ghost use Rattle.boot_region.specs.Members.{IsDrive};
ghost use Rattle.boot_region.specs.Regions.{region_at, IsRead, AnswerCounts};

use crate::{REGION_BYTES, Regions};
use pur_base::{Device, DriveId};
use world::Shelf;

/// Reads the boot units of a drive. Where that fails, the drive hasn't answered.
fn read_region<S: Shelf>(shelf: &mut S, regions: &mut Regions, index: usize)
    requires drive_in { index < length regions.old.answered.items }
    requires drives { length regions.old.answered.items ≤ (S.shelf shelf.old).drives }
    ensures ran { Ran S.shelf S.shelf_rest (Only (drive index)) (λ d i. ⊥) shelf.old shelf.new }
    ensures drives { length regions.new.answered.items ≡ length regions.old.answered.items }
    ensures read { (S.shelf shelf.old).honest → IsRead (S.shelf shelf.old) (S.shelf shelf.new) regions.new.bytes.items regions.new.answered.items index }
    ensures kept { (i : ℕ) → i ≢ index → region_at regions.new.bytes.items regions.new.answered.items i ≡ region_at regions.old.bytes.items regions.old.answered.items i }
    ensures same { (S.shelf shelf.old).honest → (device : Device) → IsSame ((S.shelf shelf.old).disk device) ((S.shelf shelf.new).disk device) }
    ensures looks { (device : Device) → ((S.shelf shelf.new).disk device).write_faults ≡ ((S.shelf shelf.old).disk device).write_faults }
    ensures counts { AnswerCounts (slice_index_or regions.new.answered.items index false) ((S.shelf shelf.old).disk (drive index)) ((S.shelf shelf.new).disk (drive index)) }
    ensures answers_kept { (i : ℕ) → i ≢ index → slice_index_or regions.new.answered.items i false ≡ slice_index_or regions.old.answered.items i false }
{
    let at = index * REGION_BYTES;
    let device = Device::Drive(DriveId(index as u8));
    let answer = shelf.read(device, 0, &mut regions.bytes[at..at + REGION_BYTES]);
    regions.answered[index] = answer.is_ok();
}

/// Reads the boot units of each drive of the shelf. Nothing is written.
pub fn read_regions<S: Shelf>(shelf: &mut S, regions: &mut Regions)
    requires { length regions.old.answered.items ≡ (S.shelf shelf.old).drives }
    ensures ran { Ran S.shelf S.shelf_rest IsDrive (λ d i. ⊥) shelf.old shelf.new }
    ensures drives { length regions.new.answered.items ≡ (S.shelf shelf.new).drives }
    ensures read { (S.shelf shelf.old).honest → (i : ℕ) → i < (S.shelf shelf.old).drives → IsRead (S.shelf shelf.old) (S.shelf shelf.new) regions.new.bytes.items regions.new.answered.items i }
    ensures same { (S.shelf shelf.old).honest → (device : Device) → IsSame ((S.shelf shelf.old).disk device) ((S.shelf shelf.new).disk device) }
    ensures looks { (device : Device) → ((S.shelf shelf.new).disk device).write_faults ≡ ((S.shelf shelf.old).disk device).write_faults }
    // The count of a drive rises exactly where it didn't answer.
    ensures counts { (i : ℕ) → i < (S.shelf shelf.old).drives → AnswerCounts (slice_index_or regions.new.answered.items i false) ((S.shelf shelf.old).disk (drive i)) ((S.shelf shelf.new).disk (drive i)) }
{
    for drive in 0..regions.answered.len() {
        read_region(shelf, regions, drive);
    }
}
