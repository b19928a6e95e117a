// A write on each drive that was chosen.
ghost use Rattle.std.specs.Prelude.{◌≡◌, ℕ, ◌+◌, ◌*◌, ◌%◌, ◌<◌, ◌≤◌, length, OnOk};
ghost use Rattle.pur_base.specs.Devices.{drive};
ghost use Rattle.pur_base.specs.declared.limits.TheConstants.{SECTOR_BYTES, UNIT_BYTES};
ghost use Rattle.world.specs.Shelf.{Written};
ghost use Rattle.world.specs.Ran.{Ran};
ghost use Rattle.boot_region.specs.Members.{IsMember, IsOneOf, OnMembers};
ghost use Rattle.session_spec.specs.Making.{AreClean};
ghost use Rattle.shelf_init.specs.Counted.{TellsFailed};

use boot_codec::DRIVE_FLAGS;
use pur_base::{Device, DriveId};
use world::{Failed, Shelf, write_synced};

/// Writes and syncs on each chosen drive. The first call that fails ends it.
pub fn write_chosen<S: Shelf>(
    shelf: &mut S,
    chosen: &[bool; DRIVE_FLAGS],
    at: u64,
    from: &[u8],
) -> Result<(), Failed>
    requires chosen { (i : ℕ) → IsMember chosen.now i → i < (S.shelf shelf.old).drives }
    requires fits { at + length from.now ≤ UNIT_BYTES * (S.shelf shelf.old).units }
    requires aligned { (at % SECTOR_BYTES ≡ 0) × (length from.now % SECTOR_BYTES ≡ 0) }
    ensures ran { Ran S.shelf S.shelf_rest (IsOneOf chosen.now) (OnMembers chosen.now at (length from.now)) shelf.old shelf.new }
    ensures written { (S.shelf shelf.old).honest → OnOk result ((i : ℕ) → IsMember chosen.now i → Written at from.now ((S.shelf shelf.old).disk (drive i)).bytes ((S.shelf shelf.new).disk (drive i)).bytes) }
    ensures clean { (S.shelf shelf.old).honest → OnOk result (AreClean (S.shelf shelf.old) → AreClean (S.shelf shelf.new)) }
    ensures counts { TellsFailed result (S.shelf shelf.old) (S.shelf shelf.new) }
{
    for drive in 0..DRIVE_FLAGS {
        if !chosen[drive] {
            continue;
        }
        write_synced(shelf, Device::Drive(DriveId(drive as u8)), at, from)?;
    }
    Ok(())
}
