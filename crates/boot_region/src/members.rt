// A write on each member, and how many there are.
ghost use Rattle.std.specs.Prelude.{◌≡◌, ℕ, ◌+◌, ◌*◌, ◌%◌, ◌<◌, ◌≤◌, length};
ghost use Rattle.pur_base.specs.Devices.{drive};
ghost use Rattle.pur_base.specs.declared.limits.TheConstants.{SECTOR_BYTES, UNIT_BYTES};
ghost use Rattle.boot_codec.specs.Record.{set_count};
ghost use Rattle.world.specs.Ran.{Ran};
ghost use Rattle.boot_region.specs.Members.{IsMember, IsOneOf, OnMembers, Outcome};

use pur_base::{Device, DriveId};
use world::{Shelf, write_synced};

/// As many drives may be missing.
pub(crate) const MISSING_MAX: usize = 2;

/// How many flags are set.
pub(crate) fn count_set(flags: &[bool]) -> usize
    ensures value { result ≡ set_count flags.now }
    ensures bound { result ≤ length flags.now }
{
    flags.iter().filter(|flag| **flag).count()
}

/// Writes and syncs on each member drive. One that fails is no longer a member.
pub fn write_members<S: Shelf>(shelf: &mut S, members: &mut [bool], at: u64, from: &[u8])
    requires members { length members.old ≤ (S.shelf shelf.old).drives }
    requires fits { at + length from.now ≤ UNIT_BYTES * (S.shelf shelf.old).units }
    requires aligned { (at % SECTOR_BYTES ≡ 0) × (length from.now % SECTOR_BYTES ≡ 0) }
    ensures ran { Ran S.shelf S.shelf_rest (IsOneOf members.old) (OnMembers members.old at (length from.now)) shelf.old shelf.new }
    ensures outcome { (d : ℕ) → d < length members.old
        → Outcome (S.shelf shelf.old).honest (IsMember members.old d) (IsMember members.new d) at from.now ((S.shelf shelf.old).disk (drive d)) ((S.shelf shelf.new).disk (drive d)) }
{
    for slot in 0..members.len() {
        if members[slot] {
            let answer = write_synced(shelf, Device::Drive(DriveId(slot as u8)), at, from);
            members[slot] = answer.is_ok();
        }
    }
}
