// A write on each member.
ghost use Rattle.std.specs.Prelude.{◌≡◌, ◌↔◌, ℕ, ◌+◌, ◌<◌, ◌≤◌, length, IsTrue};
ghost use Rattle.pur_base.specs.declared.limits.TheConstants.{NVRAM_BYTES, NVRAM_DEVICES};
ghost use Rattle.pur_base.specs.Devices.{nvram};
ghost use Rattle.world.specs.Shelf.{Written};
ghost use Rattle.world.specs.Ran.{Ran};
ghost use Rattle.nvram_log.specs.Members.{IsMember, IsSome, OnRange, Outcome, IsOnMember};

use crate::log::DEVICES;
use pur_base::{Device, NvId};
use world::{Shelf, write_synced};

/// Whether some device is a member.
pub fn has_any(members: &[bool; DEVICES]) -> bool
    ensures { IsTrue result ↔ IsSome members.now }
{
    members[0] || members[1]
}

/// Writes and syncs on each member device. One that fails is no longer a member.
pub fn write_members<S: Shelf>(shelf: &mut S, members: &mut [bool], at: u64, from: &[u8])
    requires members { length members.old ≡ NVRAM_DEVICES }
    requires fits { at + length from.now ≤ NVRAM_BYTES }
    ensures outcome { (n : ℕ) → n < NVRAM_DEVICES
        → Outcome (S.shelf shelf.old).honest (IsMember members.old n) (IsMember members.new n) (Written at from.now ((S.shelf shelf.old).disk (nvram n)).bytes ((S.shelf shelf.new).disk (nvram n)).bytes)
        ((S.shelf shelf.old).disk (nvram n)) ((S.shelf shelf.new).disk (nvram n)) }
    ensures ran { Ran S.shelf S.shelf_rest (IsOnMember members.old) (OnRange members.old at (length from.now)) shelf.old shelf.new }
{
    for device in 0..members.len() {
        if members[device] {
            let answer = write_synced(shelf, Device::Nv(NvId(device as u8)), at, from);
            members[device] = answer.is_ok();
        }
    }
}
