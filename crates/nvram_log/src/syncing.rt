// The members are synced.
ghost use Rattle.std.specs.Prelude.{◌≡◌, ℕ, ◌<◌, [], length};
ghost use Rattle.pur_base.specs.Devices.{nvram};
ghost use Rattle.pur_base.specs.declared.device.Device.{Device};
ghost use Rattle.pur_base.specs.declared.limits.TheConstants.{NVRAM_DEVICES};
ghost use Rattle.world.specs.Ran.{Ran};
ghost use Rattle.nvram_log.specs.Members.{IsMember, LosesOnlyFailed, IsOnMember};
ghost use Rattle.nvram_log.specs.Read.{OnNothing};

use pur_base::{Device, NvId};
use world::Shelf;

/// Syncs each member device, so that what was read of it before or later is what a stop leaves. One that fails is dropped, and one that isn't a member is left alone. It writes no byte.
pub fn sync_members<S: Shelf>(shelf: &mut S, members: &mut [bool])
    requires members { length members.old ≡ NVRAM_DEVICES }
    ensures ran { Ran S.shelf S.shelf_rest (IsOnMember members.old) OnNothing shelf.old shelf.new }
    ensures members { LosesOnlyFailed (S.shelf shelf.old) (S.shelf shelf.new) members.old members.new }
    ensures bytes { (S.shelf shelf.old).honest → (d : Device) → ((S.shelf shelf.new).disk d).bytes ≡ ((S.shelf shelf.old).disk d).bytes }
    ensures clean { (S.shelf shelf.old).honest → (n : ℕ) → n < 2 → IsMember members.new n → ((S.shelf shelf.new).disk (nvram n)).dirty ≡ [] }
    ensures still_clean { (S.shelf shelf.old).honest → (d : Device) → ((S.shelf shelf.old).disk d).dirty ≡ [] → ((S.shelf shelf.new).disk d).dirty ≡ [] }
{
    for device in 0..members.len() {
        if members[device] {
            let answer = shelf.sync(Device::Nv(NvId(device as u8)));
            members[device] = answer.is_ok();
        }
    }
}
