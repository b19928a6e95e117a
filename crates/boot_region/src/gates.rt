// The gates of a slot, and the bodies behind them.
ghost use Rattle.std.specs.Prelude.{◌≡◌, ◌<◌, ◌≤◌, ℕ, List, [], length, false, OnOk, OnErr, Some};
ghost use Rattle.pur_base.specs.Devices.{Conditions, drive};
ghost use Rattle.pur_base.specs.Gates.{is_open};
ghost use Rattle.pur_base.specs.declared.limits.TheConstants.{SECTOR_BYTES};
ghost use Rattle.boot_codec.specs.declared.limits.TheConstants.{RECORD_BYTES};
ghost use Rattle.boot_codec.specs.declared.record.BootRecord.{BootRecord};
ghost use Rattle.boot_codec.specs.Region.{gate_place, body_place, body_in, shown_by};
ghost use Rattle.boot_codec.specs.Spelling.{spelling};
ghost use Rattle.array_spec.specs.Laws.{IsHeld};
ghost use Rattle.world.specs.Losing.{geometry_of};
ghost use Rattle.world.specs.Shelf.{Has, LeavesOnly, MayStop, Stop};
ghost use Rattle.world.specs.Writes.{LeavesBut};
ghost use Rattle.world.specs.Ran.{Only, Ran};
ghost use Rattle.boot_region.specs.Members.{IsMember, IsOneOf, OnMembers, OnNotShut, OneNotShut, Outcome, Closed, LostWrites, LosesOnlyFailed};
ghost use Rattle.boot_region.specs.Slots.{slot_in};
ghost use Rattle.boot_region.specs.Storing.{SoundAreMembers, AreClean, AreClosed, AreWritten, OthersLose, LeavesBy, Closes, Writes, Opens};

use crate::{Slot, write_members};
use boot_codec::{gate_sector, is_open_gate};
use pur_base::{Device, DriveId, SECTOR_BYTES};
use world::{Failed, Shelf, write_synced};

/// Closes a gate, and syncs, unless it reads as closed.
fn close_gate<S: Shelf>(shelf: &mut S, device: Device, at: u64) -> Result<(), Failed>
    requires { Has (S.shelf shelf.old) device at SECTOR_BYTES }
    ensures ran { Ran S.shelf S.shelf_rest (Only device) (OneNotShut ((S.shelf shelf.old).disk device) ((S.shelf shelf.new).disk device).faults device at) shelf.old shelf.new }
    ensures closed { (S.shelf shelf.old).honest → OnOk result (is_open at ((S.shelf shelf.new).disk device).bytes ≡ false) }
    ensures clean { (S.shelf shelf.old).honest → OnOk result (((S.shelf shelf.old).disk device).dirty ≡ [] → ((S.shelf shelf.new).disk device).dirty ≡ []) }
    ensures any_moment { (S.shelf shelf.old).honest → LeavesOnly (S.shelf shelf.old) (S.shelf shelf.new) (λ stop. LeavesBut (OneNotShut ((S.shelf shelf.old).disk device) (stop.faults device) device at) (S.shelf shelf.old) stop) }
    ensures counts { OnErr result (LostWrites ((S.shelf shelf.old).disk device) ((S.shelf shelf.new).disk device)) }
    // (where the read failed, but the write didn't, the count of all faults rose)
    ensures unlost { OnOk result (((S.shelf shelf.new).disk device).write_faults ≡ ((S.shelf shelf.old).disk device).write_faults) }
{
    let mut seen = [0; SECTOR_BYTES];
    let answer = shelf.read(device, at, &mut seen);
    if answer.is_ok() && !is_open_gate(&seen) {
        return Ok(());
    }
    let closed = gate_sector(false);
    write_synced(shelf, device, at, closed.as_bytes())
}

/// Closes the gate of a slot on each member, and syncs. A gate that reads as closed is not written. A member that fails is dropped.
pub fn close_gates<S: Shelf>(shelf: &mut S, members: &mut [bool], slot: Slot)
    requires { length members.old ≤ (S.shelf shelf.old).drives }
    ensures ran { Ran S.shelf S.shelf_rest (IsOneOf members.old) (OnNotShut members.old (S.shelf shelf.old) (λ d. ((S.shelf shelf.new).disk d).faults) (gate_place (slot_in slot))) shelf.old shelf.new }
    ensures outcome { (d : ℕ) → d < length members.old
        → Closed (S.shelf shelf.old).honest (IsMember members.old d) (IsMember members.new d) (gate_place (slot_in slot)) ((S.shelf shelf.old).disk (drive d)) ((S.shelf shelf.new).disk (drive d)) }
    ensures moments { (S.shelf shelf.old).honest → LeavesOnly (S.shelf shelf.old) (S.shelf shelf.new) (λ stop. LeavesBut (OnNotShut members.old (S.shelf shelf.old) stop.faults (gate_place (slot_in slot))) (S.shelf shelf.old) stop) }
    ensures any_moment { (S.shelf shelf.old).honest → (missing : Conditions) (held : List ℕ) → AreClean (S.shelf shelf.old) missing members.old
        → LeavesBy (S.shelf shelf.old) (S.shelf shelf.new) (Closes (S.shelf shelf.old) members.old missing (slot_in slot) held) }
{
    let at = slot.gate();
    for drive in 0..members.len() {
        if members[drive] {
            let answer = close_gate(shelf, Device::Drive(DriveId(drive as u8)), at);
            members[drive] = answer.is_ok();
        }
    }
}

/// Writes the body of a slot on each member, and syncs. A member that fails is dropped.
pub fn write_bodies<S: Shelf>(shelf: &mut S, members: &mut [bool], slot: Slot, body: &[u8])
    requires members { length members.old ≤ (S.shelf shelf.old).drives }
    requires size { length body.now ≡ RECORD_BYTES }
    ensures ran { Ran S.shelf S.shelf_rest (IsOneOf members.old) (OnMembers members.old (body_place (slot_in slot)) RECORD_BYTES) shelf.old shelf.new }
    ensures outcome { (d : ℕ) → d < length members.old
        → Outcome (S.shelf shelf.old).honest (IsMember members.old d) (IsMember members.new d) (body_place (slot_in slot)) body.now ((S.shelf shelf.old).disk (drive d)) ((S.shelf shelf.new).disk (drive d)) }
    ensures any_moment { (S.shelf shelf.old).honest → (missing : Conditions) → AreClean (S.shelf shelf.old) missing members.old → AreClosed (S.shelf shelf.old) missing members.old (slot_in slot)
        → LeavesBy (S.shelf shelf.old) (S.shelf shelf.new) (Writes missing members.old (slot_in slot)) }
{
    write_members(shelf, members, slot.body(), body);
}

/// Opens the gate of a slot on each member, and syncs. A member that fails is dropped.
pub fn open_gates<S: Shelf>(shelf: &mut S, members: &mut [bool], slot: Slot)
    requires { length members.old ≤ (S.shelf shelf.old).drives }
    ensures ran { Ran S.shelf S.shelf_rest (IsOneOf members.old) (OnMembers members.old (gate_place (slot_in slot)) SECTOR_BYTES) shelf.old shelf.new }
    ensures members { LosesOnlyFailed (S.shelf shelf.old) (S.shelf shelf.new) members.old members.new }
    ensures clean { (S.shelf shelf.old).honest → (i : ℕ) → IsMember members.new i → ((S.shelf shelf.new).disk (drive i)).dirty ≡ [] }
    ensures shown { (S.shelf shelf.old).honest → (i : ℕ) → IsMember members.new i → shown_by (slot_in slot) ((S.shelf shelf.new).disk (drive i)).bytes ≡ Some (body_in (slot_in slot) ((S.shelf shelf.old).disk (drive i)).bytes) }
    ensures any_moment { (S.shelf shelf.old).honest → (missing : Conditions) (body : List ℕ) → AreClean (S.shelf shelf.old) missing members.old → AreClosed (S.shelf shelf.old) missing members.old (slot_in slot)
        → AreWritten (S.shelf shelf.old) missing members.old (slot_in slot) body
        → LeavesBy (S.shelf shelf.old) (S.shelf shelf.new) (Opens missing members.old (slot_in slot) body) }
    // Then the record is given, whatever goes missing.
    ensures held { (S.shelf shelf.old).honest → (missing : Conditions) (boot : BootRecord) (stop : Stop)
        → SoundAreMembers (S.shelf shelf.old) missing members.new
        → AreWritten (S.shelf shelf.old) missing members.old (slot_in slot) (spelling boot)
        → MayStop (S.shelf shelf.new) stop → OthersLose (S.shelf shelf.old) stop.image missing (slot_in slot) (spelling boot)
        → IsHeld (geometry_of (S.shelf shelf.old)) stop.image missing (slot_in slot) (spelling boot) }
{
    let open = gate_sector(true);
    write_members(shelf, members, slot.gate(), open.as_bytes());
}
