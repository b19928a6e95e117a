// The record that was loaded is settled.
ghost use Rattle.std.specs.Prelude.{◌≡◌, ◌<◌, ◌≤◌, ℕ, List, [], length, true, OnOk, OnErr};
ghost use Rattle.pur_base.specs.Devices.{Conditions, drive};
ghost use Rattle.pur_base.specs.Gates.{is_open};
ghost use Rattle.pur_base.specs.Plain.{Array};
ghost use Rattle.pur_base.specs.declared.limits.TheConstants.{SECTOR_BYTES};
ghost use Rattle.boot_codec.specs.declared.record.BootRecord.{BootRecord};
ghost use Rattle.boot_codec.specs.Region.{gate_place, other_slot};
ghost use Rattle.array_spec.specs.Standing.{MayBeGiven, Stands};
ghost use Rattle.world.specs.Counts.{Rises};
ghost use Rattle.world.specs.Losing.{geometry_of};
ghost use Rattle.world.specs.Shelf.{Has, LeavesOnly};
ghost use Rattle.world.specs.Ran.{Only, Ran};
ghost use Rattle.boot_region.specs.Members.{IsMember, IsOneOf, OnClosed, OneClosed, Opened};
ghost use Rattle.boot_region.specs.Slots.{slot_in};
ghost use Rattle.boot_region.specs.Storing.{GivesNoMore, IsFound, IsInForceOn, IsLoaded, TellsFailed};

use crate::Slot;
use boot_codec::{gate_sector, is_open_gate};
use pur_base::{Device, DriveId, SECTOR_BYTES};
use world::{Failed, Shelf, write_synced};

/// Opens a gate, and syncs, unless it reads as open.
fn open_gate<S: Shelf>(shelf: &mut S, device: Device, at: u64) -> Result<(), Failed>
    requires { Has (S.shelf shelf.old) device at SECTOR_BYTES }
    ensures ran { Ran S.shelf S.shelf_rest (Only device) (OneClosed ((S.shelf shelf.old).disk device).bytes device at) shelf.old shelf.new }
    ensures opened { (S.shelf shelf.old).honest → OnOk result (is_open at ((S.shelf shelf.new).disk device).bytes ≡ true) }
    ensures clean { (S.shelf shelf.old).honest → OnOk result (((S.shelf shelf.old).disk device).dirty ≡ [] → ((S.shelf shelf.new).disk device).dirty ≡ []) }
    ensures counts { OnErr result (Rises ((S.shelf shelf.old).disk device).faults ((S.shelf shelf.new).disk device).faults) }
    ensures unlost { OnOk result (((S.shelf shelf.new).disk device).write_faults ≡ ((S.shelf shelf.old).disk device).write_faults) }
{
    let mut seen = [0; SECTOR_BYTES];
    shelf.read(device, at, &mut seen)?;
    if is_open_gate(&seen) {
        return Ok(());
    }
    let open = gate_sector(true);
    write_synced(shelf, device, at, open.as_bytes())
}

/// Opens the gate of the record that was loaded, and syncs, on each member where it is closed. A member that fails is dropped.
pub fn settle<S: Shelf>(shelf: &mut S, members: &mut [bool], slot: Slot)
    requires { length members.old ≤ (S.shelf shelf.old).drives }
    ensures ran { Ran S.shelf S.shelf_rest (IsOneOf members.old) (OnClosed members.old (S.shelf shelf.old) (gate_place (slot_in slot))) shelf.old shelf.new }
    ensures outcome { (d : ℕ) → d < length members.old
        → Opened (S.shelf shelf.old).honest (IsMember members.old d) (IsMember members.new d) (gate_place (slot_in slot)) ((S.shelf shelf.old).disk (drive d)) ((S.shelf shelf.new).disk (drive d)) }
    // At every moment the devices stand for the arrays for which they stood.
    ensures any_moment { (S.shelf shelf.old).honest → (missing : Conditions) (boot : BootRecord) (arrays : List Array)
        → IsLoaded (S.shelf shelf.old) members.old missing (slot_in slot) boot arrays
        → LeavesOnly (S.shelf shelf.old) (S.shelf shelf.new) (λ stop. Stands (geometry_of (S.shelf shelf.old)) stop.image missing arrays) }
    // No record may be given that couldn't be at the beginning.
    ensures gives { (S.shelf shelf.old).honest → (missing : Conditions) (boot : BootRecord) (arrays : List Array)
        → IsLoaded (S.shelf shelf.old) members.old missing (slot_in slot) boot arrays
        → LeavesOnly (S.shelf shelf.old) (S.shelf shelf.new) (GivesNoMore (S.shelf shelf.old) missing missing) }
    // The record that was loaded may be given still.
    ensures still { (S.shelf shelf.old).honest → (missing : Conditions) (boot : BootRecord) (arrays : List Array)
        → IsLoaded (S.shelf shelf.old) members.old missing (slot_in slot) boot arrays
        → LeavesOnly (S.shelf shelf.old) (S.shelf shelf.new) (λ stop. MayBeGiven (geometry_of (S.shelf shelf.old)) stop.image missing (slot_in slot) boot) }
    // Then the record is in force on the members that are left.
    ensures settled { (S.shelf shelf.old).honest → (missing : Conditions) (boot : BootRecord) (arrays : List Array)
        → IsLoaded (S.shelf shelf.old) members.old missing (slot_in slot) boot arrays → IsFound (S.shelf shelf.old) members.old missing (slot_in slot) boot
        → (later : Conditions) → TellsFailed (S.shelf shelf.old) members.old missing (λ d. ((S.shelf shelf.new).disk d).faults) later
        → IsInForceOn (S.shelf shelf.new) members.new later (other_slot (slot_in slot)) boot }
{
    let at = slot.gate();
    for drive in 0..members.len() {
        if members[drive] {
            let answer = open_gate(shelf, Device::Drive(DriveId(drive as u8)), at);
            members[drive] = answer.is_ok();
        }
    }
}
