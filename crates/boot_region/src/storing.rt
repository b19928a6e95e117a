// A record is stored.
ghost use Rattle.std.specs.Prelude.{◌≡◌, ◌<◌, ◌≤◌, ◌+◌, ℕ, List, OnOk, OnErr, length};
ghost use Rattle.pur_base.specs.Devices.{Conditions};
ghost use Rattle.pur_base.specs.Plain.{Array};
ghost use Rattle.boot_codec.specs.declared.limits.TheConstants.{RECORD_BYTES};
ghost use Rattle.boot_codec.specs.declared.record.BootRecord.{BootRecord};
ghost use Rattle.boot_codec.specs.Record.{set_count};
ghost use Rattle.boot_codec.specs.Spelling.{spelling};
ghost use Rattle.world.specs.Shelf.{LeavesOnly};
ghost use Rattle.world.specs.Ran.{Ran};
ghost use Rattle.boot_region.specs.Members.{IsMember, IsOneOf, LosesOnlyFailed, OnSlot};
ghost use Rattle.boot_region.specs.Slots.{slot_in};
ghost use Rattle.boot_region.specs.Storing.{Shows, AreEnough, IsFirmOn, IsInStore, IsInForceOn, IsNewer, IsStoredIn, IsStoredOn, MayFollow, StandsAgain};

use crate::members::{MISSING_MAX, count_set};
use crate::{Slot, close_gates, open_gates, write_bodies};
use world::Shelf;

/// More than two drives of the shelf would not hold the record.
#[derive(Clone, Copy, PartialEq, Eq, Drop)]
pub struct TooFew;

/// Whether enough drives of the shelf are members, of which each has a flag.
fn check_enough(members: &[bool]) -> Result<(), TooFew>
    requires { length members.now ≤ 24 }
    ensures ok { OnOk result (AreEnough members.now) }
    ensures err { OnErr result (set_count members.now + 2 < length members.now) }
{
    if count_set(members) + MISSING_MAX < members.len() {
        return Err(TooFew);
    }
    Ok(())
}

/// Stores a record in a slot of each member: its body goes behind closed gates, which are opened then, each step synced on all members before the next.
/// A gate that reads as closed is not written. A member on which a write or a sync fails is dropped.
/// Where more than two drives of the shelf would not hold the record it ends, before any gate is opened where that is known by then.
pub fn store<S: Shelf>(
    shelf: &mut S,
    members: &mut [bool],
    slot: Slot,
    body: &[u8],
) -> Result<(), TooFew>
    requires members { length members.old ≤ (S.shelf shelf.old).drives }
    requires size { length body.now ≡ RECORD_BYTES }
    ensures ran { Ran S.shelf S.shelf_rest (IsOneOf members.old) (OnSlot members.old (slot_in slot)) shelf.old shelf.new }
    ensures members { LosesOnlyFailed (S.shelf shelf.old) (S.shelf shelf.new) members.old members.new }
    ensures shown { (S.shelf shelf.old).honest → OnOk result ((i : ℕ) → IsMember members.new i → Shows (S.shelf shelf.new) (slot_in slot) body.now i) }
    ensures enough { OnOk result (AreEnough members.new) }
    ensures too_few { OnErr result (set_count members.new + 2 < length members.new) }
    // What is so at every moment, whatever the conditions of the devices: they stand for the arrays for which they stood, and what may be given is the record
    // that is stored, or one that might have been given before.
    ensures moments { (S.shelf shelf.old).honest → LeavesOnly (S.shelf shelf.old) (S.shelf shelf.new) (IsInStore (S.shelf shelf.old) members.old (slot_in slot) body.now) }
    // Whatever fails, more than is borne too: at every moment the devices stand for the arrays once they answer again with what they hold.
    ensures again { (S.shelf shelf.old).honest → (missing : Conditions) (held boot : BootRecord) (arrays : List Array)
        → body.now ≡ spelling boot → IsFirmOn (S.shelf shelf.old) members.old missing (slot_in slot) held → MayFollow (S.shelf shelf.old) missing (slot_in slot) boot arrays
        → LeavesOnly (S.shelf shelf.old) (S.shelf shelf.new) (StandsAgain (S.shelf shelf.old) missing arrays) }
    // Then the record is in force, and the devices stand for the arrays.
    ensures stored { (S.shelf shelf.old).honest → OnOk result ((missing : Conditions) (held boot : BootRecord) (arrays : List Array)
        → body.now ≡ spelling boot → IsNewer (slot_in slot) held boot → IsInForceOn (S.shelf shelf.old) members.old missing (slot_in slot) held → MayFollow (S.shelf shelf.old) missing (slot_in slot) boot arrays
        → IsStoredIn (S.shelf shelf.old) (S.shelf shelf.new) members.old members.new missing (slot_in slot) held boot arrays) }
    ensures stored_on { (S.shelf shelf.old).honest → OnOk result ((missing : Conditions) (held boot : BootRecord) (arrays : List Array)
        → body.now ≡ spelling boot → IsNewer (slot_in slot) held boot → IsFirmOn (S.shelf shelf.old) members.old missing (slot_in slot) held → MayFollow (S.shelf shelf.old) missing (slot_in slot) boot arrays
        → IsStoredOn (S.shelf shelf.old) (S.shelf shelf.new) members.new missing (slot_in slot) boot arrays) }
{
    close_gates(shelf, members, slot);
    check_enough(members)?;
    write_bodies(shelf, members, slot, body);
    check_enough(members)?;
    open_gates(shelf, members, slot);
    check_enough(members)
}
