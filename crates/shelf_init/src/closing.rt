// The gates of both slots are closed.
ghost use Rattle.std.specs.Prelude.{◌≡◌, ℕ, ◌+◌, ◌*◌, ◌<◌, length, slice_index_or, false, OnOk};
ghost use Rattle.pur_base.specs.Gates.{is_open};
ghost use Rattle.boot_codec.specs.Region.{BootSlot, gate_place};
ghost use Rattle.boot_region.specs.declared.regions.TheConstants.{REGION_BYTES};
ghost use Rattle.boot_region.specs.Members.{IsDrive, IsMember};
ghost use Rattle.boot_region.specs.Slots.{slot_in};
ghost use Rattle.world.specs.Shelf.{LeavesOnly};
ghost use Rattle.world.specs.Ran.{Ran};
ghost use Rattle.shelf_init.specs.Blank.{IsShut, IsReadIn, GatesAreRead, HidesOnly, OnAllOpen, OnOpen};
ghost use Rattle.session_spec.specs.Making.{AreClean};
ghost use Rattle.shelf_init.specs.Counted.{TellsFailed};

use crate::calls::write_chosen;
use boot_codec::{DRIVE_FLAGS, gate_sector, is_open_gate};
use boot_region::{REGION_BYTES, Regions, Slot};
use world::{Failed, Shelf};

/// The drives on which the gate of a slot was read as open.
fn open_in(regions: &Regions, slot: Slot) -> [bool; DRIVE_FLAGS]
    ensures value { (i : ℕ) → i < length regions.now.answered.items → slice_index_or result i false ≡ is_open (REGION_BYTES * i + gate_place (slot_in slot)) regions.now.bytes.items }
    ensures within { (i : ℕ) → IsMember result i → i < length regions.now.answered.items }
{
    let gate = slot.gate() as usize;
    let mut found = [false; DRIVE_FLAGS];
    for drive in 0..regions.answered.len() {
        found[drive] = is_open_gate(&regions.bytes[drive * REGION_BYTES + gate..]);
    }
    found
}

/// Closes the gates of a slot that were read as open.
fn close_slot<S: Shelf>(shelf: &mut S, regions: &Regions, slot: Slot) -> Result<(), Failed>
    requires { length regions.now.answered.items ≡ (S.shelf shelf.old).drives }
    ensures ran { Ran S.shelf S.shelf_rest IsDrive (OnOpen regions.now.bytes.items (slot_in slot)) shelf.old shelf.new }
    ensures shut { (S.shelf shelf.old).honest → OnOk result (IsReadIn (S.shelf shelf.old) regions.now.bytes.items (slot_in slot) → IsShut (S.shelf shelf.new) (slot_in slot)) }
    ensures clean { (S.shelf shelf.old).honest → OnOk result (AreClean (S.shelf shelf.old) → AreClean (S.shelf shelf.new)) }
    ensures counts { TellsFailed result (S.shelf shelf.old) (S.shelf shelf.new) }
{
    let closed = gate_sector(false);
    write_chosen(
        shelf,
        &open_in(regions, slot),
        slot.gate(),
        closed.as_bytes(),
    )
}

/// Closes the gates that were read as open, in both slots. At every moment the drives show what they showed, or less.
pub fn close_all_gates<S: Shelf>(shelf: &mut S, regions: &Regions) -> Result<(), Failed>
    requires { length regions.now.answered.items ≡ (S.shelf shelf.old).drives }
    ensures ran { Ran S.shelf S.shelf_rest IsDrive (OnAllOpen regions.now.bytes.items) shelf.old shelf.new }
    ensures shut { (S.shelf shelf.old).honest → GatesAreRead (S.shelf shelf.old) regions.now.bytes.items → OnOk result ((slot : BootSlot) → IsShut (S.shelf shelf.new) slot) }
    ensures clean { (S.shelf shelf.old).honest → OnOk result (AreClean (S.shelf shelf.old) → AreClean (S.shelf shelf.new)) }
    ensures any_moment { (S.shelf shelf.old).honest → GatesAreRead (S.shelf shelf.old) regions.now.bytes.items → AreClean (S.shelf shelf.old)
        → LeavesOnly (S.shelf shelf.old) (S.shelf shelf.new) (λ stop. HidesOnly (S.shelf shelf.old) stop.image) }
    ensures counts { TellsFailed result (S.shelf shelf.old) (S.shelf shelf.new) }
{
    close_slot(shelf, regions, Slot::A)?;
    close_slot(shelf, regions, Slot::B)
}
