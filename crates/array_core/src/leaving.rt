// Drives that were lost are left.
ghost use Rattle.std.specs.Prelude.{◌<◌, ◌-◌, ◌^◌, [], ◌∷◌, OnOk, IfErr};
ghost use Rattle.world.specs.Losing.{geometry_of};
ghost use Rattle.world.specs.Shelf.{LeavesOnly};
ghost use Rattle.world.specs.Ran.{Ran};
ghost use Rattle.boot_region.specs.Members.{IsDrive};
ghost use Rattle.nvram_log.specs.Members.{IsSome};
ghost use Rattle.register.specs.Faults.{IsFaultOf};
ghost use Rattle.register.specs.Registers.{IsRegisterOf, OnSlots, drives_of};
ghost use Rattle.register.specs.Standing.{Content, IsOpen, array_of};
ghost use Rattle.array_core.specs.Changing.{AreLeft, KeepsTables, LeavesFewer};
ghost use Rattle.array_core.specs.Performing.{IsKeptAt};
ghost use Rattle.array_core.specs.Switching.{WroteFree};

use boot_codec::{DRIVE_FLAGS, NVRAM_FLAGS};
use register::{Register, StoreFault};
use world::Shelf;

/// Where drives were lost, stores a record without them, by the same tables.
pub(crate) fn leave_lost<S: Shelf>(
    register: &mut Register,
    nvrams: [bool; NVRAM_FLAGS],
    lost: &[bool; DRIVE_FLAGS],
    shelf: &mut S,
) -> Result<(), StoreFault>
    requires is_of { IsRegisterOf (geometry_of (S.shelf shelf.old)) register.old }
    requires nvrams { IsSome nvrams }
    requires not_spent { register.old.record.generation < 2 ^ 48 - 2 ^ 24 }
    ensures ran { Ran S.shelf S.shelf_rest IsDrive (OnSlots (drives_of register.old)) shelf.old shelf.new }
    ensures left { LeavesFewer (geometry_of (S.shelf shelf.new)) lost.now 3 register.old register.new nvrams nvrams }
    ensures record { KeepsTables result register.old register.new nvrams nvrams }
    ensures dropped { AreLeft (S.shelf shelf.old) (S.shelf shelf.new) register.old register.new lost.now }
    ensures fault { IfErr result (λ e. IsFaultOf register.new e) }
    // Then the array is open as it was, on the drives that are left.
    ensures held { (S.shelf shelf.old).honest → OnOk result ((start : S) (held : Content) → IsOpen (S.shelf start) register.old nvrams held → WroteFree (S.shelf start) (S.shelf shelf.old) register.old lost.now held
        → IsOpen (S.shelf shelf.new) register.new nvrams held) }
    ensures any_moment { (S.shelf shelf.old).honest → (start : S) (held : Content) → IsOpen (S.shelf start) register.old nvrams held → WroteFree (S.shelf start) (S.shelf shelf.old) register.old lost.now held
        → LeavesOnly (S.shelf shelf.old) (S.shelf shelf.new) (IsKeptAt (S.shelf start) register.old.record (array_of held ∷ [])) }
{
    if !register.lose(lost) {
        return Ok(());
    }
    register.store(nvrams, shelf)
}
