// Tables that were written become those of the record.
ghost use Rattle.std.specs.Prelude.{◌<◌, ◌-◌, ◌^◌, [], ◌∷◌};
ghost use Rattle.boot_codec.specs.Record.{IsBootRecord};
ghost use Rattle.world.specs.Losing.{geometry_of};
ghost use Rattle.world.specs.Shelf.{Continues};
ghost use Rattle.world.specs.Ran.{Ran};
ghost use Rattle.boot_region.specs.Members.{IsDrive};
ghost use Rattle.nvram_log.specs.Members.{IsSome};
ghost use Rattle.register.specs.Registers.{IsRegisterOf, OnSlots, drives_of};
ghost use Rattle.register.specs.Standing.{Content, array_of};
ghost use Rattle.register.specs.Tables.{with_tables};
ghost use Rattle.array_core.specs.Changing.{LeavesFewer, OnlyFaults, StaysOpen};
ghost use Rattle.array_core.specs.Switching.{AreLost, ChangesTables, MaySwitch};

use crate::PerformFault;
use crate::leaving::leave_lost;
use boot_codec::DRIVE_FLAGS;
use nvram_log::NvLog;
use register::{Register, Tables};
use world::Shelf;

/// Makes these tables, which were written into free units, those of the array, where the drives of the set lost writes: stores a record without these drives, where there are any, then one of the tables.
/// The log is as it was. Where a drive fails meanwhile a record without it is stored. `Device` is the one fault: more devices failed than are borne.
pub fn switch_tables<S: Shelf>(
    register: &mut Register,
    log: &NvLog,
    tables: Tables,
    lost: &[bool; DRIVE_FLAGS],
    shelf: &mut S,
) -> Result<(), PerformFault>
    requires is_of { IsRegisterOf (geometry_of (S.shelf shelf.old)) register.old }
    requires some { IsSome log.now.members }
    requires lawful { IsBootRecord (with_tables register.old.record tables) }
    requires not_spent { register.old.record.generation < 2 ^ 48 - 2 ^ 24 }
    ensures ran { Ran S.shelf S.shelf_rest IsDrive (OnSlots (drives_of register.old)) shelf.old shelf.new }
    // Two stores write three records each at most.
    ensures left { LeavesFewer (geometry_of (S.shelf shelf.new)) lost.now 6 register.old register.new log.now.members log.now.members }
    ensures record { ChangesTables result (S.shelf shelf.old) (S.shelf shelf.new) lost.now tables register.old register.new log.now.members log.now.members }
    ensures faults { (start : S) → Continues (S.shelf start) (S.shelf shelf.old) → AreLost (S.shelf start) (S.shelf shelf.old) register.old lost.now
        → OnlyFaults result (S.shelf start) (S.shelf shelf.new) register.old register.new log.now.members log.now.members }
    // Then the array is open with these tables, and its log is as it was. At every moment a session can go on with the array.
    ensures stays { (S.shelf shelf.old).honest → (start : S) (held next : Content) → MaySwitch (S.shelf start) (S.shelf shelf.old) register.old log.now lost.now tables held next
        → StaysOpen result (S.shelf start) (S.shelf shelf.old) (S.shelf shelf.new) register.old.record (array_of held ∷ []) register.new log.now next held.log }
{
    leave_lost(register, log.members(), lost, shelf)?;
    register.store_tables(tables, shelf)?;
    Ok(())
}
