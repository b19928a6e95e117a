// A checkpoint ends.
ghost use Rattle.std.specs.Prelude.{◌≡◌, ◌<◌, ◌+◌, ◌-◌, ◌^◌, [], ◌∷◌, OnOk};
ghost use Rattle.boot_codec.specs.Record.{IsBootRecord};
ghost use Rattle.world.specs.Losing.{geometry_of};
ghost use Rattle.world.specs.Shelf.{Continues};
ghost use Rattle.world.specs.Ran.{Ran};
ghost use Rattle.nvram_log.specs.Members.{IsSome};
ghost use Rattle.register.specs.Registers.{IsRegisterOf};
ghost use Rattle.register.specs.Standing.{Content, array_of};
ghost use Rattle.register.specs.Tables.{with_tables};
ghost use Rattle.array_core.specs.Changing.{LeavesFewer, OnlyFaults, StaysOpen};
ghost use Rattle.array_core.specs.Switching.{AreLost, ChangesTables, IsCleared, MaySwitch, OnSlotsAndLog};

use crate::PerformFault;
use crate::clearing::clear_log;
use crate::merging::switch_tables;
use boot_codec::DRIVE_FLAGS;
use nvram_log::NvLog;
use register::{Register, Tables};
use world::Shelf;

/// Makes these tables, which hold the commands of the log, those of the array as `switch_tables` does, and clears the log. Where a device fails meanwhile a record without it is stored. `Device` is the one fault: more devices failed than are borne.
pub fn switch<S: Shelf>(
    register: &mut Register,
    log: &mut NvLog,
    tables: Tables,
    lost: &[bool; DRIVE_FLAGS],
    shelf: &mut S,
) -> Result<(), PerformFault>
    requires is_of { IsRegisterOf (geometry_of (S.shelf shelf.old)) register.old }
    requires some { IsSome log.old.members }
    requires flushed { log.old.flushed ≡ register.old.record.flushed }
    requires lawful { IsBootRecord (with_tables register.old.record tables) }
    requires counted { tables.flushed ≡ register.old.record.flushed + log.old.count }
    requires not_spent { register.old.record.generation < 2 ^ 48 - 2 ^ 24 }
    ensures ran { Ran S.shelf S.shelf_rest (λ d. Unit {0}) (OnSlotsAndLog register.old log.old.members) shelf.old shelf.new }
    // Three stores write three records each at most.
    ensures left { LeavesFewer (geometry_of (S.shelf shelf.new)) lost.now 9 register.old register.new log.old.members log.new.members }
    ensures record { ChangesTables result (S.shelf shelf.old) (S.shelf shelf.new) lost.now tables register.old register.new log.old.members log.new.members }
    ensures cleared { OnOk result (IsCleared register.new log.new) }
    ensures faults { (start : S) → Continues (S.shelf start) (S.shelf shelf.old) → AreLost (S.shelf start) (S.shelf shelf.old) register.old lost.now
        → OnlyFaults result (S.shelf start) (S.shelf shelf.new) register.old register.new log.old.members log.new.members }
    // Then the array is open with these tables, and the log is empty. At every moment a session can go on with the array.
    ensures stays { (S.shelf shelf.old).honest → (start : S) (held next : Content) → MaySwitch (S.shelf start) (S.shelf shelf.old) register.old log.old lost.now tables held next
        → StaysOpen result (S.shelf start) (S.shelf shelf.old) (S.shelf shelf.new) register.old.record (array_of held ∷ []) register.new log.new next [] }
{
    switch_tables(register, log, tables, lost, shelf)?;
    clear_log(register, log, shelf)
}
