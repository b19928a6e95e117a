// The log is cleared once its commands are in tables.
ghost use Rattle.std.specs.Prelude.{◌≡◌, ◌<◌, ◌+◌, ◌-◌, ◌^◌, List, [], ◌∷◌, OnOk};
ghost use Rattle.pur_base.specs.Commands.{Command};
ghost use Rattle.world.specs.Losing.{geometry_of};
ghost use Rattle.world.specs.Ran.{Ran};
ghost use Rattle.register.specs.Registers.{IsRegisterOf};
ghost use Rattle.register.specs.Standing.{Content, array_of};
ghost use Rattle.array_core.specs.Changing.{KeepsTables, LeavesFewer, OnlyFaults, StaysOpen};
ghost use Rattle.array_core.specs.Switching.{IsCleared, MayClear, OnSlotsAndLog};

use crate::PerformFault;
use nvram_log::NvLog;
use register::Register;
use world::Shelf;

/// Clears the log, whose commands the tables hold, and where a device of it fails stores a record without that one.
pub(crate) fn clear_log<S: Shelf>(
    register: &mut Register,
    log: &mut NvLog,
    shelf: &mut S,
) -> Result<(), PerformFault>
    requires is_of { IsRegisterOf (geometry_of (S.shelf shelf.old)) register.old }
    requires flushed { register.old.record.flushed ≡ log.old.flushed + log.old.count }
    requires not_spent { register.old.record.generation < 2 ^ 48 - 16 }
    ensures ran { Ran S.shelf S.shelf_rest (λ d. Unit {0}) (OnSlotsAndLog register.old log.old.members) shelf.old shelf.new }
    ensures left { LeavesFewer (geometry_of (S.shelf shelf.new)) [] 3 register.old register.new log.old.members log.new.members }
    ensures record { KeepsTables result register.old register.new log.old.members log.new.members }
    ensures cleared { OnOk result (IsCleared register.new log.new) }
    ensures faults { OnlyFaults result (S.shelf shelf.old) (S.shelf shelf.new) register.old register.new log.old.members log.new.members }
    // Then the array is open with an empty log, on the devices that are left.
    ensures stays { (S.shelf shelf.old).honest → (held : Content) (commands : List Command) → MayClear (S.shelf shelf.old) register.old log.old held commands
        → StaysOpen result (S.shelf shelf.old) (S.shelf shelf.old) (S.shelf shelf.new) register.old.record (array_of held ∷ []) register.new log.new held [] }
{
    let before = log.members();
    log.clear(shelf)?;
    let members = log.members();
    if members == before {
        return Ok(());
    }
    register.store(members, shelf)?;
    Ok(())
}
