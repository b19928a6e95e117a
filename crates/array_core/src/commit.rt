// A command is logged, and where a device failed meanwhile a record without it is stored.
ghost use Rattle.std.specs.Prelude.{◌≡◌, ◌<◌, ◌-◌, ◌^◌, ◌++◌, ◌∷◌, [], length, OnOk};
ghost use Rattle.pur_base.specs.Grammar.{data_count};
ghost use Rattle.log_codec.specs.Head.{IsCommand};
ghost use Rattle.log_codec.specs.declared.limits.TheConstants.{LOG_SLOTS};
ghost use Rattle.world.specs.Losing.{geometry_of};
ghost use Rattle.world.specs.Shelf.{LeavesOnly};
ghost use Rattle.world.specs.Ran.{Ran};
ghost use Rattle.array_spec.specs.Held.{named_sound};
ghost use Rattle.register.specs.Standing.{Content};
ghost use Rattle.array_core.specs.Changing.{OnlyFaults, StaysOpen};
ghost use Rattle.array_core.specs.Committing.{HasAppended, MayLog, StaysUnapplied};
ghost use Rattle.array_core.specs.Ready.{IsArrayOf, logged};
ghost use Rattle.array_core.specs.Performing.{StandsOnceBack, without_or_with};
ghost use Rattle.array_core.specs.Switching.{OnSlotsAndLog};

use crate::{Array, PerformFault};
use nvram_log::Record;
use pur_base::{Request, Sector};
use world::Shelf;

/// Appends a command to the log on each member, and where a member fails stores a record without it. Memory stays as it is.
pub(crate) fn commit<S: Shelf>(
    array: &mut Array,
    request: &Request,
    sectors: &[Sector],
    shelf: &mut S,
) -> Result<(), PerformFault>
    requires is_of { IsArrayOf (geometry_of (S.shelf shelf.old)) array.old }
    requires not_spent { array.old.register.record.generation < 2 ^ 48 - 2 ^ 23 }
    requires room { array.old.log.count < LOG_SLOTS }
    requires command { IsCommand request.now }
    requires written { length sectors.now ≡ data_count request.now }
    ensures ran { Ran S.shelf S.shelf_rest (λ d. Unit {0}) (OnSlotsAndLog array.old.register array.old.log.members) shelf.old shelf.new }
    ensures unapplied { StaysUnapplied (geometry_of (S.shelf shelf.new)) array.old array.new }
    ensures appended { OnOk result (HasAppended (S.shelf shelf.old) (S.shelf shelf.new) array.old array.new (record { request = request.now; sectors = sectors.now })) }
    ensures faults { OnlyFaults result (S.shelf shelf.old) (S.shelf shelf.new) array.old.register array.new.register array.old.log.members array.new.log.members }
    // Then the array is open with the command in its log. At every moment a session can go on without it or with it.
    ensures stays { (S.shelf shelf.old).honest → (held : Content) → MayLog (S.shelf shelf.old) array.old held (record { request = request.now; sectors = sectors.now })
        → StaysOpen result (S.shelf shelf.old) (S.shelf shelf.old) (S.shelf shelf.new) array.old.register.record (without_or_with held (record { request = request.now; sectors = sectors.now }))
        array.new.register array.new.log (logged held (record { request = request.now; sectors = sectors.now })) (held.log ++ record { request = request.now; sectors = sectors.now } ∷ []) }
    ensures outlasts { (S.shelf shelf.old).honest → (held : Content) → MayLog (S.shelf shelf.old) array.old held (record { request = request.now; sectors = sectors.now })
        → LeavesOnly (S.shelf shelf.old) (S.shelf shelf.new) (StandsOnceBack (S.shelf shelf.old) (named_sound array.old.register.record) (without_or_with held (record { request = request.now; sectors = sectors.now }))) }
{
    let before = array.log.members();
    array.log.append(&Record { request, sectors }, shelf)?;
    let members = array.log.members();
    if members == before {
        return Ok(());
    }
    array.register.store(members, shelf)?;
    Ok(())
}
