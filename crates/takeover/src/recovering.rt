// The array is recovered from its devices.
ghost use Rattle.std.specs.Prelude.{◌≡◌, IfOk};
ghost use Rattle.world.specs.Losing.{geometry_of};
ghost use Rattle.world.specs.Ran.{Ran};
ghost use Rattle.array_core.specs.Ready.{IsArrayOf};
ghost use Rattle.takeover.specs.Opened.{IsOpenedBy, OffSegments};
ghost use Rattle.takeover.specs.Outlasting.{OutlastsFailures};

use crate::{OpenFault, find_array, open_log};
use array_core::{Array, NOTHING_BEHIND};
use register::Register;
use std::alloc::Global;
use world::Shelf;

/// Opens the array by a takeover: the record in force is found and settled, memory is made of the tables that it names, the log is read, applied to
/// memory and settled, and a record of the next generation is stored that names the devices that are left. At every moment the devices stand for the
/// arrays for which they stood, and then for the one that memory reads as.
pub fn recover<S: Shelf>(alloc: Global, shelf: &mut S) -> Result<Array, OpenFault>
    ensures ran { Ran S.shelf S.shelf_rest (λ d. Unit {0}) OffSegments shelf.old shelf.new }
    // The record is one of the shelf's, the log follows on what it has flushed, and memory is sound, with room for a whole log.
    ensures is_of { IfOk result (λ a. IsArrayOf (geometry_of (S.shelf shelf.new)) a) }
    // The record names the drives on which it is in force, and the NVRAM devices of the log.
    ensures named { IfOk result (λ a. (a.register.record.members.drives ≡ a.register.drives) × (a.register.record.members.nvrams ≡ a.log.members)) }
    // What was found and done, or why the array isn't opened. For arrays for which the devices stood, they do so at every moment.
    ensures opened { (S.shelf shelf.old).honest → IsOpenedBy (S.shelf shelf.old) (S.shelf shelf.new) result }
    // Whatever fails, more than is borne too, where no store was unfinished at the entry: at every moment the devices stand for the arrays once they
    // answer again with what they hold.
    ensures outlasts { (S.shelf shelf.old).honest → OutlastsFailures (S.shelf shelf.old) (S.shelf shelf.new) }
{
    let found = find_array(alloc, shelf)?;
    let loaded = found.loaded;
    let nvrams = loaded.record.members.nvrams;
    let flushed = loaded.record.flushed;
    let mut register = Register::new(alloc, loaded.record, loaded.drives)?;
    let opened = open_log(alloc, shelf, nvrams, flushed, found.memory)?;
    register.store(opened.log.members(), shelf)?;
    Ok(Array {
        memory: opened.memory,
        log: opened.log,
        register,
        background: NOTHING_BEHIND,
    })
}
