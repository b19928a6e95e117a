// What an opening would find.
ghost use Rattle.std.specs.Prelude.{ℕ, Bool, List, IfOk, IfErr};
ghost use Rattle.pur_base.specs.declared.device.Device.{Device};
ghost use Rattle.world.specs.Ran.{Ran};
ghost use Rattle.world.specs.Losing.{geometry_of};
ghost use Rattle.world.specs.Shelf.{IsSame};
ghost use Rattle.boot_region.specs.Loading.{IsAnswerOf, IsLawfulLoad};
ghost use Rattle.nvram_log.specs.Read.{OnNothing};
ghost use Rattle.shelf_look.specs.Opening.{IsAny, IsCauseOf, IsOpeningOf, IsOpeningIn};

use crate::Cause;
use crate::tables::read_tables;
use crate::waiting::{Waiting, waiting_in};
use array_memory::Memory;
use boot_region::{LoadFault, Loaded};
use nvram_log::NvLog;
use std::alloc::Global;
use table_soundness::Visible;
use world::Shelf;

/// What an opening would find: the record in force, the drives that hold it, memory of the tables that it names, and the log.
#[derive(Drop)]
pub struct Opening {
    pub loaded: Loaded,
    pub memory: Memory,
    pub visible: Visible,
    pub log: NvLog,
    pub waiting: Waiting,
}

/// Finds what an opening would find, where this was loaded, or why it would end.
pub fn find<S: Shelf>(
    alloc: Global,
    shelf: &mut S,
    loaded: Result<Loaded, LoadFault>,
) -> Result<Opening, Cause>
    requires { IfOk loaded (IsLawfulLoad (geometry_of (S.shelf shelf.old))) }
    ensures same { (S.shelf shelf.old).honest → (d : Device) → IsSame ((S.shelf shelf.old).disk d) ((S.shelf shelf.new).disk d) }
    ensures ran { Ran S.shelf S.shelf_rest IsAny OnNothing shelf.old shelf.new }
    ensures opening { IfOk result (IsOpeningIn (geometry_of (S.shelf shelf.old))) }
    // Of whatever boot regions it was loaded.
    ensures found { (S.shelf shelf.old).honest → (bytes : List ℕ) (answered : List Bool) → IsAnswerOf (geometry_of (S.shelf shelf.old)) bytes answered loaded
        → IfOk result (IsOpeningOf (S.shelf shelf.old) (S.shelf shelf.new) bytes answered) }
    ensures cause { (S.shelf shelf.old).honest → (bytes : List ℕ) (answered : List Bool) → IsAnswerOf (geometry_of (S.shelf shelf.old)) bytes answered loaded
        → IfErr result (IsCauseOf (S.shelf shelf.old) (S.shelf shelf.new) bytes answered) }
{
    let loaded = loaded?;
    let tables = read_tables(alloc, shelf, &loaded.record, &loaded.drives)?;
    let log = NvLog::read(
        alloc,
        shelf,
        loaded.record.members.nvrams,
        loaded.record.flushed,
    )?;
    let waiting = waiting_in(&log);
    Ok(Opening {
        loaded,
        memory: tables.memory,
        visible: tables.visible,
        log,
        waiting,
    })
}
