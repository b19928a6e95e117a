// The tables that the record names are loaded, and memory is made of them.
ghost use Rattle.std.specs.Prelude.{◌≡◌, ◌<◌, ℕ, not, IfOk, IfErr};
ghost use Rattle.std.specs.List.{AllZip};
ghost use Rattle.pur_base.specs.Devices.{View};
ghost use Rattle.boot_codec.specs.Region.{IsRecordOf};
ghost use Rattle.array_spec.specs.Stored.{PatchIsShown, PatchesStand};
ghost use Rattle.memory_spec.specs.Tables.{patches};
ghost use Rattle.world.specs.Losing.{geometry_of};
ghost use Rattle.world.specs.Ran.{Ran};
ghost use Rattle.segment_io.specs.Lost.{NoByte, is_in};
ghost use Rattle.segment_io.specs.Reads.{OnlyLooks};
ghost use Rattle.table_loading.specs.Faults.{IsTablesFault};
ghost use Rattle.table_loading.specs.Loading.{ShowsDrives, ShowsNoOtherDrive, StripesStandOfAll};
ghost use Rattle.boot_region.specs.Members.{IsDrive};
ghost use Rattle.takeover.specs.Found.{OnGates};
ghost use Rattle.takeover.specs.Seen.{AreTablesSeenBy};
ghost use Rattle.takeover.specs.Steps.{AreTablesFound, IsRecordFound, StandsWhileFinding};
ghost use Rattle.takeover.specs.Tables.{IsMemoryOf};

use crate::faults::fault_of_tables;
use crate::{OpenFault, find_record};
use array_memory::Memory;
use boot_codec::{BootRecord, DRIVE_FLAGS};
use boot_region::Loaded;
use std::alloc::Global;
use table_loading::{TablesFault, load_tables};
use world::Shelf;

/// The record that was found, and memory with the tables that it names.
#[derive(Drop)]
pub struct FoundArray {
    pub loaded: Loaded,
    pub memory: Memory,
}

/// The drives that aren't among these.
fn others_than(drives: &[bool; DRIVE_FLAGS]) -> [bool; DRIVE_FLAGS]
    ensures { (slot : ℕ) → slot < DRIVE_FLAGS → is_in result slot ≡ not (is_in drives.now slot) }
{
    let mut others = [false; DRIVE_FLAGS];
    for slot in 0..DRIVE_FLAGS {
        others[slot] = !drives[slot];
    }
    others
}

/// Memory of the tables that the record names, read from the drives that aren't missing. Nothing is written.
fn load_memory<S: Shelf>(
    alloc: Global,
    shelf: &mut S,
    boot: &BootRecord,
    missing: &[bool],
) -> Result<Memory, TablesFault>
    requires lawful { IsRecordOf (geometry_of (S.shelf shelf.old)) boot.now }
    ensures ran { Ran S.shelf S.shelf_rest IsDrive NoByte shelf.old shelf.new }
    ensures looks { OnlyLooks (S.shelf shelf.old) (S.shelf shelf.new) }
    ensures memory { IfOk result (IsMemoryOf (geometry_of (S.shelf shelf.new)) boot.now) }
    ensures stand { (S.shelf shelf.old).honest → IfOk result (λ k. (view : View) → ShowsDrives (S.shelf shelf.old) missing.now view → StripesStandOfAll view boot.now → PatchesStand view boot.now (patches k.memory.tables)) }
    ensures shown { (S.shelf shelf.old).honest → IfOk result (λ k. (view : View) → ShowsNoOtherDrive (S.shelf shelf.old) (S.shelf shelf.new) missing.now view → AllZip (PatchIsShown view) boot.now.patches (patches k.memory.tables)) }
    ensures fault { IfErr result (λ e. IsTablesFault (S.shelf shelf.old) (S.shelf shelf.new) boot.now missing.now e) }
{
    let loaded = load_tables(alloc, shelf, boot, missing)?;
    let visible = loaded.visible;
    let tables = loaded.tables;
    let memory = Memory::from_tables(
        alloc,
        boot,
        tables.objects,
        tables.mediums,
        tables.addresses,
        tables.segments,
        tables.elisions,
        &visible.addresses,
    )?;
    Ok(memory)
}

/// Finds the record in force and settles it, and makes memory of the tables that it names.
pub fn find_array<S: Shelf>(alloc: Global, shelf: &mut S) -> Result<FoundArray, OpenFault>
    ensures ran { Ran S.shelf S.shelf_rest IsDrive OnGates shelf.old shelf.new }
    ensures loaded { IfOk result (λ f. IsRecordFound (S.shelf shelf.old) (S.shelf shelf.new) f.loaded) }
    ensures memory { IfOk result (λ f. IsMemoryOf (geometry_of (S.shelf shelf.new)) f.loaded.record f.memory) }
    // What the drives showed gives the record and its tables, or why there are none.
    ensures seen { (S.shelf shelf.old).honest → AreTablesSeenBy (S.shelf shelf.old) (S.shelf shelf.new) result }
    // At every moment the devices stand for the arrays for which they stood.
    ensures stands { (S.shelf shelf.old).honest → StandsWhileFinding (S.shelf shelf.old) (S.shelf shelf.new) }
    // The drives hold those tables, and memory reads as what they hold.
    ensures found { (S.shelf shelf.old).honest → IfOk result (AreTablesFound (S.shelf shelf.old) (S.shelf shelf.new)) }
{
    let loaded = find_record(alloc, shelf)?;
    let missing = others_than(&loaded.drives);
    match load_memory(alloc, shelf, &loaded.record, &missing) {
        Ok(memory) => Ok(FoundArray { loaded, memory }),
        Err(fault) => Err(fault_of_tables(fault, &loaded.drives)),
    }
}
