// The tables of a record are read, and memory is made of them.
ghost use Rattle.std.specs.Prelude.{◌≡◌, ℕ, IfOk, IfErr};
ghost use Rattle.pur_base.specs.declared.device.Device.{Device};
ghost use Rattle.pur_base.specs.Devices.{nvram};
ghost use Rattle.boot_codec.specs.Region.{IsRecordOf};
ghost use Rattle.world.specs.Losing.{geometry_of};
ghost use Rattle.world.specs.Ran.{Ran};
ghost use Rattle.world.specs.Shelf.{IsSame};
ghost use Rattle.memory_spec.specs.Tables.{flushed};
ghost use Rattle.nvram_log.specs.Read.{OnNothing};
ghost use Rattle.table_soundness.specs.Faults.{AreVisible};
ghost use Rattle.shelf_look.specs.Opening.{IsAny};
ghost use Rattle.shelf_look.specs.Tables.{AreOthers, AreTablesOn, IsMemoryOf, IsTablesCause};

use array_memory::Memory;
use boot_codec::{BootRecord, DRIVE_FLAGS};
use std::alloc::Global;
use table_loading::{TablesFault, load_tables};
use table_soundness::Visible;
use world::Shelf;

/// The tables of a record in memory, and what is visible of them.
#[derive(Drop)]
pub struct Tables {
    pub memory: Memory,
    pub visible: Visible,
}

/// The drives that aren't among these.
fn others_than(drives: &[bool; DRIVE_FLAGS]) -> [bool; DRIVE_FLAGS]
    ensures { AreOthers drives.now result }
{
    let mut others = [false; DRIVE_FLAGS];
    for slot in 0..DRIVE_FLAGS {
        others[slot] = !drives[slot];
    }
    others
}

/// The tables that the record names, read from the drives that hold it.
pub fn read_tables<S: Shelf>(
    alloc: Global,
    shelf: &mut S,
    boot: &BootRecord,
    drives: &[bool; DRIVE_FLAGS],
) -> Result<Tables, TablesFault>
    requires lawful { IsRecordOf (geometry_of (S.shelf shelf.old)) boot.now }
    ensures ran { Ran S.shelf S.shelf_rest IsAny OnNothing shelf.old shelf.new }
    ensures nvrams { (n : ℕ) → (S.shelf shelf.new).disk (nvram n) ≡ (S.shelf shelf.old).disk (nvram n) }
    ensures same { (S.shelf shelf.old).honest → (device : Device) → IsSame ((S.shelf shelf.old).disk device) ((S.shelf shelf.new).disk device) }
    ensures memory { IfOk result (λ t. IsMemoryOf (geometry_of (S.shelf shelf.old)) boot.now t.memory) }
    ensures tables { (S.shelf shelf.old).honest → IfOk result (λ t. AreTablesOn (S.shelf shelf.old) drives.now boot.now t.memory) }
    ensures visible { IfOk result (λ t. AreVisible (flushed t.memory.memory.tables) t.visible) }
    ensures fault { (S.shelf shelf.old).honest → IfErr result (IsTablesCause (S.shelf shelf.old) (S.shelf shelf.new) drives.now boot.now) }
{
    let missing = others_than(drives);
    let loaded = load_tables(alloc, shelf, boot, &missing)?;
    let tables = loaded.tables;
    let memory = Memory::from_tables(
        alloc,
        boot,
        tables.objects,
        tables.mediums,
        tables.addresses,
        tables.segments,
        tables.elisions,
        &[],
    )?;
    Ok(Tables {
        memory,
        visible: loaded.visible,
    })
}
