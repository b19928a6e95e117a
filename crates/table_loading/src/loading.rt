// The tables of a record are loaded and judged.
ghost use Rattle.std.specs.Prelude.{◌*◌, ◌≤◌, length, IfOk, IfErr};
ghost use Rattle.std.specs.List.{AllZip};
ghost use Rattle.pur_base.specs.Devices.{View};
ghost use Rattle.pur_base.specs.declared.limits.TheConstants.{SECTOR_BYTES, SEGMENT_SECTORS};
ghost use Rattle.boot_codec.specs.Region.{IsRecordOf};
ghost use Rattle.array_spec.specs.Sound.{AreSound};
ghost use Rattle.array_spec.specs.Stored.{PatchIsShown, PatchesStand};
ghost use Rattle.loaded_tables.specs.Loaded.{facts_in, patches_in, AreLawful, AreNamed};
ghost use Rattle.table_soundness.specs.Faults.{AreVisible};
ghost use Rattle.world.specs.Losing.{geometry_of};
ghost use Rattle.table_loading.specs.Loading.{OnlyReads, ShowsDrives, ShowsNoOtherDrive, StripesStandOfAll};
ghost use Rattle.table_loading.specs.Faults.{IsTablesFault};

use crate::fault::TablesFault;
use crate::tables::read_tables;
use boot_codec::BootRecord;
use loaded_tables::LoadedTables;
use pur_base::{NoMemory, SECTOR_BYTES, SEGMENT_SECTORS};
use std::alloc::Global;
use table_soundness::{Visible, check};
use world::Shelf;

/// The tables of a record, which are sound, and what is visible of them.
#[derive(Drop)]
pub struct SoundTables {
    pub tables: LoadedTables,
    pub visible: Visible,
}

// Room for the sectors of a segment.
fn sector_room(alloc: Global) -> Result<Vec<u8>, NoMemory>
    ensures { IfOk result (λ room. SECTOR_BYTES * SEGMENT_SECTORS ≤ length room.items) }
{
    Ok(vec![in alloc; 0; SECTOR_BYTES * SEGMENT_SECTORS as usize]?)
}

/// Loads the patches that a record names, by table, oldest first, judges them, and gives what is visible of them too. The set of the missing drives is given by slot.
/// Nothing is written. A drive whose read failed is asked again for the next segment only, and each failed call is counted.
pub fn load_tables<S: Shelf>(
    alloc: Global,
    shelf: &mut S,
    boot: &BootRecord,
    missing: &[bool],
) -> Result<SoundTables, TablesFault>
    requires lawful { IsRecordOf (geometry_of (S.shelf shelf.old)) boot.now }
    ensures reads { OnlyReads (S.shelf shelf.old) (S.shelf shelf.new) }
    ensures rest { S.shelf_rest shelf.old shelf.new }
    // What stands as the patches in each view that shows the drives that aren't missing.
    ensures stand { (S.shelf shelf.old).honest → IfOk result (λ t. (view : View) → ShowsDrives (S.shelf shelf.old) missing.now view → StripesStandOfAll view boot.now → PatchesStand view boot.now (patches_in t.tables)) }
    // What each view shows of the drives that aren't missing and of which no call failed, whether the stripes stand or not.
    ensures shown { (S.shelf shelf.old).honest → IfOk result (λ t. (view : View) → ShowsNoOtherDrive (S.shelf shelf.old) (S.shelf shelf.new) missing.now view → AllZip (PatchIsShown view) boot.now.patches (patches_in t.tables)) }
    ensures sound { IfOk result (λ t. AreSound (geometry_of (S.shelf shelf.new)) boot.now (patches_in t.tables)) }
    ensures lawful_facts { IfOk result (λ t. AreLawful t.tables) }
    ensures named { IfOk result (λ t. AreNamed boot.now t.tables) }
    ensures visible { IfOk result (λ t. AreVisible (facts_in t.tables) t.visible) }
    ensures fault { IfErr result (λ e. IsTablesFault (S.shelf shelf.old) (S.shelf shelf.new) boot.now missing.now e) }
{
    let mut sectors = sector_room(alloc)?;
    let tables = read_tables(alloc, shelf, &boot.patches, missing, &mut sectors)?;
    let visible = check(alloc, boot.slots, boot.units, boot, &tables)?;
    Ok(SoundTables { tables, visible })
}
