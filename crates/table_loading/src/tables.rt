// The patches of all tables are loaded.
ghost use Rattle.std.specs.Prelude.{◌≡◌, ◌*◌, ◌≤◌, length, IfOk, IfErr};
ghost use Rattle.std.specs.List.{AllZip};
ghost use Rattle.pur_base.specs.declared.limits.TheConstants.{SECTOR_BYTES, SEGMENT_SECTORS};
ghost use Rattle.boot_codec.specs.Record.{ArePatches};
ghost use Rattle.loaded_tables.specs.Loaded.{patches_in};
ghost use Rattle.table_loading.specs.Loading.{IsLoaded, OnlyReads};
ghost use Rattle.table_loading.specs.Faults.{IsFaultIn};

use crate::fault::TablesFault;
use crate::patches::load_table;
use boot_codec::Patches;
use loaded_tables::LoadedTables;
use parity72::{SHARD_BYTES, SHARDS};
use pur_base::Table;
use std::alloc::Global;
use world::Shelf;

/// Loads the patches, each in its table.
pub fn read_tables<S: Shelf>(
    alloc: Global,
    shelf: &mut S,
    patches: &Patches,
    missing: &[bool],
    sectors: &mut [u8],
) -> Result<LoadedTables, TablesFault>
    requires lawful { ArePatches (S.shelf shelf.old).drives (S.shelf shelf.old).units patches.now }
    requires room { SECTOR_BYTES * SEGMENT_SECTORS ≤ length sectors.old }
    ensures reads { OnlyReads (S.shelf shelf.old) (S.shelf shelf.new) }
    ensures loaded { IfOk result (λ tables. AllZip (IsLoaded (S.shelf shelf.old) (S.shelf shelf.new) missing.now) patches.now (patches_in tables)) }
    ensures fault { IfErr result (λ e. IsFaultIn (S.shelf shelf.old) (S.shelf shelf.new) missing.now patches.now e) }
    ensures rest { S.shelf_rest shelf.old shelf.new }
{
    let mut stripe = [[0; SHARD_BYTES]; SHARDS];
    let shards = &mut stripe;
    let objects = load_table(
        alloc,
        shelf,
        Table::Object,
        1,
        patches,
        missing,
        shards,
        sectors,
    )?;
    let mediums = load_table(
        alloc,
        shelf,
        Table::Medium,
        2,
        patches,
        missing,
        shards,
        sectors,
    )?;
    let addresses = load_table(
        alloc,
        shelf,
        Table::Address,
        3,
        patches,
        missing,
        shards,
        sectors,
    )?;
    let segments = load_table(
        alloc,
        shelf,
        Table::Segment,
        4,
        patches,
        missing,
        shards,
        sectors,
    )?;
    let elisions = load_table(
        alloc,
        shelf,
        Table::Elision,
        5,
        patches,
        missing,
        shards,
        sectors,
    )?;
    Ok(LoadedTables {
        objects,
        mediums,
        addresses,
        segments,
        elisions,
    })
}
