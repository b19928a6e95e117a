// The patches of one table are loaded.
ghost use Rattle.std.specs.Prelude.{◌≡◌, ◌*◌, ◌≤◌, length, map, IfOk, IfErr};
ghost use Rattle.std.specs.List.{AllByRecursion, AllZip};
ghost use Rattle.pur_base.specs.Tags.{tag_of};
ghost use Rattle.pur_base.specs.declared.limits.TheConstants.{SECTOR_BYTES, SEGMENT_SECTORS};
ghost use Rattle.boot_codec.specs.Record.{IsPatch};
ghost use Rattle.table_loading.specs.Loading.{IsLoaded, OnlyReads, of_tag};
ghost use Rattle.table_loading.specs.Faults.{IsPatchFault, IsFaultIn};

use crate::fault::{TablesFault, fault_in};
use boot_codec::{Patch, Patches};
use patch_io::{TableFact, load_patch};
use pur_base::{NoMemory, Table};
use segment_io::StripeBuffer;
use std::alloc::Global;
use world::Shelf;

// Loads a patch of the table.
fn load_one<F: TableFact, S: Shelf>(
    alloc: Global,
    shelf: &mut S,
    table: Table,
    patch: &Patch<'_>,
    missing: &[bool],
    shards: &mut StripeBuffer,
    sectors: &mut [u8],
) -> Result<pyramid::Patch<F>, TablesFault>
    requires lawful { IsPatch (S.shelf shelf.old).drives (S.shelf shelf.old).units patch.now }
    requires tag { patch.now.tag ≡ F.tag }
    requires table { tag_of table ≡ F.tag }
    requires room { SECTOR_BYTES * SEGMENT_SECTORS ≤ length sectors.old }
    ensures reads { OnlyReads (S.shelf shelf.old) (S.shelf shelf.new) }
    ensures loaded { IfOk result (λ facts. IsLoaded (S.shelf shelf.old) (S.shelf shelf.new) missing.now patch.now (map F.any facts)) }
    ensures fault { IfErr result (λ e. IsPatchFault (S.shelf shelf.old) (S.shelf shelf.new) missing.now patch.now e) }
    ensures rest { S.shelf_rest shelf.old shelf.new }
{
    match load_patch(alloc, shelf, patch, missing, shards, sectors) {
        Ok(facts) => Ok(pyramid::Patch::new(facts)),
        Err(fault) => Err(fault_in(table, fault)),
    }
}

/// Loads the patches of the table with that tag, in order.
pub fn load_table<F: TableFact, S: Shelf>(
    alloc: Global,
    shelf: &mut S,
    table: Table,
    tag: u8,
    patches: &Patches,
    missing: &[bool],
    shards: &mut StripeBuffer,
    sectors: &mut [u8],
) -> Result<Vec<pyramid::Patch<F>>, TablesFault>
    requires lawful { AllByRecursion (IsPatch (S.shelf shelf.old).drives (S.shelf shelf.old).units) patches.now }
    requires tag { tag ≡ F.tag }
    requires table { tag_of table ≡ F.tag }
    requires room { SECTOR_BYTES * SEGMENT_SECTORS ≤ length sectors.old }
    ensures reads { OnlyReads (S.shelf shelf.old) (S.shelf shelf.new) }
    ensures loaded { IfOk result (λ loaded. AllZip (IsLoaded (S.shelf shelf.old) (S.shelf shelf.new) missing.now) (of_tag tag patches.now) (map (map F.any) loaded.items)) }
    ensures fault { IfErr result (λ e. IsFaultIn (S.shelf shelf.old) (S.shelf shelf.new) missing.now patches.now e) }
    ensures rest { S.shelf_rest shelf.old shelf.new }
{
    let mut loaded = Vec::new(alloc);
    for index in 0..patches.len() {
        let patch = patches.at(index);
        if patch.tag == tag {
            let facts = load_one(alloc, shelf, table, &patch, missing, shards, sectors)?;
            if loaded.push(facts).is_err() {
                return Err(TablesFault::Memory(NoMemory));
            }
        }
    }
    Ok(loaded)
}
