// All that a merge writes is planned, and all memory taken, before anything is written.
ghost use Rattle.std.specs.Prelude.{◌≡◌, IfOk};
ghost use Rattle.pur_base.specs.Devices.{Geometry};
ghost use Rattle.memory_spec.specs.Merging.{place_in};
ghost use Rattle.table_plan.specs.Merging.{table_of};
ghost use Rattle.array_core.specs.Ready.{IsArrayOf};
ghost use Rattle.pyramid_jobs.specs.Made.{MayMerge};
ghost use Rattle.pyramid_jobs.specs.Prepared.{IsPreparedFor};

use array_core::Array;
use boot_codec::{NextNumbers, Patches};
use free_space::map_of;
use pur_base::{NoMemory, Table};
use record_tables::{Pair, joined_patches, segments_for, take_units};
use register::Tables;
use std::alloc::Global;
use table_plan::Merged;
use table_planner::merged;

/// What a merge writes and stores.
#[derive(Drop)]
pub(crate) struct Prepared {
    /// The patch that is to stand in the place of the two.
    pub(crate) merged: Merged,
    /// The same as the record names it, or none where no fact is left.
    pub(crate) added: Patches,
    /// What the next record says of the tables.
    pub(crate) tables: Tables,
    /// How many segments the patch has.
    pub(crate) segments: usize,
}

/// Plans a merge. It fails for want of memory only.
pub(crate) fn prepare(
    alloc: Global,
    array: &Array,
    table: Table,
    index: u64,
    pair: Pair,
) -> Result<Prepared, NoMemory>
    requires is_of { (shelf : Geometry) × IsArrayOf shelf array.now }
    requires may { MayMerge table index array.now }
    requires place { pair.place ≡ place_in table index array.now.register.record.patches }
    ensures prepared { IfOk result (IsPreparedFor index array.now) }
    ensures asked { IfOk result (λ p. table_of p.merged ≡ table) }
{
    let record = array.register.record();
    let merged = merged(alloc, &array.memory, table, index as usize)?;
    let facts = merged.len();
    let mut map = map_of(alloc, record, array.memory.segments())?;
    let units = take_units(alloc, &mut map, segments_for(facts))?;
    let first = record.next.patch_segment;
    let patches = joined_patches(
        alloc,
        &record.patches,
        pair.place,
        table,
        facts as u32,
        first,
        &units,
    )?;
    Ok(Prepared {
        merged,
        added: patches.added,
        tables: Tables {
            patches: patches.all,
            next: NextNumbers {
                patch_segment: first + units.len() as u64,
                ..record.next
            },
            flushed: record.flushed,
        },
        segments: units.len(),
    })
}
