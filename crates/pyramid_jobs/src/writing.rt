// The one patch is written into units that the tables leave free.
ghost use Rattle.std.specs.Prelude.{◌≡◌, ◌+◌, ℕ, map, OnOk, OnErr, IfOk};
ghost use Rattle.segment_codec.specs.declared.position.TheConstants.{STRIPES};
ghost use Rattle.pyramid.specs.Layers.{patch_facts};
ghost use Rattle.world.specs.Losing.{geometry_of};
ghost use Rattle.world.specs.Ran.{Ran};
ghost use Rattle.boot_region.specs.Members.{IsDrive};
ghost use Rattle.memory_spec.specs.Tables.{facts};
ghost use Rattle.segment_io.specs.Lost.{LosesOnly};
ghost use Rattle.segment_writer.specs.CheckpointStoring.{IsOnPatches, OnPatches};
ghost use Rattle.segment_writer.specs.Layout.{StaysClean};
ghost use Rattle.table_plan.specs.Merging.{merged_facts};
ghost use Rattle.array_core.specs.Ready.{IsArrayOf};
ghost use Rattle.array_core.specs.Written.{HasWritten, OnUnused};
ghost use Rattle.pyramid_jobs.specs.Prepared.{held_after, IsPreparedFor, OneMayBeWritten, OneStands};

use crate::preparing::Prepared;
use array_core::Array;
use boot_codec::{DRIVE_FLAGS, Patches};
use patch_io::TableFact;
use pur_base::{Lost, NoMemory};
use segment_writer::{WriteRoom, write_patch};
use std::alloc::Global;
use table_plan::{Merged, facts_of};
use world::Shelf;

// Writes the facts of a table to the one patch, or nothing where there is none. All memory is taken before the first write. A drive on which a call fails is lost.
fn write_one<F: TableFact + Drop, S: Shelf>(
    alloc: Global,
    shelf: &mut S,
    one: &Option<pyramid::Patch<F>>,
    added: &Patches,
    generation: u64,
    writing: &mut WriteRoom,
    lost: &mut Lost,
) -> Result<(), NoMemory>
    requires { OneMayBeWritten (S.shelf shelf.old) added.now (map F.any (patch_facts one.now)) }
    ensures ran { Ran S.shelf S.shelf_rest (IsOnPatches added.now) (OnPatches added.now 0 (STRIPES + 1)) shelf.old shelf.new }
    ensures lost { LosesOnly (S.shelf shelf.old) (S.shelf shelf.new) lost.old.drives lost.new.drives }
    ensures stand { (S.shelf shelf.old).honest → OnOk result (OneStands (S.shelf shelf.new) added.now lost.new.drives (map F.any (patch_facts one.now))) }
    ensures clean { (S.shelf shelf.old).honest → OnOk result (StaysClean lost.new.drives (S.shelf shelf.old) (S.shelf shelf.new)) }
    ensures err { OnErr result ((shelf.new ≡ shelf.old) × (lost.new ≡ lost.old)) }
{
    if added.len() == 0 {
        return Ok(());
    }
    writing.reserve(alloc)?;
    let patch = added.at(0);
    let facts = facts_of(one);
    write_patch(
        alloc,
        shelf,
        &patch,
        facts,
        generation,
        &mut writing.stripes,
        &mut writing.units,
        lost,
    )
}

// The same, whatever their table.
fn write_merged<S: Shelf>(
    alloc: Global,
    shelf: &mut S,
    merged: &Merged,
    added: &Patches,
    generation: u64,
    writing: &mut WriteRoom,
    lost: &mut Lost,
) -> Result<(), NoMemory>
    requires { OneMayBeWritten (S.shelf shelf.old) added.now (merged_facts merged.now) }
    ensures ran { Ran S.shelf S.shelf_rest (IsOnPatches added.now) (OnPatches added.now 0 (STRIPES + 1)) shelf.old shelf.new }
    ensures lost { LosesOnly (S.shelf shelf.old) (S.shelf shelf.new) lost.old.drives lost.new.drives }
    ensures stand { (S.shelf shelf.old).honest → OnOk result (OneStands (S.shelf shelf.new) added.now lost.new.drives (merged_facts merged.now)) }
    ensures clean { (S.shelf shelf.old).honest → OnOk result (StaysClean lost.new.drives (S.shelf shelf.old) (S.shelf shelf.new)) }
    ensures err { OnErr result ((shelf.new ≡ shelf.old) × (lost.new ≡ lost.old)) }
{
    match merged {
        Merged::Object(one) => write_one(alloc, shelf, one, added, generation, writing, lost),
        Merged::Medium(one) => write_one(alloc, shelf, one, added, generation, writing, lost),
        Merged::Address(one) => write_one(alloc, shelf, one, added, generation, writing, lost),
        Merged::Segment(one) => write_one(alloc, shelf, one, added, generation, writing, lost),
        Merged::Elision(one) => write_one(alloc, shelf, one, added, generation, writing, lost),
    }
}

/// Writes the one patch, if it has facts, and gives the drives on which a call failed: they are lost. It fails for want of memory only, with no device call.
pub(crate) fn write_prepared<S: Shelf>(
    alloc: Global,
    array: &Array,
    prepared: &Prepared,
    writing: &mut WriteRoom,
    shelf: &mut S,
) -> Result<Lost, NoMemory>
    requires is_of { IsArrayOf (geometry_of (S.shelf shelf.old)) array.now }
    requires prepared { (index : ℕ) × IsPreparedFor index array.now prepared.now }
    ensures ran { Ran S.shelf S.shelf_rest IsDrive (OnUnused array.now) shelf.old shelf.new }
    ensures err { OnErr result (shelf.new ≡ shelf.old) }
    // On the drives that aren't lost the tables that are stored next hold the same base, and data segments hold what they held.
    ensures wrote { IfOk result (λ lost. (index : ℕ) → IsPreparedFor index array.now prepared.now → HasWritten (S.shelf shelf.old) (S.shelf shelf.new) array.now lost.drives prepared.now.tables
        (held_after array.now.memory.memory index prepared.now) (λ contents. contents) (facts array.now.memory.memory.tables)) }
{
    let mut lost = Lost {
        drives: [false; DRIVE_FLAGS],
    };
    write_merged(
        alloc,
        shelf,
        &prepared.merged,
        &prepared.added,
        array.register.record().generation,
        writing,
        &mut lost,
    )?;
    Ok(lost)
}
