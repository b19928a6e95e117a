// What was planned is written into units that the tables leave free.
ghost use Rattle.std.specs.Prelude.{◌≡◌, OnErr, IfOk};
ghost use Rattle.world.specs.Losing.{geometry_of};
ghost use Rattle.world.specs.Ran.{Ran};
ghost use Rattle.boot_region.specs.Members.{IsDrive};
ghost use Rattle.array_core.specs.Ready.{IsArrayOf};
ghost use Rattle.array_core.specs.Written.{HasWritten, OnUnused};
ghost use Rattle.array_checkpoint.specs.Prepared.{IsPreparedFor};
ghost use Rattle.array_checkpoint.specs.Made.{contents_after, facts_after, held_after};

use crate::preparing::Prepared;
use array_core::Array;
use boot_codec::DRIVE_FLAGS;
use pur_base::{Lost, NoMemory};
use segment_writer::{WriteRoom, write_checkpoint};
use std::alloc::Global;
use world::Shelf;

/// Writes the new segments and patches, and gives the drives on which a call failed: they are lost. It fails for want of memory only, with no device call.
pub(crate) fn write_prepared<S: Shelf>(
    alloc: Global,
    array: &Array,
    prepared: &Prepared,
    writing: &mut WriteRoom,
    shelf: &mut S,
) -> Result<Lost, NoMemory>
    requires is_of { IsArrayOf (geometry_of (S.shelf shelf.old)) array.now }
    requires prepared { IsPreparedFor array.now prepared.now }
    ensures ran { Ran S.shelf S.shelf_rest IsDrive (OnUnused array.now) shelf.old shelf.new }
    ensures err { OnErr result (shelf.new ≡ shelf.old) }
    // On the drives that aren't lost the tables that are stored next hold the same array.
    ensures wrote { IfOk result (λ lost. HasWritten (S.shelf shelf.old) (S.shelf shelf.new) array.now lost.drives prepared.now.tables
        (held_after array.now.memory.memory prepared.now.plan) (contents_after array.now.memory.memory prepared.now.plan) (facts_after array.now.memory.memory prepared.now.plan)) }
{
    let mut lost = Lost {
        drives: [false; DRIVE_FLAGS],
    };
    write_checkpoint(
        alloc,
        shelf,
        &prepared.plan,
        &prepared.added,
        array.memory.all_staged(),
        array.register.record().generation,
        writing,
        &mut lost,
    )?;
    Ok(lost)
}
