// A checkpoint's segments are written.
ghost use Rattle.std.specs.Prelude.{◌≡◌, ◌+◌, ◌*◌, ◌≤◌, length, OnOk, OnErr};
ghost use Rattle.pur_base.specs.Devices.{View};
ghost use Rattle.segment_codec.specs.declared.position.TheConstants.{STRIPES};
ghost use Rattle.world.specs.Ran.{Ran};
ghost use Rattle.world.specs.Shelf.{LeavesOnly};
ghost use Rattle.segment_io.specs.declared.open.TheConstants.{RUN_ROOM};
ghost use Rattle.segment_io.specs.Lost.{LosesOnly};
ghost use Rattle.segment_io.specs.Stripes.{bytes_of};
ghost use Rattle.segment_writer.specs.Layout.{StaysClean};
ghost use Rattle.segment_writer.specs.DataPlacing.{MayBePlaced};
ghost use Rattle.segment_writer.specs.DataStoring.{ShowsMostOf};
ghost use Rattle.segment_writer.specs.DataStanding.{DataStands};
ghost use Rattle.segment_writer.specs.CheckpointPlanned.{new_facts};
ghost use Rattle.segment_writer.specs.CheckpointStoring.{MayBeStoredWith, MayStandFor, HaveRoomFor, HoldPatches, IsOnPatches, OnPatches, IsOnCheckpoint, OnCheckpoint};
ghost use Rattle.segment_writer.specs.CheckpointStanding.{FactsStand, HoldHeaders, HaveHeaders, ComeInTurn, AllInTurn};

use crate::checkpoint_appending::append_patches;
use crate::checkpoint_drives::drives_of_patches;
use crate::checkpoint_heading::write_headers;
use crate::data::write_data;
use crate::room::{WriteRoom, lists_for};
use array_memory::Plan;
use boot_codec::Patches;
use parity72::SHARD_BYTES;
use pur_base::{Lost, NoMemory, Sector};
use segment_io::{Open, StripeData, sync_drives};
use std::alloc::Global;
use world::Shelf;

// Writes the plan's new patches to their segments: the stripes of all, which are synced, and then the headers of all, which are synced.
fn write_patches<S: Shelf>(
    shelf: &mut S,
    plan: &Plan,
    patches: &Patches,
    generation: u64,
    stripes: &mut [StripeData],
    room: &mut [[u8; SHARD_BYTES]],
    lists: &mut [Vec<Open>],
    lost: &mut Lost,
)
    requires patches { MayStandFor (S.shelf shelf.old) plan.now patches.now }
    requires lists { HaveRoomFor patches.now lists.old }
    requires stripes { STRIPES ≤ length stripes.old }
    requires room { RUN_ROOM * STRIPES ≤ length room.old }
    ensures ran { Ran S.shelf S.shelf_rest (IsOnPatches patches.now) (OnPatches patches.now 0 (STRIPES + 1)) shelf.old shelf.new }
    ensures lost { LosesOnly (S.shelf shelf.old) (S.shelf shelf.new) lost.old.drives lost.new.drives }
    ensures stand { (S.shelf shelf.old).honest → HoldPatches (bytes_of (S.shelf shelf.new)) plan.now patches.now lost.new.drives }
    ensures headers { (S.shelf shelf.old).honest → HoldHeaders (bytes_of (S.shelf shelf.new)) patches.now lost.new.drives generation }
    // At every moment no header is there yet, or the facts stand.
    ensures in_turn { (S.shelf shelf.old).honest → LeavesOnly (S.shelf shelf.old) (S.shelf shelf.new) (ComeInTurn (S.shelf shelf.old) plan.now patches.now lost.new.drives) }
    ensures clean { (S.shelf shelf.old).honest → StaysClean lost.new.drives (S.shelf shelf.old) (S.shelf shelf.new) }
{
    let drives = drives_of_patches(patches);
    append_patches(shelf, plan, patches, stripes, room, lists, lost);
    sync_drives(shelf, &drives, lost);
    write_headers(shelf, patches, generation, lists, lost);
    sync_drives(shelf, &drives, lost);
}

/// Writes what a checkpoint plans: the data segments with the sectors that it places, and then its new patches. All memory is taken before the first write, and room that is lent is used again.
/// Of each of the two the stripes are synced with one call a drive, and then the headers. A drive on which a call fails is lost.
pub fn write_checkpoint<S: Shelf>(
    alloc: Global,
    shelf: &mut S,
    plan: &Plan,
    patches: &Patches,
    staged: &[Sector],
    generation: u64,
    room: &mut WriteRoom,
    lost: &mut Lost,
) -> Result<(), NoMemory>
    requires placed { MayBePlaced (S.shelf shelf.old) plan.now.segments.items staged.now plan.now.placing.order.items }
    requires stored { MayBeStoredWith (S.shelf shelf.old) plan.now patches.now }
    ensures ran { Ran S.shelf S.shelf_rest (IsOnCheckpoint plan.now.segments.items patches.now) (OnCheckpoint plan.now.segments.items patches.now) shelf.old shelf.new }
    ensures lost { LosesOnly (S.shelf shelf.old) (S.shelf shelf.new) lost.old.drives lost.new.drives }
    // Sectors and facts stand in each view in which at most two of the nine drives of each segment are missing.
    ensures data { (S.shelf shelf.old).honest → OnOk result ((view : View) → ShowsMostOf (bytes_of (S.shelf shelf.new)) plan.now.segments.items lost.new.drives view → DataStands view plan.now.segments.items staged.now plan.now.placing.order.items) }
    ensures facts { (S.shelf shelf.old).honest → OnOk result (FactsStand (bytes_of (S.shelf shelf.new)) patches.now lost.new.drives (new_facts plan.now)) }
    ensures headers { (S.shelf shelf.old).honest → OnOk result (HaveHeaders (bytes_of (S.shelf shelf.new)) plan.now.segments.items patches.now lost.new.drives generation) }
    // At every moment no header of a data segment is there yet, or the sectors stand; and no header of a patch, or the facts of all patches.
    ensures in_turn { (S.shelf shelf.old).honest → LeavesOnly (S.shelf shelf.old) (S.shelf shelf.new) (AllInTurn (S.shelf shelf.old) plan.now patches.now lost.new.drives staged.now) }
    ensures clean { (S.shelf shelf.old).honest → OnOk result (StaysClean lost.new.drives (S.shelf shelf.old) (S.shelf shelf.new)) }
    ensures err { OnErr result ((shelf.new ≡ shelf.old) × (lost.new ≡ lost.old)) }
{
    room.reserve(alloc)?;
    let mut lists = lists_for(alloc, patches)?;
    write_data(
        alloc,
        shelf,
        &plan.segments,
        staged,
        &plan.placing.order,
        generation,
        &mut room.stripes,
        &mut room.units,
        lost,
    )?;
    write_patches(
        shelf,
        plan,
        patches,
        generation,
        &mut room.stripes,
        &mut room.units,
        &mut lists,
        lost,
    );
    Ok(())
}
