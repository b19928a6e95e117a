// The facts of new patches are appended to their segments.
ghost use Rattle.std.specs.Prelude.{◌≡◌, ◌*◌, ◌≤◌, [], length};
ghost use Rattle.std.specs.Vec.{vec_capacity};
ghost use Rattle.segment_codec.specs.declared.position.TheConstants.{STRIPES};
ghost use Rattle.pyramid.specs.Layers.{patch_facts};
ghost use Rattle.world.specs.Ran.{Ran};
ghost use Rattle.segment_io.specs.declared.open.TheConstants.{RUN_ROOM};
ghost use Rattle.segment_io.specs.Lost.{LosesOnly};
ghost use Rattle.segment_io.specs.Stripes.{bytes_of};
ghost use Rattle.segment_writer.specs.PatchStoring.{MayBeStored, MayBeHeaded, HoldsPatch, IsOnPatch, OnPatch};
ghost use Rattle.segment_writer.specs.CheckpointPlanned.{facts_of_tag};
ghost use Rattle.segment_writer.specs.CheckpointStoring.{MayStandFor, HaveRoomFor, IsOpenListOf, AreOpenLists, HoldPatches, IsOnPatches, OnPatches};

use crate::patch::append_patch;
use array_memory::Plan;
use boot_codec::{Patch, Patches};
use parity72::SHARD_BYTES;
use pur_base::{Fact, Lost};
use segment_io::{Open, StripeData};
use world::Shelf;

// The facts of a table's new patch, or none.
fn facts_of<F: Fact + Drop>(patch: &Option<pyramid::Patch<F>>) -> &[F]
    ensures { result.now ≡ patch_facts patch.now }
{
    match patch {
        Some(patch) => patch.facts(),
        None => &[],
    }
}

// Appends the plan's facts of the patch's table to its segments, and puts the open segments into the list, which has the room for them.
fn append_table<S: Shelf>(
    shelf: &mut S,
    plan: &Plan,
    patch: &Patch<'_>,
    stripes: &mut [StripeData],
    room: &mut [[u8; SHARD_BYTES]],
    list: &mut Vec<Open>,
    lost: &mut Lost,
)
    requires stored { MayBeStored (S.shelf shelf.old) patch.now (facts_of_tag plan.now patch.now.tag) }
    requires headed { MayBeHeaded (S.shelf shelf.old) patch.now }
    requires none { list.old.items ≡ [] }
    requires capacity { length patch.now.segments ≤ vec_capacity list.old }
    requires stripes { STRIPES ≤ length stripes.old }
    requires room { RUN_ROOM * STRIPES ≤ length room.old }
    ensures ran { Ran S.shelf S.shelf_rest (IsOnPatch patch.now) (OnPatch patch.now 1 STRIPES) shelf.old shelf.new }
    ensures lost { LosesOnly (S.shelf shelf.old) (S.shelf shelf.new) lost.old.drives lost.new.drives }
    ensures opened { IsOpenListOf patch.now lost.new.drives list.new.items }
    ensures stand { (S.shelf shelf.old).honest → HoldsPatch (bytes_of (S.shelf shelf.new)) patch.now lost.new.drives (facts_of_tag plan.now patch.now.tag) }
{
    match patch.tag {
        1 => append_patch(
            shelf,
            patch,
            facts_of(&plan.objects),
            stripes,
            room,
            list,
            lost,
        ),
        2 => append_patch(
            shelf,
            patch,
            facts_of(&plan.mediums),
            stripes,
            room,
            list,
            lost,
        ),
        3 => append_patch(
            shelf,
            patch,
            facts_of(&plan.addresses),
            stripes,
            room,
            list,
            lost,
        ),
        4 => append_patch(
            shelf,
            patch,
            facts_of(&plan.segment_facts),
            stripes,
            room,
            list,
            lost,
        ),
        _ => append_patch(
            shelf,
            patch,
            facts_of(&plan.elisions),
            stripes,
            room,
            list,
            lost,
        ),
    }
}

/// Appends the plan's facts to the segments of its new patches. They aren't synced, and have no headers yet.
/// The open segments are put into the lists, one for each patch, which have the room for them. A drive on which a write fails is lost for all patches.
pub(crate) fn append_patches<S: Shelf>(
    shelf: &mut S,
    plan: &Plan,
    patches: &Patches,
    stripes: &mut [StripeData],
    room: &mut [[u8; SHARD_BYTES]],
    lists: &mut [Vec<Open>],
    lost: &mut Lost,
)
    requires patches { MayStandFor (S.shelf shelf.old) plan.now patches.now }
    requires lists { HaveRoomFor patches.now lists.old }
    requires stripes { STRIPES ≤ length stripes.old }
    requires room { RUN_ROOM * STRIPES ≤ length room.old }
    ensures ran { Ran S.shelf S.shelf_rest (IsOnPatches patches.now) (OnPatches patches.now 1 STRIPES) shelf.old shelf.new }
    ensures lost { LosesOnly (S.shelf shelf.old) (S.shelf shelf.new) lost.old.drives lost.new.drives }
    ensures lists { AreOpenLists patches.now lost.new.drives lists.new }
    ensures stand { (S.shelf shelf.old).honest → HoldPatches (bytes_of (S.shelf shelf.new)) plan.now patches.now lost.new.drives }
{
    for index in 0..patches.len() {
        let patch = patches.at(index);
        append_table(shelf, plan, &patch, stripes, room, &mut lists[index], lost);
    }
}
