// The headers of patches are written.
ghost use Rattle.std.specs.Prelude.{◌≡◌, ℕ, List, Some, slice_get};
ghost use Rattle.pur_base.specs.declared.facts.AnyFact.{AnyFact};
ghost use Rattle.boot_codec.specs.declared.patch.Patch.{Patch as OnePatch};
ghost use Rattle.world.specs.Ran.{Ran};
ghost use Rattle.segment_io.specs.Lost.{LosesOnly};
ghost use Rattle.segment_io.specs.Stripes.{bytes_of};
ghost use Rattle.segment_writer.specs.PatchStoring.{MayBeHeaded, HoldsPatch};
ghost use Rattle.segment_writer.specs.CheckpointStoring.{AreAllApart, AreOpenLists, IsOnPatches, OnPatches};
ghost use Rattle.segment_writer.specs.CheckpointStanding.{HoldHeaders};

use crate::heading::write_all_headers;
use crate::patch::PatchHeads;
use boot_codec::Patches;
use pur_base::Lost;
use segment_io::Open;
use world::Shelf;

/// Writes the header of each open segment of the patches into its units. They aren't synced.
/// It asks for stripes that were synced, on each drive that isn't lost. A drive on which a write fails is lost for all patches.
pub(crate) fn write_headers<S: Shelf>(
    shelf: &mut S,
    patches: &Patches,
    generation: u64,
    lists: &mut [Vec<Open>],
    lost: &mut Lost,
)
    requires headed { (i : ℕ) (p : OnePatch) → slice_get patches.now i ≡ Some p → MayBeHeaded (S.shelf shelf.old) p }
    requires apart { AreAllApart patches.now }
    requires lists { AreOpenLists patches.now lost.old.drives lists.old }
    ensures ran { Ran S.shelf S.shelf_rest (IsOnPatches patches.now) (OnPatches patches.now 0 1) shelf.old shelf.new }
    ensures lost { LosesOnly (S.shelf shelf.old) (S.shelf shelf.new) lost.old.drives lost.new.drives }
    ensures headers { (S.shelf shelf.old).honest → HoldHeaders (bytes_of (S.shelf shelf.new)) patches.now lost.new.drives generation }
    // The facts stand as they did.
    ensures kept { (S.shelf shelf.old).honest → (i : ℕ) (p : OnePatch) (facts : List AnyFact) → slice_get patches.now i ≡ Some p
        → HoldsPatch (bytes_of (S.shelf shelf.old)) p lost.old.drives facts → HoldsPatch (bytes_of (S.shelf shelf.new)) p lost.new.drives facts }
{
    for index in 0..patches.len() {
        let patch = patches.at(index);
        let heads = PatchHeads {
            patch: &patch,
            generation,
        };
        write_all_headers(shelf, &heads, &mut lists[index], lost);
    }
}
