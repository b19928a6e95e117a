// The drives of patches.
ghost use Rattle.std.specs.Prelude.{◌≡◌, ◌⊎◌, ◌↔◌, ℕ, ◌<◌, true, length, Some, slice_get};
ghost use Rattle.pur_base.specs.declared.limits.TheConstants.{SEGMENT_SHARDS, SLOTS_MAX};
ghost use Rattle.boot_codec.specs.declared.patch.Patch.{Patch as OnePatch};
ghost use Rattle.array_spec.specs.Stored.{places_of_part};
ghost use Rattle.segment_io.specs.Lost.{is_in};
ghost use Rattle.segment_io.specs.Places.{place_of};
ghost use Rattle.segment_writer.specs.PatchStoring.{HasItsSegments};
ghost use Rattle.segment_writer.specs.CheckpointStoring.{HoldDrivesOf, IsSlotOf};

use crate::drives::{SLOTS, drives_of};
use crate::patch::PatchHeads;
use boot_codec::Patches;

// Adds the drives of one set to another.
fn join(drives: &mut [bool; SLOTS], more: &[bool; SLOTS])
    ensures { (slot : ℕ) → (is_in drives.new slot ≡ true) ↔ ((is_in drives.old slot ≡ true) ⊎ (is_in more.now slot ≡ true)) }
{
    for slot in 0..SLOTS {
        drives[slot] |= more[slot];
    }
}

/// The set of the drives of all units of the patches, by slot.
pub(crate) fn drives_of_patches(patches: &Patches) -> [bool; SLOTS]
    requires headed { (index : ℕ) (p : OnePatch) → slice_get patches.now index ≡ Some p → HasItsSegments p }
    requires slots { (index part shard : ℕ) (p : OnePatch) → slice_get patches.now index ≡ Some p → part < length p.segments → shard < SEGMENT_SHARDS → (place_of (places_of_part p part) shard).slot < SLOTS_MAX }
    ensures each { HoldDrivesOf patches.now result }
    ensures no_other { (slot : ℕ) → is_in result slot ≡ true → IsSlotOf patches.now slot }
{
    let mut drives = [false; SLOTS];
    for index in 0..patches.len() {
        let heads = PatchHeads {
            patch: &patches.at(index),
            generation: 0,
        };
        let more = drives_of(&heads);
        join(&mut drives, &more);
    }
    drives
}
