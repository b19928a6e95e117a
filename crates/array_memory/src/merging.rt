// Two neighbouring patches of a table are made one.
ghost use Rattle.std.specs.Prelude.{◌≡◌, ◌+◌, ◌<◌};
ghost use Rattle.fact_codec.specs.declared.limits.TheConstants.{NUMBER_LIMIT};
ghost use Rattle.memory_spec.specs.Memory.{IsSound};
ghost use Rattle.table_plan.specs.Merging.{memory_with, IsMergedOf};
ghost use Rattle.array_memory.specs.Plan.{with_patch_rooms, HasNoLessPatchRoom};

use crate::memory::Memory;
use table_plan::Merged;

impl Memory {
    /// Puts the patch in the place of the two that it is made of, and gives ids to so many segments of it. Memory reads as before, and takes none.
    pub fn put_merged(&mut self, index: usize, merged: Merged, segments: usize)
        requires sound { IsSound self.old.memory }
        requires merged { IsMergedOf self.old.memory index merged }
        requires left { self.old.memory.next.patch_segment + segments < NUMBER_LIMIT }
        ensures memory { self.new ≡ with_patch_rooms (record self.old { memory = memory_with self.old.memory index merged segments }) self.new }
        ensures segment_room { self.new.segment_room ≡ self.old.segment_room }
        ensures name_room { self.new.name_room ≡ self.old.name_room }
        ensures patch_room { HasNoLessPatchRoom self.old self.new }
    {
        self.layered();
        match merged {
            Merged::Object(patch) => self.objects.put_merged(index, patch),
            Merged::Medium(patch) => self.mediums.facts.put_merged(index, patch),
            Merged::Address(patch) => self.addresses.facts.put_merged(index, patch),
            Merged::Segment(patch) => self.segments.put_merged(index, patch),
            Merged::Elision(patch) => self.elisions.put_merged(index, patch),
        }
        self.next.patch_segment += segments as u64;
    }
}
