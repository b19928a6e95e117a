// What a checkpoint makes of an array's memory, and that what it stores holds the array.
ghost use Rattle.memory_spec.specs.Checkpoint.{CheckpointReads, CheckpointIsSound, CheckpointHolds, CheckpointDataHolds};
ghost use Rattle.memory_spec.specs.Contents.{BaseIsRead, WrittenHolds, WrittenDataHolds};
ghost use Rattle.memory_spec.specs.Eliding.{ElidingReads};
ghost use Rattle.memory_spec.specs.Flushing.{ShrinkingReads, FlushShrinks};
ghost use Rattle.memory_spec.specs.Merging.{MergeShrinks, MergedPatchesAreSound, MergedPatchesHold, MergedPatchesShrink};
ghost use Rattle.memory_spec.specs.Placing.{PlacingReads};
ghost use Rattle.memory_spec.specs.Whole.{PatchesAreFlushed, PatchesAreAll, PatchesRead, RecordIsSound};

/// What memory reads of sectors that were placed stands on the drives.
pub fn what_was_written_stands()
    ensures base { BaseIsRead }
    ensures holds { WrittenHolds }
    ensures data_holds { WrittenDataHolds }
{}

/// Memory with nothing beside its patches is what a record of them says.
pub fn patches_are_memory()
    ensures flushed { PatchesAreFlushed }
    ensures all { PatchesAreAll }
    ensures read { PatchesRead }
    ensures sound { RecordIsSound }
{}

/// Memory that only loses facts, and says the same, stays sound and reads the same: so a flush and a merge change no reading.
/// The patches of merged tables say the same, are sound by the record that names them where they were, and hold the array once they stand.
pub fn flushes_keep_memory()
    ensures reads { ShrinkingReads }
    ensures flush { FlushShrinks }
    ensures merge { MergeShrinks }
    ensures merged_shrink { MergedPatchesShrink }
    ensures merged_sound { MergedPatchesAreSound }
    ensures merged_hold { MergedPatchesHold }
{}

/// Memory whose staged sectors are placed in new segments stays sound and reads the same.
pub fn placing_keeps_memory()
    ensures { PlacingReads }
{}

/// Memory in which what nothing reaches is elided stays sound and reads the same.
pub fn eliding_keeps_memory()
    ensures { ElidingReads }
{}

/// A checkpoint changes no reading, and once it is written its record holds the array.
pub fn checkpoints_hold()
    ensures reads { CheckpointReads }
    ensures sound { CheckpointIsSound }
    ensures holds { CheckpointHolds }
    ensures data_holds { CheckpointDataHolds }
{}
