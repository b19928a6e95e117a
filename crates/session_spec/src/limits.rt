// Of what a checkpoint takes, and of what is asked where a command is added.

/// The most data segments that a checkpoint makes.
pub const DATA_SEGMENTS: usize = 6;

/// The most segments of patches that a checkpoint makes.
pub const NEW_PATCHES: usize = 5;

/// The most mediums that a checkpoint elides.
pub const ELIDED_MEDIUMS: usize = 2_048;

/// The most data segments that a checkpoint elides.
pub const ELIDED_SEGMENTS: usize = 1_024;

/// Where the patches of the record have so many segments no command is added: some are to be merged first.
pub const LIMITED_SEGMENTS: usize = 480;

/// A command is added only where there are free units for so many more segments, so that a checkpoint finds room.
pub const ADDING_GROUPS: u32 = 24;

/// A checkpoint that is asked for is made only where the patches of the record have fewer segments: so many and those of its new patches a record can name.
pub const SEGMENTS_END: usize = 596;

/// And only where there are free units for so many more segments.
pub const CHECKPOINT_GROUPS: u32 = 12;

/// A merge is made only where there are free units for so many more segments than the two patches have.
pub const MERGE_GROUPS: u32 = 12;

/// A flattening is made only where there are free units for so many more segments, so that a checkpoint that comes first finds room.
pub const FLATTEN_GROUPS: u32 = 16;

/// The one controller.
pub const CONTROLLER: u64 = 0;
