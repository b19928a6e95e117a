// Of what one checkpoint takes of the drives.

/// The most data segments that a checkpoint makes.
pub const DATA_SEGMENTS: usize = session_spec::DATA_SEGMENTS;

/// The most segments of patches that a checkpoint makes.
pub const NEW_PATCHES: usize = session_spec::NEW_PATCHES;

/// So many groups of free units have to be left for a checkpoint.
pub const CHECKPOINT_GROUPS: u32 = session_spec::CHECKPOINT_GROUPS;

/// A checkpoint asks that the patches of the record have fewer segments: so many and those of its new patches a record can name.
pub const SEGMENTS_END: usize = session_spec::SEGMENTS_END;
