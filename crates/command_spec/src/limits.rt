use crate::amounts::Amounts;
use address_table::UNFLUSHED_ADDRESSES;

/// The most sectors that are staged: 64 for each of the 64 slots of the log, and 840 for what works in the background.
pub const STAGED_SECTORS: usize = 4_936;

/// What there is room for where nothing is taken up: for the commands of a whole log, and of facts of mediums and addresses for 2,048 more,
/// and of staged sectors for 840 more, for what works in the background.
pub const LOG_ROOM: Amounts = Amounts {
    objects: 128,
    mediums: 2_304,
    addresses: UNFLUSHED_ADDRESSES,
    elisions: 64,
    staged: STAGED_SECTORS,
    names: 64,
    ranges: 64,
};

/// The most facts of mediums and addresses that steps in the background take in before a checkpoint.
pub const BACKGROUND_FACTS: u32 = 2_048;

/// The most mediums that one checkpoint elides.
pub const ELIDED_MEDIUMS: usize = 2_048;

/// The most segments that one checkpoint elides.
pub const ELIDED_SEGMENTS: usize = 1_024;
