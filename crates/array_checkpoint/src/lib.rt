//! A checkpoint brings what an open array has staged and unflushed to the drives, and clears its log.
//! All of it is planned, and all memory taken for it, before anything is written. The segments of staged sectors and of new patches stand on units that the tables leave free,
//! and the tables of the next record name them.
#![tactic(auto)]

mod limits;
mod making;
mod preparing;
mod room;
mod writing;

pub use limits::{CHECKPOINT_GROUPS, DATA_SEGMENTS, NEW_PATCHES, SEGMENTS_END};
pub use making::checkpoint;
pub use preparing::{Prepared, prepare};
pub use room::{Room, check, check_checkpoint, check_request, is_spent};
