//! What a checkpoint will place, elide and write, and the patch that is to stand in the place of two: which staged sectors, where, which segments, and the facts that say so.
//! Nothing here changes an array's memory: each call makes a list of another. No device is called.
#![tactic(auto)]

mod eliding;
mod laws;
mod merged;
mod placing;
mod segments;
mod witnesses;

pub use eliding::{copied, elide_all, elision_of, medium_items, segment_items};
pub use laws::{a_plan_is_a_checkpoint, laws_of_elisions, merges_are_lawful};
pub use merged::{Merged, facts_of};
pub use placing::{flagged, flags, places, repointed_facts};
pub use segments::{new_segments, segments_for};
pub use witnesses::{
    Witness, new_witnesses, place_in, place_of, stands_in, unfound, with_found, witness_of,
};
