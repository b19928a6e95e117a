//! What a session over devices does to the array, whatever fails and wherever it is stopped.
//! But for limits there is no code: each public function here promises, as its contract, a law of these definitions.
#![tactic(auto)]

mod causes;
mod chaining;
mod histories;
mod limits;
mod reaching;

pub use causes::{
    claims_have_causes, elided_stays, ends_have_causes, replies_are_lawful, takeovers_keep,
};
pub use chaining::{
    memory_may_be_wanted, nothing_is_lost_untouched, sessions_chain, sessions_follow,
};
pub use histories::histories_hold;
pub use limits::{
    ADDING_GROUPS, CHECKPOINT_GROUPS, CONTROLLER, DATA_SEGMENTS, ELIDED_MEDIUMS, ELIDED_SEGMENTS,
    FLATTEN_GROUPS, LIMITED_SEGMENTS, MERGE_GROUPS, NEW_PATCHES, SEGMENTS_END,
};
pub use reaching::points_are_reached;
