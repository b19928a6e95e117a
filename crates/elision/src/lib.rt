//! The ids of each table that are elided, as ranges that never touch, and what a merge keeps of two patches by them.
//! Ids are only ever taken in, a refused call changes nothing, and a merge keeps of each key the newest fact, unless it is elided.
#![tactic(auto)]

mod elided;
mod laws;
mod merging;
mod ranges;
mod search;

pub use elided::Elided;
pub use laws::laws_of_ranges;
pub use merging::{merge_facts, newest_of_each};
pub use search::is_within;
