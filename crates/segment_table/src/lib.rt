//! The segments of data: their facts, and those that are visible, by ascending id.
//! The visible segments are what the facts say, whatever is flushed, merged or rewritten; an `Err` changes nothing.
#![tactic(auto)]

mod laws;
mod search;
mod table;

pub use laws::laws_of_segments;
pub use table::SegmentTable;
