//! The volumes and snapshots: their facts, and those that are visible by name, in order of creation.
//! The visible objects are what the facts say, whatever is flushed, merged or rewritten; an `Err` changes nothing.
#![tactic(auto)]

mod laws;
mod named;
mod table;

pub use laws::laws_of_objects;
pub use table::ObjectTable;
