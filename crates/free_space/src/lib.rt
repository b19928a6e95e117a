//! The map of an array's units, as its record and its tables say it.
//! A unit is free in it exactly where no segment uses it, and what is taken of it is free for a segment.
//! How many segments the free units can hold is told without a map too, and takes no memory.
#![tactic(auto)]

mod counting;
mod laws;
mod map;
mod marking;
mod members;
mod room;

pub use laws::{free_units, groups, taken_units};
pub use map::map_of;
pub use room::groups_left;
