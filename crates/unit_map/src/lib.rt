//! The units of a shelf's drives: which are free, and which drives are members.
//! It says how many segments there is room for, and takes nine units at a time of the members with the most free.
#![tactic(auto)]

mod bits;
mod choice;
mod drive;
mod free_units;
mod groups;
mod map;
mod marks;
mod taking;

pub use map::UnitMap;
