//! Jobs on the pyramids of an array: two neighbouring patches of a table are merged into one.
//! At every moment a session can go on with the one array, and after Ok it reads as before, with one patch less and the same log.
#![tactic(auto)]

mod checking;
mod merging;
mod preparing;
mod writing;

pub use merging::merge;
