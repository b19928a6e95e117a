//! Reads of an array's sectors: those that memory has are copied from there, and those in segments are read from the drives.
//! Sectors that stand one behind another in a segment are read in one run. What is read is what the plain array has that memory reads as.
#![tactic(auto)]

mod fault;
mod following;
mod room;
mod segments;
mod span;
mod targets;

pub use fault::ReadFault;
pub use room::ReadRoom;
pub use span::read_span;
