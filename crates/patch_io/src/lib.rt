//! Patches on the drives are read: the facts of one table, sorted, from the segments that hold them.
//! What is read is what stands there.
#![tactic(auto)]

mod decoding;
mod fault;
mod loading;
mod table;

pub use fault::PatchFault;
pub use loading::load_patch;
pub use table::TableFact;
