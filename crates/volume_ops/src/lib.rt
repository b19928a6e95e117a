//! What an array answers from its memory: why it refuses a request, where the sectors stand that it reads, and what it lists.
//! Each answer is that of the plain array that memory reads as. No device is called: sectors in segments are the caller's to read.
#![tactic(auto)]

mod found;
mod judge;
mod listing;
mod reading;

pub use judge::refusal;
pub use listing::{ObjectEntry, entry, len};
pub use reading::{fetch, read};
