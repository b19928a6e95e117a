//! Where sectors with a small hash stand: at most 4,096 entries, the most recently used first.
//! A location is answered only where the sector there was read back and has the same 512 bytes.
#![tactic(auto)]

mod fnv;
mod hint;
mod index;

pub use fnv::{Fnv, hash};
pub use hint::Hint;
pub use index::Index;
