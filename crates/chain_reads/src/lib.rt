//! What a run of sectors of a medium reads as, through a chain of mediums of any length.
//! Each sector reads as the facts say, `None` only where nothing says it, by one search of addresses a medium on the way and one step a range. It takes no memory.
#![tactic(auto)]

mod chains;
mod cursor;
mod run;

pub use run::{resolve, translate};
