//! The tables of a boot record are read from the drives and judged.
//! What is given stands on the drives that aren't missing, is sound, and nothing was written for it.
#![tactic(auto)]

mod fault;
mod loading;
mod patches;
mod tables;

pub use fault::TablesFault;
pub use loading::{SoundTables, load_tables};
