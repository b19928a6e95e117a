//! The tables that a boot record names, as they were loaded, and the ids that their elisions elide, put together.
//! An id is among these exactly where one of the facts elides it. What the facts of all patches are together, and how their numbers rise, are laws of these definitions.
#![tactic(auto)]

mod elided;
mod tables;

pub use elided::{elided_by, stored_ids};
pub use tables::LoadedTables;
