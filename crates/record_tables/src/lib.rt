//! The patches of the next boot record, once a checkpoint has planned new ones: their segments, their ids and their units.
//! The record stays lawful, names each patch of memory after the plan, and keeps its segments apart. No device is called.
#![tactic(auto)]

mod joined;
mod laws;
mod patches;
mod segments;
mod units;

pub use joined::{Pair, joined_patches, joined_patches_are_lawful, pair_of};
pub use laws::{
    added_are_named, next_patches_are_lawful, next_patches_are_named, next_segments_are_sound,
    none_is_taken, patches_have_facts,
};
pub use patches::{NextPatches, next_patches};
pub use segments::{segments_for, segments_of};
pub use units::take_units;
