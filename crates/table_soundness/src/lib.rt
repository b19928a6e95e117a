//! Whether the tables that a boot record names are sound, as they were loaded.
//! What isn't sound is named by the first table that fails, in the order in which the tables are judged, and of sound ones is given what is visible.
#![tactic(auto)]

mod addresses;
mod distinct;
mod elisions;
mod fault;
mod first;
mod ids;
mod judge;
mod last;
mod laws;
mod marking;
mod mediums;
mod named;
mod nesting;
mod numbers;
mod objects;
mod own;
mod owned;
mod places;
mod rising;
mod segments;
mod shown;
mod spans;
mod visible;

pub use fault::SoundFault;
pub use judge::check;
pub use laws::laws_of_soundness;
pub use visible::Visible;
