//! Tables of facts: sorted patches, and the facts that aren't flushed yet.
//! What a table says of a key is what all its facts together say, whatever is flushed, merged or rewritten.
#![tactic(auto)]

mod ends;
mod insert;
mod laws;
mod marks;
mod patch;
mod pointed;
mod prune;
mod pyramid;
mod range;
mod runs;
mod search;
mod walk;

pub use laws::{laws_of_elisions, laws_of_facts};
pub use patch::Patch;
pub use pyramid::Pyramid;
pub use search::key_of;
