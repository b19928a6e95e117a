//! The ranges of mediums: which sectors of a medium read as those of another one.
//! Each call answers exactly what the facts say, whatever is flushed, merged or rewritten; an `Err` changes nothing.
#![tactic(auto)]

mod cut;
mod ids;
mod laws;
mod lowest;
mod marks;
mod reach;
mod table;

pub use laws::laws_of_ranges;
pub use lowest::unreached;
pub use table::{MediumTable, Range};
