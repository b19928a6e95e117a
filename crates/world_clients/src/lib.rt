//! Functions over a world that show how stop clauses are carried: from write to sync, over a loop, and to the output.
//! Each is proved over any world that meets the traits, and runs over one in memory.
#![tactic(auto)]

mod adapt;
mod blind;
mod members;
mod said;
mod turns;

pub use blind::Blind;
pub use members::write_members;
pub use said::{acknowledge, session};
pub use turns::write_in_turn;
