//! What an array keeps in memory beside its log: its tables, the sectors that no segment holds yet, and the next numbers.
//! It reads as a plain array, and a command that is done here makes of that array what the command says. No device is called.
#![tactic(auto)]

mod apply;
mod copying;
mod finishing;
mod flattening;
mod laws;
mod loading;
mod memory;
mod merging;
mod owed;
mod plan;
mod prepare;
mod removing;
mod resolve;
mod runs;
mod said;
mod segments;
mod visible;
mod witnesses;

pub use laws::laws_of_requests;
pub use loading::are_apart;
pub use memory::Memory;
pub use plan::{Counts, Eliding, Placing, Plan};
pub use visible::visible_segments;
pub use witnesses::Looked;
