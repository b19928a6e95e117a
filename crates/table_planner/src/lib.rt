//! What a checkpoint or a merge is to write: which mediums and segments go, which sectors are placed, the new patch of each table, and the one patch that two become.
//! Each is made of all that an array keeps in memory, and changes nothing there but the room that a plan reserves. No device is called.
#![tactic(auto)]

mod elisions;
mod laws;
mod merging;
mod planning;
mod unreached;
mod unused;

pub use laws::{laws_of_elidings, plans_are_lawful};
pub use merging::merged;
pub use planning::{placing, plan};
pub use unused::eliding;
