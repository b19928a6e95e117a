//! The open array of a controller, and what is written of it: a logged request is appended and applied, and a record with other tables is stored.
//! At every moment a session can go on with the array before it or behind it, and after Ok the array has gone on as that behind it.
#![tactic(auto)]

mod array;
mod clearing;
mod commit;
mod going;
mod laws;
mod leaving;
mod merging;
mod performing;
mod switching;

pub use array::{Array, BACKGROUND_FACTS, BACKGROUND_STAGED, Background, NOTHING_BEHIND};
pub use going::{free_writes_go_on, taking_in_goes_on};
pub use laws::{free_writes, log_writes, written_tables};
pub use merging::switch_tables;
pub use performing::{PerformFault, perform};
pub use switching::switch;
