//! The boot register: the record in force, the drives on which it is, and the storing of the next one, with the tables that it had or with others.
//! At every moment of a store the devices stand for the arrays for which they stood, and after it for the array of the tables with the log after them.
#![tactic(auto)]

mod counting;
mod next;
mod slots;
mod state;
mod storing;
mod tables;

pub use next::StoreFault;
pub use state::Register;
pub use tables::Tables;
