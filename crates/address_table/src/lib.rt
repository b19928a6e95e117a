//! Where the sectors of mediums stand: the facts of addresses.
//! Each call answers exactly what the facts say, whatever is flushed, merged or rewritten; an `Err` changes nothing.
#![tactic(auto)]

mod laws;
mod pointing;
mod table;

pub use laws::laws_of_addresses;
pub use table::{AddressTable, UNFLUSHED_ADDRESSES};
