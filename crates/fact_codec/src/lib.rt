//! Facts as 64 bytes: the tuples that the tables of an array are made of.
//! A lawful fact has one spelling, and bytes that spell no lawful fact are refused.
#![tactic(auto)]

mod address;
mod codes;
mod head;
mod lawful;
mod limits;
mod order;
mod reading;
mod values;
mod writing;

pub use address::read_address;
pub use limits::{FACT_BYTES, NUMBER_LIMIT, PAGE_FACTS, VALUE_BYTES};
pub use order::may_follow;
pub use reading::{BadFact, read_fact};
pub use writing::write_fact;
