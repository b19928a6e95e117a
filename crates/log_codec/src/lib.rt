//! The head of a logged command, as the first sector of its slot in the NVRAM, and where the slots stand.
//! A lawful head has one spelling, and a sector that spells no lawful head is refused.
#![tactic(auto)]

mod fields;
mod head;
mod limits;
mod parts;
mod reading;
mod writing;

pub use head::{Head, is_command};
pub use limits::{LOG_SLOTS, SLOT_BYTES, SLOTS_START};
pub use reading::{BadHead, read_head};
pub use writing::write_head;
