//! Lines and bytes from a source, through a buffer of 64 KiB. What is read is what the source has next, and a failed call comes back as `Failed`.
#![tactic(auto)]

mod buffer;
mod input;
mod line;
mod search;

pub use buffer::{BUFFER_BYTES, zeros};
pub use input::{Input, Refill};
pub use line::{Line, LineEnd, read_line};
pub use search::place_of;
