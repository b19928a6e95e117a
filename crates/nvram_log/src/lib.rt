//! The log of commands on the two NVRAM devices: what was appended is there in every view that may be shown.
//! A device that fails is dropped, and the log goes on with the other one; where both fail it says so.
#![tactic(auto)]

mod append;
mod clear;
mod gates;
mod gather;
mod log;
mod logged;
mod members;
mod mending;
mod read;
mod reading;
mod record;
mod seen;
mod settle;
mod slots;
mod staging;
mod syncing;

pub use log::{BothLost, NvLog};
pub use logged::Logged;
pub use read::ReadFault;
pub use record::Record;
pub use syncing::sync_members;
