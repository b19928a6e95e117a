//! A takeover: what the devices hold is found, settled and made an array in memory, by a controller that knew nothing of it.
//! At every moment the devices stand for the arrays for which they stood.
#![tactic(auto)]

mod faults;
mod finding;
mod log;
mod recovering;
mod replay;
mod tables;

pub use faults::OpenFault;
pub use finding::find_record;
pub use log::{LogFault, OpenedLog, open_log};
pub use recovering::recover;
pub use tables::{FoundArray, find_array};
