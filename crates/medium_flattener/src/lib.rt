//! Chains of mediums are shortened: the first sectors of a medium's lowest range get addresses of their own, and the range then begins behind them.
//! No device is called, but for the checkpoint that comes first where too many facts came in without a command. The array reads as before, and a stop forgets what was taken in.
#![tactic(auto)]

mod flattening;
mod front;
mod taking;

pub use flattening::{Flattened, flatten};
