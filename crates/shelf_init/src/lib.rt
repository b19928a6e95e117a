//! A new, empty array is made on blank devices: its first record is stored, and nothing is written where a record stands.
//! At every moment the devices give no record, or the first one, which means the array of nothing.
#![tactic(auto)]

mod calls;
mod clearing;
mod closing;
mod laws;
mod making;
mod record;
mod storing;

pub use laws::blank_stay_blank;
pub use making::{InitFault, init};
