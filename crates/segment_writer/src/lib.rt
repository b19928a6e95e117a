//! New segments on the drives, of staged sectors and of the facts of patches: the stripes of all that are written together are synced, and then their headers.
//! What was written stands whichever two drives of a segment are missing, and no other unit is written.
#![tactic(auto)]

mod appending;
mod checkpoint;
mod checkpoint_appending;
mod checkpoint_drives;
mod checkpoint_heading;
mod content;
mod data;
mod drives;
mod facts;
mod heading;
mod laws;
mod limits;
mod patch;
mod room;
mod sectors;
mod whole;

pub use checkpoint::write_checkpoint;
pub use data::write_data;
pub use laws::{laws_of_data, laws_of_patches};
pub use patch::write_patch;
pub use room::WriteRoom;
