//! What an array's devices show to one that only looks: the record in force, its tables, the room that they leave and the log, told in words, as a picture
//! and as JSON, with the status with which an opening would end. They are read as an opening reads them, nothing is written or synced, and what would end
//! an opening is told as its cause. Of a shelf `ReadOnly` passes on reads alone, whatever is done with it. The texts are tested.
#![tactic(auto)]

mod cause;
mod counts;
mod drives;
mod finding;
mod found;
mod json;
mod looking;
mod numbers;
mod objects;
mod only;
mod page;
mod picture;
mod record;
mod sides;
mod slot_ranges;
mod slots;
mod tables;
mod texts;
mod units;
mod viewing;
mod waiting;
mod words;

pub use cause::Cause;
pub use counts::TableCounts;
pub use drives::DriveState;
pub use finding::Opening;
pub use found::Found;
pub use looking::{Looked, look};
pub use numbers::Numbers;
pub use objects::{ObjectSeen, SegmentSeen};
pub use only::ReadOnly;
pub use record::RecordSeen;
pub use slots::SlotsSeen;
pub use units::{Unit, Units};
pub use viewing::{Asked, There, Told, view};
pub use waiting::Waiting;
