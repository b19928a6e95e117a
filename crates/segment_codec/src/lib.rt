//! The header of a segment's unit as one sector, and where the sectors of a segment stand.
//! A header has one spelling, and a sector that is the spelling of no header is refused.
#![tactic(auto)]

mod fields;
mod header;
mod kind;
mod position;
mod reading;
mod writing;

pub use header::{Header, TAG_MAX};
pub use kind::SegmentKind;
pub use position::{
    DATA_SHARDS, Position, SHARD_SECTORS, STRIPE_SECTORS, STRIPES, WRITE_UNIT_BYTES,
};
pub use reading::{BadHeader, read_header};
pub use writing::write_header;
