//! The boot record of an array, as the 65,536 bytes of a drive's unit, and the sector of its gate.
//! A lawful record has one spelling, what is read is spelled so, and other bytes are refused at the first field that fails.
#![tactic(auto)]

mod bad_record;
mod flags;
mod front;
mod gate;
mod header;
mod limits;
mod lists;
mod padding;
mod patch;
mod put;
mod reading;
mod record;
mod writing;

pub use bad_record::{BadRecord, ReadError};
pub use gate::{gate_sector, is_open_gate};
pub use limits::{
    DRIVE_FLAGS, FACTS_PER_SEGMENT, FORMAT, HEADER_BYTES, MEMBER_DRIVES_MIN, MEMBER_NVRAMS_MIN,
    NUMBER_LIMIT, NVRAM_FLAGS, PATCH_SEGMENTS, PATCHES, RECORD_BYTES, TAG_MAX,
};
pub use patch::{Patch, PatchSegment, Patches, Segments};
pub use reading::read_record;
pub use record::{BootRecord, Members, NextNumbers};
pub use writing::write_record;
