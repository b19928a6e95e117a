//! The words that the crates of the array share: names, sectors, devices, facts, requests, replies, every limit, and fields in bytes.
//! A name is lawful, a sector has 512 bytes, fields are read as they were written, and `specs/` says what requests, replies and the plain array are.
#![tactic(auto)]

mod device;
mod fact;
mod facts;
mod front;
mod ids;
mod limits;
mod memory;
mod name;
mod place;
mod read_back;
mod reading;
mod reply;
mod request;
mod sector;

pub use device::{Device, DriveId, NvId};
pub use fact::Fact;
pub use facts::{
    AddressFact, AnyFact, ElisionFact, MediumFact, ObjectFact, ObjectKind, SegmentFact, Target,
};
pub use front::Front;
pub use ids::{MediumId, ObjectId, SegmentId, Seq};
pub use limits::{
    BOOT_UNITS, INDEX_ENTRIES, INPUT_BYTES, LINE_BYTES, NAME_BYTES, NUMBER_DIGITS, NVRAM_BYTES,
    NVRAM_DEVICES, OBJECT_SECTORS, OBJECTS, REQUEST_SECTORS, SECTOR_BYTES, SEGMENT_SECTORS,
    SEGMENT_SHARDS, SLOTS_MAX, SLOTS_MIN, UNIT_BYTES, UNITS_MAX, UNITS_MIN,
};
pub use memory::NoMemory;
pub use name::{BadName, Name};
pub use place::{Location, Place, Places};
pub use read_back::{Lost, Pages, ReadBack};
pub use reading::{are_zeros, place_in, places_in, u8_in, u16_in, u32_in, u64_in};
pub use reply::{Refusal, Reply, Status};
pub use request::{Request, Table};
pub use sector::Sector;
