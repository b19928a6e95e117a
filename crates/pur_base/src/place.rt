use crate::ids::SegmentId;
use crate::limits::SEGMENT_SHARDS;

/// An allocation unit: the drive's slot, and the unit's number on the drive.
#[derive(Clone, Copy, PartialEq, Eq)]
pub struct Place {
    pub slot: u8,
    pub unit: u16,
}

/// The units of a segment, one a shard, by ascending slot: seven of data, then P and Q.
pub type Places = [Place; SEGMENT_SHARDS];

/// Where a sector stands: the segment, and the sector's index in it, below 840.
#[derive(Clone, Copy, PartialEq, Eq)]
pub struct Location {
    pub segment: SegmentId,
    pub index: u16,
}
