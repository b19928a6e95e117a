/// A volume or snapshot, numbered from 1 in order of creation.
#[derive(Clone, Copy, PartialEq, Eq)]
pub struct ObjectId(pub u64);

/// A medium, numbered from 1 in order of creation.
#[derive(Clone, Copy, PartialEq, Eq)]
pub struct MediumId(pub u64);

/// A segment, numbered from 1 in the order in which segments are taken.
#[derive(Clone, Copy, PartialEq, Eq)]
pub struct SegmentId(pub u64);

/// The sequence number of a fact.
#[derive(Clone, Copy, PartialEq, Eq)]
pub struct Seq(pub u64);
