use crate::ids::{MediumId, ObjectId, SegmentId, Seq};
use crate::name::Name;
use crate::place::{Location, Places};
use crate::request::Table;

/// What an object is: a volume takes writes, a snapshot takes none.
#[derive(Clone, Copy, PartialEq, Eq)]
pub enum ObjectKind {
    Volume,
    Snapshot,
}

/// Where a sector of a medium stands.
#[derive(Clone, Copy, PartialEq, Eq)]
pub enum Target {
    Stored(Location),
    /// Nowhere: it reads as zeros.
    Zero,
}

/// An object is of that kind and size, and reads as that medium. The key is the object.
#[derive(Clone, Copy, PartialEq, Eq, Drop)]
pub struct ObjectFact {
    pub object: ObjectId,
    pub kind: ObjectKind,
    /// The size, from 1 to 1,048,576.
    pub sectors: u32,
    pub medium: MediumId,
    pub name: Name,
    pub seq: Seq,
}

/// Sectors of a medium from `start` up to `end` read as those of the target from `target_start` on.
/// Where the end is the start, no range begins there. The key is the medium and the start.
#[derive(Clone, Copy, PartialEq, Eq)]
pub struct MediumFact {
    pub medium: MediumId,
    pub start: u64,
    pub end: u64,
    pub target: MediumId,
    pub target_start: u64,
    pub seq: Seq,
}

/// A sector of a medium stands there. The key is the medium and the sector.
#[derive(Clone, Copy, PartialEq, Eq)]
pub struct AddressFact {
    pub medium: MediumId,
    /// Below 1,048,576.
    pub sector: u32,
    pub target: Target,
    pub seq: Seq,
}

/// A segment of data lies on those units. The key is the segment.
#[derive(Clone, Copy, PartialEq, Eq)]
pub struct SegmentFact {
    pub segment: SegmentId,
    pub places: Places,
    /// How many sectors were placed, from 1 to 840.
    pub placed: u16,
    pub seq: Seq,
}

/// All facts of a table with ids from the first to the last are elided. The key is the first id and the table.
#[derive(Clone, Copy, PartialEq, Eq)]
pub struct ElisionFact {
    pub first: u64,
    /// Any table but that of elisions.
    pub table: Table,
    pub last: u64,
    pub seq: Seq,
}

/// A fact of any table.
#[derive(Clone, Copy, PartialEq, Eq, Drop)]
pub enum AnyFact {
    Object(ObjectFact),
    Medium(MediumFact),
    Address(AddressFact),
    Segment(SegmentFact),
    Elision(ElisionFact),
}
